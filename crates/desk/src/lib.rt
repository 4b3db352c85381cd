// The desk: places a message in a lent table of bytes, and speaks a row only to a ticket of the present load.
#![tactic(auto)]

ghost use Rattle.std.specs.Prelude.{◌≡◌, ◌<◌, length};
ghost use Rattle.desk.specs.Placing.{next_desk, desk_after, place_of, place_table, read_of, part_heard};

use judge::{Refusal, Row};
use reasons::Reason;

// A load number and a row number are never taken for each other.
#[derive(Clone, Copy, Debug, PartialEq, Eq)]
pub struct LoadNumber(pub u32);

#[derive(Clone, Copy, Debug, PartialEq, Eq)]
pub struct RowNumber(pub u32);

// A ticket: the load number at issue and the row number, from 0.
#[derive(Clone, Copy, Debug, PartialEq, Eq)]
pub struct Ticket {
    pub load: LoadNumber,
    pub row: RowNumber,
}

// A desk goes in by value and comes back.
#[derive(Clone, Copy, Debug, PartialEq, Eq)]
pub struct Desk {
    pub load: LoadNumber,
    pub count: u32,
}

// The next desk, on acceptance and refusal alike, with the answer.
#[derive(Clone, Copy, Debug, PartialEq, Eq)]
pub struct Placed {
    pub desk: Desk,
    pub answer: Result<u32, Refusal>,
}

impl Desk {
    // Load numbers go up to this one.
    pub const TOP_LOAD: u32 = 4294967295;
    // A feed has at most so many bytes.
    pub const FEED_LIMIT: usize = judge::FEED_LIMIT;

    // Load number 0, no rows.
    pub fn fresh() -> Self
        ensures { (result.load.0 ≡ 0) × (result.count ≡ 0) }
    {
        Desk {
            load: LoadNumber(0),
            count: 0,
        }
    }

    // The next load number, holding so many rows.
    fn next(self, count: u32) -> Desk
        requires { self.load.0 < 4294967295 }
        ensures { result ≡ next_desk self count }
    {
        Desk {
            load: LoadNumber(self.load.0 + 1),
            count,
        }
    }

    // The desk after placing with this answer.
    #[tactic(auto, unfolding(crate::specs::Placing::desk_after))]
    fn after(self, answer: Result<u32, Refusal>) -> Desk
        requires { self.load.0 < 4294967295 }
        ensures { result ≡ desk_after self answer }
    {
        self.next(answer.unwrap_or(0))
    }

    // Judges a message and, where it is right and the table has room, fills the table; the next desk comes back.
    pub fn place(self, feed: &[u8], message: usize, table: &mut [u8]) -> Placed
        ensures answer { result ≡ place_of self feed.now message (length table.old) }
        ensures table { table.new ≡ place_table self feed.now message table.old }
    {
        if self.load.0 == Desk::TOP_LOAD {
            return Placed {
                desk: self,
                answer: Err(Reason::Spent.into()),
            };
        }
        let answer = rows::put_message(feed, message, table);
        Placed {
            desk: self.after(answer),
            answer,
        }
    }

    // What a ticket hears.
    #[tactic(auto, unfolding(crate::specs::Placing::read_of))]
    pub fn read(self, ticket: Ticket, feed: &[u8], table: &[u8]) -> Result<Row, Reason>
        ensures { result ≡ read_of self ticket feed.now table.now }
    {
        if ticket.load != self.load {
            return Err(Reason::Gone);
        }
        let n = ticket.row.0;
        if self.count <= n {
            return Err(Reason::NoRow);
        }
        tables::row_heard(n, feed, table)
    }

    // The ticket's part of the feed, empty on a refusal.
    pub fn value<'a>(self, ticket: Ticket, feed: &'a [u8], table: &[u8]) -> &'a [u8]
        ensures { result.now ≡ part_heard (read_of self ticket feed.now table.now) feed.now }
    {
        match self.read(ticket, feed, table) {
            Err(_) => &feed[..0],
            Ok(row) => {
                let start = row.start as usize;
                let end = start + row.length as usize;
                &feed[start..end]
            }
        }
    }
}
