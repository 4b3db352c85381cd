// The C face: plain numbers and bytes. No function keeps state, allocates or prints.
#![tactic(auto)]

ghost use Rattle.std.specs.Prelude.{◌≡◌, length};
ghost use Rattle.judge.specs.Message.{count_of, judge_of};
ghost use Rattle.desk.specs.Placing.{place_of, place_table, read_of};
ghost use Rattle.explain.specs.Explain.{explain_of};
ghost use Rattle.rounding.specs.Say.{say_of};
ghost use Rattle.spoken.specs.Spoken.{spoken_of, words_of, buffer_after as wordsAfter};
ghost use Rattle.tables.specs.Widths.{widen_of, widened, narrow_of, narrowed};
ghost use Rattle.write.specs.Plain.{plain_of};
ghost use Rattle.write.specs.Written.{written_of, buffer_after};
ghost use Rattle.odm.specs.Face.{counted_nos, judged_nos, desk_nos, ticket_nos, placed_nos, row_nos, written_nos, rounded_nos, spoken_nos, resized_no, explained_nos};

use desk::{Desk, LoadNumber, Placed, RowNumber, Ticket};
use explain::Explained;
use judge::{Refusal, Row};
use reasons::Reason;

#[repr(C)]
#[derive(Clone, Copy)]
pub struct OdmCounted {
    pub reason: u32,
    pub count: u32,
}

impl From<Result<u32, Reason>> for OdmCounted {
    ghost from_gives = { λ counted numbers. numbers ≡ counted_nos counted };

    fn from(counted: Result<u32, Reason>) -> OdmCounted {
        match counted {
            Ok(count) => OdmCounted { reason: 0, count },
            Err(reason) => OdmCounted {
                reason: reason.into(),
                count: 0,
            },
        }
    }
}

#[repr(C)]
#[derive(Clone, Copy)]
pub struct OdmJudged {
    pub reason: u32,
    pub line: u32,
    pub rows: u32,
}

impl From<Result<u32, Refusal>> for OdmJudged {
    ghost from_gives = { λ judged numbers. numbers ≡ judged_nos judged };

    fn from(judged: Result<u32, Refusal>) -> OdmJudged {
        match judged {
            Ok(rows) => OdmJudged {
                reason: 0,
                line: 0,
                rows,
            },
            Err(refusal) => OdmJudged {
                reason: refusal.reason.into(),
                line: refusal.line,
                rows: 0,
            },
        }
    }
}

#[repr(C)]
#[derive(Clone, Copy)]
pub struct OdmPlaced {
    pub load: u32,
    pub count: u32,
    pub reason: u32,
    pub line: u32,
}

impl From<Placed> for OdmPlaced {
    ghost from_gives = { λ placed numbers. numbers ≡ placed_nos placed };

    fn from(placed: Placed) -> OdmPlaced {
        let next = placed.desk;
        let answer = OdmJudged::from(placed.answer);
        OdmPlaced {
            load: next.load.0,
            count: next.count,
            reason: answer.reason,
            line: answer.line,
        }
    }
}

#[repr(C)]
#[derive(Clone, Copy, Default)]
pub struct OdmRow {
    pub reason: u32,
    pub code: u32,
    pub group: u32,
    pub line: u32,
    pub start: u32,
    pub length: u32,
}

impl From<Result<Row, Reason>> for OdmRow {
    ghost from_gives = { λ heard numbers. numbers ≡ row_nos heard };

    fn from(heard: Result<Row, Reason>) -> OdmRow {
        match heard {
            Ok(row) => OdmRow {
                reason: 0,
                code: row.code,
                group: row.group,
                line: row.line,
                start: row.start,
                length: row.length,
            },
            Err(reason) => OdmRow {
                reason: reason.into(),
                ..OdmRow::default()
            },
        }
    }
}

#[repr(C)]
#[derive(Clone, Copy)]
pub struct OdmWritten {
    pub reason: u32,
    pub line: u32,
    pub length: u32,
}

impl From<Result<u32, Refusal>> for OdmWritten {
    ghost from_gives = { λ written numbers. numbers ≡ written_nos written };

    fn from(written: Result<u32, Refusal>) -> OdmWritten {
        match written {
            Ok(length) => OdmWritten {
                reason: 0,
                line: 0,
                length,
            },
            Err(refusal) => OdmWritten {
                reason: refusal.reason.into(),
                line: refusal.line,
                length: 0,
            },
        }
    }
}

#[repr(C)]
#[derive(Clone, Copy)]
pub struct OdmRounded {
    pub reason: u32,
    pub units: i64,
}

impl From<Result<i64, Reason>> for OdmRounded {
    ghost from_gives = { λ rounded numbers. numbers ≡ rounded_nos rounded };

    fn from(rounded: Result<i64, Reason>) -> OdmRounded {
        match rounded {
            Ok(units) => OdmRounded { reason: 0, units },
            Err(reason) => OdmRounded {
                reason: reason.into(),
                units: 0,
            },
        }
    }
}

#[repr(C)]
#[derive(Clone, Copy)]
pub struct OdmSpoken {
    pub reason: u32,
    pub length: u32,
}

impl From<Result<u32, Reason>> for OdmSpoken {
    ghost from_gives = { λ spoken numbers. numbers ≡ spoken_nos spoken };

    fn from(spoken: Result<u32, Reason>) -> OdmSpoken {
        match spoken {
            Ok(length) => OdmSpoken { reason: 0, length },
            Err(reason) => OdmSpoken {
                reason: reason.into(),
                length: 0,
            },
        }
    }
}

#[repr(C)]
#[derive(Clone, Copy)]
pub struct OdmExplained {
    pub reason: u32,
    pub rows: u32,
    pub line: u32,
    pub start: u32,
    pub length: u32,
    pub count: u32,
    pub codes: [u32; 4],
}

impl From<Explained> for OdmExplained {
    ghost from_gives = { λ explained numbers. numbers ≡ explained_nos explained };

    fn from(explained: Explained) -> OdmExplained {
        let answer = OdmJudged::from(explained.judged);
        let listed = explained.listed;
        let codes = listed.codes;
        OdmExplained {
            reason: answer.reason,
            rows: answer.rows,
            line: answer.line,
            start: explained.start,
            length: explained.length,
            count: listed.count,
            codes,
        }
    }
}

// The number of an answer about a table made at the other width; no From, since neither of its types would be of this crate.
fn resized_number(resized: Result<(), Reason>) -> u32
    ensures { result ≡ resized_no resized }
{
    match resized {
        Ok(()) => 0,
        Err(reason) => reason.into(),
    }
}

fn desk_of(load: u32, count: u32) -> Desk
    ensures { result ≡ desk_nos load count }
{
    Desk {
        load: LoadNumber(load),
        count,
    }
}

// How many messages a feed has.
#[unsafe(no_mangle)]
pub extern "C" fn odm_headings(feed: &[u8]) -> OdmCounted
    ensures { result ≡ counted_nos (count_of feed.now) }
{
    judge::count_headings(feed).into()
}

// A message of a feed, judged.
#[unsafe(no_mangle)]
pub extern "C" fn odm_judge(feed: &[u8], message: usize) -> OdmJudged
    ensures { result ≡ judged_nos (judge_of feed.now message) }
{
    judge::judge(feed, message).into()
}

// A message judged and, where it is right and the table has room, its rows put into the table.
#[unsafe(no_mangle)]
pub extern "C" fn odm_place(
    load: u32,
    count: u32,
    feed: &[u8],
    message: usize,
    table: &mut [u8],
) -> OdmPlaced
    ensures answer { result ≡ placed_nos (place_of (desk_nos load count) feed.now message (length table.old)) }
    ensures table { table.new ≡ place_table (desk_nos load count) feed.now message table.old }
{
    desk_of(load, count).place(feed, message, table).into()
}

// What a ticket hears.
#[unsafe(no_mangle)]
pub extern "C" fn odm_read(
    load: u32,
    count: u32,
    ticket_load: u32,
    ticket_row: u32,
    feed: &[u8],
    table: &[u8],
) -> OdmRow
    ensures { result ≡ row_nos (read_of (desk_nos load count) (ticket_nos ticket_load ticket_row) feed.now table.now) }
{
    let ticket = Ticket {
        load: LoadNumber(ticket_load),
        row: RowNumber(ticket_row),
    };
    desk_of(load, count).read(ticket, feed, table).into()
}

// A message judged and, where it is right and the buffer has room, written there in plain form.
#[unsafe(no_mangle)]
pub extern "C" fn odm_write(feed: &[u8], message: usize, buffer: &mut [u8]) -> OdmWritten
    ensures answer { result ≡ written_nos (written_of feed.now message (length buffer.old)) }
    ensures buffer { buffer.new ≡ buffer_after (written_of feed.now message (length buffer.old)) (plain_of feed.now message) buffer.old }
{
    write::write(feed, message, buffer).into()
}

// A number's text as whole units of a decimal place, rounded.
#[unsafe(no_mangle)]
pub extern "C" fn odm_round(text: &[u8], decimals: u32) -> OdmRounded
    ensures { result ≡ rounded_nos (say_of text.now decimals) }
{
    rounding::say_number(text, decimals).into()
}

// How the value of a code is said, in words.
#[unsafe(no_mangle)]
pub extern "C" fn odm_in_words(code: u32, value: &[u8], buffer: &mut [u8]) -> OdmSpoken
    ensures answer { result ≡ spoken_nos (spoken_of code value.now (length buffer.old)) }
    ensures buffer { buffer.new ≡ wordsAfter (spoken_of code value.now (length buffer.old)) (words_of code value.now) buffer.old }
{
    spoken::in_words(code, value, buffer).into()
}

// A recorded table of two bytes an entry made one of four.
#[unsafe(no_mangle)]
pub extern "C" fn odm_widen(narrow: &[u8], wide: &mut [u8]) -> u32
    ensures answer { result ≡ resized_no (widen_of narrow.now wide.old) }
    ensures table { wide.new ≡ widened narrow.now wide.old }
{
    resized_number(tables::widen(narrow, wide))
}

// A table made a recorded one of two bytes an entry, if every entry fits.
#[unsafe(no_mangle)]
pub extern "C" fn odm_narrow(wide: &[u8], narrow: &mut [u8]) -> u32
    ensures answer { result ≡ resized_no (narrow_of wide.now narrow.old) }
    ensures table { narrow.new ≡ narrowed wide.now narrow.old }
{
    resized_number(tables::narrow(wide, narrow))
}

// Why a message is refused.
#[unsafe(no_mangle)]
pub extern "C" fn odm_explain(feed: &[u8], message: usize) -> OdmExplained
    ensures { result ≡ explained_nos (explain_of feed.now message) }
{
    explain::explain(feed, message).into()
}
