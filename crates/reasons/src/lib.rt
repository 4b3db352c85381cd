// Why something is refused: one list for the judge, the desk, the table and the tools.
#![tactic(auto)]

ghost use Rattle.std.specs.Prelude.{◌≡◌};
ghost use Rattle.reasons.specs.Reasons.{reason_no};

use std::fmt;

// In the order of the documents' numbers: to Astray document 01's, from TooBig on document 02's.
#[derive(Clone, Copy, Debug, PartialEq, Eq)]
pub enum Reason {
    FeedLong,
    NoMessage,
    Long,
    Byte,
    Form,
    Keyword,
    Order,
    Value,
    Unit,
    TimeOrder,
    Short,
    NoRoom,
    Spent,
    Gone,
    NoRow,
    Astray,
    TooBig,
    Places,
    Wide,
}

// The documents' number of a reason.
impl From<Reason> for u32 {
    ghost from_gives = { λ reason number. number ≡ reason_no reason };

    fn from(reason: Reason) -> u32 {
        match reason {
            Reason::FeedLong => 1,
            Reason::NoMessage => 2,
            Reason::Long => 3,
            Reason::Byte => 4,
            Reason::Form => 5,
            Reason::Keyword => 6,
            Reason::Order => 7,
            Reason::Value => 8,
            Reason::Unit => 9,
            Reason::TimeOrder => 10,
            Reason::Short => 11,
            Reason::NoRoom => 12,
            Reason::Spent => 13,
            Reason::Gone => 14,
            Reason::NoRow => 15,
            Reason::Astray => 16,
            Reason::TooBig => 17,
            Reason::Places => 18,
            Reason::Wide => 19,
        }
    }
}

// The documents' name of a reason.
impl fmt::Display for Reason {
    fn fmt<W: fmt::Write>(&self, f: &mut fmt::Formatter<W>) -> fmt::Result {
        f.write_str(match self {
            Reason::FeedLong => "FEED_LONG",
            Reason::NoMessage => "NO_MESSAGE",
            Reason::Long => "LONG",
            Reason::Byte => "BYTE",
            Reason::Form => "FORM",
            Reason::Keyword => "KEYWORD",
            Reason::Order => "ORDER",
            Reason::Value => "VALUE",
            Reason::Unit => "UNIT",
            Reason::TimeOrder => "TIME_ORDER",
            Reason::Short => "SHORT",
            Reason::NoRoom => "NO_ROOM",
            Reason::Spent => "SPENT",
            Reason::Gone => "GONE",
            Reason::NoRow => "NO_ROW",
            Reason::Astray => "ASTRAY",
            Reason::TooBig => "TOO_BIG",
            Reason::Places => "PLACES",
            Reason::Wide => "WIDE",
        })
    }
}
