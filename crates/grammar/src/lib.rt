// What a message type assigns, the kinds of values, their units, and what may follow what.
#![tactic(auto)]

ghost use Rattle.std.specs.Prelude.{◌≡◌};
ghost use Rattle.grammar.specs.Keywords.{assigns, keyword_of, kind_of, is_unit};
ghost use Rattle.grammar.specs.Order.{only, one_of, opm_next, oem_next, next_of, allows};

use lines::Form;
use words::is_word;

// What an assigned value is: the heading's version, or one of four.
#[derive(Clone, Copy, Debug, PartialEq, Eq)]
pub enum Kind {
    Version,
    Text,
    Integer,
    Number,
    Epoch,
}

// What may follow: the codes from `low` to `high`, a code beside them, and the message's end.
#[derive(Clone, Copy, Debug, PartialEq, Eq)]
pub struct Next {
    pub low: u16,
    pub high: u16,
    pub also: Option<u16>,
    pub end: bool,
}

// Whether a message type assigns a code.
#[tactic(auto, unfolding(crate::specs::Rows::pick))]
fn assigns_code(form: Form, code: u16) -> bool
    ensures { result ≡ assigns form code }
{
    match form {
        Form::Opm => matches!(code, 1..=35),
        Form::Oem => matches!(code, 2..=8 | 36 | 38..=43),
    }
}

// The code of an assignment's keyword, where the message type has it.
#[tactic(auto, unfolding(crate::specs::Keywords::keyword_of))]
pub fn keyword_of(form: Form, text: &[u8]) -> Option<u16>
    ensures { result ≡ keyword_of form text.now }
{
    keywords::code_of(text).filter(|&code| assigns_code(form, code))
}

// What kind of value a code has; META lines, comments and what is no code assign nothing.
#[tactic(auto, unfolding(crate::specs::Rows::pick))]
pub fn kind_of(code: u16) -> Option<Kind>
    ensures { result ≡ kind_of code }
{
    match code {
        1 | 36 => Some(Kind::Version),
        3..=8 | 32 | 42 => Some(Kind::Text),
        43 => Some(Kind::Integer),
        2 | 9 | 29 | 38..=41 => Some(Kind::Epoch),
        10..=35 => Some(Kind::Number),
        _ => None,
    }
}

// What stands after a number is right: nothing, or the unit of its code.
#[tactic(auto, unfolding(crate::specs::Rows::pick, crate::specs::Keywords::is_unit, words::specs::Words::bytes, words::specs::Words::is_word))]
pub fn unit_right(code: u16, text: &[u8]) -> bool
    ensures { result ≡ is_unit code text.now }
{
    if text.is_empty() {
        return true;
    }
    match code {
        10..=12 | 16 => is_word(text, b"[KM]"),
        13..=15 | 33..=35 => is_word(text, b"[KM/S]"),
        18..=22 => is_word(text, b"[DEG]"),
        23 => is_word(text, b"[KM**3/S**2]"),
        24 | 31 => is_word(text, b"[KG]"),
        25 | 27 => is_word(text, b"[M**2]"),
        30 => is_word(text, b"[S]"),
        _ => false,
    }
}

fn only_code(code: u16) -> Next
    ensures { result ≡ only code }
{
    one_of(code, code)
}

fn one_of(low: u16, high: u16) -> Next
    ensures { result ≡ one_of low high }
{
    Next {
        low,
        high,
        also: None,
        end: false,
    }
}

#[tactic(auto, unfolding(crate::specs::Rows::pick))]
fn opm_next(last: u16) -> Next
    ensures { result ≡ opm_next last }
{
    match last {
        15 => Next {
            also: Some(24),
            ..only_code(16)
        },
        20 => one_of(21, 22),
        21 => only_code(23),
        28 | 35 => Next {
            end: true,
            ..only_code(29)
        },
        0..=34 => only_code(last + 1),
        _ => only_code(0),
    }
}

#[tactic(auto, unfolding(crate::specs::Rows::pick))]
fn oem_next(last: u16) -> Next
    ensures { result ≡ oem_next last }
{
    match last {
        0 => only_code(36),
        36 => only_code(2),
        2 => only_code(3),
        3 => only_code(37),
        37 => only_code(4),
        4..=7 => only_code(last + 1),
        8 => only_code(38),
        38..=40 => one_of(last + 1, 41),
        41 => Next {
            also: Some(44),
            ..only_code(42)
        },
        42 => only_code(43),
        43 => only_code(44),
        44 => only_code(9),
        9 => Next {
            also: Some(37),
            end: true,
            ..only_code(9)
        },
        45 => Next {
            end: true,
            ..only_code(37)
        },
        _ => only_code(0),
    }
}

// What may follow a line of this code; 0 stands before the first line.
#[tactic(auto, unfolding(crate::specs::Order::next_of))]
pub fn next_of(form: Form, last: u16) -> Next
    ensures { result ≡ next_of form last }
{
    match form {
        Form::Opm => opm_next(last),
        Form::Oem => oem_next(last),
    }
}

// A line of this code may stand there.
#[tactic(auto, unfolding(crate::specs::Order::allows))]
pub fn allows_code(next: Next, code: u16) -> bool
    ensures { result ≡ allows next code }
{
    code >= 1 && (next.also == Some(code) || (next.low..=next.high).contains(&code))
}
