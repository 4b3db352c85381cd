// The bytes that offend in a line, by the reason.
#![tactic(auto)]

ghost use Rattle.std.specs.Prelude.{◌≡◌};
ghost use Rattle.parts.specs.Parts.{past_long, first_odd, sides_in, keyword_part, value_in, data_part, value_part, unit_part, offending};

use epochs::epoch_of;
use grammar::Kind;
use lines::{Form, Sides, Span};
use reasons::Reason;
use step::{DataLine, Part, State};
use words::byte_at;

// The text past 254 bytes.
#[tactic(auto, using(crate::proofs::Laws::long_from))]
fn past_long(text: &[u8]) -> Span
    ensures { result ≡ past_long text.now }
{
    let to = text.len();
    Span {
        from: to.min(254),
        to,
    }
}

// The first byte that is no plain text.
#[tactic(auto, using(crate::proofs::Laws::odd_within))]
fn first_odd(text: &[u8]) -> Span
    ensures { result ≡ first_odd text.now }
{
    let from = lines::odd_at(text);
    let to = text.len().min(from + 1);
    Span { from, to }
}

// An assignment's sides, both empty where the line is none.
#[tactic(auto, unfolding(crate::specs::Parts::sides_in))]
fn sides_in(text: &[u8]) -> Sides
    ensures { result ≡ sides_in text.now }
{
    lines::assignment_of(text).unwrap_or(Sides {
        keyword: Span { from: 0, to: 0 },
        value: Span { from: 0, to: 0 },
    })
}

// The keyword, or the place of the `=` where it is empty.
fn keyword_part(text: &[u8]) -> Span
    ensures { result ≡ keyword_part text.now }
{
    let keyword = sides_in(text).keyword;
    if keyword.to == 0 {
        let n = byte_at(text, b'=');
        return Span { from: n, to: n };
    }
    keyword
}

// The value in its field: a number ends at the first blank.
#[tactic(auto, unfolding(crate::specs::Parts::value_in))]
fn value_in(kind: Option<Kind>, p: &Part) -> Span
    ensures { result ≡ value_in kind p.now.span p.now.text.now }
{
    match kind {
        Some(Kind::Number) => p.split().0.span,
        _ => p.span,
    }
}

// The one field of a data line: the epoch, or the first of the others that is no number.
#[tactic(auto, using(step::proofs::Laws::fields_inside), unfolding(crate::specs::Parts::data_part))]
fn data_part(state: State, text: &[u8]) -> Span
    ensures { result ≡ data_part state text.now }
{
    let fields = lines::fields_of(text);
    let line = DataLine { text, fields };
    let epoch = line.epoch();
    match epoch_of(epoch.bytes(), state.utc) {
        None => epoch.span,
        Some(_) => line.wrong().unwrap_or(epoch.span),
    }
}

// The value, of an assignment or a data line.
#[tactic(auto, using(step::proofs::Laws::sides_inside), unfolding(crate::specs::Parts::value_part, crate::specs::Parts::kind_in))]
fn value_part(state: State, text: &[u8]) -> Span
    ensures { result ≡ value_part state text.now }
{
    let Some(x) = lines::assignment_of(text) else {
        return data_part(state, text);
    };
    let keyword = Part {
        text,
        span: x.keyword,
    };
    let value = Part {
        text,
        span: x.value,
    };
    let kind = grammar::keyword_of(state.form, keyword.bytes()).and_then(grammar::kind_of);
    value_in(kind, &value)
}

// What follows a number, trimmed.
#[tactic(auto, using(crate::proofs::Laws::sides_within))]
fn unit_part(text: &[u8]) -> Span
    ensures { result ≡ unit_part text.now }
{
    let value = Part {
        text,
        span: sides_in(text).value,
    };
    value.split().1.trim().span
}

// The bytes that offend in a line, by the reason.
#[tactic(auto, unfolding(crate::specs::Parts::offending, grammar::specs::Rows::pick))]
pub fn offending_part(state: State, text: &[u8], reason: Reason) -> Span
    ensures { result ≡ offending state text.now reason }
{
    match reason {
        Reason::Long => past_long(text),
        Reason::Byte => first_odd(text),
        Reason::Keyword => keyword_part(text),
        Reason::Value | Reason::TimeOrder => value_part(state, text),
        Reason::Unit => unit_part(text),
        _ => lines::trim(text),
    }
}
