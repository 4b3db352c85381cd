// Why a message is refused: where the offending bytes stand, and what could have stood there.
#![tactic(auto)]

ghost use Rattle.std.specs.Prelude.{◌≡◌, ◌≤◌, length, true, false, ◌&&◌};
ghost use Rattle.grammar.specs.Order.{allows};
ghost use Rattle.judge.specs.Message.{feed_limit};
ghost use Rattle.explain.specs.Codes.{can_begin, code_more, no_codes, codes_of, codes_for};
ghost use Rattle.explain.specs.Explain.{plainly, blamed, ended, told, explain_of};

use grammar::Next;
use judge::{Refusal, Stop};
use lines::Form;
use reasons::Reason;
use step::State;

// At most four codes, in the array's first places; the others are 0.
#[derive(Clone, Copy, Debug, PartialEq, Eq)]
pub struct Codes {
    pub count: u32,
    pub codes: [u32; 4],
}

// A judgement; the place and length of the offending bytes, and the codes that could have stood there, all 0 where there are none, as C has them.
#[derive(Clone, Copy, Debug, PartialEq, Eq)]
pub struct Explained {
    pub judged: Result<u32, Refusal>,
    pub start: u32,
    pub length: u32,
    pub listed: Codes,
}

// A line of this code can begin in a message of this type; no comment and no heading.
#[tactic(auto, unfolding(crate::specs::Codes::can_begin, grammar::specs::Rows::pick))]
fn can_begin(form: Form, code: u16) -> bool
    ensures { result ≡ can_begin form code }
{
    match form {
        Form::Opm => matches!(code, 2..=35),
        Form::Oem => matches!(code, 2..=9 | 37..=44),
    }
}

// No codes.
fn no_codes() -> Codes
    ensures { result ≡ no_codes }
{
    Codes {
        count: 0,
        codes: [0; 4],
    }
}

// One code more, while there is room.
#[tactic(auto, unfolding(crate::specs::Codes::code_more))]
fn code_more(x: Codes, code: u16) -> Codes
    ensures { result ≡ code_more x code }
{
    let mut codes = x.codes;
    if x.count < 4 {
        codes[x.count as usize] = code as u32;
        return Codes {
            count: x.count + 1,
            codes,
        };
    }
    x
}

// The codes that could stand here, in their order.
fn codes_of(state: State) -> Codes
    ensures { result ≡ codes_of state }
{
    let next = grammar::next_of(state.form, state.last);
    let mut codes = no_codes();
    for code in 1..46 {
        if can_begin(state.form, code) && grammar::allows_code(next, code) {
            codes = code_more(codes, code);
        }
    }
    codes
}

// The codes beside a reason of a line: for ORDER alone.
#[tactic(auto, unfolding(crate::specs::Codes::codes_for))]
fn codes_for(state: State, reason: Reason) -> Codes
    ensures { result ≡ codes_for state reason }
{
    match reason {
        Reason::Order => codes_of(state),
        _ => no_codes(),
    }
}

// A judgement with nothing to explain.
fn plain_answer(judged: Result<u32, Refusal>) -> Explained
    ensures { result ≡ plainly judged }
{
    Explained {
        judged,
        start: 0,
        length: 0,
        listed: no_codes(),
    }
}

// A line that offends, whose text starts where the walk came to its end.
fn blame(stop: Stop, text: &[u8], reason: Reason) -> Explained
    requires { (stop.at ≤ feed_limit) × (length text.now ≤ feed_limit) }
    ensures { result ≡ blamed stop.state stop.line (record { start = stop.at; text = text.now }) reason }
{
    let line = stop.line;
    let p = parts::offending_part(stop.state, text, reason);
    Explained {
        judged: Err(Refusal { reason, line }),
        start: (stop.at + p.from) as u32,
        length: (p.to - p.from) as u32,
        listed: codes_for(stop.state, reason),
    }
}

// At the end of a message: the rows, or SHORT with nothing there.
#[tactic(auto, unfolding(crate::specs::Explain::ended))]
fn explain_end(stop: Stop) -> Explained
    requires { stop.at ≤ feed_limit }
    ensures { result ≡ ended stop.state stop.at stop.line stop.rows }
{
    let line = stop.line;
    if grammar::next_of(stop.state.form, stop.state.last).end {
        return plain_answer(Ok(stop.rows));
    }
    Explained {
        judged: Err(Refusal {
            reason: Reason::Short,
            line,
        }),
        start: stop.at as u32,
        length: 0,
        listed: codes_of(stop.state),
    }
}

// Where the walk along a message came to its end, explained.
#[tactic(auto, unfolding(crate::specs::Explain::told))]
fn tell(feed: &[u8], stop: Stop) -> Explained
    requires { (length feed.now ≤ feed_limit) × (stop.at ≤ length feed.now) }
    ensures { result ≡ told feed.now stop }
{
    match stop.offence {
        None => explain_end(stop),
        Some(reason) => {
            let ends = lines::line_at(feed, stop.at);
            blame(stop, &feed[stop.at..ends.end], reason)
        }
    }
}

// A message of a feed, judged and, where it is refused, explained: the walk is the judge's.
#[tactic(auto, using(crate::proofs::Walk::explain_unwalked, crate::proofs::Walk::explain_told, crate::proofs::Walk::walk_fits))]
pub fn explain(feed: &[u8], message: usize) -> Explained
    ensures { result ≡ explain_of feed.now message }
{
    match judge::walk(feed, message) {
        Err(reason) => plain_answer(Err(reason.into())),
        Ok(stop) => tell(feed, stop),
    }
}
