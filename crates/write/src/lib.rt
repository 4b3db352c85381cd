// A message written out in one plain form, into a lent buffer.
#![tactic(auto)]

ghost use Rattle.std.specs.Prelude.{◌≡◌, ◌<◌, length};
ghost use Rattle.write.specs.Plain.{plain_of};
ghost use Rattle.write.specs.Written.{fitted, written_of, buffer_after};
ghost use Rattle.write.specs.Inner.{Held, held, values_of, ValuesHeld, text_at, name_of, Named, leads_of, break_of, line_of, plain_from, Writable};

use ink::{Ink, Pen, Ruler};
use judge::{Found, Refusal};
use lines::Span;
use reasons::Reason;
use step::{State, Step};

// An LF before each line but the first.
fn break_of(first: bool) -> &'static [u8]
    ensures { result.now ≡ break_of first }
{
    if first { b"" } else { b"\n" }
}

// A line that has rows: it starts at `at` of the feed.
#[derive(Clone, Copy, Drop)]
struct Line<'a> {
    feed: &'a [u8],
    at: usize,
    step: Step,
    ghost at_in_bounds: { at < length feed.now },
    ghost values_held: { ValuesHeld feed.now at step },
    ghost named: { step.count ≡ 1 → Named feed.now at step.code },
}

impl Line<'_> {
    // A row's value.
    fn value(&self, span: Span) -> &[u8]
        requires { Held self.now.feed.now self.now.at span }
        ensures { result.now ≡ held self.now.feed.now self.now.at span }
    {
        &self.feed[self.at + span.from..self.at + span.to]
    }

    // An assignment's keyword, as the line has it.
    fn keyword(&self) -> &[u8]
        ensures { result.now ≡ name_of (text_at self.now.feed.now self.now.at) }
    {
        let ends = lines::line_at(self.feed, self.at);
        let text = &self.feed[self.at..ends.end];
        let equals = words::byte_at(text, b'=');
        let name = lines::trim(&text[..equals]);
        &text[name.from..name.to]
    }

    // What stands before its values: a data line has seven, and nothing before them.
    #[tactic(auto, using(crate::proofs::Leads::leads_none, crate::proofs::Leads::leads_start, crate::proofs::Leads::leads_stop, crate::proofs::Leads::leads_empty, crate::proofs::Leads::leads_blank, crate::proofs::Leads::leads_keyword), unfolding(words::specs::Words::bytes))]
    fn put_lead<I: Ink>(&self, ink: &mut I)
        requires { I.room ink.old (leads_of self.now.step) }
        ensures { ink.new ≡ I.after ink.old (leads_of self.now.step) }
    {
        if self.step.count != 1 {
            return;
        }
        let value = self.step.spans[0];
        match self.step.code {
            37 => ink.put(b"META_START"),
            44 => ink.put(b"META_STOP"),
            45 if value.from == value.to => ink.put(b"COMMENT"),
            45 => ink.put(b"COMMENT "),
            _ => {
                ink.put(self.keyword());
                ink.put(b"=");
            }
        }
    }

    // Its values, parted by one blank.
    #[tactic(auto, using(crate::proofs::Turns::values_first, crate::proofs::Turns::values_turn, crate::proofs::Turns::values_end, crate::proofs::Turns::held_next))]
    fn put_values<I: Ink>(&self, ink: &mut I)
        requires { I.room ink.old (values_of self.now.feed.now self.now.at self.now.step) }
        ensures { ink.new ≡ I.after ink.old (values_of self.now.feed.now self.now.at self.now.step) }
    {
        let spans = &self.step.spans;
        ink.put(self.value(spans[0]));
        for &span in &spans[1..self.step.count] {
            ink.put(b" ");
            ink.put(self.value(span));
        }
    }

    // All of it, behind an LF where it is not the first.
    #[tactic(auto, unfolding(crate::specs::Inner::line_of))]
    fn put<I: Ink>(&self, ink: &mut I, first: bool)
        requires { I.room ink.old (line_of first self.now.feed.now self.now.at self.now.step) }
        ensures { ink.new ≡ I.after ink.old (line_of first self.now.feed.now self.now.at self.now.step) }
    {
        ink.put(break_of(first));
        self.put_lead(ink);
        self.put_values(ink);
    }
}

// A walk along the message that starts at a place, with the step that judging takes: it puts the message's plain form.
fn walk<I: Ink>(ink: &mut I, feed: &[u8], found: Found)
    requires writable { Writable feed.now found }
    requires room { I.room ink.old (plain_from feed.now found) }
    ensures { ink.new ≡ I.after ink.old (plain_from feed.now found) }
{
    let from = found.at;
    let mut at = from;
    let mut first = true;
    let mut state = State::fresh(found.form);
    // no iterator: each line is asked for with the state that the one before left; sure, since the message is right and no line offends
    'lines: while let Ok(Some(moved)) = judge::next_line(feed, at, at == from, state, true) {
        let step = moved.step;
        if 0 < step.count {
            Line { feed, at, step }.put(ink, first);
            first = false;
        }
        state = step.state;
        at = moved.next;
    }
}

// A message that is right, measured first: nothing is written before it is known to fit.
// `spoken::say` measures and writes so too: one function for both takes a trait of what can be put and a struct for each, in place of these five lines.
#[tactic(auto, using(crate::proofs::Fits::fitted_no, crate::proofs::Fits::fitted_whole, crate::proofs::Walks::plain_few, ink::proofs::Laws::put_whole), unfolding(crate::specs::Written::buffer_after))]
fn write_found(buffer: &mut [u8], feed: &[u8], found: Found) -> Result<u32, Refusal>
    requires { Writable feed.now found }
    ensures answer { result ≡ fitted (plain_from feed.now found) (length buffer.old) }
    ensures buffer { buffer.new ≡ buffer_after result (plain_from feed.now found) buffer.old }
{
    let mut ruler = Ruler::new();
    walk(&mut ruler, feed, found);
    if buffer.len() < ruler.len() {
        return Err(Reason::NoRoom.into());
    }
    let mut pen = Pen::new(buffer);
    walk(&mut pen, feed, found);
    Ok(ruler.len() as u32)
}

// Judges a message and, where it is right and the buffer has room, writes it there in plain form.
pub fn write(feed: &[u8], message: usize, buffer: &mut [u8]) -> Result<u32, Refusal>
    ensures answer { result ≡ written_of feed.now message (length buffer.old) }
    ensures buffer { buffer.new ≡ buffer_after result (plain_of feed.now message) buffer.old }
{
    let sighted = judge::sight(feed, message)?;
    write_found(buffer, feed, sighted.found)
}
