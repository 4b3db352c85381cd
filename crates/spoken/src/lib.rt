// A value in words for a voice, written into a lent buffer. Every public function answers for any bytes.
#![tactic(auto)]

ghost use Rattle.std.specs.Prelude.{◌≡◌, ◌≤◌, [], ◌∷◌, length};
ghost use Rattle.spoken.specs.Saying.{said_by, mark_at, framed, words_by};
ghost use Rattle.spoken.specs.Way.{epoch_way, way_in, way_of};
ghost use Rattle.spoken.specs.Spoken.{fitted, spoken_of, words_of, buffer_after};

use grammar::Kind;
use ink::{Ink, Pen, Ruler};
use reasons::Reason;

// How a value's bytes are said: as they stand, as a number's, or as an epoch's in one of its two forms.
#[derive(Clone, Copy, Debug, PartialEq, Eq)]
pub enum Manner {
    Plain,
    Numeral,
    Calendar,
    Ordinal,
}

// What a byte is said as: itself, or the words of a mark.
#[derive(Clone, Copy, Debug, PartialEq, Eq)]
pub enum Mark {
    Itself,
    Plus,
    Minus,
    Power,
    Month,
    Day,
    Clock,
    Hours,
    Minutes,
}

#[tactic(auto, unfolding(crate::specs::Way::epoch_way, words::specs::Words::bytes))]
fn epoch_way(value: &[u8]) -> Option<Manner>
    ensures { result ≡ epoch_way value.now }
{
    match epochs::epoch_of(value, true) {
        Some(_) => {
            if epochs::has_shape(value, b"0000-00-00T00:00:00") {
                return Some(Manner::Calendar);
            }
            Some(Manner::Ordinal)
        }
        None => None,
    }
}

#[tactic(auto, unfolding(crate::specs::Way::way_in))]
fn way_in(kind: Option<Kind>, value: &[u8]) -> Option<Manner>
    ensures { result ≡ way_in kind value.now }
{
    match kind {
        Some(Kind::Version) => values::is_version(value).then_some(Manner::Plain),
        Some(Kind::Text) => values::is_text(value).then_some(Manner::Plain),
        Some(Kind::Integer) => values::is_integer(value).then_some(Manner::Numeral),
        Some(Kind::Number) => values::is_number(value).then_some(Manner::Numeral),
        Some(Kind::Epoch) => epoch_way(value),
        None => None,
    }
}

// How the value of a code is said, if it is right.
#[tactic(auto, unfolding(crate::specs::Way::way_of, crate::specs::Way::way_in, grammar::specs::Rows::pick))]
fn way_of(code: u32, value: &[u8]) -> Option<Manner>
    ensures { result ≡ way_of code value.now }
{
    if 254 < value.len() {
        return None;
    }
    if lines::odd_at(value) < value.len() {
        return None;
    }
    if code == 45 {
        return Some(Manner::Plain);
    }
    if 65535 < code {
        return None; // no code
    }
    way_in(grammar::kind_of(code as u16), value)
}

#[tactic(auto, unfolding(crate::specs::Saying::mark_at, grammar::specs::Rows::pick))]
fn numeral_mark(byte: u8) -> Mark
    ensures { result ≡ mark_at Manner.Numeral 0 byte }
{
    match byte {
        43 => Mark::Plus,
        45 => Mark::Minus,
        69 | 101 => Mark::Power,
        _ => Mark::Itself,
    }
}

#[tactic(auto, unfolding(crate::specs::Saying::mark_at, grammar::specs::Rows::pick))]
fn calendar_mark(at: usize) -> Mark
    ensures { result ≡ mark_at Manner.Calendar at 0 }
{
    match at {
        4 => Mark::Month,
        7 => Mark::Day,
        10 => Mark::Clock,
        13 => Mark::Hours,
        16 => Mark::Minutes,
        _ => Mark::Itself,
    }
}

#[tactic(auto, unfolding(crate::specs::Saying::mark_at, grammar::specs::Rows::pick))]
fn ordinal_mark(at: usize) -> Mark
    ensures { result ≡ mark_at Manner.Ordinal at 0 }
{
    match at {
        4 => Mark::Day,
        8 => Mark::Clock,
        11 => Mark::Hours,
        14 => Mark::Minutes,
        _ => Mark::Itself,
    }
}

// The mark that a byte is at its place.
#[tactic(auto, unfolding(crate::specs::Saying::mark_at))]
fn mark_at(manner: Manner, at: usize, byte: u8) -> Mark
    ensures { result ≡ mark_at manner at byte }
{
    match manner {
        Manner::Plain => Mark::Itself,
        Manner::Numeral => numeral_mark(byte),
        Manner::Calendar => calendar_mark(at),
        Manner::Ordinal => ordinal_mark(at),
    }
}

// A mark's words, or the byte itself: each arm puts bytes whose number is known there, since most bytes are themselves, and one put as a part of any length takes some twenty instructions more.
#[tactic(auto, unfolding(words::specs::Words::bytes))]
fn put_mark<I: Ink>(ink: &mut I, mark: Mark, byte: u8)
    requires { I.room ink.old (said_by mark (byte ∷ [])) }
    ensures { ink.new ≡ I.after ink.old (said_by mark (byte ∷ [])) }
{
    match mark {
        Mark::Itself => ink.put(&[byte]),
        Mark::Plus => ink.put(b"plus "),
        Mark::Minus => ink.put(b"minus "),
        Mark::Power => ink.put(b" times ten to the "),
        Mark::Month => ink.put(b" month "),
        Mark::Day => ink.put(b" day "),
        Mark::Clock => ink.put(b", "),
        Mark::Hours => ink.put(b" hours "),
        Mark::Minutes => ink.put(b" minutes "),
    }
}

// Words that an epoch alone has.
fn framed(manner: Manner, frame: &[u8]) -> &[u8]
    ensures { result.now ≡ framed manner frame.now }
{
    match manner {
        Manner::Plain | Manner::Numeral => b"",
        Manner::Calendar | Manner::Ordinal => frame,
    }
}

// All of a value's words.
#[tactic(auto, using(crate::proofs::Laws::words_first, crate::proofs::Laws::words_turn, crate::proofs::Laws::words_end), unfolding(words::specs::Words::bytes))]
fn put_words<I: Ink>(ink: &mut I, value: &[u8], manner: Manner)
    requires { I.room ink.old (words_by manner value.now) }
    ensures { ink.new ≡ I.after ink.old (words_by manner value.now) }
{
    ink.put(framed(manner, b"year "));
    for (at, &byte) in value.iter().enumerate() {
        put_mark(ink, mark_at(manner, at, byte), byte);
    }
    ink.put(framed(manner, b" seconds"));
}

// A value that is right, measured first: nothing is written before it is known to fit.
// `write::write_found` measures and writes so too: one function for both takes a trait of what can be put and a struct for each, in place of these five lines.
#[tactic(auto, using(crate::proofs::Laws::words_few, ink::proofs::Laws::put_whole), unfolding(crate::specs::Spoken::fitted, crate::specs::Spoken::buffer_after))]
fn say(buffer: &mut [u8], value: &[u8], manner: Manner) -> Result<u32, Reason>
    requires { length value.now ≤ 254 }
    ensures answer { result ≡ fitted (words_by manner value.now) (length buffer.old) }
    ensures buffer { buffer.new ≡ buffer_after result (words_by manner value.now) buffer.old }
{
    let mut ruler = Ruler::new();
    put_words(&mut ruler, value, manner);
    if buffer.len() < ruler.len() {
        return Err(Reason::NoRoom);
    }
    let mut pen = Pen::new(buffer);
    put_words(&mut pen, value, manner);
    Ok(ruler.len() as u32)
}

// How the value of a code is said, written into the buffer where it is right and there is room.
#[tactic(auto, using(crate::proofs::Laws::way_few), unfolding(crate::specs::Spoken::spoken_by, crate::specs::Spoken::words_in, crate::specs::Spoken::buffer_after))]
pub fn in_words(code: u32, value: &[u8], buffer: &mut [u8]) -> Result<u32, Reason>
    ensures answer { result ≡ spoken_of code value.now (length buffer.old) }
    ensures buffer { buffer.new ≡ buffer_after result (words_of code value.now) buffer.old }
{
    match way_of(code, value) {
        Some(manner) => say(buffer, value, manner),
        None => Err(Reason::Value),
    }
}
