// Runs the leaves on the lines of standard input: a letter names the leaf, a blank follows, and the rest is what it is asked about.
// Each line is written back with its place and its answer, so that the stored output reads as a table.
#![tactic(auto)]

ghost use Rattle.std.specs.Prelude.{◌≤◌, ◌<◌, ◌≡◌, length, take, IfOk};
ghost use Rattle.std.specs.Io.KnownBytes.{Consumes, IsAtEnd};

use grammar::Kind;
use lines::{FeedLine, Form, Span};
use std::io;
use std::io::{Read, Write};

fn say_none(out: &mut impl Write) -> io::Result<()> {
    out.write_all(b" none")
}

fn say_number(out: &mut impl Write, n: usize) -> io::Result<()> {
    write!(out, " {n}")
}

fn say_bool(out: &mut impl Write, answer: bool) -> io::Result<()> {
    out.write_all(if answer { b" yes" } else { b" no" })
}

fn say_span(out: &mut impl Write, span: Span) -> io::Result<()> {
    write!(out, " {} {}", span.from, span.to)
}

fn say_heading(out: &mut impl Write, text: &[u8]) -> io::Result<()> {
    match lines::heading_of(text) {
        Some(Form::Opm) => out.write_all(b" opm"),
        Some(Form::Oem) => out.write_all(b" oem"),
        None => say_none(out),
    }
}

fn say_comment(out: &mut impl Write, text: &[u8]) -> io::Result<()> {
    match lines::comment_of(text) {
        Some(span) => say_span(out, span),
        None => say_none(out),
    }
}

fn say_sides(out: &mut impl Write, text: &[u8]) -> io::Result<()> {
    say_number(out, words::byte_at(text, b'='))?;
    if let Some(sides) = lines::assignment_of(text) {
        say_span(out, sides.keyword)?;
        say_span(out, sides.value)?;
    }
    Ok(())
}

fn say_fields(out: &mut impl Write, text: &[u8]) -> io::Result<()> {
    let fields = lines::fields_of(text);
    say_number(out, fields.count)?;
    for &span in &fields.spans {
        say_span(out, span)?;
    }
    Ok(())
}

fn say_epoch(out: &mut impl Write, text: &[u8], sixty: bool) -> io::Result<()> {
    match epochs::epoch_of(text, sixty) {
        Some(t) => write!(out, " {} {} {}", t.day, t.second, t.nano),
        None => say_none(out),
    }
}

fn say_keyword(out: &mut impl Write, form: Form, text: &[u8]) -> io::Result<()> {
    match grammar::keyword_of(form, text) {
        Some(code) => write!(out, " {code}"),
        None => say_none(out),
    }
}

// The table asks about every code, and about a few numbers beyond them: those before this one.
const CODES_END: u16 = 50;

// The codes at which it holds.
fn say_codes<F: Fn(u16) -> bool + Drop>(out: &mut impl Write, holds_at: F) -> io::Result<()>
    requires { F.IsAlwaysCallable holds_at }
{
    for code in 0..CODES_END {
        if holds_at(code) {
            write!(out, " {code}")?;
        }
    }
    Ok(())
}

// The table's own names, of which the last is no kind's.
fn kind_name(kind: Option<Kind>) -> &'static str {
    match kind {
        Some(Kind::Version) => "version",
        Some(Kind::Text) => "text",
        Some(Kind::Integer) => "integer",
        Some(Kind::Number) => "number",
        Some(Kind::Epoch) => "epoch",
        None => "nothing",
    }
}

fn say_row(out: &mut impl Write, form: Form, last: u16) -> io::Result<()> {
    let next = grammar::next_of(form, last);
    let kind = kind_name(grammar::kind_of(last));
    write!(out, "\n {last} {kind}:")?;
    say_codes(out, |code| grammar::allows_code(next, code))?;
    if next.end {
        out.write_all(b" end")?;
    }
    Ok(())
}

// Each code with what may follow it in a message of this type.
fn say_next(out: &mut impl Write, form: Form) -> io::Result<()> {
    for last in 0..CODES_END {
        say_row(out, form, last)?;
    }
    Ok(())
}

fn say_answer(out: &mut impl Write, leaf: u8, text: &[u8]) -> io::Result<()> {
    match leaf {
        b'n' => say_bool(out, values::is_number(text)),
        b'i' => say_bool(out, values::is_integer(text)),
        b'e' => say_epoch(out, text, false),
        b'E' => say_epoch(out, text, true),
        b'v' => say_bool(out, values::is_version(text)),
        b't' => say_span(out, lines::trim(text)),
        b'o' => say_number(out, lines::odd_at(text)),
        b'h' => say_heading(out, text),
        b'c' => say_comment(out, text),
        b'a' => say_sides(out, text),
        b'f' => say_fields(out, text),
        b'k' => say_keyword(out, Form::Opm, text),
        b'K' => say_keyword(out, Form::Oem, text),
        b'u' => say_codes(out, |code| grammar::unit_right(code, text)),
        b'q' => say_next(out, Form::Opm),
        b'Q' => say_next(out, Form::Oem),
        _ => out.write_all(b" no such leaf"),
    }
}

// One line of the table: its place, its text between bars, and the answer.
fn say_line(out: &mut impl Write, line: FeedLine<'_>) -> io::Result<()> {
    write!(out, "{} |", line.at)?;
    out.write_all(line.text)?;
    out.write_all(b"|")?;
    if let [leaf, _, asked @ ..] = line.text {
        say_answer(out, *leaf, asked)?;
    }
    out.write_all(b"\n")
}

fn say_lines(out: &mut impl Write, feed: &[u8]) -> io::Result<()> {
    for line in lines::lines_of(feed) {
        say_line(out, line)?;
    }
    Ok(())
}

// Fills the space until it is full or the input ends, and answers how many bytes are there.
fn read_full<R: Read>(reader: &mut R, space: &mut [u8]) -> io::Result<usize>
    ensures within { IfOk result (λ n. n ≤ length space.new) }
    ensures kept { length space.new ≡ length space.old }

    // Where the reader's bytes are known, the first n of the space are the next ones, and it stops short only at their end.
    ensures bytes { IfOk result (λ n. Consumes (R.remaining reader.old) (R.remaining reader.new) (take n space.new)) }
    ensures end { IfOk result (λ n. n < length space.new → IsAtEnd (R.remaining reader.new)) }
{
    let mut done = 0;
    // a read may give any part of what is asked, so no count of turns is known
    while done < space.len() {
        let n = reader.read(&mut space[done..])?;
        if n == 0 {
            return Ok(done);
        }
        done += n;
    }
    Ok(done)
}

// What is read of standard input, at the most.
const SPACE: usize = 65536;

fn main(rt: HostRuntime) -> io::Result<()> {
    let mut space = [0; SPACE];
    let n = read_full(&mut rt.reader(), &mut space)?;
    let mut out = io::writer(&rt);
    say_lines(&mut out, &space[..n])
}
