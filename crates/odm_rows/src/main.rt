// Reads a feed from standard input and prints its messages' rows, in plain words, one fact a line.
#![tactic(auto)]

ghost use Rattle.std.specs.Prelude.{◌≤◌, ◌<◌, ◌≡◌, length, take, IfOk};
ghost use Rattle.std.specs.Io.KnownBytes.{Consumes, IsAtEnd};

use desk::{Desk, RowNumber, Ticket};
use judge::{Refusal, Row};
use reasons::Reason;
use std::io;
use std::io::{Read, Write};

// The value's bytes are the feed's own, and no text, so that they are written as they stand.
fn say_value(out: &mut impl Write, value: &[u8]) -> io::Result<()> {
    if !value.is_empty() {
        out.write_all(b" ")?;
        out.write_all(value)?;
    }
    Ok(())
}

// One row: its number, its five numbers, and its value's bytes.
fn say_row(out: &mut impl Write, desk: Desk, n: u32, feed: &[u8], table: &[u8]) -> io::Result<()> {
    let ticket = Ticket {
        load: desk.load,
        row: RowNumber(n),
    };
    write!(out, "{n}")?;
    match desk.read(ticket, feed, table) {
        Ok(
            Row {
                code,
                group,
                line,
                start,
                length,
            },
        ) => {
            write!(out, " {code} {group} {line} {start} {length}")?;
            say_value(out, desk.value(ticket, feed, table))?;
        }
        Err(reason) => write!(out, " {reason}")?,
    }
    out.write_all(b"\n")
}

fn say_rows(out: &mut impl Write, desk: Desk, feed: &[u8], table: &[u8]) -> io::Result<()> {
    for n in 0..desk.count {
        say_row(out, desk, n, feed, table)?;
    }
    Ok(())
}

// One message: what placing it answered, then its rows. The next desk comes back.
fn say_message(
    out: &mut impl Write,
    desk: Desk,
    feed: &[u8],
    message: u32,
    table: &mut [u8],
) -> io::Result<Desk> {
    let placed = desk.place(feed, message as usize, table);
    let next = placed.desk;
    write!(out, "message {message} ")?;
    match placed.answer {
        Ok(rows) => {
            writeln!(out, "accepted rows {rows}")?;
            say_rows(out, next, feed, table)?;
        }
        Err(Refusal { reason, line }) => writeln!(out, "refused {reason} line {line}")?,
    }
    Ok(next)
}

fn say_messages(out: &mut impl Write, feed: &[u8], count: u32, table: &mut [u8]) -> io::Result<()> {
    let mut desk = Desk::fresh();
    for message in 1..=count {
        desk = say_message(out, desk, feed, message, table)?;
    }
    Ok(())
}

fn say_refused(out: &mut impl Write, reason: Reason) -> io::Result<()> {
    writeln!(out, "refused {reason}")
}

// This program keeps the feed limit that it always had; the library's is wider.
const FEED_LIMIT: usize = 65535;

fn say_feed(out: &mut impl Write, feed: &[u8], table: &mut [u8]) -> io::Result<()> {
    if FEED_LIMIT < feed.len() {
        return say_refused(out, Reason::FeedLong);
    }
    match judge::count_headings(feed) {
        Err(reason) => say_refused(out, reason),
        Ok(0) => say_refused(out, Reason::NoMessage),
        Ok(count) => say_messages(out, feed, count, table),
    }
}

// Room for the rows of any feed: at the most 7 rows for each 30 bytes, 20 bytes a row. The `ensures` gives only the length, which lending the array as a slice needs.
fn table_space() -> [u8; 320000]
    ensures { 320000 ≡ length result }
{
    [0; 320000]
}

// Fills the space until it is full or the input ends, and answers how many bytes are there.
fn read_full<R: Read>(reader: &mut R, space: &mut [u8]) -> io::Result<usize>
    ensures within { IfOk result (λ n. n ≤ length space.new) }
    ensures kept { length space.new ≡ length space.old }

    // Where the reader's bytes are known, the first n of the space are the next ones, and it stops short only at their end.
    ensures bytes { IfOk result (λ n. Consumes (R.remaining reader.old) (R.remaining reader.new) (take n space.new)) }
    ensures end { IfOk result (λ n. n < length space.new → IsAtEnd (R.remaining reader.new)) }
{
    let mut done = 0;
    // a read may give any part of what is asked, so no count of turns is known
    while done < space.len() {
        let n = reader.read(&mut space[done..])?;
        if n == 0 {
            return Ok(done);
        }
        done += n;
    }
    Ok(done)
}

// What is read of standard input, at the most: a byte more than a feed may have.
const SPACE: usize = 65536;

fn main(rt: HostRuntime) -> io::Result<()> {
    let mut space = [0; SPACE];
    let n = read_full(&mut rt.reader(), &mut space)?;
    let mut table = table_space();
    let mut out = io::writer(&rt);
    say_feed(&mut out, &space[..n], &mut table)
}
