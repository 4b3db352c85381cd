// A message's rows in a lent table of bytes: judged and put there.
#![tactic(auto)]

ghost use Rattle.std.specs.Prelude.{◌≡◌, ◌<◌, length, take, Ok};
ghost use Rattle.judge.specs.Message.{feed_limit, judge_of, group_of, rows_at, rows_of};
ghost use Rattle.tables.specs.Table.{put_rows};
ghost use Rattle.rows.specs.Filled.{StepFits, rows_found, Fillable, room_for, table_after};

use judge::{Found, Refusal, Row};
use lines::Form;
use reasons::Reason;
use step::{State, Step};
use tables::ROW_BYTES;

// The group of a line's rows: a maneuver set's or a segment's first line begins the next one.
#[tactic(auto, unfolding(judge::specs::Message::group_of))]
fn group_after(form: Form, group: u32, code: u16) -> u32
    requires { group < feed_limit }
    ensures { result ≡ group_of form group code }
{
    match form {
        Form::Opm => {
            if code == 29 {
                return group + 1;
            }
            group
        }
        Form::Oem => {
            if code == 37 {
                return group + 1;
            }
            group
        }
    }
}

// A line's rows put from row number n on.
#[tactic(auto, using(crate::proofs::Fills::put_next))]
fn put_rows(table: &mut [u8], n: u32, step: Step, group: u32, line: u32, at: usize)
    requires { StepFits step n at }
    ensures { table.new ≡ put_rows n (rows_at step.code group line at (take step.count step.spans)) table.old }
{
    let spans = step.spans; // copied: to go over step's own takes 19 instructions a line more
    for (i, span) in spans[..step.count].iter().enumerate() {
        let k = i as u32;
        let row = Row {
            code: step.code as u32 + k,
            group,
            line,
            start: (at + span.from) as u32,
            length: (span.to - span.from) as u32,
        };
        tables::put_row(table, n + k, row);
    }
}

// The rows of the message that starts at a place, put into the table from its start: the second walk, with the same step.
fn fill(feed: &[u8], found: Found, table: &mut [u8])
    requires { Fillable feed.now found.at found.form }
    ensures { table.new ≡ put_rows 0 (rows_found feed.now found.at found.form) table.old }
{
    let from = found.at;
    let mut at = from;
    let mut line: u32 = 1;
    let mut group: u32 = 0;
    let mut n: u32 = 0;
    let mut state = State::fresh(found.form);
    // no iterator: each line is asked for with the state that the one before left; sure, since the message is right
    'lines: while let Ok(Some(moved)) = judge::next_line(feed, at, line == 1, state, true) {
        let step = moved.step;
        group = group_after(state.form, group, step.code);
        put_rows(table, n, step, group, line, at);
        n += step.count as u32;
        line += 1;
        state = step.state;
        at = moved.next;
    }
}

// A message that is right, found at a place, with so many rows: nothing is put before the table is known to have room.
fn put_found(feed: &[u8], found: Found, rows: u32, table: &mut [u8]) -> Result<u32, Refusal>
    requires fillable { Fillable feed.now found.at found.form }
    requires rows_value { rows ≡ length (rows_found feed.now found.at found.form) }
    ensures answer { result ≡ room_for (length table.old) (Ok rows) }
    ensures table { table.new ≡ table_after result (rows_found feed.now found.at found.form) table.old }
{
    if table.len() < ROW_BYTES * (rows as usize) {
        return Err(Reason::NoRoom.into());
    }
    fill(feed, found, table);
    Ok(rows)
}

// Judges a message and, where it is right and the table has room, puts its rows into the table.
pub fn put_message(feed: &[u8], message: usize, table: &mut [u8]) -> Result<u32, Refusal>
    ensures answer { result ≡ room_for (length table.old) (judge_of feed.now message) }
    ensures table { table.new ≡ table_after result (rows_of feed.now message) table.old }
{
    let sighted = judge::sight(feed, message)?;
    put_found(feed, sighted.found, sighted.rows, table)
}
