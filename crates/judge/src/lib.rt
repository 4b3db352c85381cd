// A feed's messages found and judged, line by line.
#![tactic(auto)]

ghost use Rattle.std.specs.Prelude.{◌≡◌, true, not, ◌&&◌, ◌≤◌, length, drop, IfOk, IfErr};
ghost use Rattle.lines.specs.Feed.{lines, lines_at, line_of};
ghost use Rattle.step.specs.Step.{fresh_state};
ghost use Rattle.judge.specs.Message.{of_feed, is_heading, from_heading, headings, up_to, stop_of, walk_of, judged_by, judge_of, count_of, moved_of, SureNext, feed_limit, found_of, opened_by, FoundIs, Sought, Unfound, sighted_of, SightedIs};

use lines::{FeedLine, Form};
use reasons::Reason;
use step::{State, Step};

// A feed has at most so many bytes.
pub const FEED_LIMIT: usize = 16777215;

// Why a message is refused: the reason, and the line, or 0 where it is no line's: the theorems on refusals say so, and C has it so.
#[derive(Clone, Copy, Debug, PartialEq, Eq)]
pub struct Refusal {
    pub reason: Reason,
    pub line: u32,
}

// A refusal that is no line's.
impl From<Reason> for Refusal {
    ghost from_gives = { λ reason refusal. refusal ≡ of_feed reason };

    fn from(reason: Reason) -> Refusal {
        Refusal { reason, line: 0 }
    }
}

// One step of a walk along a message: the line judged, and the place of the next line.
#[derive(Clone, Copy, Debug, PartialEq, Eq)]
pub struct Moved {
    pub step: Step,
    pub next: usize,
}

// A line that offends: the reason, and the place of the line after it.
#[derive(Clone, Copy, Debug, PartialEq, Eq)]
pub struct Offence {
    pub reason: Reason,
    pub next: usize,
}

// Where a walk along a message came to its end: the place, the line, the rows of the lines before it, the state there, and why the line offends, if one does.
#[derive(Clone, Copy, Debug, PartialEq, Eq)]
pub struct Stop {
    pub at: usize,
    pub line: u32,
    pub rows: u32,
    pub state: State,
    pub offence: Option<Reason>,
}

// Where a message starts, and its type.
#[derive(Clone, Copy, Debug, PartialEq, Eq)]
pub struct Found {
    pub at: usize,
    pub form: Form,
}

// A message that is right: where it starts, its type and its row count.
#[derive(Clone, Copy, Debug, PartialEq, Eq)]
pub struct Sighted {
    pub found: Found,
    pub rows: u32,
}

// A row of the table.
#[derive(Clone, Copy, Debug, PartialEq, Eq)]
pub struct Row {
    pub code: u32,
    pub group: u32,
    pub line: u32,
    pub start: u32,
    pub length: u32,
}

fn is_heading(text: &[u8]) -> bool
    ensures { result ≡ is_heading text.now }
{
    lines::heading_of(text).is_some()
}

// The message that a line opens, where it is a heading line.
fn opened_by(line: FeedLine<'_>) -> Option<Found>
    ensures { result ≡ opened_by (line_of line.entry) }
{
    let form = lines::heading_of(line.text)?;
    Some(Found { at: line.at, form })
}

// The place of the heading line with this number, from 1.
#[tactic(auto, using(crate::proofs::Laws::found_none, crate::proofs::Laws::found_is))]
pub fn find_message(feed: &[u8], message: usize) -> Option<Found>
    ensures answer { result ≡ found_of (from_heading message (lines feed.now)) }
    ensures lines { FoundIs result message feed.now }
{
    let before = message.checked_sub(1)?;
    lines::lines_of(feed).filter_map(opened_by).nth(before)
}

// How many heading lines a feed has.
#[tactic(auto, using(lines::proofs::Lists::lines_few))]
fn headings_in(feed: &[u8]) -> u32
    requires { length feed.now ≤ feed_limit }
    ensures { result ≡ headings (lines feed.now) }
{
    lines::lines_of(feed)
        .filter(|line| is_heading(line.text))
        .count() as u32
}

// How many messages a feed has.
pub fn count_headings(feed: &[u8]) -> Result<u32, Reason>
    ensures { result ≡ count_of feed.now }
{
    if FEED_LIMIT < feed.len() {
        return Err(Reason::FeedLong);
    }
    Ok(headings_in(feed))
}

// A line with which the next message begins; a message's first line is its own, heading or not.
fn is_over(text: &[u8], first: bool) -> bool
    ensures { result ≡ (not first && is_heading text.now) }
{
    !first && is_heading(text)
}

// The next line of a message, judged, or none at the message's end; shared by judging and by the walks that come behind, which are sure of every line.
// Five arguments, since its promise speaks of these five.
pub fn next_line(
    feed: &[u8],
    at: usize,
    first: bool,
    state: State,
    sure: bool,
) -> Result<Option<Moved>, Offence>
    requires { SureNext sure state (up_to first (lines_at at (drop at feed.now))) }
    ensures { result ≡ moved_of state at (drop at feed.now) (up_to first (lines_at at (drop at feed.now))) }
{
    if feed.len() <= at {
        return Ok(None);
    }
    let ends = lines::line_at(feed, at);
    let text = &feed[at..ends.end];
    if is_over(text, first) {
        return Ok(None);
    }
    let next = ends.next;
    match state.step(text, sure) {
        Ok(step) => Ok(Some(Moved { step, next })),
        Err(reason) => Err(Offence { reason, next }),
    }
}

impl Stop {
    // What the end says of the message: its rows, the offence, or SHORT at the line after the last.
    #[tactic(auto, unfolding(crate::specs::Message::judged_by, crate::specs::Message::end_of))]
    pub fn judged(self) -> Result<u32, Refusal>
        ensures { result ≡ judged_by self }
    {
        let line = self.line;
        if let Some(reason) = self.offence {
            return Err(Refusal { reason, line });
        }
        if grammar::next_of(self.state.form, self.state.last).end {
            return Ok(self.rows);
        }
        Err(Refusal {
            reason: Reason::Short,
            line,
        })
    }
}

// The message that starts at a place, judged line by line.
fn walk_from(feed: &[u8], found: Found) -> Stop
    requires { (length feed.now ≤ feed_limit) × (found.at ≤ length feed.now) }
    ensures { result ≡ stop_of (length feed.now) true (fresh_state found.form) 1 0 (lines_at found.at (drop found.at feed.now)) }
{
    // four locals, and no Stop that is changed: a state that is a field is copied twice a line
    let mut at = found.at;
    let mut line = 1;
    let mut rows = 0;
    let mut state = State::fresh(found.form);
    // no iterator: each line is asked for with the state that the one before left
    let offence = 'lines: loop {
        match next_line(feed, at, line == 1, state, false) {
            Err(offence) => break 'lines Some(offence.reason),
            Ok(None) => break 'lines None,
            Ok(Some(moved)) => {
                rows += moved.step.count as u32;
                line += 1;
                state = moved.step.state;
                at = moved.next;
            }
        }
    };
    Stop {
        at,
        line,
        rows,
        state,
        offence,
    }
}

// A message of a feed that is not too long.
#[tactic(auto, using(crate::proofs::Laws::sought, crate::proofs::Laws::sought_not))]
fn seek(feed: &[u8], message: usize) -> Result<Found, Reason>
    ensures found { IfOk result (Sought feed.now message) }
    ensures missing { IfErr result (Unfound feed.now message) }
{
    if feed.len() <= FEED_LIMIT {
        return find_message(feed, message).ok_or(Reason::NoMessage);
    }
    Err(Reason::FeedLong)
}

// A message of a feed found and walked along to its end, or to the first line that offends.
pub fn walk(feed: &[u8], message: usize) -> Result<Stop, Reason>
    ensures { result ≡ walk_of feed.now message }
{
    let found = seek(feed, message)?;
    Ok(walk_from(feed, found))
}

// A message of a feed found and judged, so that a walk that comes behind need not find it again.
pub fn sight(feed: &[u8], message: usize) -> Result<Sighted, Refusal>
    ensures answer { result ≡ sighted_of feed.now message }
    ensures judged { SightedIs result message feed.now }
{
    let found = seek(feed, message)?;
    let rows = walk_from(feed, found).judged()?;
    Ok(Sighted { found, rows })
}

// A message of a feed, judged: its row count, or why it is refused.
pub fn judge(feed: &[u8], message: usize) -> Result<u32, Refusal>
    ensures { result ≡ judge_of feed.now message }
{
    Ok(sight(feed, message)?.rows)
}
