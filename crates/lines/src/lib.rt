// A feed's lines and what a line's text is made of. Every function answers for any bytes.
#![tactic(auto)]

ghost use Rattle.std.specs.Prelude.{◌≡◌, not, ◌+◌, ◌≤◌, ◌<◌, length, drop};
ghost use Rattle.std.specs.Iterator.{YieldsFirstBy, item_count};
ghost use Rattle.lines.specs.Feed.{is_end, text_len, end_with, end_len, ends_of, lines, line_of, lines_left};
ghost use Rattle.lines.specs.Text.{is_blank, blanks, cut_end, trim_of, is_odd, odd_at, moved, heading_of, heads, comment_of, word_ends, sides_of, assignment_of, split_of};

use words::{
    Class, begins_at, blocks_from, byte_at, byte_from, long_run_from, rest_from, run_from,
};

// A part of a text: from one place up to another.
#[derive(Clone, Copy, Debug, PartialEq, Eq)]
pub struct Span {
    pub from: usize,
    pub to: usize,
}

// Where a line's text ends, and where the next line starts.
#[derive(Clone, Copy, Debug, PartialEq, Eq)]
pub struct Ends {
    pub end: usize,
    pub next: usize,
}

// A line: where its text starts in the feed, and its text, the ending left out.
#[derive(Clone, Copy, Debug, PartialEq, Eq)]
pub struct FeedLine<'a> {
    pub at: usize,
    pub text: &'a [u8],
}

// The lines of a feed from a place on.
#[derive(Clone, Copy, Debug)]
pub struct Lines<'a> {
    feed: &'a [u8],
    at: usize,
}

// The two types of message, each by the heading that opens it.
#[derive(Clone, Copy, Debug, PartialEq, Eq)]
pub enum Form {
    Opm,
    Oem,
}

// An assignment's keyword and value field, both trimmed.
#[derive(Clone, Copy, Debug, PartialEq, Eq)]
pub struct Sides {
    pub keyword: Span,
    pub value: Span,
}

// The first seven fields, and how many there are: 8 stands for more than seven, as `leaves` prints it; no Vec, since there is no heap.
#[derive(Clone, Copy, Debug, PartialEq, Eq)]
pub struct Fields {
    pub count: usize,
    pub spans: [Span; 7],
}

// The bytes 32 to 126.
#[derive(Clone, Copy)]
struct Plain;

impl Class for Plain {
    ghost has = { λ _ b. not (is_odd b) };

    fn has(self, byte: u8) -> bool {
        matches!(byte, 32..=126)
    }
}

// The bytes that end no line.
#[derive(Clone, Copy)]
struct InLine;

impl Class for InLine {
    ghost has = { λ _ b. not (is_end b) };

    fn has(self, byte: u8) -> bool {
        // one comparison tells nearly every byte: `byte != 13 && byte != 10` takes two
        if byte < 14 {
            if byte == 13 {
                return false;
            }
            if byte == 10 {
                return false;
            }
        }
        true
    }
}

// The blanks.
#[derive(Clone, Copy)]
struct Blanks;

impl Class for Blanks {
    ghost has = { λ _ b. is_blank b };

    fn has(self, byte: u8) -> bool {
        byte == 32
    }
}

// The place of the first CR or LF at or after `from`, or the feed's end.
fn text_end(feed: &[u8], from: usize) -> usize
    ensures { result ≡ from + text_len (drop from feed.now) }
{
    run_from(feed, blocks_from(feed, from, Plain), InLine) // no block of bytes 32 to 126 has an ending
}

// How many bytes an ending takes whose first byte is b, with c after it: none where b is neither CR nor LF.
#[tactic(auto, unfolding(crate::specs::Feed::end_with))]
fn ends_with(b: u8, c: u8) -> usize
    ensures { result ≡ end_with b c }
{
    match (b, c) {
        (13, 10) | (10, 13) => 2,
        (13 | 10, _) => 1,
        _ => 0,
    }
}

// How many bytes the ending at `at` takes: none where no ending stands there.
#[tactic(auto, unfolding(crate::specs::Feed::end_len))]
fn end_len(feed: &[u8], at: usize) -> usize
    ensures { result ≡ end_len (drop at feed.now) }
{
    match *rest_from(feed, at) {
        [] => 0,
        [b] => ends_with(b, 0),
        [b, c, ..] => ends_with(b, c),
    }
}

// The line that starts at `from`.
pub fn line_at(feed: &[u8], from: usize) -> Ends
    ensures { result ≡ ends_of from (drop from feed.now) }
{
    let end = text_end(feed, from);
    let n = end_len(feed, end);
    Ends { end, next: end + n }
}

// The lines of a feed.
pub fn lines_of(feed: &[u8]) -> Lines<'_>
    ensures feed { result.feed.now ≡ feed.now }
    ensures start { result.at ≡ 0 }
    ensures left { lines_left result ≡ lines feed.now }
{
    Lines { feed, at: 0 }
}

impl<'a> Iterator for Lines<'a> {
    type Item = FeedLine<'a>;

    ghost next_gives = { YieldsFirstBy line_of lines_left };

    ghost remaining = { item_count lines_left };

    // put where it is called, a line stays in registers: as a call it takes 1.03 of the instructions, and 1.08 over empty lines
    #[inline(always)]
    #[tactic(auto, using(crate::proofs::Lists::none_left, crate::proofs::Lists::line_left, crate::proofs::Lists::placed))]
    fn next(&mut self) -> Option<FeedLine<'a>> {
        let at = self.at;
        if self.feed.len() <= at {
            return None;
        }
        let ends = line_at(self.feed, at);
        self.at = ends.next;
        Some(FeedLine {
            at,
            text: &self.feed[at..ends.end],
        })
    }
}

// The place of the first byte at or after `from` that is no blank, or the text's end.
fn blanks_end(text: &[u8], from: usize) -> usize
    ensures { result ≡ from + blanks (drop from text.now) }
{
    run_from(text, from, Blanks)
}

// Where the text ends without the blanks at its end.
fn cut_end(text: &[u8]) -> usize
    ensures { result ≡ cut_end text.now }
{
    text.len() - text.iter().rev().take_while(|b| **b == 32).count()
}

// The text with the blanks at both ends cut.
pub fn trim(text: &[u8]) -> Span
    ensures { result ≡ trim_of text.now }
{
    let to = cut_end(text);
    let from = blanks_end(&text[..to], 0);
    Span { from, to }
}

// The first byte outside 32 to 126, or the text's length where there is none.
pub fn odd_at(text: &[u8]) -> usize
    ensures { result ≡ odd_at text.now }
{
    long_run_from(text, 0, Plain)
}

// A heading line of this word.
fn heads_with(text: &[u8], word: &[u8]) -> bool
    ensures { result ≡ heads word.now text.now }
{
    let at = blanks_end(text, 0);
    begins_at(text, at, word) && begins_at(text, blanks_end(text, at + word.len()), b"=")
}

// The type of message that a heading line opens, where the line is one.
pub fn heading_of(text: &[u8]) -> Option<Form>
    ensures { result ≡ heading_of text.now }
{
    if !begins_at(text, blanks_end(text, 0), b"C") {
        return None; // as nearly every line does
    }
    if heads_with(text, b"CCSDS_OPM_VERS") {
        return Some(Form::Opm);
    }
    if heads_with(text, b"CCSDS_OEM_VERS") {
        return Some(Form::Oem);
    }
    None
}

// A blank or the end of the text stands at `at`.
#[tactic(auto, unfolding(crate::specs::Text::word_ends))]
fn word_ends(text: &[u8], at: usize) -> bool
    ensures { result ≡ word_ends (drop at text.now) }
{
    matches!(rest_from(text, at), [] | [32, ..])
}

// The part of a text from `n` on, trimmed.
fn trim_from(text: &[u8], n: usize) -> Span
    requires { n ≤ length text.now }
    ensures { result ≡ moved n (trim_of (drop n text.now)) }
{
    let p = trim(&text[n..]);
    Span {
        from: n + p.from,
        to: n + p.to,
    }
}

// The place of a comment's value, where the line is a comment.
pub fn comment_of(text: &[u8]) -> Option<Span>
    ensures { result ≡ comment_of text.now }
{
    let at = blanks_end(text, 0);
    if !begins_at(text, at, b"COMMENT") {
        return None;
    }
    let n = at + 7;
    if !word_ends(text, n) {
        return None;
    }
    Some(trim_from(text, n))
}

// The two sides of the `=` at `n`.
fn sides_of(text: &[u8], n: usize) -> Sides
    requires { n < length text.now }
    ensures { result ≡ sides_of n text.now }
{
    let keyword = trim(&text[..n]);
    let value = trim_from(text, n + 1);
    Sides { keyword, value }
}

// A text parted at its first `=`, where it has one.
pub fn assignment_of(text: &[u8]) -> Option<Sides>
    ensures { result ≡ assignment_of text.now }
{
    let n = byte_at(text, b'=');
    if n < text.len() {
        return Some(sides_of(text, n));
    }
    None
}

// The fields of a text, parted by runs of blanks.
pub fn fields_of(text: &[u8]) -> Fields
    ensures { result ≡ split_of text.now }
{
    let mut spans = [Span { from: 0, to: 0 }; 7];
    let mut count = 0;
    let mut from = 0;
    // each turn goes on behind a field, by no fixed step, and `split` would lose the fields' places
    while from < text.len() {
        let to = byte_from(text, from, 32);
        if from < to {
            if count < spans.len() {
                spans[count] = Span { from, to };
                count += 1;
            } else {
                count = 8;
            }
        }
        from = to + 1;
    }
    Fields { count, spans }
}
