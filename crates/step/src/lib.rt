// One line of a message judged from its text and the state alone; no place in the feed is part of the state.
#![tactic(auto)]

ghost use Rattle.std.specs.Prelude.{◌≡◌, ◌+◌, drop, get_or, not, find, All};
ghost use Rattle.lines.specs.Text.{trim_of, moved, no_span};
ghost use Rattle.values.specs.Number.{is_number};
ghost use Rattle.step.specs.Step.{no_row, one_row, fresh_state, part, past, fits_here, sixty_stands, word_len, Inside, SevenInside, Sure, is_timely, are_numbers, past_data, data_at, data_of, fields_of, past_whole, whole_of, number_of, past_time, is_early, time_of, value_of, assign_of, meta_code, meta_of, plain_of, past_comment, uncommented_of, filled_of, step_of};

use epochs::{Instant, epoch_of, is_before};
use grammar::Kind;
use lines::{Fields, Form, Sides, Span};
use reasons::Reason;
use words::{byte_at, is_word};

// What judging a line needs of the lines before it: the code of the last one that is no comment and not blank (0: none; 45: a comment
// since the data lines), whether the present TIME_SYSTEM is exactly UTC, START_TIME, the latest time given, and the last data line's epoch.
// `last` is a number and no Option: the theorems on what may follow go by 0 as by the codes.
#[derive(Clone, Copy, Debug, PartialEq, Eq)]
pub struct State {
    pub form: Form,
    pub last: u16,
    pub utc: bool,
    pub start: Instant,
    pub latest: Instant,
    pub seen: Instant,
}

// A line that is right: the next state, and the spans of its rows' values within its text, with the first row's code; no Vec, since there is no heap.
#[derive(Clone, Copy, Debug, PartialEq, Eq)]
pub struct Step {
    pub state: State,
    pub code: u16,
    pub count: usize,
    pub spans: [Span; 7],
}

// A part of a line's text, with the text that it lies in.
#[derive(Clone, Copy)]
pub struct Part<'a> {
    pub text: &'a [u8],
    pub span: Span,
    ghost inside: { Inside span text.now },
}

impl<'a> Part<'a> {
    // What stands there.
    pub fn bytes(&self) -> &'a [u8]
        ensures { result.now ≡ part self.now.span self.now.text.now }
    {
        &self.text[self.span.from..self.span.to]
    }

    // Up to its first blank, and from there on.
    #[tactic(auto, using(crate::proofs::Laws::word_within, crate::proofs::Laws::word_inside, crate::proofs::Laws::tail_inside))]
    pub fn split(&self) -> (Part<'a>, Part<'a>)
        ensures word { result.0.span ≡ record { from = self.now.span.from; to = self.now.span.from + word_len (part self.now.span self.now.text.now) } }
        ensures rest { result.1.span ≡ record { from = self.now.span.from + word_len (part self.now.span self.now.text.now); to = self.now.span.to } }
        ensures word_text { result.0.text.now ≡ self.now.text.now }
        ensures rest_text { result.1.text.now ≡ self.now.text.now }
    {
        let Part { text, span } = *self;
        let at = span.from + byte_at(self.bytes(), b' ');
        let word = Span {
            from: span.from,
            to: at,
        };
        let rest = Span {
            from: at,
            to: span.to,
        };
        (Part { text, span: word }, Part { text, span: rest })
    }

    // Without the blanks at its ends.
    pub fn trim(&self) -> Part<'a>
        ensures span { result.span ≡ moved self.now.span.from (trim_of (part self.now.span self.now.text.now)) }
        ensures text { result.text.now ≡ self.now.text.now }
    {
        let Part { text, span } = *self;
        let inner = lines::trim(self.bytes());
        Part {
            text,
            span: Span {
                from: span.from + inner.from,
                to: span.from + inner.to,
            },
        }
    }
}

// A data line's fields, with the text that they lie in.
#[derive(Clone, Copy)]
pub struct DataLine<'a> {
    pub text: &'a [u8],
    pub fields: Fields,
    ghost inside: { SevenInside fields.spans text.now },
}

impl<'a> DataLine<'a> {
    // Its epoch, the first of them.
    pub fn epoch(&self) -> Part<'a>
        ensures span { result.span ≡ get_or self.now.fields.spans 0 no_span }
        ensures text { result.text.now ≡ self.now.text.now }
    {
        Part {
            text: self.text,
            span: self.fields.spans[0],
        }
    }

    // The first of the others that is no number.
    #[tactic(auto, using(crate::proofs::Laws::rest_whole))]
    pub fn wrong(&self) -> Option<Span>
        ensures { result ≡ find (λ p. not (is_number (part p self.now.text.now))) (drop 1 self.now.fields.spans) }
    {
        no_number(&self.fields.spans[1..], self.text)
    }

    // Each of the others is a number.
    fn are_numbers(&self) -> bool
        ensures { result ≡ are_numbers (drop 1 self.now.fields.spans) self.now.text.now }
    {
        self.wrong().is_none()
    }
}

// The code of a META line, where the text is one.
#[tactic(auto, unfolding(crate::specs::Step::meta_code, words::specs::Words::bytes))]
fn meta_code(form: Form, text: &[u8]) -> Option<u16>
    ensures { result ≡ meta_code form text.now }
{
    match form {
        Form::Opm => None,
        Form::Oem => {
            if is_word(text, b"META_START") {
                return Some(37);
            }
            if is_word(text, b"META_STOP") {
                return Some(44);
            }
            None
        }
    }
}

// The first of some fields that is no number.
pub fn no_number(fields: &[Span], text: &[u8]) -> Option<Span>
    requires { All (λ p. Inside p text.now) fields.now }
    ensures { result ≡ find (λ p. not (is_number (part p text.now))) fields.now }
{
    fields
        .iter()
        .copied()
        .find(|p| !values::is_number(&text[p.from..p.to]))
}

impl State {
    // Before a message's first line.
    pub fn fresh(form: Form) -> Self
        ensures { result ≡ fresh_state form }
    {
        let none = Instant {
            day: 0,
            second: 0,
            nano: 0,
        };
        State {
            form,
            last: 0,
            utc: false,
            start: none,
            latest: none,
            seen: none,
        }
    }

    // The line is right and has no row.
    pub fn no_row(self) -> Step
        ensures { result ≡ no_row self }
    {
        Step {
            state: self,
            code: 0,
            count: 0,
            spans: [Span { from: 0, to: 0 }; 7],
        }
    }

    // The line is right and has one row.
    fn one_row(self, code: u16, p: Span) -> Step
        ensures { result ≡ one_row self code p }
    {
        let mut spans = [Span { from: 0, to: 0 }; 7];
        spans[0] = p;
        Step {
            state: self,
            code,
            count: 1,
            spans,
        }
    }

    // A line of this code has stood.
    fn past(self, code: u16) -> State
        ensures { result ≡ past self code }
    {
        State { last: code, ..self }
    }

    // A line of this code may stand here.
    fn fits(self, code: u16) -> bool
        ensures { result ≡ fits_here self code }
    {
        grammar::allows_code(grammar::next_of(self.form, self.last), code)
    }

    // Second 60 may stand in an epoch of this code.
    fn sixty_stands(self, code: u16) -> bool
        ensures { result ≡ sixty_stands self code }
    {
        code == 2 || self.utc
    }

    // The line's place in time is right: within the segment's span, and after the data line before it.
    #[tactic(auto, unfolding(crate::specs::Step::is_timely))]
    fn is_timely(self, t: Instant) -> bool
        ensures { result ≡ is_timely self t }
    {
        if is_before(t, self.start) {
            return false;
        }
        if is_before(self.latest, t) {
            return false;
        }
        self.last != 9 || is_before(self.seen, t)
    }

    // A data line of this epoch has stood.
    fn past_data(self, t: Instant) -> State
        ensures { result ≡ past_data self t }
    {
        State {
            last: 9,
            seen: t,
            ..self
        }
    }

    // A line that is no assignment: in an OEM, with seven fields, a data line; else nothing that has a form.
    #[tactic(auto, using(crate::proofs::Laws::fields_inside), unfolding(crate::specs::Step::fields_of, crate::specs::Step::data_of, crate::specs::Step::data_at))]
    fn fields(self, text: &[u8], sure: bool) -> Result<Step, Reason>
        requires { Sure sure (fields_of self text.now) }
        ensures { result ≡ fields_of self text.now }
    {
        if let Form::Opm = self.form {
            return Err(Reason::Form);
        }
        let fields = lines::fields_of(text);
        if fields.count != 7 {
            return Err(Reason::Form);
        }
        if !self.fits(9) {
            return Err(Reason::Order);
        }
        let line = DataLine { text, fields };
        let t = epoch_of(line.epoch().bytes(), self.sixty_stands(9)).ok_or(Reason::Value)?;
        if !sure {
            let numbers = line.are_numbers();
            let timely = self.is_timely(t);
            if !numbers {
                return Err(Reason::Value);
            }
            if !timely {
                return Err(Reason::TimeOrder);
            }
        }
        let spans = fields.spans;
        Ok(Step {
            state: self.past_data(t),
            code: 9,
            count: 7,
            spans,
        })
    }

    // A line of this code and value has stood; of TIME_SYSTEM's the epochs after it need to know whether it is UTC.
    #[tactic(auto, unfolding(crate::specs::Step::past_whole, words::specs::Words::bytes))]
    fn past_whole(self, code: u16, field: &[u8]) -> State
        ensures { result ≡ past_whole self code field.now }
    {
        if code != 8 {
            return self.past(code);
        }
        State {
            last: code,
            utc: is_word(field, b"UTC"),
            ..self
        }
    }

    // A value that is its whole field.
    #[tactic(auto, unfolding(crate::specs::Step::whole_of))]
    fn whole(self, code: u16, p: Span, field: &[u8], right: bool) -> Result<Step, Reason>
        ensures { result ≡ whole_of self code p field.now right }
    {
        if !right {
            return Err(Reason::Value);
        }
        Ok(self.past_whole(code, field).one_row(code, p))
    }

    // A number, which ends at the first blank, and its unit.
    fn number(self, code: u16, p: &Part) -> Result<Step, Reason>
        ensures { result ≡ number_of self code p.now.span p.now.text.now }
    {
        let (number, rest) = p.split();
        if !values::is_number(number.bytes()) {
            return Err(Reason::Value);
        }
        if !grammar::unit_right(code, rest.trim().bytes()) {
            return Err(Reason::Unit);
        }
        Ok(self.past(code).one_row(code, number.span))
    }

    // A time of a segment's block that is before the latest one given.
    #[tactic(auto, unfolding(crate::specs::Step::is_early))]
    fn is_early(self, code: u16, t: Instant) -> bool
        ensures { result ≡ is_early self code t }
    {
        (39..=41).contains(&code) && is_before(t, self.latest)
    }

    // An epoch of this code has stood.
    #[tactic(auto, unfolding(crate::specs::Step::past_time))]
    fn past_time(self, code: u16, t: Instant) -> State
        ensures { result ≡ past_time self code t }
    {
        match code {
            38 => State {
                last: code,
                start: t,
                latest: t,
                ..self
            },
            39..=41 => State {
                last: code,
                latest: t,
                ..self
            },
            _ => self.past(code),
        }
    }

    // An epoch.
    #[tactic(auto, unfolding(crate::specs::Step::time_of))]
    fn time(self, code: u16, p: &Part) -> Result<Step, Reason>
        ensures { result ≡ time_of self code p.now.span p.now.text.now }
    {
        let t = epoch_of(p.bytes(), self.sixty_stands(code)).ok_or(Reason::Value)?;
        if self.is_early(code, t) {
            return Err(Reason::TimeOrder);
        }
        Ok(self.past_time(code, t).one_row(code, p.span))
    }

    // The value of an assignment that stands in its place.
    #[tactic(auto, unfolding(crate::specs::Step::value_of))]
    fn value(self, code: u16, p: &Part) -> Result<Step, Reason>
        ensures { result ≡ value_of self code p.now.span p.now.text.now }
    {
        let field = p.bytes();
        match grammar::kind_of(code) {
            Some(Kind::Version) => self.whole(code, p.span, field, values::is_version(field)),
            Some(Kind::Text) => self.whole(code, p.span, field, values::is_text(field)),
            Some(Kind::Integer) => self.whole(code, p.span, field, values::is_integer(field)),
            Some(Kind::Number) => self.number(code, p),
            Some(Kind::Epoch) => self.time(code, p),
            None => Err(Reason::Value),
        }
    }

    // An assignment, its sides found.
    #[tactic(auto, unfolding(crate::specs::Step::assign_of))]
    fn assign(self, x: Sides, text: &[u8]) -> Result<Step, Reason>
        requires { Inside x.keyword text.now × Inside x.value text.now }
        ensures { result ≡ assign_of self x text.now }
    {
        let keyword = Part {
            text,
            span: x.keyword,
        };
        let code = grammar::keyword_of(self.form, keyword.bytes()).ok_or(Reason::Keyword)?;
        if !self.fits(code) {
            return Err(Reason::Order);
        }
        self.value(
            code,
            &Part {
                text,
                span: x.value,
            },
        )
    }

    // A META line, whose keyword ends at n.
    #[tactic(auto, unfolding(crate::specs::Step::meta_of))]
    fn meta(self, code: u16, n: usize) -> Result<Step, Reason>
        ensures { result ≡ meta_of self code n }
    {
        if !self.fits(code) {
            return Err(Reason::Order);
        }
        Ok(self.past(code).one_row(code, Span { from: n, to: n }))
    }

    // A comment that follows a data line is noted.
    #[tactic(auto, unfolding(crate::specs::Step::past_comment))]
    fn past_comment(self) -> State
        ensures { result ≡ past_comment self }
    {
        match self.form {
            Form::Opm => self,
            Form::Oem => {
                if self.last != 9 {
                    return self;
                }
                self.past(45)
            }
        }
    }

    // One line judged; where whoever asks is sure that it is right, only what its rows and the next state need is looked at again.
    // `sure` is what the caller promises, and this promise names it.
    #[tactic(auto, using(crate::proofs::Laws::trim_inside, crate::proofs::Laws::sides_inside, crate::proofs::Laws::step_right), unfolding(crate::specs::Step::step_of, crate::specs::Step::filled_of, crate::specs::Step::uncommented_of, crate::specs::Step::plain_of))]
    pub fn step(self, text: &[u8], sure: bool) -> Result<Step, Reason>
        requires { Sure sure (step_of self text.now) }
        ensures { result ≡ step_of self text.now }
    {
        if !sure {
            if 254 < text.len() {
                return Err(Reason::Long);
            }
            if lines::odd_at(text) < text.len() {
                return Err(Reason::Byte);
            }
        }
        let span = lines::trim(text);
        if span.to == 0 {
            return Ok(self.no_row());
        }
        if let Some(value) = lines::comment_of(text) {
            return Ok(self.past_comment().one_row(45, value));
        }
        if let Some(code) = meta_code(self.form, Part { text, span }.bytes()) {
            return self.meta(code, span.to);
        }
        if let Some(sides) = lines::assignment_of(text) {
            return self.assign(sides, text);
        }
        self.fields(text, sure)
    }
}
