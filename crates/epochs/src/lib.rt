// What an epoch's bytes say, in both forms, and which instant comes first. Every public function answers for any bytes.
#![tactic(auto)]

ghost use Rattle.std.specs.Prelude.{IfSome, ◌≡◌, ◌+◌, ◌<◌, ◌≤◌, drop};
ghost use Rattle.epochs.specs.Epoch.{shaped, fits, digit_at, two_at, year_at, is_leap, month_days, days_before, month_day, year_day, last_second, is_clock, second_at, is_fraction, nano_at, timed_of, epoch_of, is_before};

use values::{digit, only_digits};

// A moment: the year times a thousand and the day of the year, the second of the day (86,400 is 23:59:60), the nanosecond of the second.
#[derive(Clone, Copy, Debug, PartialEq, Eq, PartialOrd, Ord)]
pub struct Instant {
    pub day: u64,
    pub second: u64,
    pub nano: u64,
}

// A shape's `0` stands for any digit.
fn fits_shape(p: u8, b: u8) -> bool
    ensures { result ≡ fits p b }
{
    if p == b'0' {
        b.is_ascii_digit()
    } else {
        p == b
    }
}

// The text begins with the shape. A fold over the two in a `zip`, and `&=`, took a twentieth more instructions of `epoch_of`.
#[tactic(auto, using(crate::proofs::Laws::shorter, crate::proofs::Laws::shape_more, crate::proofs::Laws::shape_stop, crate::proofs::Laws::shape_end))]
pub fn has_shape(text: &[u8], shape: &[u8]) -> bool
    ensures { result ≡ shaped shape.now text.now }
{
    if text.len() < shape.len() {
        return false;
    }
    let mut fits = true;
    for (i, p) in shape.iter().enumerate() {
        if !fits_shape(*p, text[i]) {
            fits = false; // and on to the end, so that no byte waits for the one before it
        }
    }
    fits
}

// The digit at a place, 0 past the end.
fn digit_at(text: &[u8], at: usize) -> u64
    ensures value { result ≡ digit_at text.now at }
    ensures small { result ≤ 207 }
{
    match text.get(at) {
        Some(b) => digit(*b),
        None => 0,
    }
}

// Two digits from a place on.
fn two_at(text: &[u8], at: usize) -> u64
    requires { at < 100 }
    ensures value { result ≡ two_at text.now at }
    ensures small { result ≤ 2277 }
{
    digit_at(text, at) * 10 + digit_at(text, at + 1)
}

#[tactic(auto, unfolding(crate::specs::Epoch::is_leap))]
fn is_leap(year: u64) -> bool
    ensures { result ≡ is_leap year }
{
    year % 400 == 0 || year % 100 != 0 && year % 4 == 0
}

const MONTH_DAYS: [u64; 13] = [0, 31, 28, 31, 30, 31, 30, 31, 31, 30, 31, 30, 31];

const DAYS_BEFORE: [u64; 13] = [0, 0, 31, 59, 90, 120, 151, 181, 212, 243, 273, 304, 334];

// How many days a month from 1 to 12 has.
#[tactic(auto, using(crate::proofs::Laws::days_right))]
fn month_days(leap: bool, month: usize) -> u64
    requires { month < 13 }
    ensures { result ≡ month_days leap month }
{
    MONTH_DAYS[month] + u64::from(leap && month == 2)
}

// How many days of the year stand before a month from 1 to 12.
#[tactic(auto, using(crate::proofs::Laws::before_right, crate::proofs::Laws::before_small))]
fn days_before(leap: bool, month: usize) -> u64
    requires { month < 13 }
    ensures value { result ≡ days_before leap month }
    ensures small { result + month_days leap month ≤ 366 }
{
    DAYS_BEFORE[month] + u64::from(leap && 2 < month)
}

// The day of the year that is a day of a month, where there is such a day.
#[tactic(auto, unfolding(crate::specs::Epoch::month_day), using(crate::proofs::Laws::no_days))]
fn month_day(leap: bool, month: u64, day: u64) -> Option<u64>
    ensures value { result ≡ month_day leap month day }
    ensures small { IfSome result (λ day. day ≤ 366) }
{
    if day < 1 || 12 < month {
        return None;
    }
    let m = month as usize; // a u64 has no usize::from
    if month_days(leap, m) < day {
        return None;
    }
    Some(days_before(leap, m) + day)
}

// A day of the year, where there is such a day.
#[tactic(auto, unfolding(crate::specs::Epoch::year_day))]
fn year_day(leap: bool, day: u64) -> Option<u64>
    ensures value { result ≡ year_day leap day }
    ensures small { IfSome result (λ day. day ≤ 366) }
{
    if day < 1 || 365 + u64::from(leap) < day {
        return None;
    }
    Some(day)
}

// The last second of a minute: 60 at 23:59, where it may stand.
#[tactic(auto, unfolding(crate::specs::Epoch::last_second))]
fn last_second(hour: u64, minute: u64, sixty: bool) -> u64
    ensures { result ≡ last_second hour minute sixty }
{
    if hour == 23 && minute == 59 && sixty {
        60
    } else {
        59
    }
}

// Hours, minutes and seconds from a place on are those of a day.
#[tactic(auto, unfolding(crate::specs::Epoch::is_clock))]
fn is_clock(text: &[u8], at: usize, sixty: bool) -> bool
    requires { at < 50 }
    ensures { result ≡ is_clock text.now at sixty }
{
    let hour = two_at(text, at);
    let minute = two_at(text, at + 3);
    hour <= 23 && minute <= 59 && two_at(text, at + 6) <= last_second(hour, minute, sixty)
}

fn second_at(text: &[u8], at: usize) -> u64
    requires { at < 50 }
    ensures { result ≡ second_at text.now at }
{
    (two_at(text, at) * 60 + two_at(text, at + 3)) * 60 + two_at(text, at + 6)
}

#[tactic(auto, unfolding(crate::specs::Epoch::is_fraction))]
fn is_fraction(text: &[u8], at: usize) -> bool
    ensures { result ≡ is_fraction (drop at text.now) }
{
    match text.get(at) {
        Some(b'.') => only_digits(&text[at + 1..], 1, 9),
        Some(_) => false,
        None => true,
    }
}

// Nine digits of a fraction from a place on, those past the end 0.
fn nano_at(text: &[u8], at: usize) -> u64
    requires { at < 50 }
    ensures { result ≡ nano_at text.now at }
{
    two_at(text, at) * 10000000
        + two_at(text, at + 2) * 100000
        + two_at(text, at + 4) * 1000
        + two_at(text, at + 6) * 10
        + digit_at(text, at + 8)
}

fn year_at(text: &[u8]) -> u64
    ensures value { result ≡ year_at text.now }
    ensures small { result ≤ 229977 }
{
    two_at(text, 0) * 100 + two_at(text, 2)
}

// The instant of a day of the year, with the clock from a place on.
#[tactic(auto, unfolding(crate::specs::Epoch::timed_of))]
fn timed(text: &[u8], day: Option<u64>, at: usize, sixty: bool) -> Option<Instant>
    requires { IfSome day (λ day. day ≤ 366) × (at < 40) }
    ensures { result ≡ timed_of text.now day at sixty }
{
    let day = day?;
    let year = year_at(text);
    if year < 1 {
        return None;
    }
    if !is_clock(text, at, sixty) {
        return None;
    }
    if !is_fraction(text, at + 8) {
        return None;
    }
    let date = year * 1000 + day;
    let second = second_at(text, at);
    let nano = nano_at(text, at + 9);
    Some(Instant {
        day: date,
        second,
        nano,
    })
}

// The instant that an epoch names; whoever has one read says whether second 60 may stand.
#[tactic(auto, unfolding(crate::specs::Epoch::epoch_of, words::specs::Words::bytes))]
pub fn epoch_of(text: &[u8], sixty: bool) -> Option<Instant>
    ensures { result ≡ epoch_of text.now sixty }
{
    if has_shape(text, b"0000-00-00T00:00:00") {
        let day = month_day(is_leap(year_at(text)), two_at(text, 5), two_at(text, 8));
        return timed(text, day, 11, sixty);
    }
    if has_shape(text, b"0000-000T00:00:00") {
        let day = year_day(
            is_leap(year_at(text)),
            two_at(text, 5) * 10 + digit_at(text, 7),
        );
        return timed(text, day, 9, sixty);
    }
    None
}

// The first instant is before the second.
#[tactic(auto, unfolding(crate::specs::Epoch::is_before))]
pub fn is_before(a: Instant, b: Instant) -> bool
    ensures { result ≡ is_before a b }
{
    a < b
}
