// A number's text said as a whole number of units of a decimal place, rounded to nearest, halves away from zero.
#![tactic(auto)]

ghost use Rattle.std.specs.Prelude.{◌≡◌, true, ◌+◌, ◌*◌, ◌^◌, ◌<◌, ◌≤◌, length, drop};
ghost use Rattle.values.specs.Number.{digits, unsigned, is_number, digits_from};
ghost use Rattle.rounding.specs.Exact.{is_minus, read_on, behind, size_by, size_behind, size_of};
ghost use Rattle.rounding.specs.Say.{rounded, signed, said_of, say_of};

use reasons::Reason;
use values::{digit, digits_of, is_number, unsigned};

// The largest size that is said.
const LIMIT: u64 = 1_000_000_000_000_000;

// A size: its digits as a whole number, the power of ten that multiplies it, and the one that divides it.
#[derive(Clone, Copy)]
struct Size {
    digits: u64,
    up: u64,
    down: u64,
}

// The size with its sign; a zero has none.
#[tactic(auto, using(crate::proofs::Laws::plus_said, crate::proofs::Laws::minus_said))]
fn signed(minus: bool, size: u64) -> i64
    requires { size < 2 ^ 63 }
    ensures { result ≡ signed minus size }
{
    let units = size as i64; // what it requires is that no bit is lost
    if minus { -units } else { units }
}

// What is said of a size, rounded already.
#[tactic(auto, unfolding(crate::specs::Say::said_of))]
fn say_size(minus: bool, size: u64) -> Result<i64, Reason>
    ensures { result ≡ said_of minus size }
{
    if LIMIT < size {
        return Err(Reason::TooBig);
    }
    Ok(signed(minus, size))
}

// The size times ten to the places; it stops growing once it is past the limit.
#[tactic(auto, using(crate::proofs::Rounds::raise_more))]
fn raise(minus: bool, size: u64, places: u64) -> Result<i64, Reason>
    ensures { result ≡ said_of minus (size * 10 ^ places) }
{
    let mut v = size;
    for _ in 0..places {
        if LIMIT < v {
            return Err(Reason::TooBig);
        }
        v *= 10;
    }
    say_size(minus, v)
}

// The size over ten to the places and one more, rounded: every place but the last is cut off, and the last decides.
#[tactic(auto, using(crate::proofs::Rounds::half_down, crate::proofs::Rounds::half_up, crate::proofs::Rounds::cut_more))]
fn lower(minus: bool, size: u64, places: u64) -> Result<i64, Reason>
    ensures { result ≡ said_of minus (rounded size (10 ^ (places + 1))) }
{
    let mut v = size;
    for _ in 0..places {
        v /= 10;
    }
    if v % 10 < 5 {
        say_size(minus, v / 10)
    } else {
        say_size(minus, v / 10 + 1)
    }
}

// No power of ten is made: what multiplies and what divides cancel first.
#[tactic(auto, using(crate::proofs::Rounds::scaled_down, crate::proofs::Rounds::scaled_up))]
fn scale(minus: bool, digits: u64, up: u64, down: u64) -> Result<i64, Reason>
    ensures { result ≡ said_of minus (rounded (digits * 10 ^ up) (10 ^ down)) }
{
    if up < down {
        return lower(minus, digits, down - up - 1);
    }
    raise(minus, digits, up - down)
}

// What the digits say, after v.
#[tactic(auto, using(values::proofs::Laws::sum_more, values::proofs::Laws::sum_ten, values::proofs::Laws::sum_least, values::proofs::Laws::sum_all))]
fn read_digits(v: u64, text: &[u8]) -> u64
    requires { digits_from v text.now < 2 ^ 64 }
    ensures { result ≡ digits_from v text.now }
{
    let mut value = v;
    for b in text {
        value = value * 10 + digit(*b);
    }
    value
}

// The digits that stand first, read on after v.
#[tactic(auto, using(values::proofs::Laws::digits_taken))]
fn read_first(v: u64, text: &[u8]) -> u64
    requires { read_on v text.now < 2 ^ 64 }
    ensures { result ≡ read_on v text.now }
{
    read_digits(v, &text[..digits_of(text)])
}

// What stands behind those digits and one byte more.
#[tactic(auto, using(values::proofs::Laws::digits_le))]
fn behind(text: &[u8]) -> &[u8]
    ensures { result.now ≡ behind text.now }
{
    match &text[digits_of(text)..] {
        [_, rest @ ..] => rest,
        nothing => nothing,
    }
}

// Whether `-` stands first, in a number or in its exponent.
fn is_minus(text: &[u8]) -> bool
    ensures { result ≡ is_minus text.now }
{
    matches!(text, [b'-', ..])
}

// The powers of ten, by what stands behind the `E`.
fn powers(exponent: &[u8], digits: u64, places: u64) -> Size
    requires { places + digits_from 0 (unsigned exponent.now) < 2 ^ 64 }
    ensures { result ≡ size_by digits places exponent.now }
{
    let power = read_digits(0, unsigned(exponent));
    let (up, down) = if is_minus(exponent) {
        (0, places + power)
    } else {
        (power, places)
    };
    Size { digits, up, down }
}

// The size, by the digits before the period and what stands behind it.
fn size_behind(text: &[u8], whole: u64) -> Size
    requires text_bound { read_on whole text.now < 2 ^ 64 }
    requires powers { digits text.now + digits_from 0 (unsigned (behind text.now)) < 2 ^ 64 }
    ensures { result ≡ size_behind whole text.now }
{
    let digits = read_first(whole, text);
    powers(behind(text), digits, digits_of(text) as u64) // a usize has no u64::from
}

// A number's size.
#[tactic(auto, using(crate::proofs::Numbers::whole_fits, crate::proofs::Numbers::digits_fit, crate::proofs::Numbers::power_fits))]
fn size_of(text: &[u8]) -> Size
    requires { is_number text.now ≡ true }
    ensures { result ≡ size_of text.now }
{
    let rest = unsigned(text);
    size_behind(behind(rest), read_first(0, rest))
}

// The decimals are checked before the text, and the text before the size.
#[tactic(auto, using(crate::proofs::Laws::say_places, crate::proofs::Laws::say_value, crate::proofs::Laws::say_units, crate::proofs::Numbers::up_small))]
pub fn say_number(text: &[u8], decimals: u32) -> Result<i64, Reason>
    ensures { result ≡ say_of text.now decimals }
{
    if 6 < decimals {
        return Err(Reason::Places);
    }
    if !is_number(text) {
        return Err(Reason::Value);
    }
    let size = size_of(text);
    scale(
        is_minus(text),
        size.digits,
        size.up + u64::from(decimals),
        size.down,
    )
}
