// What a value's bytes say: numbers, integers, texts, the heading's version. Every public function answers for any bytes.
#![tactic(auto)]

ghost use Rattle.std.specs.Prelude.{◌≡◌, ◌+◌, ◌-◌, ◌<◌, ◌≤◌, ◌^◌, leb, length, drop};
ghost use Rattle.words.specs.Words.{is_digit};
ghost use Rattle.values.specs.Number.{digits, sign_len, unsigned, is_digits, is_exponent, ends_number, after_whole, is_number, digits_from, integer_top, is_integer, is_text, is_version};

use words::{Class, is_word, run_from};

// The digits.
#[derive(Clone, Copy)]
struct Digits;

impl Class for Digits {
    ghost has = { λ _ b. is_digit b };

    fn has(self, byte: u8) -> bool {
        byte.is_ascii_digit()
    }
}

// The place of the first byte at or after `from` that is no digit, or the text's end.
fn digits_end(text: &[u8], from: usize) -> usize
    ensures { result ≡ from + digits (drop from text.now) }
{
    run_from(text, from, Digits)
}

// How many digits stand first.
pub fn digits_of(text: &[u8]) -> usize
    ensures { result ≡ digits text.now }
{
    digits_end(text, 0)
}

// How many bytes the sign takes that stands first.
#[tactic(auto, unfolding(crate::specs::Number::sign_len))]
pub fn sign_of(text: &[u8]) -> usize
    ensures { result ≡ sign_len text.now }
{
    match text {
        [b'+' | b'-', ..] => 1,
        _ => 0,
    }
}

// What stands past the sign.
#[tactic(auto, using(crate::proofs::Laws::sign_le))]
pub fn unsigned(text: &[u8]) -> &[u8]
    ensures { result.now ≡ unsigned text.now }
{
    &text[sign_of(text)..]
}

// Nothing but digits, from `least` to `most` of them.
pub fn only_digits(text: &[u8], least: usize, most: usize) -> bool
    ensures { result ≡ is_digits least most text.now }
{
    let n = digits_of(text);
    n == text.len() && least <= n && n <= most
}

#[tactic(auto, unfolding(crate::specs::Number::is_exponent))]
fn is_exponent(text: &[u8]) -> bool
    ensures { result ≡ is_exponent text.now }
{
    match text {
        [b'E' | b'e', rest @ ..] => only_digits(unsigned(rest), 1, 3),
        _ => false,
    }
}

// What stands after n digits and m digits behind a period.
#[tactic(auto, unfolding(crate::specs::Number::ends_number))]
fn ends_number(text: &[u8], n: usize, m: usize) -> bool
    requires { n + m < 2 ^ 64 }
    ensures { result ≡ ends_number n m text.now }
{
    if text.is_empty() {
        return n + m <= 16;
    }
    n == 1 && m <= 15 && is_exponent(text)
}

// What stands after n digits. The walk is in the text itself: in the part behind the period it took a fifth more instructions of `is_number`.
#[tactic(auto, unfolding(crate::specs::Number::after_whole), using(crate::proofs::Laws::digits_le))]
fn after_whole(text: &[u8], n: usize) -> bool
    requires { n + length text.now < 2 ^ 64 }
    ensures { result ≡ after_whole n text.now }
{
    match text {
        [] => n <= 16,
        [b'.', ..] => {
            let end = digits_end(text, 1);
            1 < end && ends_number(&text[end..], n, end - 1)
        }
        _ => false,
    }
}

#[tactic(auto, unfolding(crate::specs::Number::is_number), using(crate::proofs::Laws::digits_le))]
pub fn is_number(text: &[u8]) -> bool
    ensures { result ≡ is_number text.now }
{
    let rest = unsigned(text);
    let n = digits_of(rest);
    1 <= n && after_whole(&rest[n..], n)
}

// The largest size that the sign allows.
#[tactic(auto, unfolding(crate::specs::Number::integer_top))]
fn integer_top(text: &[u8]) -> u64
    ensures value { result ≡ integer_top text.now }
    ensures small { result ≤ 2147483648 }
{
    match text {
        [b'-', ..] => 2147483648,
        _ => 2147483647,
    }
}

// What a byte counts as a digit: 0 below `0`.
pub fn digit(b: u8) -> u64
    ensures { result ≡ b - 48 }
{
    u64::from(b.saturating_sub(b'0'))
}

// The digits say at most `top`: the sum stops growing once it is past it.
#[tactic(auto, using(crate::proofs::Laws::sum_more, crate::proofs::Laws::sum_over, crate::proofs::Laws::sum_end))]
fn at_most(text: &[u8], top: u64) -> bool
    requires { top ≤ 2147483648 }
    ensures { result ≡ leb (digits_from 0 text.now) top }
{
    let mut value = 0;
    for b in text {
        value = value * 10 + digit(*b);
        if top < value {
            return false;
        }
    }
    true
}

#[tactic(auto, unfolding(crate::specs::Number::is_integer))]
pub fn is_integer(text: &[u8]) -> bool
    ensures { result ≡ is_integer text.now }
{
    let rest = unsigned(text);
    !rest.is_empty() && digits_of(rest) == rest.len() && at_most(rest, integer_top(text))
}

pub fn is_text(text: &[u8]) -> bool
    ensures { result ≡ is_text text.now }
{
    !text.is_empty()
}

#[tactic(auto, unfolding(words::specs::Words::bytes))]
pub fn is_version(text: &[u8]) -> bool
    ensures { result ≡ is_version text.now }
{
    is_word(text, b"1.0")
}
