// Numbers in decimal, and addresses, which are four of them. Read by hand: `parse` takes leading zeros and a sign, and wants the
// end of the number found first, while here text goes on behind it, and where reading stops is part of the answer.
ghost use Rattle.std.specs.Prelude.{◌≡◌, ◌+◌, ◌*◌, ◌<◌, ◌≤◌, IfSome, length, Ok};
ghost use Rattle.trace.specs.Digits.{decimal_digit_of};
ghost use Rattle.trace.specs.Numbers.{digits_of, proper, upto, within, decimal, dotted, address};

use crate::digit::digit;

// A number that was read: its value and how many characters it takes.
#[derive(Clone, Copy, Debug, PartialEq, Eq)]
pub(crate) struct Number {
    pub(crate) value: u64,
    pub(crate) len: usize,
}

// The dot between the numbers of an address.
pub(crate) const DOT: u8 = b'.';

// The value of a decimal digit.
#[tactic(auto, unfolding(crate::specs::Digits::decimal_digit_of))]
fn decimal_digit(c: u8) -> Option<u8>
    ensures value { result ≡ decimal_digit_of c }
    ensures below { IfSome result (λ d. d < 10) }
{
    digit(c).filter(|d| *d < 10)
}

// Whether the digits that a text begins with write a number: there is one, and no zero leads others.
fn is_proper(text: &[u8]) -> bool
    ensures { result ≡ proper (digits_of text.now) }
{
    match text {
        [] => false,
        [only] => decimal_digit(*only).is_some(),
        [zero, next, ..] if *zero == b'0' => decimal_digit(*next).is_none(),
        [first, ..] => decimal_digit(*first).is_some(),
    }
}

// A number with one digit more, if it is at most `most`.
fn with_digit(value: u64, d: u8, most: u64) -> Option<u64>
    requires { d < 10 }
    ensures { result ≡ upto most (value * 10 + d) }
{
    value
        .checked_mul(10)?
        .checked_add(u64::from(d))
        .filter(|v| *v <= most)
}

// The number of the digits that a text begins with, if it is at most `most`.
fn digits_within(text: &[u8], most: u64) -> Option<Number>
    ensures { result ≡ within most (digits_of text.now) }
{
    let mut value: u64 = 0;
    for (len, c) in text.iter().enumerate() {
        let Some(d) = decimal_digit(*c) else {
            return Some(Number { value, len });
        };
        value = with_digit(value, d, most)?;
    }
    Some(Number {
        value,
        len: text.len(),
    })
}

// The number of at most `most` that a text begins with.
#[tactic(auto, unfolding(crate::specs::Numbers::decimal))]
pub(crate) fn decimal(text: &[u8], most: u64) -> Option<Number>
    ensures { result ≡ decimal most text.now }
{
    if is_proper(text) {
        digits_within(text, most)
    } else {
        None
    }
}

// A dot and one number more, behind what was read of an address; else where reading stops.
fn dotted(text: &[u8], high: Number) -> Result<Number, usize>
    requires value { high.value ≤ 16777215 }
    requires len { high.len ≤ length text.now }
    ensures { result ≡ dotted text.now (Ok high) }
{
    let Some(rest) = text[high.len..].strip_prefix(&[DOT]) else {
        return Err(high.len);
    };
    let at = high.len + 1;
    let Some(low) = decimal(rest, 255) else {
        return Err(at);
    };
    Ok(Number {
        value: high.value * 256 + low.value,
        len: at + low.len,
    })
}

// The address that a text begins with, as a number of 32 bits; else where reading stops.
pub(crate) fn address(text: &[u8]) -> Result<Number, usize>
    ensures { result ≡ address text.now }
{
    let Some(first) = decimal(text, 255) else {
        return Err(0);
    };
    let second = dotted(text, first)?;
    let third = dotted(text, second)?;
    dotted(text, third)
}
