//! The front of a text.
ghost use Rattle.std.specs.Prelude.{◌≡◌, ◌^◌, ◌<◌, IfSome, option_map, length};
ghost use Rattle.std.specs.Option.{option_copied};
ghost use Rattle.num_text.specs.Numbers.{decimal};
ghost use Rattle.series_stack.specs.Texts.{behind, cut, first_number, in_digits};

use memchr::memchr;
use num_text::{Number, put_number, read_number};

/// What stands behind this front, where the text begins so.
pub fn behind<'a>(text: &'a [u8], front: &[u8]) -> Option<&'a [u8]>
    ensures { option_copied result ≡ behind front.now text.now }
{
    text.strip_prefix(front)
}

/// What stands before the first line feed, and behind it.
pub fn cut(text: &[u8]) -> Option<(&[u8], &[u8])>
    ensures { option_map (λ x. (x.0.now, x.1.now)) result ≡ cut text.now }
{
    match memchr(b'\n', text) {
        Some(end) => Some((&text[..end], &text[end + 1..])),
        None => None,
    }
}

// What stands behind a number's digits, where the text begins with these.
fn behind_digits(text: &[u8], value: u32) -> Option<&[u8]>
    ensures { option_copied result ≡ behind (decimal value) text.now }
{
    let mut digits = [0; 20];
    let count = put_number(u64::from(value), &mut digits);
    behind(text, &digits[..count])
}

// A number and what stands behind it, where the text begins with its digits.
fn in_digits(text: &[u8], value: u32) -> Option<(u32, &[u8])>
    ensures { option_map (λ x. (x.0, x.1.now)) result ≡ in_digits text.now value }
{
    match behind_digits(text, value) {
        Some(rest) => Some((value, rest)),
        None => None,
    }
}

/// The number at the front, below 2^32 and in digits without leading zeros, and what stands behind it.
pub fn first_number(text: &[u8]) -> Option<(u32, &[u8])>
    ensures { option_map (λ x. (x.0, x.1.now)) result ≡ first_number text.now }
{
    match read_number(text, 0) {
        Number::Value { value, .. } => in_digits(text, value),
        Number::NoDigit => None,
        Number::TooLarge => None,
    }
}
