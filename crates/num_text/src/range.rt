//! A number, or two with a comma between them, as commands of `diff` write the lines that they speak of.

ghost use Rattle.std.specs.Prelude.{◌≡◌, ◌+◌, ◌-◌, ◌<◌, ◌≤◌, ◌^◌, length, drop, nat_lt, slice_index_or, IfSome, if◌then◌else◌, true};
ghost use Rattle.num_text.specs.Numbers.{value_after};
ghost use Rattle.num_text.specs.NumberRanges.{IsReadAs, capped_at, range_at, HasSmallEnds, place_value};

use crate::{Number, digits_end, read_number};

/// Two numbers, or one that counts as both. A number above the greatest `u32` stands as one more
/// than that.
#[derive(Clone, Copy)]
pub struct NumberRange {
    pub first: u64,
    pub last: u64,
    /// There is one number alone.
    pub is_single: bool,
    /// The second number is below the first, however large both are.
    pub is_turned: bool,
}

/// A number, which counts as 2^32 where it is larger, and what stands after it.
pub fn read_capped(bytes: &[u8]) -> Option<(u64, &[u8])>
    ensures exact { IsReadAs (λ x. (x.0, x.1.now)) result (capped_at bytes.now) }
    ensures small { IfSome result (λ x. x.0 ≤ 2 ^ 32) }
{
    match read_number(bytes, 0) {
        Number::Value { value, end } => Some((u64::from(value), &bytes[end..])),
        Number::NoDigit => None,
        Number::TooLarge => Some((1 << 32, &bytes[digits_end(bytes, 0)..])),
    }
}

/// The digit that stands so far before the end of a run; in front of the run it is 0.
fn digit_before(bytes: &[u8], end: usize, far: usize) -> u8
    requires high { end ≤ length bytes.now }
    requires some { 0 < far }
    ensures { result ≡ place_value bytes.now end far }
{
    if far > end {
        0
    } else {
        bytes[end - far].saturating_sub(b'0')
    }
}

/// Whether the number at the front of the first is below that of the second, however large both are.
pub fn is_below(bytes: &[u8], others: &[u8]) -> bool
    ensures { result ≡ nat_lt (value_after 0 bytes.now) (value_after 0 others.now) }
{
    let end = digits_end(bytes, 0);
    let other_end = digits_end(others, 0);
    let mut far = if end < other_end { other_end } else { end };
    while far > 0 {
        let digit = digit_before(bytes, end, far);
        let other = digit_before(others, other_end, far);
        if digit != other {
            return digit < other;
        }
        far -= 1;
    }
    false
}

/// The range at the front, and what stands after it.
#[tactic(auto, unfolding(crate::specs::NumberRanges::range_at))]
pub fn read_range(bytes: &[u8]) -> Option<(NumberRange, &[u8])>
    ensures exact { IsReadAs (λ x. (x.0, x.1.now)) result (range_at bytes.now) }
    ensures small { IfSome result (λ x. HasSmallEnds x.0) }
{
    let (first, rest) = read_capped(bytes)?;
    match rest {
        [b',', more @ ..] => {
            let (last, rest) = read_capped(more)?;
            let range = NumberRange {
                first,
                last,
                is_single: false,
                is_turned: is_below(more, bytes),
            };
            Some((range, rest))
        }
        _ => {
            let range = NumberRange {
                first,
                last: first,
                is_single: true,
                is_turned: false,
            };
            Some((range, rest))
        }
    }
}
