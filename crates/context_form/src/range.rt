//! The range line of a part.

ghost use Rattle.std.specs.Prelude.{◌≡◌, ◌<◌, ◌≤◌, ◌^◌, ◌∷◌, IfOk, IfSome};
ghost use Rattle.num_text.specs.NumberRanges.{HasSmallEnds};
ghost use Rattle.context_form.specs.Ranges.{before_range, behind_range, numbers_at, is_bad_range, is_too_large, stated, checked, range_line, most, is_count, Fits};

use crate::numbers::read_spaced;
use hunk_core::{BadKind, Side, after_prefix};
use num_text::NumberRange;

/// What a range line states: a start, and how many lines there are. Without a count the part has one
/// line or none.
#[derive(Clone, Copy)]
pub struct Stated {
    pub start: u64,
    pub count: Option<u64>,
}

pub fn before(side: Side) -> &'static [u8]
    ensures { result.now ≡ before_range side }
{
    match side {
        Side::Forward => b"*** ",
        Side::Reversed => b"--- ",
    }
}

pub fn behind(side: Side) -> &'static [u8]
    ensures { result.now ≡ 32 ∷ behind_range side }
{
    match side {
        Side::Forward => b" ****",
        Side::Reversed => b" ----",
    }
}

/// What stands behind the numbers and their blanks.
fn end(side: Side) -> &'static [u8]
    ensures { result.now ≡ behind_range side }
{
    match side {
        Side::Forward => b"****",
        Side::Reversed => b"----",
    }
}

/// The numbers between the stars or the dashes of this part.
#[tactic(auto, unfolding(crate::specs::Ranges::numbers_at))]
fn numbers_of(line: &[u8], side: Side) -> Option<NumberRange>
    ensures exact { result ≡ numbers_at side line.now }
    ensures small { IfSome result HasSmallEnds }
{
    let rest = after_prefix(line, before(side))?;
    let (range, rest) = read_spaced(rest)?;
    after_prefix(rest, end(side))?;
    Some(range)
}

/// Whether two numbers are turned round, or speak of lines from 0 on.
fn is_bad(range: NumberRange) -> bool
    ensures { result ≡ is_bad_range range }
{
    if range.is_single {
        return false;
    }
    range.is_turned || range.first == 0
}

const MAX: u64 = 4_294_967_295;

fn is_over(range: NumberRange) -> bool
    requires { HasSmallEnds range }
    ensures { result ≡ is_too_large range }
{
    if range.is_single {
        return range.first > MAX;
    }
    range.first + (range.last.saturating_sub(range.first) + 1) > MAX
}

fn stated_by(range: NumberRange) -> Stated
    requires { HasSmallEnds range }
    ensures { result ≡ stated range }
{
    if range.is_single {
        return Stated {
            start: range.first,
            count: None,
        };
    }
    Stated {
        start: range.first,
        count: Some(range.last.saturating_sub(range.first) + 1),
    }
}

fn checked_range(range: NumberRange, least: u64) -> Result<Stated, BadKind>
    requires { HasSmallEnds range }
    ensures fits { IfOk result Fits }
    ensures exact { result ≡ checked least range }
{
    if is_bad(range) {
        return Err(BadKind::Range);
    }
    if is_over(range) {
        return Err(BadKind::NumberTooLarge);
    }
    if range.first < least {
        return Err(BadKind::HunkOrder);
    }
    Ok(stated_by(range))
}

/// What the range line of a part states, which starts at `least` or later, or why it is none.
pub fn stated_of(line: &[u8], side: Side, least: u64) -> Result<Stated, BadKind>
    ensures fits { IfOk result Fits }
    ensures exact { result ≡ range_line side least line.now }
{
    match numbers_of(line, side) {
        None => Err(BadKind::Range),
        Some(range) => checked_range(range, least),
    }
}

impl Stated {
    /// How many lines the part has at most.
    pub fn most(self) -> u64
        ensures { result ≡ most self }
    {
        match self.count {
            Some(count) => count,
            None if self.start == 0 => 0,
            None => 1,
        }
    }

    /// Whether a part with so many lines is as stated.
    pub fn is_count(self, lines: u64) -> bool
        ensures { result ≡ is_count self lines }
    {
        match self.count {
            Some(count) => lines == count,
            None if self.start == 0 => lines == 0,
            None => lines < 2,
        }
    }
}
