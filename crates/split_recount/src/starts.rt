//! Where the two ranges of a hunk start.

ghost use Rattle.std.specs.Prelude.{◌≡◌, ◌+◌, ◌-◌, ◌<◌, ◌≤◌, ◌^◌, ◌==◌, ℕ, List, if◌then◌else◌};
ghost use Rattle.hunk_core.specs.PlainHunk.{Marked};
ghost use Rattle.unified_form.specs.Grammar.{counts_of};
ghost use Rattle.split_recount.specs.Recounted.{unplaced, one_if_none, less, true_line};
ghost use Rattle.split_recount.specs.Measured.{left_of};
ghost use Rattle.split_recount.specs.Walking.{Says, written};

use crate::body::Sides;
use crate::ranges::{Range, are_large};
use hunk_core::BadKind;

/// A range that begins at this line starts there, and an empty one at the line in front.
fn old_start(first: u64, count: u64) -> u64
    ensures is { result ≡ (if count == 0 then first - 1 else first) }
    ensures low { result ≤ first }
{
    if count == 0 {
        first.saturating_sub(1)
    } else {
        first
    }
}

/// An empty range stands behind its start.
fn base(start: u64, count: u64) -> u64
    requires { start ≤ 2 ^ 32 }
    ensures { result ≡ (if count == 0 then start + 1 else start) }
{
    if count == 0 { start + 1 } else { start }
}

/// The new start from the old range, the new count, and the lines of the earlier hunks.
fn new_start(old: Range, count: u64, earlier: Sides) -> Option<u64>
    requires start { old.start ≤ 2 ^ 32 }
    requires earlier { (earlier.old < 2 ^ 32) × (earlier.new < 2 ^ 32) }
    ensures { result ≡ less ((if old.count == 0 then old.start + 1 else old.start) + earlier.new) (earlier.old + one_if_none count) }
{
    let wanted = base(old.start, old.count) + earlier.new;
    let taken = earlier.old + u64::from(count == 0);
    if wanted < taken {
        None
    } else {
        Some(wanted - taken)
    }
}

/// The ranges of a hunk whose old range begins at this line, with so many lines, behind so many of earlier hunks.
pub fn true_ranges(first: u64, sides: Sides, earlier: Sides) -> Result<(Range, Range), BadKind>
    requires first { first ≤ 2 ^ 32 }
    requires earlier { (earlier.old < 2 ^ 32) × (earlier.new < 2 ^ 32) }
    ensures { (body : List Marked) (rest : List ℕ) → counts_of body ≡ left_of sides → Says (λ x. written x.0 x.1 rest) result (true_line (left_of earlier) (unplaced first body) rest) }
{
    let old = Range {
        start: old_start(first, sides.old),
        count: sides.old,
    };
    let Some(start) = new_start(old, sides.new, earlier) else {
        return Err(BadKind::NumberTooLarge);
    };
    let new = Range {
        start,
        count: sides.new,
    };
    if are_large(old, new) {
        return Err(BadKind::NumberTooLarge);
    }
    Ok((old, new))
}
