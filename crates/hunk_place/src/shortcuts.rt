//! Two short ways of a search: a hunk that stands at its guess, and one that can't stand anywhere.

ghost use Rattle.std.specs.Prelude.{◌≡◌, ◌+◌, ◌<◌, ◌≤◌, ℕ, List, max, pos, true, IfOk, IfErr, IfSome, Some, None};
ghost use Rattle.line_store.specs.Store.{Keeps, HasCause};
ghost use Rattle.hunk_core.specs.Sides.{taken_count};
ghost use Rattle.hunk_core.specs.Turned.{IsLawful};
ghost use Rattle.hunk_place.specs.Taken.{taken_lines};
ghost use Rattle.hunk_place.specs.Placing.{first_fit};
ghost use Rattle.hunk_place.specs.Numbered.{search_with};

use crate::first::Numbers;
use crate::passing::first_line;
use crate::pattern::Pattern;
use hunk_core::{Hunk, Side};
use line_store::{Half, LineFault, LineStore};

/// The guess, where the hunk fits there without fuzz and has as many lines of context in front as behind.
pub fn guess_fits<S: LineStore>(
    store: &mut S,
    text: &[u8],
    hunk: &Hunk,
    side: Side,
    numbers: &Numbers,
    loose: bool,
) -> Result<Option<u64>, LineFault>
    requires lawful { IsLawful text.now hunk.now }
    requires counted { numbers.now.old_count ≡ taken_count side hunk.now.body.items }
    ensures value { IfOk result (λ found. IfSome found (λ w. (lines : List (List ℕ)) → (S.seen store.old).told ≡ Some lines → first_fit (search_with lines (taken_lines text.now side hunk.now) loose numbers.now) 0 ≡ Some w)) }
    ensures within { IfOk result (λ found. IfSome found (λ w. (numbers.now.consumed < w) × (w + numbers.now.old_count ≤ (S.seen store.old).count + 1))) }
    ensures keeps { Keeps (S.seen store.old) (S.seen store.new) }
    ensures cause { IfErr result (λ e. HasCause e (S.seen store.old) (S.seen store.new)) }
{
    let count = store.count();
    if numbers.pre != numbers.post {
        return Ok(None);
    }
    let Some(at) = place_in(numbers.guess, numbers.consumed, count) else {
        return Ok(None);
    };
    if numbers.old_count as u64 > count + 1 - at {
        return Ok(None);
    }
    let pattern = Pattern::new(text, hunk, side, 0, 0, loose);
    if pattern.fits_at(store, at, Half::First)? {
        return Ok(Some(at));
    }
    Ok(None)
}

/// The guess as a place, if it lies behind what was consumed, and no further than the last line.
fn place_in(guess: i64, consumed: u64, count: u64) -> Option<u64>
    ensures is { IfSome result (λ at. guess ≡ pos at) }
    ensures low { IfSome result (λ at. consumed < at) }
    ensures high { IfSome result (λ at. at ≤ count) }
{
    if guess < 0 {
        return None;
    }
    let at = guess as u64;
    if at <= consumed {
        return None;
    }
    if at > count {
        return None;
    }
    Some(at)
}

/// Whether a line that is compared with any fuzz up to `most` stands nowhere behind what was consumed. No place fits then. The
/// line is the middle one of those that every fuzz compares.
pub fn fits_nowhere<S: LineStore>(
    store: &mut S,
    text: &[u8],
    hunk: &Hunk,
    side: Side,
    numbers: &Numbers,
    most: u32,
    loose: bool,
) -> Result<bool, LineFault>
    requires lawful { IsLawful text.now hunk.now }
    requires counted { numbers.now.old_count ≡ taken_count side hunk.now.body.items }
    requires consumed { numbers.now.consumed ≤ (S.seen store.old).count }
    requires fuzz { most ≤ max numbers.now.pre numbers.now.post }
    ensures value { IfOk result (λ yes. yes ≡ true → (lines : List (List ℕ)) → (S.seen store.old).told ≡ Some lines → (k : ℕ) → k ≤ most → first_fit (search_with lines (taken_lines text.now side hunk.now) loose numbers.now) k ≡ None) }
    ensures keeps { Keeps (S.seen store.old) (S.seen store.new) }
    ensures cause { IfErr result (λ e. HasCause e (S.seen store.old) (S.seen store.new)) }
{
    let count = store.count();
    let context = numbers.pre.max(numbers.post);
    let front = most.saturating_sub(context - numbers.pre);
    let back = most.saturating_sub(context - numbers.post);
    let middle = middle_of(front, numbers.old_count.saturating_sub(back));
    let pattern = Pattern::new(text, hunk, side, middle, back, loose);
    match first_line(&pattern) {
        Some(line) => {
            let from = numbers.consumed + 1 + pattern.front as u64;
            let found = store.first_alike(from, count + 1, line, Half::First)?;
            Ok(found.is_none())
        }
        None => Ok(false),
    }
}

/// Half way from `front` to `last`.
fn middle_of(front: u32, last: u32) -> u32
    ensures { front ≤ result }
{
    front + last.saturating_sub(front) / 2
}
