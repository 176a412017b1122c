//! By how many lines the placed hunks move those behind them.

ghost use Rattle.std.specs.Prelude.{◌≡◌, ◌<◌, ◌^◌, ℕ, List, Bool, length, take, pos, negsuc, ◌≤ℤ◌, ◌-ℤ◌};
ghost use Rattle.std.specs.List.{zip};
ghost use Rattle.hunk_core.specs.PlainHunk.{PlainHunk, hunk_of};
ghost use Rattle.hunk_core.specs.Turned.{turned};
ghost use Rattle.hunk_place.specs.Verdicts.{adds, drops, at_start, verdicts};
ghost use Rattle.reject_text.specs.Starts.{placed_adds, placed_drops, net, state_behind, moved_start};

use hunk_core::{Hunk, Side, Verdict};

/// The start of a side with so many lines, behind hunks that added `net` lines.
pub fn moved_start(start: u32, net: i64, count: u32) -> u32
    requires low { negsuc (2 ^ 40) ≤ℤ net }
    requires high { net ≤ℤ pos (2 ^ 40) }
    ensures { result ≡ moved_start start net count }
{
    let least: u32 = if count == 0 { 0 } else { 1 };
    let greatest = u32::MAX - count;
    let at = i64::from(start) + net;
    if at < i64::from(least) {
        least
    } else if at > i64::from(greatest) {
        greatest
    } else {
        at as u32
    }
}

/// The lines that a hunk adds, less those that it drops.
fn growth(hunk: &Hunk, side: Side) -> i64
    requires { length hunk.now.body.items < 2 ^ 32 }
    ensures is { (text : List ℕ) → result ≡ pos (adds (turned side (hunk_of text hunk.now))) -ℤ pos (drops (turned side (hunk_of text hunk.now))) }
    ensures high { result ≤ℤ pos (length hunk.now.body.items) }
    ensures low { (pos 0 -ℤ pos (length hunk.now.body.items)) ≤ℤ result }
{
    i64::from(hunk.count(side.other())) - i64::from(hunk.count(side))
}

/// The lines that a hunk adds, less those that it drops, where it has a place; else 0.
pub fn placed_growth(hunk: &Hunk, verdict: Verdict, side: Side) -> i64
    requires { length hunk.now.body.items < 2 ^ 32 }
    ensures is { (text : List ℕ) → result ≡ pos (placed_adds (turned side (hunk_of text hunk.now), verdict)) -ℤ pos (placed_drops (turned side (hunk_of text hunk.now), verdict)) }
    ensures high { result ≤ℤ pos (length hunk.now.body.items) }
    ensures low { (pos 0 -ℤ pos (length hunk.now.body.items)) ≤ℤ result }
{
    match verdict {
        Verdict::At { .. } => growth(hunk, side),
        Verdict::Untried | Verdict::Ignored | Verdict::Nowhere => 0,
    }
}

/// The net in front of a hunk is the one that placing the hunks there came to.
pub fn nets_laws()
    ensures { (lines : List (List ℕ)) (fuzz : ℕ) (loose : Bool) (hs : List PlainHunk) (n : ℕ) → net (take n (zip hs (verdicts lines fuzz loose at_start hs))) ≡ (state_behind lines fuzz loose at_start (take n hs)).net }
{}
