//! Whether kept hunks can be written as commands.

ghost use Rattle.std.specs.Prelude.{◌≡◌, ◌+◌, ◌≤◌, ◌^◌, ◌||◌, ◌++◌, ◌∷◌, ℕ, List, [], false, length, nat_lt, slice_index_or, ◌<◌, ◌&&◌, if◌then◌else◌};
ghost use Rattle.hunk_core.specs.PlainHunk.{body_of, bytes_at, marked_of};
ghost use Rattle.hunk_core.specs.Rules.{lacks_inner_end};
ghost use Rattle.hunk_core.specs.Turned.{IsLawful, LiesIn};
ghost use Rattle.read_file_patch.specs.PlainPatch.{hunks};
ghost use Rattle.hunk_core.specs.Rules.{is_too_large};
ghost use Rattle.format_convert.specs.Blocks.{blocks_of, hunk_edits};
ghost use Rattle.format_convert.specs.Commands.{range_start};
ghost use Rattle.format_convert.specs.Fitting.{changed_lines, falls_back, has_open, has_large_command, has_open_line, is_own, is_unfit, own_lines};
ghost use Rattle.format_convert.specs.Seeing.{Sees, is_large, is_over_ed};
ghost use Rattle.format_convert.specs.Walk.{IsKept, IsSmall, hunk_at, kept_flags, left_hunks, new_start, own_base, own_count};

use crate::block::{Block, next_block};
use crate::edits::hunk_start;
use crate::forms::is_ed;
use crate::kept::{Kept, is_kept};
use crate::lines::line_at;
use crate::normal::{Net, net_behind, new_first, no_net};
use crate::numbers::range_start;
use hunk_core::{Form, Hunk, HunkLine, Mark, Side, has_feed};

/// Whether a hunk is kept and stands before line `end`.
fn stands_before(kept: Kept, hunk: usize, end: u64) -> bool
    requires kept { IsKept kept }
    requires within { hunk < length kept.hunks.now }
    ensures { result ≡ (slice_index_or (kept_flags kept.entry) hunk false && nat_lt (own_base kept.entry hunk) end) }
{
    if !is_kept(kept, hunk) {
        return false;
    }
    let own = &kept.hunks[hunk];
    own.base(Side::Forward) < end
}

/// The line behind a hunk where it is kept, else the one that was there before.
fn end_behind(kept: Kept, hunk: usize, end: u64) -> u64
    requires kept { IsKept kept }
    requires within { hunk < length kept.hunks.now }
    ensures { result ≡ (if slice_index_or (kept_flags kept.entry) hunk false then own_base kept.entry hunk + own_count kept.entry hunk else end) }
{
    if !is_kept(kept, hunk) {
        return end;
    }
    let own = &kept.hunks[hunk];
    own.base(Side::Forward) + u64::from(own.count(Side::Forward))
}

/// Whether a kept hunk stands before the end of the old lines of the kept hunk in front of it.
fn falls_back(kept: Kept) -> bool
    requires { IsKept kept }
    ensures { result ≡ falls_back (left_hunks kept.entry) }
{
    let mut end = 0;
    for hunk in 0..kept.hunks.len() {
        if stands_before(kept, hunk, end) {
            return true;
        }
        end = end_behind(kept, hunk, end);
    }
    false
}

/// What was seen of the lines that hunks drop, or of those that they add.
#[derive(Clone, Copy)]
struct OpenEnds {
    /// The last one has no line feed.
    open_end: bool,
    /// One that isn't the last has none.
    open_inside: bool,
}

/// The line is dropped, or of the other side it is added.
fn is_own(mark: Mark, side: Side) -> bool
    ensures { result ≡ is_own side mark }
{
    match (mark, side) {
        (Mark::Drop, Side::Forward) | (Mark::Add, Side::Reversed) => true,
        (Mark::Keep, _) | (Mark::Add, Side::Forward) | (Mark::Drop, Side::Reversed) => false,
    }
}

/// One line more.
fn seen_one(seen: OpenEnds, is_open: bool) -> OpenEnds
    ensures end { result.open_end ≡ is_open }
    ensures inside { result.open_inside ≡ (seen.open_inside || seen.open_end) }
{
    OpenEnds {
        open_end: is_open,
        open_inside: seen.open_inside || seen.open_end,
    }
}

fn seen_line(seen: OpenEnds, text: &[u8], line: HunkLine, side: Side) -> OpenEnds
    requires { LiesIn text.now line.span }
    ensures { (before : List (List ℕ)) → Sees seen before → Sees result (before ++ own_lines side (marked_of text.now line ∷ [])) }
{
    if !is_own(line.mark, side) {
        return seen;
    }
    seen_one(seen, !has_feed(line_at(text, line.span)))
}

fn seen_hunk(seen: OpenEnds, text: &[u8], hunk: &Hunk, side: Side) -> OpenEnds
    requires { IsLawful text.now hunk.now }
    ensures { (before : List (List ℕ)) → Sees seen before → Sees result (before ++ own_lines side (body_of text.now hunk.now.body.items)) }
{
    let mut seen = seen;
    for i in 0..hunk.body.len() {
        seen = seen_line(seen, text, hunk.body[i], side);
    }
    seen
}

fn seen_if_kept(seen: OpenEnds, kept: Kept, hunk: usize, side: Side) -> OpenEnds
    requires kept { IsKept kept }
    requires within { hunk < length kept.hunks.now }
    ensures { (before : List (List ℕ)) → Sees seen before → Sees result (before ++ changed_lines side (hunk_at kept.entry hunk)) }
{
    if !is_kept(kept, hunk) {
        return seen;
    }
    seen_hunk(seen, kept.set.text(), &kept.hunks[hunk], side)
}

/// The lines of this side that the kept hunks change.
fn seen_in(kept: Kept, side: Side) -> OpenEnds
    requires { IsKept kept }
    ensures { Sees result (changed_lines side (left_hunks kept.entry)) }
{
    let mut seen = OpenEnds {
        open_end: false,
        open_inside: false,
    };
    for hunk in 0..kept.hunks.len() {
        seen = seen_if_kept(seen, kept, hunk, side);
    }
    seen
}

fn has_open_line(kept: Kept, form: Form) -> bool
    requires { IsKept kept }
    ensures { result ≡ has_open_line form (left_hunks kept.entry) }
{
    let adds = seen_in(kept, Side::Reversed);
    let drops = seen_in(kept, Side::Forward);
    either_open(adds, drops, is_ed(form))
}

/// Whether a line lacks its line feed where it can't: one that isn't the last, or an added one that would go to an ed script.
fn either_open(adds: OpenEnds, drops: OpenEnds, to_script: bool) -> bool
    ensures { result ≡ ((to_script && adds.open_end) || (drops.open_inside || adds.open_inside)) }
{
    (to_script && adds.open_end) || (drops.open_inside || adds.open_inside)
}

fn is_over(start: u64, count: u64) -> bool
    requires start { start ≤ 2 ^ 60 }
    requires count { count ≤ 2 ^ 60 }
    ensures { result ≡ is_too_large start count }
{
    start + count > 4_294_967_295
}

/// Whether a command of the normal form would have too large a number.
fn is_large_normal(net: Net, block: Block) -> bool
    requires { IsSmall net block }
    ensures { result ≡ (is_too_large (range_start block.first block.drops) block.drops || is_too_large (range_start (new_start net block) block.adds) block.adds) }
{
    is_over(range_start(block.first, block.drops), block.drops)
        || is_over(range_start(new_first(net, block), block.adds), block.adds)
}

/// Whether a command of an ed script would have too large a number.
fn is_large_ed(block: Block) -> bool
    requires first { block.first ≤ 2 ^ 60 }
    requires drops { block.drops ≤ 2 ^ 60 }
    ensures { result ≡ is_over_ed block.first block.drops }
{
    block.first > 4_294_967_295 || block.first + block.drops > 4_294_967_296
}

fn is_large(form: Form, net: Net, block: Block) -> bool
    requires { IsSmall net block }
    ensures { result ≡ is_large form net block }
{
    match form {
        Form::Unified | Form::Context => false,
        Form::Normal => is_large_normal(net, block),
        Form::Ed => is_large_ed(block),
    }
}

/// Whether a command that is written for the kept hunks would have too large a number.
fn has_large(kept: Kept, form: Form) -> bool
    requires { IsKept kept }
    ensures { result ≡ has_large_command form (blocks_of (hunk_edits (left_hunks kept.entry))) }
{
    let mut net = no_net();
    let mut place = hunk_start(kept, 0);
    while let Some(block) = next_block(kept, place) {
        if is_large(form, net, block) {
            return true;
        }
        net = net_behind(net, block);
        place = block.behind;
    }
    false
}

/// Whether the kept hunks can't be written as commands of this form.
pub fn are_unfit(kept: Kept, form: Form) -> bool
    requires { IsKept kept }
    ensures { result ≡ is_unfit form (hunks (left_hunks kept.entry)) }
{
    if falls_back(kept) || has_open_line(kept, form) {
        return true;
    }
    has_large(kept, form)
}
