//! What the file patches before one did.

ghost use Rattle.std.specs.Prelude.{◌≡◌, ◌<◌, ◌≤◌, ◌+◌, ◌^◌, All, length, slice_index_or, option_map};
ghost use Rattle.std.specs.Option.{ForSome, option_copied};
ghost use Rattle.read_file_patch.specs.PlainPatch.{row_count};
ghost use Rattle.apply_task.specs.Contexts.{PastFilePatch, written_by, renamed_by};
ghost use Rattle.apply_outcome.specs.Outcome.{mark_of, has_name, is_name, was_written};
ghost use Rattle.apply_task.specs.Named.{IsNamed};
ghost use Rattle.patch_options.specs.PlainJob.{PlainOptions};
ghost use Rattle.apply_task.specs.Ready.{IsFit, alone};
ghost use Rattle.apply_outcome.specs.Ready.{rows_in};
ghost use Rattle.patch_set.specs.SetView.{SetView};
ghost use Rattle.apply_outcome.specs.ContextView.{plain_context, IsContext};

use crate::context::FilePatchContext;
use apply_task::{is_same, renames, target_in, written_at};
use hunk_core::Verdict;
use outside::Name;
use patch_set::{PatchSet, Row};
use read_file_patch::{FilePatch, Target};

/// A file patch before one, and what was done with it.
#[derive(Drop)]
pub struct Earlier<'a> {
    pub patch: &'a FilePatch,
    pub row: Row,
    pub verdicts: &'a [Verdict],
}

/// One of those before it, counted from 0.
pub fn earlier_patch<'a>(turn: &FilePatchContext<'a>, k: u32) -> Earlier<'a>
    requires turn { IsContext turn.now }
    requires low { k < turn.now.count }
    ensures mark { (m : PastFilePatch) → slice_index_or (plain_context turn.now).past k m ≡ mark_of (alone (plain_context turn.now).options turn.now.task.set.now result.patch.now) result.row result.verdicts.now }
    ensures fit { IsFit turn.now.task.set.now.text result.patch.now }
    ensures rows { length result.verdicts.now ≡ row_count result.patch.now.change }
{
    let patch = &turn.task.set.patches()[k as usize];
    Earlier {
        patch,
        row: turn.task.set.row(k),
        verdicts: rows_in(turn.verdicts, patch),
    }
}

/// The verdicts on the hunks of a file patch.
fn rows_in<'a>(verdicts: &'a [Verdict], patch: &FilePatch) -> &'a [Verdict]
    requires few { row_count patch.now.change < 2 ^ 32 }
    requires within { patch.now.first_verdict + row_count patch.now.change ≤ length verdicts.now }
    ensures rows { result.now ≡ rows_in verdicts.now patch.now }
    ensures count { length result.now ≡ row_count patch.now.change }
{
    let first = patch.first_verdict as usize;
    let end = first + row_count(patch);
    &verdicts[first..end]
}

/// How many verdicts a file patch has.
fn row_count(patch: &FilePatch) -> usize
    requires { row_count patch.now.change < 2 ^ 32 }
    ensures { result ≡ row_count patch.now.change }
{
    patch.hunks() as usize
}

/// The target that a file patch with this row wrote, if it chose one.
pub fn written_by<'a>(
    set: &'a PatchSet,
    patch: &'a FilePatch,
    reverse: bool,
    row: Row,
) -> Option<&'a Target>
    ensures target { (o : PlainOptions) → o.reverse ≡ reverse → option_copied result ≡ written_by (alone o set.now patch.now) row }
    ensures named { ForSome set.now.output IsNamed → All IsNamed patch.now.targets.items → ForSome (option_copied result) IsNamed }
{
    if let Some(output) = set.output() {
        return Some(output);
    }
    let place = row.target?;
    written_at(patch, reverse, place)
}

/// Of a rename the target that it read, if it chose one.
pub fn renamed_by<'a>(patch: &'a FilePatch, row: Row) -> Option<&'a Target>
    ensures target { (o : PlainOptions) (v : SetView) → option_copied result ≡ renamed_by (alone o v patch.now) row }
{
    if !renames(patch) {
        return None;
    }
    let place = row.target?;
    target_in(patch, place)
}

/// Whether one of those before it made or took away this name, as its target or from a file that it renamed.
pub fn was_written(turn: &FilePatchContext<'_>, name: &Name) -> bool
    requires turn { IsContext turn.now }
    ensures { result ≡ was_written (plain_context turn.now).past name.now }
{
    match turn.written {
        Some(names) => names.has(name),
        None => is_found_written(turn, name),
    }
}

/// Whether one of the file patches before made or took away this name, by a walk over them.
fn is_found_written(turn: &FilePatchContext<'_>, name: &Name) -> bool
    requires turn { IsContext turn.now }
    ensures { result ≡ was_written (plain_context turn.now).past name.now }
{
    for k in 0..turn.count {
        if has_written(turn, &earlier_patch(turn, k), name) {
            return true;
        }
    }
    false
}

/// Whether one of those before it did so.
fn has_written(turn: &FilePatchContext<'_>, earlier: &Earlier<'_>, name: &Name) -> bool
    ensures { result ≡ has_name name.now (mark_of (alone (plain_context turn.now).options turn.now.task.set.now earlier.now.patch.now) earlier.now.row earlier.now.verdicts.now) }
{
    if !earlier.row.wrote {
        return false;
    }
    let reverse = turn.task.options.reverse;
    if is_name(
        name,
        written_by(turn.task.set, earlier.patch, reverse, earlier.row),
    ) {
        return true;
    }
    is_name(name, renamed_by(earlier.patch, earlier.row))
}

/// Whether it is the name of this target.
fn is_name(name: &Name, target: Option<&Target>) -> bool
    ensures { result ≡ is_name name.now (option_map (λ w. w.name) (option_copied target.entry)) }
{
    match target {
        Some(target) => is_same(name, &target.name),
        None => false,
    }
}
