//! The names that a run has made or taken away so far, kept so that a backup needn't look through the file patches before.

ghost use Rattle.std.specs.Prelude.{◌≡◌, ◌<◌, ◌||◌, ◌++◌, [], ◌∷◌, ℕ, List, All, length, is_some, option_map, slice_index_or};
ghost use Rattle.std.specs.Option.{ForSome, option_copied};
ghost use Rattle.hunk_core.specs.declared.Verdict.{Verdict};
ghost use Rattle.read_file_patch.specs.declared.FilePatch.{FilePatch as ThePatch};
ghost use Rattle.outside.specs.Marked.{has_room, is_marked};
ghost use Rattle.patch_options.specs.PlainJob.{PlainOptions};
ghost use Rattle.patch_set.specs.Room.{HasRoom, HaveRoom};
ghost use Rattle.apply_task.specs.Contexts.{PastFilePatch, written_by, renamed_by};
ghost use Rattle.apply_outcome.specs.Outcome.{is_name, mark_of};
ghost use Rattle.apply_outcome.specs.Ready.{AreWritten};
ghost use Rattle.apply_task.specs.Ready.{alone};

use crate::past::{renamed_by, written_by};
use outside::WrittenNames;
use patch_set::{PatchSet, Row};
use read_file_patch::{FilePatch, Target};

/// The names with those of a file patch more, counted from 0, that has this row.
pub fn with_row(
    names: Option<WrittenNames>,
    set: &PatchSet,
    patch: u32,
    reverse: bool,
    row: Row,
) -> Option<WrittenNames>
    requires within { patch < length set.now.patches }
    requires room { ForSome names (HaveRoom set.now.patches set.now.output) }
    ensures written { (o : PlainOptions) → o.reverse ≡ reverse → (past : List PastFilePatch) (p : ThePatch) (vs : List Verdict) → p ≡ slice_index_or set.now.patches patch p
        → AreWritten names past → AreWritten result (past ++ mark_of (alone o set.now p) row vs ∷ []) }
    ensures room { ForSome result (HaveRoom set.now.patches set.now.output) }
    ensures kept { is_some result ≡ is_some names }
{
    let mut kept = names?;
    if !row.wrote {
        return Some(kept);
    }
    mark_both(set, &set.patches()[patch as usize], reverse, row, &mut kept);
    Some(kept)
}

/// Marks what a file patch that wrote made or took away.
fn mark_both(set: &PatchSet, patch: &FilePatch, reverse: bool, row: Row, names: &mut WrittenNames)
    requires targets { All (HasRoom names.old) patch.now.targets.items }
    requires output { ForSome set.now.output (HasRoom names.old) }
    ensures marked { (o : PlainOptions) → o.reverse ≡ reverse → (q : List ℕ) → is_marked names.new q
        ≡ (is_name q (option_map (λ w. w.name) (renamed_by (alone o set.now patch.now) row)) || (is_name q (option_map (λ w. w.name) (written_by (alone o set.now patch.now) row)) || is_marked names.old q)) }
    ensures rooms { (q : List ℕ) → has_room names.new q ≡ has_room names.old q }
{
    mark(written_by(set, patch, reverse, row), names);
    mark(renamed_by(patch, row), names);
}

fn mark(target: Option<&Target>, names: &mut WrittenNames)
    requires { ForSome (option_copied target) (HasRoom names.old) }
    ensures marked { (q : List ℕ) → is_marked names.new q ≡ (is_name q (option_map (λ w. w.name) (option_copied target.entry)) || is_marked names.old q) }
    ensures rooms { (q : List ℕ) → has_room names.new q ≡ has_room names.old q }
{
    if let Some(target) = target {
        names.mark(&target.name);
    }
}
