//! All file patches of a set.

ghost use Rattle.std.specs.Prelude.{◌≡◌, ◌<◌, ◌≤◌, ◌+◌, ◌||◌, ℕ, List, [], true, length, take, drop, slice_index_or, Some, IfOk, IfErr, OnOk};
ghost use Rattle.std.specs.Option.{ForSome};
ghost use Rattle.outside.specs.Files.{Files};
ghost use Rattle.outside.specs.Calls.{IsUntouched};
ghost use Rattle.outside.specs.Quiet.{IsQuiet};
ghost use Rattle.read_file_patch.specs.declared.FilePatch.{FilePatch as ThePatch};
ghost use Rattle.read_file_patch.specs.PlainPatch.{row_count};
ghost use Rattle.patch_options.specs.PlainJob.{plain_options, IsLawful};
ghost use Rattle.patch_set.specs.Room.{HaveRoom};
ghost use Rattle.patch_set.specs.SetView.{hunks_in};
ghost use Rattle.patch_run.specs.Finishes.{HasNames};
ghost use Rattle.patch_run.specs.Run.{items_of, set_run};
ghost use Rattle.apply_outcome.specs.Ready.{IsReady, AreNumbered, AreWritten, marks, rows_in, turn_at};
ghost use Rattle.patch_run.specs.OnePatch.{ending};
ghost use Rattle.patch_run.specs.Doing.{Does, Runs, IsReceipt, IsCutAt, NoneFailed, EndsSo, StaysSet, IsUntold, ArePlaced, IsPlacedOn, IsPlacedLast};
ghost use Rattle.apply_start.specs.Devices.{Told};
ghost use Rattle.apply_outcome.specs.ContextView.{IsContext, plain_context};
ghost use Rattle.apply_task.specs.Outputs.{verdicts_over};

use crate::applied::Applied;
use crate::one_patch::{Done, apply_one};
use apply_outcome::{FilePatchContext, with_row};
use apply_task::{RunFault, Task};
use hunk_core::Verdict;
use line_store::Plan;
use outside::{Sink, Tree, WrittenNames};
use patch_options::Options;
use patch_set::PatchSet;

/// Carries out the file patches of a set one after another, each on the files that those before it left: what is said
/// goes to `out`, and the effects are made on the tree. The plan holds the lines of one file at a time. Afterwards the set
/// has a verdict for each hunk, and tells in a row what was done with each file patch.
pub fn apply_set<P: Plan, T: Tree, O: Sink>(
    set: &mut PatchSet,
    options: &Options,
    plan: &mut P,
    tree: &mut T,
    out: &mut O,
) -> Result<Applied, RunFault>
    requires lawful { IsLawful (plain_options options.now) }
    requires names { HasNames set.old }
    requires verdicts { length set.old.verdicts ≡ hunks_in set.old.patches }
    requires size { (P.seen plan.old).size ≡ options.now.buffer }
    requires quiet { IsQuiet (T.view tree.old) }
    ensures runs { Runs (T.view tree.old) (T.view tree.new) (P.seen plan.old) (P.seen plan.new) (O.view out.old) (O.view out.new) P.scratch_after result (set_run (plain_options options.now) set.old) }

    // A fault cuts the run off at one file patch, of which nothing is done before all of it is said.
    ensures cut { IfErr result (λ e. (f : Files) → Told (T.view tree.old) (P.seen plan.old) f → IsCutAt e (T.view tree.new) (O.view out.old) (O.view out.new) (plain_options options.now) set.old.output (items_of set.old) f) }

    // Where no device fails, the answer is how the run ends, or a want of memory.
    ensures complete { (f : Files) → Told (T.view tree.old) (P.seen plan.old) f → NoneFailed (T.view tree.old) (T.view tree.new) (P.seen plan.old) (P.seen plan.new) (O.view out.old) (O.view out.new)
        → EndsSo result (P.seen plan.old) (set_run (plain_options options.now) set.old f).stop }
    ensures receipt { IfOk result (λ applied. (f : Files) → Told (T.view tree.old) (P.seen plan.old) f → IsReceipt (set_run (plain_options options.now) set.old f) applied (length set.old.patches) set.new.verdicts set.new.rows) }
    ensures done { IfOk result (λ applied. applied.done ≡ length set.old.patches) }
    ensures rest { O.same_rest out.old out.new }

    // A dry run starts no temporary either, whatever is told.
    ensures dry { options.now.dry_run ≡ true → IsUntouched (T.view tree.old) (T.view tree.new) }
    ensures set { StaysSet set.old set.new }
    ensures verdicts { length set.new.verdicts ≡ length set.old.verdicts }

    // Whatever the tree tells, the hunks of the last file patch are placed only on lines that the plan lends.
    ensures placed { OnOk result ((lines : List (List ℕ)) → (P.seen plan.new).told ≡ Some lines → IsPlacedLast (IsUntold (T.view tree.old)) (plain_options options.now) set.new set.new.verdicts lines) }
{
    let mut verdicts = set.take_verdicts();
    let written = set.take_marks();
    let applied = apply_all(
        set,
        options,
        verdicts.as_mut_slice(),
        written,
        plan,
        tree,
        out,
    );
    set.give_verdicts(verdicts);
    applied
}

/// All file patches of a set, while the verdicts are taken from it.
fn apply_all<P: Plan, T: Tree, O: Sink>(
    set: &mut PatchSet,
    options: &Options,
    verdicts: &mut [Verdict],
    written: Option<WrittenNames>,
    plan: &mut P,
    tree: &mut T,
    out: &mut O,
) -> Result<Applied, RunFault>
    requires lawful { IsLawful (plain_options options.now) }
    requires names { HasNames set.old }
    requires verdicts { length verdicts.old ≡ hunks_in set.old.patches }
    requires written { AreWritten written [] }
    requires room { ForSome written (HaveRoom set.old.patches set.old.output) }
    requires size { (P.seen plan.old).size ≡ options.now.buffer }
    requires quiet { IsQuiet (T.view tree.old) }
    ensures runs { Runs (T.view tree.old) (T.view tree.new) (P.seen plan.old) (P.seen plan.new) (O.view out.old) (O.view out.new) P.scratch_after result (set_run (plain_options options.now) set.old) }
    ensures cut { IfErr result (λ e. (f : Files) → Told (T.view tree.old) (P.seen plan.old) f → IsCutAt e (T.view tree.new) (O.view out.old) (O.view out.new) (plain_options options.now) set.old.output (items_of set.old) f) }
    ensures receipt { IfOk result (λ applied. (f : Files) → Told (T.view tree.old) (P.seen plan.old) f → IsReceipt (set_run (plain_options options.now) set.old f) applied (length set.old.patches) verdicts.new set.new.rows) }
    ensures done { IfOk result (λ applied. applied.done ≡ length set.old.patches) }
    ensures rest { O.same_rest out.old out.new }
    ensures dry { options.now.dry_run ≡ true → IsUntouched (T.view tree.old) (T.view tree.new) }
    ensures set { StaysSet set.old set.new }
    ensures verdicts { length verdicts.new ≡ length verdicts.old }
    ensures placed { OnOk result ((lines : List (List ℕ)) → (P.seen plan.new).told ≡ Some lines → IsPlacedLast (IsUntold (T.view tree.old)) (plain_options options.now) set.new verdicts.new lines) }
{
    let count = set.patches().len() as u32;
    let mut is_bad = false;
    let mut effects = 0;
    let mut written = written;
    for k in 0..count {
        let done = apply_at(set, k, options, verdicts, &written, plan, tree, out)?;
        written = with_row(written, set, k, options.reverse, done.row);
        set.note(k, done.row);
        is_bad = either(is_bad, done.is_bad);
        effects += done.effects;
    }
    Ok(Applied::new(is_bad, count, effects))
}

fn either(one: bool, other: bool) -> bool
    ensures { result ≡ (one || other) }
{
    one || other
}

/// Carries out one file patch, counted from 0, those before it having had their turn.
fn apply_at<P: Plan, T: Tree, O: Sink>(
    set: &PatchSet,
    k: u32,
    options: &Options,
    verdicts: &mut [Verdict],
    written: &Option<WrittenNames>,
    plan: &mut P,
    tree: &mut T,
    out: &mut O,
) -> Result<Done, RunFault>
    requires within { k < length set.now.patches }
    requires ready { IsReady (plain_options options.now) set.now }
    requires numbered { AreNumbered 0 set.now.patches }
    requires verdicts { length verdicts.old ≡ hunks_in set.now.patches }
    requires written { AreWritten written.now (marks (plain_options options.now) set.now k verdicts.old) }
    requires size { (P.seen plan.old).size ≡ options.now.buffer }
    requires quiet { IsQuiet (T.view tree.old) }
    ensures does { (p : ThePatch) → p ≡ slice_index_or set.now.patches k p
        → Does (T.view tree.old) (T.view tree.new) (P.seen plan.old) (P.seen plan.new) (O.view out.old) (O.view out.new) P.scratch_after result (rows_in verdicts.new p) (ending (turn_at (plain_options options.now) set.now k verdicts.old p)) }
    ensures before { (p : ThePatch) → p ≡ slice_index_or set.now.patches k p → take p.first_verdict verdicts.new ≡ take p.first_verdict verdicts.old }
    ensures behind { (p : ThePatch) → p ≡ slice_index_or set.now.patches k p → drop (p.first_verdict + row_count p.change) verdicts.new ≡ drop (p.first_verdict + row_count p.change) verdicts.old }
    ensures verdicts { length verdicts.new ≡ length verdicts.old }
    ensures rest { O.same_rest out.old out.new }
    ensures dry { options.now.dry_run ≡ true → IsUntouched (T.view tree.old) (T.view tree.new) }
    ensures few { IfOk result (λ done. done.effects ≤ 5) }
    ensures placed { IfOk result (λ done. (p : ThePatch) (lines : List (List ℕ)) → p ≡ slice_index_or set.now.patches k p → (P.seen plan.new).told ≡ Some lines → IsPlacedOn (IsUntold (T.view tree.old)) (plain_options options.now) set.now.text p verdicts.new done.row lines) }
{
    let patch = &set.patches()[k as usize];
    let (before, behind) = verdicts.split_at_mut(patch.first_verdict as usize);
    let turn = FilePatchContext {
        task: Task {
            options,
            set,
            patch,
            is_first: k == 0,
        },
        count: k,
        verdicts: before,
        written,
    };
    apply_front(&turn, behind, plan, tree, out)
}

/// Carries out one file patch, whose verdicts are the first of these.
fn apply_front<P: Plan, T: Tree, O: Sink>(
    turn: &FilePatchContext<'_>,
    verdicts: &mut [Verdict],
    plan: &mut P,
    tree: &mut T,
    out: &mut O,
) -> Result<Done, RunFault>
    requires turn { IsContext turn.now }
    requires size { (P.seen plan.old).size ≡ turn.now.task.options.now.buffer }
    requires rows { row_count turn.now.task.patch.now.change ≤ length verdicts.old }
    requires quiet { IsQuiet (T.view tree.old) }
    ensures does { Does (T.view tree.old) (T.view tree.new) (P.seen plan.old) (P.seen plan.new) (O.view out.old) (O.view out.new) P.scratch_after result (take (row_count turn.now.task.patch.now.change) verdicts.new) (ending (plain_context turn.now)) }
    ensures behind { drop (row_count turn.now.task.patch.now.change) verdicts.new ≡ drop (row_count turn.now.task.patch.now.change) verdicts.old }
    ensures verdicts { length verdicts.new ≡ length verdicts.old }
    ensures rest { O.same_rest out.old out.new }
    ensures dry { turn.now.task.options.now.dry_run ≡ true → IsUntouched (T.view tree.old) (T.view tree.new) }
    ensures few { IfOk result (λ done. done.effects ≤ 5) }
    ensures placed { IfOk result (λ done. (lines : List (List ℕ)) → (P.seen plan.new).told ≡ Some lines
        → ArePlaced (IsUntold (T.view tree.old)) (row_count turn.now.task.patch.now.change) (take (row_count turn.now.task.patch.now.change) verdicts.new) (verdicts_over (plain_context turn.now).options done.row.side (plain_context turn.now).item.patch lines)) }
{
    let count = turn.task.patch.hunks() as usize;
    let own = &mut verdicts[..count];
    apply_one(turn, own, plan, tree, out)
}
