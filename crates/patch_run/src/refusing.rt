//! What is said and written of a file patch that something is in the way of, as no told tree has it.

ghost use Rattle.std.specs.Prelude.{◌≡◌, ◌<◌, true, false, length, if◌then◌else◌, Some, None, IfOk, IfErr, OnOk, OnErr};
ghost use Rattle.std.specs.Option.{option_copied};
ghost use Rattle.outside.specs.Files.{Files};
ghost use Rattle.outside.specs.TreeView.{Passes, Rises, IsRun};
ghost use Rattle.outside.specs.SinkView.{SinkPasses, Writes, Receives};
ghost use Rattle.outside.specs.Calls.{IsUntouched};
ghost use Rattle.outside.specs.Quiet.{IsQuiet};
ghost use Rattle.read_file_patch.specs.PlainPatch.{row_count};
ghost use Rattle.apply_task.specs.Making.{IsTidy};
ghost use Rattle.apply_task.specs.Named.{IsNamed};
ghost use Rattle.apply_outcome.specs.ContextView.{plain_context, IsContext};
ghost use Rattle.patch_run.specs.OnePatch.{shown_reject, written};
ghost use Rattle.patch_run.specs.Refused.{refused_said, saves_refused, PutsRejects};
ghost use Rattle.patch_run.specs.Doing.{HasEndCause};

use apply_outcome::{FilePatchContext, is_unrejected, swap_rejects};
use apply_task::{RunFault, is_bare, shown_reject, written};
use hunk_core::{Side, Verdict};
use outside::{Failed, Sink, Tree};
use read_file_patch::Target;
use say_text::say_refused;

/// Says that all hunks are ignored, and puts them to the reject file, where one is written and can be put; their verdicts say that
/// they have no place. It answers whether it was.
pub fn refuse_hunks<T: Tree, O: Sink>(
    turn: &FilePatchContext<'_>,
    place: u32,
    side: Side,
    verdicts: &[Verdict],
    tree: &mut T,
    out: &mut O,
) -> Result<bool, RunFault>
    requires turn { IsContext turn.now }
    requires within { place < length turn.now.task.patch.now.targets.items }
    requires rows { length verdicts.now ≡ row_count turn.now.task.patch.now.change }
    requires quiet { IsQuiet (T.view tree.old) }
    ensures tree { Passes (T.view tree.old) (T.view tree.new) }
    ensures sink { SinkPasses (O.view out.old) (O.view out.new) }
    ensures cause { IfErr result (λ e. HasEndCause e (T.view tree.old) (T.view tree.new) (O.view out.old) (O.view out.new)) }
    ensures said { IfOk result (λ was. Receives (O.view out.old) (O.view out.new) (refused_said (plain_context turn.now) (written (plain_context turn.now) place) was)) }
    ensures put { IfOk result (λ was. was ≡ true → PutsRejects (T.view tree.old) (T.view tree.new) (plain_context turn.now) (written (plain_context turn.now) place) side verdicts.now) }
    ensures due { IfOk result (λ was. (f : Files) → (T.view tree.old).told ≡ Some f → was ≡ saves_refused (plain_context turn.now)) }
    ensures may { IfOk result (λ was. was ≡ true → saves_refused (plain_context turn.now) ≡ true) }
    ensures unsaved { IfOk result (λ was. was ≡ false → IsUntouched (T.view tree.old) (T.view tree.new)) }
    ensures quiet { OnOk result (IsQuiet (T.view tree.new)) }
    ensures tidy { OnOk result (IsTidy (T.view tree.old) (T.view tree.new)) }
    ensures rest { O.same_rest out.old out.new }
    ensures dry { turn.now.task.options.now.dry_run ≡ true → IsUntouched (T.view tree.old) (T.view tree.new) }
{
    let target = written(&turn.task, place);
    match takes_rejects(turn, target, tree) {
        Ok(saved) => save_hunks(turn, target, side, verdicts, saved, tree, out),
        Err(_) => Err(RunFault::Tree),
    }
}

/// Whether there are hunks that go to a reject file, and nothing is in the way of that.
fn takes_rejects<T: Tree>(
    turn: &FilePatchContext<'_>,
    target: &Target,
    tree: &mut T,
) -> Result<bool, Failed>
    requires turn { IsContext turn.now }
    ensures untouched { IsUntouched (T.view tree.old) (T.view tree.new) }
    ensures cause { OnErr result (Rises (T.view tree.old) (T.view tree.new)) }
    ensures due { IfOk result (λ saved. (f : Files) → (T.view tree.old).told ≡ Some f → saved ≡ saves_refused (plain_context turn.now)) }
    ensures may { IfOk result (λ saved. saved ≡ true → saves_refused (plain_context turn.now) ≡ true) }
{
    if !saves_refused(turn) {
        return Ok(false);
    }
    match tree.is_barred(&target.reject, false) {
        Ok(barred) => Ok(!barred),
        Err(failed) => Err(failed),
    }
}

/// Whether there are hunks that go to a reject file.
fn saves_refused(turn: &FilePatchContext<'_>) -> bool
    requires turn { IsContext turn.now }
    ensures { result ≡ saves_refused (plain_context turn.now) }
{
    if turn.task.options.dry_run {
        return false;
    }
    if is_bare(turn.task.patch) {
        return false;
    }
    !is_unrejected(turn.task.options, &turn.task.patch.change)
}

/// Says it, and puts them there.
fn save_hunks<T: Tree, O: Sink>(
    turn: &FilePatchContext<'_>,
    target: &Target,
    side: Side,
    verdicts: &[Verdict],
    saved: bool,
    tree: &mut T,
    out: &mut O,
) -> Result<bool, RunFault>
    requires turn { IsContext turn.now }
    requires named { IsNamed target.now }
    requires rows { length verdicts.now ≡ row_count turn.now.task.patch.now.change }
    requires saves { saved ≡ true → saves_refused (plain_context turn.now) ≡ true }
    requires quiet { IsQuiet (T.view tree.old) }
    ensures tree { Passes (T.view tree.old) (T.view tree.new) }
    ensures sink { SinkPasses (O.view out.old) (O.view out.new) }
    ensures cause { IfErr result (λ e. HasEndCause e (T.view tree.old) (T.view tree.new) (O.view out.old) (O.view out.new)) }
    ensures said { IfOk result (λ was. Receives (O.view out.old) (O.view out.new) (refused_said (plain_context turn.now) target.now was)) }
    ensures was { IfOk result (λ was. was ≡ saved) }
    ensures put { OnOk result (saved ≡ true → PutsRejects (T.view tree.old) (T.view tree.new) (plain_context turn.now) target.now side verdicts.now) }
    ensures quiet { OnOk result (IsQuiet (T.view tree.new)) }
    ensures tidy { OnOk result (IsTidy (T.view tree.old) (T.view tree.new)) }
    ensures rest { O.same_rest out.old out.new }
    ensures unsaved { saved ≡ false → IsUntouched (T.view tree.old) (T.view tree.new) }
{
    match tell_refused(turn, target, saved, out) {
        Ok(()) => {}
        Err(_) => return Err(RunFault::Write),
    }
    match put_hunks(turn, target, side, verdicts, saved, tree) {
        Ok(()) => Ok(saved),
        Err(_) => Err(RunFault::Tree),
    }
}

fn put_hunks<T: Tree>(
    turn: &FilePatchContext<'_>,
    target: &Target,
    side: Side,
    verdicts: &[Verdict],
    saved: bool,
    tree: &mut T,
) -> Result<(), Failed>
    requires turn { IsContext turn.now }
    requires named { IsNamed target.now }
    requires rows { length verdicts.now ≡ row_count turn.now.task.patch.now.change }
    requires saves { saved ≡ true → saves_refused (plain_context turn.now) ≡ true }
    requires quiet { IsQuiet (T.view tree.old) }
    ensures run { IsRun (T.view tree.old) (T.view tree.new) result }
    ensures put { OnOk result (saved ≡ true → PutsRejects (T.view tree.old) (T.view tree.new) (plain_context turn.now) target.now side verdicts.now) }
    ensures quiet { OnOk result (IsQuiet (T.view tree.new)) }
    ensures tidy { OnOk result (IsTidy (T.view tree.old) (T.view tree.new)) }
    ensures unsaved { saved ≡ false → IsUntouched (T.view tree.old) (T.view tree.new) }
{
    if !saved {
        return Ok(());
    }
    swap_rejects(turn, target, side, verdicts, tree)
}

/// Says that all hunks are ignored, where there is one, and names the reject file, if it is put.
fn tell_refused<O: Sink>(
    turn: &FilePatchContext<'_>,
    target: &Target,
    saved: bool,
    out: &mut O,
) -> Result<(), Failed>
    requires turn { IsContext turn.now }
    requires named { IsNamed target.now }
    ensures writes { Writes (O.view out.old) (O.view out.new) result (refused_said (plain_context turn.now) target.now saved) }
    ensures rest { O.same_rest out.old out.new }
{
    if is_bare(turn.task.patch) {
        return Ok(());
    }
    let reject = named_reject(target, saved);
    say_refused(turn.task.options, turn.task.patch.hunks(), reject, out)
}

fn named_reject(target: &Target, saved: bool) -> Option<&str>
    requires { IsNamed target.now }
    ensures { option_copied result ≡ (if saved then Some (shown_reject target.now) else None) }
{
    if saved {
        Some(shown_reject(target))
    } else {
        None
    }
}
