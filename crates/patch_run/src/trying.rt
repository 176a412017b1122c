//! The hunks of a file patch are tried, and what they come to isn't begun where something is in the way of a part of it.

ghost use Rattle.std.specs.Prelude.{◌≡◌, ◌<◌, ℕ, List, All, true, false, length, replicate, is_some, Some, None, IfOk, IfErr, OnOk, OnErr};
ghost use Rattle.std.specs.Option.{ForSome};
ghost use Rattle.outside.specs.Files.{Files};
ghost use Rattle.outside.specs.TreeView.{Passes, Rises};
ghost use Rattle.outside.specs.SinkView.{SinkPasses};
ghost use Rattle.outside.specs.Calls.{IsThere, IsUntouched};
ghost use Rattle.outside.specs.Quiet.{IsQuiet, WorksOn, Holds};
ghost use Rattle.hunk_core.specs.declared.Verdict.TheVariants.{Nowhere};
ghost use Rattle.line_store.specs.Store.{Keeps};
ghost use Rattle.hunk_apply.specs.Session.{IsTried};
ghost use Rattle.read_file_patch.specs.PlainPatch.{row_count};
ghost use Rattle.apply_task.specs.Outputs.{tried, IsSession};
ghost use Rattle.apply_task.specs.Making.{GoesQuietly, IsGone, IsTidy, UnlessFailed};
ghost use Rattle.apply_task.specs.LineEnds.{first_end};
ghost use Rattle.apply_task.specs.Named.{IsNamed};
ghost use Rattle.apply_task.specs.TaskView.{plain_task};
ghost use Rattle.apply_start.specs.Trying.{IsBegun, HasTryCause};
ghost use Rattle.apply_outcome.specs.ContextView.{plain_context, IsContext};
ghost use Rattle.patch_run.specs.Doing.{HasEndCause, IsRefused};

use crate::one_patch::{Done, refuse};
use apply_outcome::{FilePatchContext, is_mismatch_kept, is_rejected};
use apply_start::{
    Attempt, Barrier, first_end, obstacle_to_backup, obstacle_to_rejects, say_barrier, try_hunks,
};
use apply_task::{RunFault, keep_old, renames};
use hunk_apply::Session;
use hunk_core::{Side, Verdict};
use line_store::LineStore;
use outside::{Failed, Sink, Tree};
use read_file_patch::Target;
use replace_file::Temp;

/// What came of the hunks, and what is in the way of the files that they ask for beside the target.
#[derive(Drop)]
pub struct Trial<'n> {
    pub attempt: Attempt<'n>,
    /// Whether the first line of the file ends in a carriage return and a line feed, if there is one.
    pub end: Option<bool>,
    pub barrier: Option<Barrier<'n>>,
}

/// Tries the hunks, writes the output to the target's temporary, unless in a dry run, and looks what is in the way of the rest.
pub fn try_free<'n, P: LineStore, T: Tree>(
    turn: &FilePatchContext<'_>,
    source: &'n Target,
    target: &'n Target,
    side: Side,
    verdicts: &mut [Verdict],
    plan: &mut P,
    tree: &mut T,
) -> Result<Trial<'n>, RunFault>
    requires turn { IsContext turn.now }
    requires named { IsNamed target.now }
    requires rows { length verdicts.old ≡ row_count turn.now.task.patch.now.change }
    requires quiet { IsQuiet (T.view tree.old) }
    ensures works { WorksOn (T.view tree.old) (T.view tree.new) target.now.temp }
    ensures keeps { Keeps (P.seen plan.old) (P.seen plan.new) }
    ensures cause { IfErr result (λ e. HasTryCause e (T.view tree.old) (T.view tree.new) (P.seen plan.old) (P.seen plan.new)) }
    ensures dry { turn.now.task.options.now.dry_run ≡ true → IsUntouched (T.view tree.old) (T.view tree.new) }
    ensures begun { IfOk result (λ trial. IsBegun turn.now.task.options.now.dry_run trial.attempt.temp target.now.temp) }
    ensures there { OnOk result (turn.now.task.options.now.dry_run ≡ false → IsThere (T.view tree.new) target.now.temp) }
    ensures holds { OnOk result ((lines : List (List ℕ)) → (P.seen plan.old).told ≡ Some lines → turn.now.task.options.now.dry_run ≡ false → Holds (T.view tree.new) target.now.temp (tried (plain_task turn.now.task) side lines).output) }
    ensures session { IfOk result (λ trial. (lines : List (List ℕ)) → (P.seen plan.old).told ≡ Some lines → IsSession trial.attempt.session verdicts.new (tried (plain_task turn.now.task) side lines).text) }
    ensures end { IfOk result (λ trial. (lines : List (List ℕ)) → (P.seen plan.old).told ≡ Some lines → trial.end ≡ first_end lines) }
    ensures verdicts { OnOk result ((lines : List (List ℕ)) → (P.seen plan.old).told ≡ Some lines → verdicts.new ≡ (tried (plain_task turn.now.task) side lines).verdicts) }
    ensures tried { OnOk result (All IsTried verdicts.new) }
    ensures rows { length verdicts.new ≡ length verdicts.old }
    ensures tidy { IfErr result (λ e. UnlessFailed e (IsTidy (T.view tree.old) (T.view tree.new))) }
    ensures free { IfOk result (λ trial. (f : Files) → (T.view tree.old).told ≡ Some f → trial.barrier ≡ None) }
{
    let end = match first_end(plan) {
        Ok(end) => end,
        Err(fault) => return Err(fault),
    };
    let attempt = match try_hunks(&turn.task, &target.temp, side, verdicts, plan, tree) {
        Ok(attempt) => attempt,
        Err(fault) => return Err(fault),
    };
    match obstacle_behind(turn, source, target, &attempt.session, tree) {
        Ok(barrier) => Ok(Trial {
            attempt,
            end,
            barrier,
        }),
        Err(_) => Err(RunFault::Tree),
    }
}

/// What is in the way first, once hunks were tried: of the reject file that is due, or of a backup that `-b` doesn't ask for.
/// It is looked for in front of the first effect. Then the whole file patch is refused, also hunks that had a place: it is
/// never half done, and a dry run says the same.
fn obstacle_behind<'n, T: Tree>(
    turn: &FilePatchContext<'_>,
    source: &'n Target,
    target: &'n Target,
    session: &Session,
    tree: &mut T,
) -> Result<Option<Barrier<'n>>, Failed>
    requires turn { IsContext turn.now }
    requires named { IsNamed target.now }
    ensures untouched { IsUntouched (T.view tree.old) (T.view tree.new) }
    ensures cause { OnErr result (Rises (T.view tree.old) (T.view tree.new)) }
    ensures free { IfOk result (λ found. (f : Files) → (T.view tree.old).told ≡ Some f → found ≡ None) }
{
    match obstacle_to_rejects(target, is_rejected(turn, session), tree) {
        Ok(None) => obstacle_to_kept(turn, source, target, session, tree),
        Ok(Some(barrier)) => Ok(Some(barrier)),
        Err(failed) => Err(failed),
    }
}

/// What is in the way of the backups alone: of a rename the source has one too.
fn obstacle_to_kept<'n, T: Tree>(
    turn: &FilePatchContext<'_>,
    source: &'n Target,
    target: &'n Target,
    session: &Session,
    tree: &mut T,
) -> Result<Option<Barrier<'n>>, Failed>
    requires turn { IsContext turn.now }
    ensures untouched { IsUntouched (T.view tree.old) (T.view tree.new) }
    ensures cause { OnErr result (Rises (T.view tree.old) (T.view tree.new)) }
    ensures free { IfOk result (λ found. (f : Files) → (T.view tree.old).told ≡ Some f → found ≡ None) }
{
    let due = is_mismatch_kept(turn, target, source, session);
    match obstacle_to_backup(target, due, tree) {
        Ok(None) => obstacle_to_moved(turn, source, target, session, tree),
        Ok(Some(barrier)) => Ok(Some(barrier)),
        Err(failed) => Err(failed),
    }
}

fn obstacle_to_moved<'n, T: Tree>(
    turn: &FilePatchContext<'_>,
    source: &'n Target,
    target: &Target,
    session: &Session,
    tree: &mut T,
) -> Result<Option<Barrier<'n>>, Failed>
    requires turn { IsContext turn.now }
    ensures untouched { IsUntouched (T.view tree.old) (T.view tree.new) }
    ensures cause { OnErr result (Rises (T.view tree.old) (T.view tree.new)) }
    ensures free { IfOk result (λ found. (f : Files) → (T.view tree.old).told ≡ Some f → found ≡ None) }
{
    let due = renames(turn.task.patch) && is_mismatch_kept(turn, source, target, session);
    obstacle_to_backup(source, due, tree)
}

/// Something is in the way: the output is dropped, and the file patch is refused, whatever its hunks came to.
pub fn refuse_tried<T: Tree, O: Sink>(
    turn: &FilePatchContext<'_>,
    place: u32,
    side: Side,
    target: &Target,
    barrier: Barrier<'_>,
    temp: Option<Temp<'_>>,
    verdicts: &mut [Verdict],
    tree: &mut T,
    out: &mut O,
) -> Result<Done, RunFault>
    requires turn { IsContext turn.now }
    requires within { place < length turn.now.task.patch.now.targets.items }
    requires named { IsNamed target.now }
    requires begun { IsBegun turn.now.task.options.now.dry_run temp target.now.temp }
    requires rows { length verdicts.old ≡ row_count turn.now.task.patch.now.change }
    requires quiet { IsQuiet (T.view tree.old) }
    requires there { turn.now.task.options.now.dry_run ≡ false → IsThere (T.view tree.old) target.now.temp }
    ensures tree { Passes (T.view tree.old) (T.view tree.new) }
    ensures sink { SinkPasses (O.view out.old) (O.view out.new) }
    ensures cause { IfErr result (λ e. HasEndCause e (T.view tree.old) (T.view tree.new) (O.view out.old) (O.view out.new)) }
    ensures quiet { OnOk result (IsQuiet (T.view tree.new)) }
    ensures gone { OnOk result (turn.now.task.options.now.dry_run ≡ false → IsGone (T.view tree.new) target.now.temp) }
    ensures tidy { OnOk result (IsTidy (T.view tree.old) (T.view tree.new)) }
    ensures rest { O.same_rest out.old out.new }
    ensures dry { turn.now.task.options.now.dry_run ≡ true → IsUntouched (T.view tree.old) (T.view tree.new) }
    ensures rows { length verdicts.new ≡ length verdicts.old }
    ensures nowhere { OnOk result (verdicts.new ≡ replicate (length verdicts.old) Nowhere) }
    ensures row { IfOk result (λ done. done.row ≡ record { side = side; target = Some place; wrote = false }) }
    ensures refused { IfOk result (IsRefused (plain_context turn.now)) }
{
    match drop_output(target, temp, tree) {
        Ok(()) => {}
        Err(fault) => return Err(fault),
    }
    match say_barrier(barrier, out) {
        Ok(()) => {}
        Err(_) => return Err(RunFault::Write),
    }
    refuse(turn, place, side, verdicts, tree, out)
}

/// Takes the temporary with the output away, which a dry run has not.
fn drop_output<T: Tree>(
    target: &Target,
    temp: Option<Temp<'_>>,
    tree: &mut T,
) -> Result<(), RunFault>
    requires named { IsNamed target.now }
    requires temp { ForSome temp (λ begun. begun.name.now ≡ target.now.temp) }
    requires quiet { IsQuiet (T.view tree.old) }
    requires there { is_some temp ≡ true → IsThere (T.view tree.old) target.now.temp }
    ensures goes { GoesQuietly (T.view tree.old) (T.view tree.new) result }
    ensures gone { OnOk result (is_some temp.entry ≡ true → IsGone (T.view tree.new) target.now.temp) }
    ensures tidy { OnOk result (IsTidy (T.view tree.old) (T.view tree.new)) }
    ensures untouched { is_some temp.entry ≡ false → IsUntouched (T.view tree.old) (T.view tree.new) }
{
    match temp {
        Some(temp) => match keep_old(target, false, temp, tree) {
            Ok(_) => Ok(()),
            Err(fault) => Err(fault),
        },
        None => Ok(()),
    }
}
