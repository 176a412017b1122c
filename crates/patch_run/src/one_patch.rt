//! One file patch.

ghost use Rattle.std.specs.Prelude.{◌≡◌, ◌<◌, ◌≤◌, ◌⊎◌, ◌||◌, if◌then◌else◌, [], ℕ, List, All, true, false, length, replicate, is_some, Some, IfOk, IfErr, OnOk, OnErr};
ghost use Rattle.outside.specs.Files.{Files};
ghost use Rattle.outside.specs.TreeView.{Passes};
ghost use Rattle.outside.specs.SinkView.{SinkPasses, Writes};
ghost use Rattle.outside.specs.Calls.{IsThere, IsUntouched};
ghost use Rattle.outside.specs.Quiet.{IsQuiet};
ghost use Rattle.hunk_core.specs.declared.Verdict.TheVariants.{Ignored, Nowhere};
ghost use Rattle.line_store.specs.Store.{Keeps};
ghost use Rattle.apply_task.specs.Outputs.{verdicts_over};
ghost use Rattle.hunk_apply.specs.Session.{IsTried};
ghost use Rattle.read_file_patch.specs.PlainPatch.{row_count};
ghost use Rattle.patch_run.specs.OnePatch.{Tried, ignored_said, bytes_of, lines_in, effects_of, tried_said, some_failed, is_kept, fails_first, finished_at, written, ending};
ghost use Rattle.patch_run.specs.Refused.{saves_refused, PutsRejects};
ghost use Rattle.apply_task.specs.Outputs.{IsSession};
ghost use Rattle.apply_start.specs.Trying.{IsBegun};
ghost use Rattle.patch_run.specs.Doing.{Does, Stays, QuietAfter, IsDone, IsPartOf, IsDeviceFault, HasEndCause, IsOutcome, IsMadeWhole, IsOrdered, IsUntold, IsRefused, ArePlaced};
ghost use Rattle.apply_task.specs.Making.{IsGone, IsTidy, TidyAfter};
ghost use Rattle.apply_start.specs.Devices.{Told};
ghost use Rattle.apply_task.specs.Named.{IsNamed};
ghost use Rattle.apply_outcome.specs.ContextView.{plain_context, IsContext};

use crate::refusing::refuse_hunks;
use crate::trying::{refuse_tried, try_free};
use apply_outcome::{FilePatchContext, is_kept, make_effects, tell};
use apply_start::{Attempt, Decision, fails_first, start};
use apply_task::{Made, RunFault, chosen, is_bare, written};
use hunk_apply::Session;
use hunk_core::{Side, Verdict};
use line_store::{LineStore, Plan};
use outside::{Failed, Sink, Tree};
use patch_set::Row;
use read_file_patch::Target;
use say_text::say_ignored;

/// What became of a file patch.
#[derive(Clone, Copy)]
pub struct Done {
    pub row: Row,
    /// A hunk failed, the file patch was skipped or refused, also one without hunks, a file that was to be deleted wasn't, or a binary
    /// change failed in front of it.
    pub is_bad: bool,
    /// How many effects there were.
    pub effects: u64,
}

/// Carries out one file patch, and says in a row for each of its hunks what became of it.
pub fn apply_one<P: Plan, T: Tree, O: Sink>(
    turn: &FilePatchContext<'_>,
    verdicts: &mut [Verdict],
    plan: &mut P,
    tree: &mut T,
    out: &mut O,
) -> Result<Done, RunFault>
    requires turn { IsContext turn.now }
    requires size { (P.seen plan.old).size ≡ turn.now.task.options.now.buffer }
    requires rows { length verdicts.old ≡ row_count turn.now.task.patch.now.change }
    requires quiet { IsQuiet (T.view tree.old) }
    ensures does { Does (T.view tree.old) (T.view tree.new) (P.seen plan.old) (P.seen plan.new) (O.view out.old) (O.view out.new) P.scratch_after result verdicts.new (ending (plain_context turn.now)) }
    ensures rest { O.same_rest out.old out.new }
    ensures dry { turn.now.task.options.now.dry_run ≡ true → IsUntouched (T.view tree.old) (T.view tree.new) }
    ensures rows { length verdicts.new ≡ length verdicts.old }
    ensures few { IfOk result (λ done. done.effects ≤ 5) }

    // Whatever the tree tells, hunks are placed only on lines that the plan lends; and a file patch that is refused is bad, and
    // writes nothing but its rejects.
    ensures placed { IfOk result (λ done. (lines : List (List ℕ)) → (P.seen plan.new).told ≡ Some lines
        → ArePlaced (IsUntold (T.view tree.old) × IsRefused (plain_context turn.now) done) (length verdicts.old) verdicts.new (verdicts_over (plain_context turn.now).options done.row.side (plain_context turn.now).item.patch lines)) }
{
    match start(&turn.task, plan, tree, out)? {
        Decision::Skip(row) => skip(turn, row, verdicts, out),
        Decision::Refuse { place, side } => refuse(turn, place, side, verdicts, tree, out),
        Decision::Try { place, side } => try_at(turn, place, side, verdicts, plan, tree, out),
    }
}

/// All hunks are ignored.
fn skip<O: Sink>(
    turn: &FilePatchContext<'_>,
    row: Row,
    verdicts: &mut [Verdict],
    out: &mut O,
) -> Result<Done, RunFault>
    requires turn { IsContext turn.now }
    requires rows { length verdicts.old ≡ row_count turn.now.task.patch.now.change }
    ensures writes { Writes (O.view out.old) (O.view out.new) result (ignored_said (plain_context turn.now)) }
    ensures fault { IfErr result (λ e. e ≡ RunFault.Write) }
    ensures rest { O.same_rest out.old out.new }
    ensures ignored { verdicts.new ≡ replicate (length verdicts.old) Ignored }
    ensures done { IfOk result (λ done. done ≡ record { row = row; is_bad = true; effects = 0 }) }
{
    verdicts.fill(Verdict::Ignored);
    tell_ignored(turn, out)?;
    Ok(unplaced(row, 0))
}

/// No hunk of it was placed.
fn unplaced(row: Row, effects: u64) -> Done
    ensures { result ≡ record { row = row; is_bad = true; effects = effects } }
{
    Done {
        row,
        is_bad: true,
        effects,
    }
}

/// Something is in its way: no hunk has a place, and all go to the reject file.
pub fn refuse<T: Tree, O: Sink>(
    turn: &FilePatchContext<'_>,
    place: u32,
    side: Side,
    verdicts: &mut [Verdict],
    tree: &mut T,
    out: &mut O,
) -> Result<Done, RunFault>
    requires turn { IsContext turn.now }
    requires within { place < length turn.now.task.patch.now.targets.items }
    requires rows { length verdicts.old ≡ row_count turn.now.task.patch.now.change }
    requires quiet { IsQuiet (T.view tree.old) }
    ensures tree { Passes (T.view tree.old) (T.view tree.new) }
    ensures sink { SinkPasses (O.view out.old) (O.view out.new) }
    ensures cause { IfErr result (λ e. HasEndCause e (T.view tree.old) (T.view tree.new) (O.view out.old) (O.view out.new)) }
    ensures quiet { OnOk result (IsQuiet (T.view tree.new)) }
    ensures tidy { OnOk result (IsTidy (T.view tree.old) (T.view tree.new)) }
    ensures rest { O.same_rest out.old out.new }
    ensures dry { turn.now.task.options.now.dry_run ≡ true → IsUntouched (T.view tree.old) (T.view tree.new) }
    ensures nowhere { verdicts.new ≡ replicate (length verdicts.old) Nowhere }
    ensures row { IfOk result (λ done. done.row ≡ record { side = side; target = Some place; wrote = false }) }
    ensures put { IfOk result (λ done. done.effects ≡ 1 → PutsRejects (T.view tree.old) (T.view tree.new) (plain_context turn.now) (written (plain_context turn.now) place) side verdicts.new) }
    ensures due { IfOk result (λ done. (f : Files) → (T.view tree.old).told ≡ Some f → done.effects ≡ (if saves_refused (plain_context turn.now) then 1 else 0)) }
    ensures refused { IfOk result (IsRefused (plain_context turn.now)) }
    ensures unsaved { IfOk result (λ done. done.effects ≡ 0 → IsUntouched (T.view tree.old) (T.view tree.new)) }
{
    verdicts.fill(Verdict::Nowhere);
    match refuse_hunks(turn, place, side, verdicts, tree, out) {
        Ok(saved) => Ok(done_refused(place, side, saved)),
        Err(fault) => Err(fault),
    }
}

/// What became of it: the reject file was put, or nothing was done.
fn done_refused(place: u32, side: Side, saved: bool) -> Done
    ensures row { result.row ≡ record { side = side; target = Some place; wrote = false } }
    ensures bad { result.is_bad ≡ true }
    ensures effects { result.effects ≡ (if saved then 1 else 0) }
{
    let row = Row {
        side,
        target: Some(place),
        wrote: false,
    };
    unplaced(row, u64::from(saved))
}

/// Says that all hunks are ignored, where there is one.
fn tell_ignored<O: Sink>(turn: &FilePatchContext<'_>, out: &mut O) -> Result<(), Failed>
    requires turn { IsContext turn.now }
    ensures writes { Writes (O.view out.old) (O.view out.new) result (ignored_said (plain_context turn.now)) }
    ensures rest { O.same_rest out.old out.new }
{
    if is_bare(turn.task.patch) {
        return Ok(());
    }
    say_ignored(turn.task.options, turn.task.patch.hunks(), out)
}

/// Tries the hunks on the lines that were taken, says what came of them, and makes the effects.
fn try_at<P: LineStore, T: Tree, O: Sink>(
    turn: &FilePatchContext<'_>,
    place: u32,
    side: Side,
    verdicts: &mut [Verdict],
    plan: &mut P,
    tree: &mut T,
    out: &mut O,
) -> Result<Done, RunFault>
    requires turn { IsContext turn.now }
    requires within { place < length turn.now.task.patch.now.targets.items }
    requires rows { length verdicts.old ≡ row_count turn.now.task.patch.now.change }
    requires quiet { IsQuiet (T.view tree.old) }
    requires told { (f : Files) → Told (T.view tree.old) (P.seen plan.old) f → is_some (P.seen plan.old).told ≡ true }
    ensures stays { Stays (T.view tree.old) (T.view tree.new) (P.seen plan.old) (P.seen plan.new) (O.view out.old) (O.view out.new) result }
    ensures keeps { Keeps (P.seen plan.old) (P.seen plan.new) }
    ensures quiet { QuietAfter result (T.view tree.new) }
    ensures tidy { TidyAfter result (T.view tree.old) (T.view tree.new) }
    ensures cause { IfErr result IsDeviceFault }
    ensures whole { IfOk result (λ done. (f : Files) → (T.view tree.old).told ≡ Some f → (P.seen plan.old).told ≡ Some (lines_in (bytes_of (plain_context turn.now) f place))
        → IsDone (T.view tree.old) (T.view tree.new) (O.view out.old) (O.view out.new) done verdicts.new f (finished_at (plain_context turn.now) f [] place side)) }
    ensures broken { OnErr result ((f : Files) → (T.view tree.old).told ≡ Some f → (P.seen plan.old).told ≡ Some (lines_in (bytes_of (plain_context turn.now) f place))
        → IsPartOf (T.view tree.old) (T.view tree.new) (O.view out.old) (O.view out.new) (finished_at (plain_context turn.now) f [] place side).effects (finished_at (plain_context turn.now) f [] place side).said) }
    ensures order { IfErr result (λ e. (f : Files) → (T.view tree.old).told ≡ Some f → (P.seen plan.old).told ≡ Some (lines_in (bytes_of (plain_context turn.now) f place))
        → IsOrdered e (T.view tree.old) (T.view tree.new) (O.view out.old) (O.view out.new) (finished_at (plain_context turn.now) f [] place side).said) }
    ensures rest { O.same_rest out.old out.new }
    ensures dry { turn.now.task.options.now.dry_run ≡ true → IsUntouched (T.view tree.old) (T.view tree.new) }
    ensures rows { length verdicts.new ≡ length verdicts.old }
    ensures few { IfOk result (λ done. done.effects ≤ 5) }
    ensures placed { IfOk result (λ done. (lines : List (List ℕ)) → (P.seen plan.new).told ≡ Some lines
        → (verdicts.new ≡ verdicts_over (plain_context turn.now).options done.row.side (plain_context turn.now).item.patch lines) ⊎ ((IsUntold (T.view tree.old) × IsRefused (plain_context turn.now) done) × (verdicts.new ≡ replicate (length verdicts.old) Nowhere))) }
{
    let source = chosen(&turn.task, place);
    let target = written(&turn.task, place);
    let trial = try_free(turn, source, target, side, verdicts, plan, tree)?;
    let attempt = trial.attempt;
    let end = trial.end;
    if let Some(barrier) = trial.barrier {
        let temp = attempt.temp;
        return refuse_tried(
            turn, place, side, target, barrier, temp, verdicts, tree, out,
        );
    }
    let session = attempt.session;
    let made = tell_and_make(
        turn, source, target, side, attempt, end, verdicts, tree, out,
    )?;
    Ok(done_of(turn, place, side, &session, made))
}

/// Says what came of the hunks, and makes the effects, if it isn't a dry run.
fn tell_and_make<T: Tree, O: Sink>(
    turn: &FilePatchContext<'_>,
    source: &Target,
    target: &Target,
    side: Side,
    attempt: Attempt<'_>,
    end: Option<bool>,
    verdicts: &[Verdict],
    tree: &mut T,
    out: &mut O,
) -> Result<Made, RunFault>
    requires turn { IsContext turn.now }
    requires source { IsNamed source.now }
    requires named { IsNamed target.now }
    requires rows { length verdicts.now ≡ row_count turn.now.task.patch.now.change }
    requires tried { All IsTried verdicts.now }
    requires begun { IsBegun turn.now.task.options.now.dry_run attempt.temp target.now.temp }
    requires quiet { IsQuiet (T.view tree.old) }
    requires there { turn.now.task.options.now.dry_run ≡ false → IsThere (T.view tree.old) target.now.temp }
    ensures tree { Passes (T.view tree.old) (T.view tree.new) }
    ensures sink { SinkPasses (O.view out.old) (O.view out.new) }
    ensures cause { IfErr result (λ e. HasEndCause e (T.view tree.old) (T.view tree.new) (O.view out.old) (O.view out.new)) }
    ensures quiet { OnOk result (IsQuiet (T.view tree.new)) }
    ensures rest { O.same_rest out.old out.new }
    ensures dry { turn.now.task.options.now.dry_run ≡ true → IsUntouched (T.view tree.old) (T.view tree.new) }
    ensures whole { IfOk result (λ made. (f : Files) (x : Tried) → (T.view tree.old).told ≡ Some f → IsOutcome turn.now.task.options.now.dry_run (T.view tree.old) attempt.entry.session target.now.temp side verdicts.now end x
        → IsMadeWhole (plain_context turn.now) f source.now target.now x made (T.view tree.old) (T.view tree.new) (O.view out.old) (O.view out.new)) }
    ensures broken { OnErr result ((f : Files) (x : Tried) → (T.view tree.old).told ≡ Some f → IsOutcome turn.now.task.options.now.dry_run (T.view tree.old) attempt.entry.session target.now.temp side verdicts.now end x
        → IsPartOf (T.view tree.old) (T.view tree.new) (O.view out.old) (O.view out.new) (effects_of (plain_context turn.now) f source.now target.now x) (tried_said (plain_context turn.now) target.now x)) }
    ensures order { IfErr result (λ e. (x : Tried) → IsOutcome turn.now.task.options.now.dry_run (T.view tree.old) attempt.entry.session target.now.temp side verdicts.now end x
        → IsOrdered e (T.view tree.old) (T.view tree.new) (O.view out.old) (O.view out.new) (tried_said (plain_context turn.now) target.now x)) }
    ensures few { IfOk result (λ made. made.effects ≤ 5) }
    ensures tidy { OnOk result (IsTidy (T.view tree.old) (T.view tree.new)) }
    ensures gone { OnOk result (turn.now.task.options.now.dry_run ≡ false → IsGone (T.view tree.new) target.now.temp) }
{
    tell(turn, target, side, &attempt.session, verdicts, end, out)?;
    match attempt.temp {
        Some(temp) => make_effects(
            turn,
            source,
            target,
            side,
            &attempt.session,
            verdicts,
            temp,
            tree,
        ),
        None => Ok(Made {
            wrote: false,
            effects: 0,
        }),
    }
}

fn done_of(
    turn: &FilePatchContext<'_>,
    place: u32,
    side: Side,
    session: &Session,
    made: Made,
) -> Done
    requires turn { IsContext turn.now }
    ensures row { result.row ≡ record { side = side; target = Some place; wrote = made.wrote } }
    ensures bad { (x : Tried) → x.side ≡ side → IsSession session.now x.verdicts x.text → result.is_bad ≡ ((some_failed x.verdicts || is_kept (plain_context turn.now) x) || fails_first (plain_context turn.now)) }
    ensures effects { result.effects ≡ made.effects }
{
    let row = Row {
        side,
        target: Some(place),
        wrote: made.wrote,
    };
    Done {
        row,
        is_bad: ends_badly(turn, side, session),
        effects: made.effects,
    }
}

/// Whether a file patch whose hunks were tried is bad: by itself, or as the first behind a binary change that failed.
fn ends_badly(turn: &FilePatchContext<'_>, side: Side, session: &Session) -> bool
    requires { IsContext turn.now }
    ensures { (x : Tried) → x.side ≡ side → IsSession session.now x.verdicts x.text → result ≡ ((some_failed x.verdicts || is_kept (plain_context turn.now) x) || fails_first (plain_context turn.now)) }
{
    if fails(turn, side, session) {
        return true;
    }
    fails_first(&turn.task)
}

/// Whether a hunk failed, or a file that was to be deleted wasn't.
fn fails(turn: &FilePatchContext<'_>, side: Side, session: &Session) -> bool
    requires { IsContext turn.now }
    ensures { (x : Tried) → x.side ≡ side → IsSession session.now x.verdicts x.text → result ≡ (some_failed x.verdicts || is_kept (plain_context turn.now) x) }
{
    session.failed > 0 || is_kept(turn, side, session)
}
