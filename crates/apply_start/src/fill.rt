//! The hunks of a file patch, tried on the lines that were taken.

ghost use Rattle.std.specs.Prelude.{◌≡◌, ◌⊎◌, [], ℕ, List, All, true, false, length, replicate, Some, IfOk, OnOk, IfErr, IsSomeAnd};
ghost use Rattle.read_file_patch.specs.PlainPatch.{hunks};
ghost use Rattle.hunk_apply.specs.Change.{change_output};
ghost use Rattle.hunk_core.specs.declared.Verdict.TheVariants.{Nowhere};
ghost use Rattle.outside.specs.Files.{is_temp};
ghost use Rattle.outside.specs.TreeView.{Rises};
ghost use Rattle.outside.specs.Calls.{IsThere};
ghost use Rattle.outside.specs.Quiet.{IsQuiet, WorksOn, Holds};
ghost use Rattle.line_store.specs.Store.{Keeps, HasCause};
ghost use Rattle.read_file_patch.specs.PlainPatch.{row_count};
ghost use Rattle.outside.specs.SinkView.{SinkPasses, Receives};
ghost use Rattle.hunk_apply.specs.Faults.{HasApplyCause};
ghost use Rattle.hunk_apply.specs.Session.{IsTried};
ghost use Rattle.patch_options.specs.PlainJob.{IsMacroName};
ghost use Rattle.apply_task.specs.Asking.{is_bare};
ghost use Rattle.apply_task.specs.Outputs.{is_barred, output_on, tried, parted_output, IsSession};
ghost use Rattle.apply_start.specs.Trying.{IsBegun, HasTryCause, HasLineCause};
ghost use Rattle.apply_task.specs.Faults.{of_line};
ghost use Rattle.apply_task.specs.Making.{IsGone, IsTidy, UnlessFailed};
ghost use Rattle.apply_task.specs.TaskView.{plain_task, IsTask};

use crate::discard::Discard;
use apply_task::{RunFault, Task, is_bare};
use hunk_apply::{ApplyFault, Session, apply_each, apply_hunks};
use hunk_core::{Side, Verdict};
use ifdef_out::{IfdefFault, put_ifdef};
use line_store::{LineFault, LineStore};
use outside::{Name, Sink, Tree};
use replace_file::{Temp, TempSink, begin_temp};

/// What came of the hunks, and the temporary with the output, which a dry run has not.
#[derive(Drop)]
pub struct Attempt<'n> {
    pub session: Session,
    pub temp: Option<Temp<'n>>,
}

/// Tries the hunks and writes the output to the temporary, unless in a dry run.
pub fn try_hunks<'n, P: LineStore, T: Tree>(
    task: &Task<'_>,
    temp: &'n Name,
    side: Side,
    verdicts: &mut [Verdict],
    plan: &mut P,
    tree: &mut T,
) -> Result<Attempt<'n>, RunFault>
    requires task { IsTask task.now }
    requires temp { is_temp temp.now ≡ true }
    requires rows { length verdicts.old ≡ row_count task.now.patch.now.change }
    requires quiet { IsQuiet (T.view tree.old) }
    ensures works { WorksOn (T.view tree.old) (T.view tree.new) temp.now }
    ensures keeps { Keeps (P.seen plan.old) (P.seen plan.new) }
    ensures cause { IfErr result (λ e. HasTryCause e (T.view tree.old) (T.view tree.new) (P.seen plan.old) (P.seen plan.new)) }
    ensures dry { task.now.options.now.dry_run ≡ true → tree.new ≡ tree.old }
    ensures begun { IfOk result (λ attempt. IsBegun task.now.options.now.dry_run attempt.temp temp.now) }
    ensures there { OnOk result (task.now.options.now.dry_run ≡ false → IsThere (T.view tree.new) temp.now) }
    ensures holds { OnOk result ((lines : List (List ℕ)) → (P.seen plan.old).told ≡ Some lines → task.now.options.now.dry_run ≡ false → Holds (T.view tree.new) temp.now (tried (plain_task task.now) side lines).output) }
    ensures session { IfOk result (λ attempt. (lines : List (List ℕ)) → (P.seen plan.old).told ≡ Some lines → IsSession attempt.session verdicts.new (tried (plain_task task.now) side lines).text) }
    ensures verdicts { OnOk result ((lines : List (List ℕ)) → (P.seen plan.old).told ≡ Some lines → verdicts.new ≡ (tried (plain_task task.now) side lines).verdicts) }
    ensures tried { OnOk result (All IsTried verdicts.new) }
    ensures rows { length verdicts.new ≡ length verdicts.old }

    // After a fault that no device has caused the temporary is gone again.
    ensures tidy { IfErr result (λ e. UnlessFailed e (IsTidy (T.view tree.old) (T.view tree.new))) }
{
    if task.options.dry_run {
        let session = try_dry(task, side, verdicts, plan)?;
        Ok(Attempt {
            session,
            temp: None,
        })
    } else {
        fill_temp(task, temp, side, verdicts, plan, tree)
    }
}

/// Tries the hunks, and writes nothing.
fn try_dry<P: LineStore>(
    task: &Task<'_>,
    side: Side,
    verdicts: &mut [Verdict],
    plan: &mut P,
) -> Result<Session, RunFault>
    requires task { IsTask task.now }
    requires rows { length verdicts.old ≡ row_count task.now.patch.now.change }
    ensures keeps { Keeps (P.seen plan.old) (P.seen plan.new) }
    ensures cause { IfErr result (λ e. HasLineCause e (P.seen plan.old) (P.seen plan.new)) }
    ensures session { IfOk result (λ session. (lines : List (List ℕ)) → (P.seen plan.old).told ≡ Some lines → IsSession session verdicts.new (tried (plain_task task.now) side lines).text) }
    ensures verdicts { OnOk result ((lines : List (List ℕ)) → (P.seen plan.old).told ≡ Some lines → verdicts.new ≡ (tried (plain_task task.now) side lines).verdicts) }
    ensures tried { OnOk result (All IsTried verdicts.new) }
    ensures rows { length verdicts.new ≡ length verdicts.old }
{
    let session = try_nowhere(task, side, verdicts, plan)?;
    Ok(session)
}

/// Tries the hunks, and keeps nothing of the new text.
fn try_nowhere<P: LineStore>(
    task: &Task<'_>,
    side: Side,
    verdicts: &mut [Verdict],
    plan: &mut P,
) -> Result<Session, LineFault>
    requires task { IsTask task.now }
    requires rows { length verdicts.old ≡ row_count task.now.patch.now.change }
    ensures keeps { Keeps (P.seen plan.old) (P.seen plan.new) }
    ensures cause { IfErr result (λ e. HasCause e (P.seen plan.old) (P.seen plan.new)) }
    ensures session { IfOk result (λ session. (lines : List (List ℕ)) → (P.seen plan.old).told ≡ Some lines → IsSession session verdicts.new (tried (plain_task task.now) side lines).text) }
    ensures verdicts { OnOk result ((lines : List (List ℕ)) → (P.seen plan.old).told ≡ Some lines → verdicts.new ≡ (tried (plain_task task.now) side lines).verdicts) }
    ensures tried { OnOk result (All IsTried verdicts.new) }
    ensures rows { length verdicts.new ≡ length verdicts.old }
{
    let mut nowhere = Discard {};
    match try_plain(task, side, verdicts, plan, &mut nowhere) {
        Ok(session) => Ok(session),
        Err(ApplyFault::Line(fault)) => Err(fault),
        Err(ApplyFault::Write) => unreachable!(),
    }
}

/// Tries the hunks, and writes the output to a sink: with `-D` the old and the new lines with their conditions, for which
/// the hunks are tried first.
fn try_into<P: LineStore, O: Sink>(
    task: &Task<'_>,
    side: Side,
    verdicts: &mut [Verdict],
    plan: &mut P,
    out: &mut O,
) -> Result<Session, ApplyFault>
    requires task { IsTask task.now }
    requires rows { length verdicts.old ≡ row_count task.now.patch.now.change }
    ensures keeps { Keeps (P.seen plan.old) (P.seen plan.new) }
    ensures sink { SinkPasses (O.view out.old) (O.view out.new) }
    ensures rest { O.same_rest out.old out.new }
    ensures cause { IfErr result (λ e. HasApplyCause e (P.seen plan.old) (P.seen plan.new) (O.view out.old) (O.view out.new)) }
    ensures received { OnOk result ((lines : List (List ℕ)) → (P.seen plan.old).told ≡ Some lines → Receives (O.view out.old) (O.view out.new) (tried (plain_task task.now) side lines).output) }
    ensures session { IfOk result (λ session. (lines : List (List ℕ)) → (P.seen plan.old).told ≡ Some lines → IsSession session verdicts.new (tried (plain_task task.now) side lines).text) }
    ensures verdicts { OnOk result ((lines : List (List ℕ)) → (P.seen plan.old).told ≡ Some lines → verdicts.new ≡ (tried (plain_task task.now) side lines).verdicts) }
    ensures tried { OnOk result (All IsTried verdicts.new) }
    ensures rows { length verdicts.new ≡ length verdicts.old }
{
    match &task.options.define {
        Some(define) => try_parted(task, define, side, verdicts, plan, out),
        None => try_plain(task, side, verdicts, plan, out),
    }
}

/// Tries the hunks, and writes the old and the new lines with their conditions to a sink.
fn try_parted<P: LineStore, O: Sink>(
    task: &Task<'_>,
    define: &str,
    side: Side,
    verdicts: &mut [Verdict],
    plan: &mut P,
    out: &mut O,
) -> Result<Session, ApplyFault>
    requires task { IsTask task.now }
    requires define { IsMacroName define.now }
    requires rows { length verdicts.old ≡ row_count task.now.patch.now.change }
    ensures keeps { Keeps (P.seen plan.old) (P.seen plan.new) }
    ensures sink { SinkPasses (O.view out.old) (O.view out.new) }
    ensures rest { O.same_rest out.old out.new }
    ensures cause { IfErr result (λ e. HasApplyCause e (P.seen plan.old) (P.seen plan.new) (O.view out.old) (O.view out.new)) }
    ensures received { OnOk result ((lines : List (List ℕ)) → (P.seen plan.old).told ≡ Some lines → Receives (O.view out.old) (O.view out.new) (output_on (Some define.now) (plain_task task.now) side lines)) }
    ensures session { IfOk result (λ session. (lines : List (List ℕ)) → (P.seen plan.old).told ≡ Some lines → IsSession session verdicts.new (tried (plain_task task.now) side lines).text) }
    ensures verdicts { OnOk result ((lines : List (List ℕ)) → (P.seen plan.old).told ≡ Some lines → verdicts.new ≡ (tried (plain_task task.now) side lines).verdicts) }
    ensures tried { OnOk result (All IsTried verdicts.new) }
    ensures rows { length verdicts.new ≡ length verdicts.old }
{
    if is_barred(task, side, plan) {
        return try_plain(task, side, verdicts, plan, out);
    }
    let session = try_nowhere(task, side, verdicts, plan)?;
    put_parted(task, define, side, verdicts, plan, out)?;
    Ok(session)
}

/// Writes the old and the new lines with their conditions to a sink.
fn put_parted<P: LineStore, O: Sink>(
    task: &Task<'_>,
    define: &str,
    side: Side,
    verdicts: &[Verdict],
    plan: &mut P,
    out: &mut O,
) -> Result<(), ApplyFault>
    requires task { IsTask task.now }
    requires define { IsMacroName define.now }
    requires rows { length verdicts.now ≡ row_count task.now.patch.now.change }
    requires tried { All IsTried verdicts.now }
    requires open { (lines : List (List ℕ)) → (P.seen plan.old).told ≡ Some lines → is_barred (plain_task task.now).options side (plain_task task.now).item.patch lines ≡ false }
    requires placed { (lines : List (List ℕ)) → (P.seen plan.old).told ≡ Some lines → verdicts.now ≡ (tried (plain_task task.now) side lines).verdicts }
    ensures keeps { Keeps (P.seen plan.old) (P.seen plan.new) }
    ensures sink { SinkPasses (O.view out.old) (O.view out.new) }
    ensures rest { O.same_rest out.old out.new }
    ensures cause { IfErr result (λ e. HasApplyCause e (P.seen plan.old) (P.seen plan.new) (O.view out.old) (O.view out.new)) }
    ensures received { OnOk result ((lines : List (List ℕ)) → (P.seen plan.old).told ≡ Some lines → Receives (O.view out.old) (O.view out.new) (parted_output (plain_task task.now) side lines define.now)) }
{
    match put_ifdef(
        plan,
        task.set.text(),
        task.patch,
        side,
        verdicts,
        define,
        out,
    ) {
        Ok(()) => Ok(()),
        Err(IfdefFault::Line(fault)) => Err(ApplyFault::Line(fault)),
        Err(IfdefFault::Write) => Err(ApplyFault::Write),
    }
}

/// Tries the hunks, and writes the new text to a sink.
fn try_plain<P: LineStore, O: Sink>(
    task: &Task<'_>,
    side: Side,
    verdicts: &mut [Verdict],
    plan: &mut P,
    out: &mut O,
) -> Result<Session, ApplyFault>
    requires task { IsTask task.now }
    requires rows { length verdicts.old ≡ row_count task.now.patch.now.change }
    ensures keeps { Keeps (P.seen plan.old) (P.seen plan.new) }
    ensures sink { SinkPasses (O.view out.old) (O.view out.new) }
    ensures rest { O.same_rest out.old out.new }
    ensures cause { IfErr result (λ e. HasApplyCause e (P.seen plan.old) (P.seen plan.new) (O.view out.old) (O.view out.new)) }
    ensures received { OnOk result ((lines : List (List ℕ)) → (P.seen plan.old).told ≡ Some lines → Receives (O.view out.old) (O.view out.new) ((tried (plain_task task.now) side lines).text)) }
    ensures session { IfOk result (λ session. (lines : List (List ℕ)) → (P.seen plan.old).told ≡ Some lines → IsSession session verdicts.new (tried (plain_task task.now) side lines).text) }
    ensures verdicts { OnOk result ((lines : List (List ℕ)) → (P.seen plan.old).told ≡ Some lines → verdicts.new ≡ (tried (plain_task task.now) side lines).verdicts) }
    ensures tried { OnOk result (All IsTried verdicts.new) }
    ensures rows { length verdicts.new ≡ length verdicts.old }
{
    if is_barred(task, side, plan) {
        return bar(task, side, verdicts, plan, out);
    }
    let options = task.options;
    apply_hunks(
        plan,
        task.set.text(),
        task.patch,
        side,
        options.fuzz,
        options.loose,
        verdicts,
        out,
    )
}

/// Whether the file patch makes its file, is forced, and lines stand there, so that none of its hunks has a place.
fn is_barred<P: LineStore>(task: &Task<'_>, side: Side, plan: &P) -> bool
    requires task { IsTask task.now }
    ensures barred { (lines : List (List ℕ)) → (P.seen plan.now).told ≡ Some lines → result ≡ is_barred (plain_task task.now).options side (plain_task task.now).item.patch lines }
    ensures hunks { result ≡ true → is_bare (plain_task task.now).item.patch ≡ false }
{
    if !task.options.force {
        return false;
    }
    if is_bare(task.patch) {
        return false;
    }
    if !task.patch.creates(side) {
        return false;
    }
    plan.count() > 0
}

/// No hunk has a place, and the lines are written as they are.
fn bar<P: LineStore, O: Sink>(
    task: &Task<'_>,
    side: Side,
    verdicts: &mut [Verdict],
    plan: &mut P,
    out: &mut O,
) -> Result<Session, ApplyFault>
    requires task { IsTask task.now }
    requires hunks { is_bare (plain_task task.now).item.patch ≡ false }
    requires rows { length verdicts.old ≡ row_count task.now.patch.now.change }
    ensures keeps { Keeps (P.seen plan.old) (P.seen plan.new) }
    ensures sink { SinkPasses (O.view out.old) (O.view out.new) }
    ensures rest { O.same_rest out.old out.new }
    ensures cause { IfErr result (λ e. HasApplyCause e (P.seen plan.old) (P.seen plan.new) (O.view out.old) (O.view out.new)) }
    ensures received { OnOk result ((lines : List (List ℕ)) → (P.seen plan.old).told ≡ Some lines → Receives (O.view out.old) (O.view out.new) (change_output lines task.now.options.now.fuzz task.now.options.now.loose side (hunks []))) }
    ensures session { IfOk result (λ session. (lines : List (List ℕ)) → (P.seen plan.old).told ≡ Some lines → IsSession session verdicts.new (change_output lines task.now.options.now.fuzz task.now.options.now.loose side (hunks []))) }
    ensures verdicts { verdicts.new ≡ replicate (row_count task.now.patch.now.change) Nowhere }
{
    let options = task.options;
    verdicts.fill(Verdict::Nowhere);
    let kept = apply_each(
        plan,
        task.set.text(),
        &[],
        side,
        options.fuzz,
        options.loose,
        &mut [],
        out,
    )?;
    Ok(Session {
        applied: 0,
        failed: task.patch.hunks(),
        inexact: true,
        output_empty: kept.output_empty,
    })
}

/// Tries the hunks, and writes the output to the temporary.
fn fill_temp<'n, P: LineStore, T: Tree>(
    task: &Task<'_>,
    temp: &'n Name,
    side: Side,
    verdicts: &mut [Verdict],
    plan: &mut P,
    tree: &mut T,
) -> Result<Attempt<'n>, RunFault>
    requires task { IsTask task.now }
    requires temp { is_temp temp.now ≡ true }
    requires rows { length verdicts.old ≡ row_count task.now.patch.now.change }
    requires quiet { IsQuiet (T.view tree.old) }
    ensures works { WorksOn (T.view tree.old) (T.view tree.new) temp.now }
    ensures keeps { Keeps (P.seen plan.old) (P.seen plan.new) }
    ensures cause { IfErr result (λ e. HasTryCause e (T.view tree.old) (T.view tree.new) (P.seen plan.old) (P.seen plan.new)) }
    ensures begun { IfOk result (λ attempt. IsSomeAnd attempt.temp (λ begun. begun.name.now ≡ temp.now)) }
    ensures there { OnOk result (IsThere (T.view tree.new) temp.now) }
    ensures holds { OnOk result ((lines : List (List ℕ)) → (P.seen plan.old).told ≡ Some lines → Holds (T.view tree.new) temp.now (tried (plain_task task.now) side lines).output) }
    ensures session { IfOk result (λ attempt. (lines : List (List ℕ)) → (P.seen plan.old).told ≡ Some lines → IsSession attempt.session verdicts.new (tried (plain_task task.now) side lines).text) }
    ensures verdicts { OnOk result ((lines : List (List ℕ)) → (P.seen plan.old).told ≡ Some lines → verdicts.new ≡ (tried (plain_task task.now) side lines).verdicts) }
    ensures tried { OnOk result (All IsTried verdicts.new) }
    ensures rows { length verdicts.new ≡ length verdicts.old }
    ensures gone { IfErr result (λ e. UnlessFailed e (IsGone (T.view tree.new) temp.now)) }
{
    let begun = match begin_temp(tree, temp) {
        Ok(begun) => begun,
        Err(_) => return Err(RunFault::Tree),
    };
    fill_begun(task, begun, side, verdicts, plan, tree)
}

/// Tries the hunks, and writes the output to an empty temporary.
fn fill_begun<'n, P: LineStore, T: Tree>(
    task: &Task<'_>,
    begun: Temp<'n>,
    side: Side,
    verdicts: &mut [Verdict],
    plan: &mut P,
    tree: &mut T,
) -> Result<Attempt<'n>, RunFault>
    requires task { IsTask task.now }
    requires rows { length verdicts.old ≡ row_count task.now.patch.now.change }
    requires quiet { IsQuiet (T.view tree.old) }
    requires empty { Holds (T.view tree.old) begun.name.now [] }
    ensures works { WorksOn (T.view tree.old) (T.view tree.new) begun.entry.name.now }
    ensures keeps { Keeps (P.seen plan.old) (P.seen plan.new) }
    ensures cause { IfErr result (λ e. HasTryCause e (T.view tree.old) (T.view tree.new) (P.seen plan.old) (P.seen plan.new)) }
    ensures begun { IfOk result (λ attempt. IsSomeAnd attempt.temp (λ filled. filled.name.now ≡ begun.entry.name.now)) }
    ensures there { OnOk result (IsThere (T.view tree.new) begun.entry.name.now) }
    ensures holds { OnOk result ((lines : List (List ℕ)) → (P.seen plan.old).told ≡ Some lines → Holds (T.view tree.new) begun.entry.name.now (tried (plain_task task.now) side lines).output) }
    ensures session { IfOk result (λ attempt. (lines : List (List ℕ)) → (P.seen plan.old).told ≡ Some lines → IsSession attempt.session verdicts.new (tried (plain_task task.now) side lines).text) }
    ensures verdicts { OnOk result ((lines : List (List ℕ)) → (P.seen plan.old).told ≡ Some lines → verdicts.new ≡ (tried (plain_task task.now) side lines).verdicts) }
    ensures tried { OnOk result (All IsTried verdicts.new) }
    ensures rows { length verdicts.new ≡ length verdicts.old }
    ensures gone { IfErr result (λ e. UnlessFailed e (IsGone (T.view tree.new) begun.entry.name.now)) }
{
    let mut sink = TempSink::new(tree, begun);
    match try_into(task, side, verdicts, plan, &mut sink) {
        Ok(session) => match sink.finish() {
            Ok(()) => Ok(Attempt {
                session,
                temp: Some(sink.into_temp()),
            }),
            Err(_) => Err(RunFault::Tree),
        },
        Err(ApplyFault::Line(LineFault::Scratch)) => Err(RunFault::Scratch),
        Err(ApplyFault::Line(fault)) => match sink.finish() {
            Ok(()) => Err(give_up(fault, sink.into_temp(), tree)),
            Err(_) => Err(RunFault::Tree),
        },
        Err(ApplyFault::Write) => Err(RunFault::Tree),
    }
}

/// Takes the temporary away, since no device has failed, and answers the fault of the lines, or that of the tree.
fn give_up<T: Tree>(fault: LineFault, temp: Temp<'_>, tree: &mut T) -> RunFault
    requires quiet { IsQuiet (T.view tree.old) }
    requires there { IsThere (T.view tree.old) temp.name.now }
    ensures works { WorksOn (T.view tree.old) (T.view tree.new) temp.entry.name.now }
    ensures fault { (result ≡ of_line fault) ⊎ ((result ≡ RunFault.Tree) × Rises (T.view tree.old) (T.view tree.new)) }
    ensures gone { UnlessFailed result (IsGone (T.view tree.new) temp.entry.name.now) }
{
    match temp.forget(tree) {
        Ok(()) => RunFault::from(fault),
        Err(_) => RunFault::Tree,
    }
}
