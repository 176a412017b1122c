//! How a file patch is taken: whether its hunks are tried, and from which side.

ghost use Rattle.std.specs.Prelude.{◌≡◌, ◌<◌, List, length, is_some, false, Some, None, IfOk, IfErr, OnErr};
ghost use Rattle.std.specs.FinMap.{get};
ghost use Rattle.outside.specs.Files.{Files};
ghost use Rattle.outside.specs.TreeView.{Rises};
ghost use Rattle.outside.specs.Calls.{IsUntouched};
ghost use Rattle.outside.specs.SinkView.{Writes};
ghost use Rattle.name_choice.specs.Choice.{IsWithin as IsAmong, side_of};
ghost use Rattle.say_text.specs.Messages.{no_file_lines};
ghost use Rattle.apply_task.specs.declared.fault.RunFault.TheVariants.{Write};
ghost use Rattle.apply_task.specs.Kinds.{is_link};
ghost use Rattle.apply_task.specs.Contexts.{PastFilePatch, bytes_of};
ghost use Rattle.apply_start.specs.Start.{start, own_start, is_first, choice_of, on_target, on_meant, on_file, on_unfit, on_misfit, on_taking};
ghost use Rattle.apply_start.specs.Starting.{Starts, Takes, IsPresent, IsWithin};
ghost use Rattle.apply_task.specs.TaskView.{plain_task, with_past, IsTask};

use crate::choices::{is_forced, turns_round};
use crate::fitting::unfit;
use crate::naming::{named, origin};
use crate::obstacles::{is_about_link, obstacle};
use crate::prereq_and_reversal::check_prereq_and_reversal;
use crate::refusing::{on_barred, on_unmeant};
use crate::skipping::tell_skipped;
use apply_task::{RunFault, Task, chosen, shown, subject_of, written};
use hunk_core::Side;
use line_store::{OpenFault, Plan};
use name_choice::{Choice, choose};
use outside::{Failed, Name, Sink, Tree};
use patch_set::{Row, is_posix};
use say_text::{Standing, say_no_file, say_patching, say_unfit};

/// What becomes of a file patch.
#[derive(Clone, Copy)]
pub enum Decision {
    /// All its hunks are ignored.
    Skip(Row),
    /// Something that no told tree has is in the way: its hunks are ignored, and go to the reject file.
    Refuse { place: u32, side: Side },
    /// Its hunks are tried on the chosen file from this side.
    Try { place: u32, side: Side },
}

/// Says what becomes of binary changes, if none was before it. Then it chooses the file, says so, takes its lines, and
/// decides. The tree is left as it is.
pub fn start<P: Plan, T: Tree, O: Sink>(
    task: &Task<'_>,
    plan: &mut P,
    tree: &mut T,
    out: &mut O,
) -> Result<Decision, RunFault>
    requires task { IsTask task.now }
    requires size { (P.seen plan.old).size ≡ task.now.options.now.buffer }
    ensures starts { (past : List PastFilePatch) → is_first past ≡ task.now.is_first
        → Starts (T.view tree.old) (T.view tree.new) (P.seen plan.old) (P.seen plan.new) (O.view out.old) (O.view out.new) P.scratch_after result (bytes_of (plain_task task.now)) (start (with_past past (plain_task task.now))) }
    ensures rest { O.same_rest out.old out.new }
    ensures within { IfOk result (IsWithin (length task.now.patch.now.targets.items)) }
{
    tell_skipped(task, out)?;
    start_own(task, plan, tree, out)
}

/// Chooses the file, says so, takes its lines, and decides.
fn start_own<P: Plan, T: Tree, O: Sink>(
    task: &Task<'_>,
    plan: &mut P,
    tree: &mut T,
    out: &mut O,
) -> Result<Decision, RunFault>
    requires task { IsTask task.now }
    requires size { (P.seen plan.old).size ≡ task.now.options.now.buffer }
    ensures starts { Starts (T.view tree.old) (T.view tree.new) (P.seen plan.old) (P.seen plan.new) (O.view out.old) (O.view out.new) P.scratch_after result (bytes_of (plain_task task.now)) (own_start (plain_task task.now)) }
    ensures rest { O.same_rest out.old out.new }
    ensures within { IfOk result (IsWithin (length task.now.patch.now.targets.items)) }
{
    let choice = match choose_target(task, tree) {
        Ok(choice) => choice,
        Err(_) => return Err(RunFault::Tree),
    };
    match choice {
        Choice::Existing(place) => on_target(task, place, true, plan, tree, out),
        Choice::Create(place) => on_target(task, place, false, plan, tree, out),
        Choice::Nothing => without_target(task, out),
    }
}

/// Chooses the target.
fn choose_target<T: Tree>(task: &Task<'_>, tree: &mut T) -> Result<Choice, Failed>
    requires task { IsTask task.now }
    ensures untouched { IsUntouched (T.view tree.old) (T.view tree.new) }
    ensures cause { OnErr result (Rises (T.view tree.old) (T.view tree.new)) }
    ensures within { IfOk result (IsAmong (length task.now.patch.now.targets.items)) }
    ensures chosen { IfOk result (λ chosen. (f : Files) → (T.view tree.old).told ≡ Some f → chosen ≡ choice_of (plain_task task.now) f) }
    ensures there { IfOk result (λ chosen. (f : Files) → (T.view tree.new).told ≡ Some f → IsPresent (bytes_of (plain_task task.now) f) chosen) }
{
    let options = task.options;
    choose(
        task.patch,
        options.file.is_some(),
        options.reverse,
        is_posix(options),
        tree,
    )
}

/// The file patch is skipped, since no file is found for it.
fn without_target<O: Sink>(task: &Task<'_>, out: &mut O) -> Result<Decision, RunFault>
    ensures writes { Writes (O.view out.old) (O.view out.new) result (no_file_lines task.now.patch.now.header.opening) }
    ensures fault { IfErr result (λ e. e ≡ Write) }
    ensures rest { O.same_rest out.old out.new }
    ensures row { IfOk result (λ d. d ≡ Decision.Skip (record { side = side_of task.now.options.now.reverse; target = None; wrote = false })) }
{
    say_no_file(task.options, task.patch.header.opening, out)?;
    Ok(Decision::Skip(Row {
        side: own_side(task),
        target: None,
        wrote: false,
    }))
}

/// The side that the options ask for.
pub fn own_side(task: &Task<'_>) -> Side
    ensures { result ≡ side_of task.now.options.now.reverse }
{
    if task.options.reverse {
        Side::Reversed
    } else {
        Side::Forward
    }
}

/// A file is chosen, which is there or isn't.
fn on_target<P: Plan, T: Tree, O: Sink>(
    task: &Task<'_>,
    place: u32,
    there: bool,
    plan: &mut P,
    tree: &mut T,
    out: &mut O,
) -> Result<Decision, RunFault>
    requires task { IsTask task.now }
    requires size { (P.seen plan.old).size ≡ task.now.options.now.buffer }
    requires within { place < length task.now.patch.now.targets.items }
    requires there { (f : Files) → (T.view tree.old).told ≡ Some f → there ≡ is_some (bytes_of (plain_task task.now) f place) }
    ensures starts { Starts (T.view tree.old) (T.view tree.new) (P.seen plan.old) (P.seen plan.new) (O.view out.old) (O.view out.new) P.scratch_after result (bytes_of (plain_task task.now)) (λ f. on_target (plain_task task.now) f place) }
    ensures rest { O.same_rest out.old out.new }
    ensures within { IfOk result (IsWithin (length task.now.patch.now.targets.items)) }
{
    if subject_of(task).is_meant() {
        on_meant(task, place, there, plan, tree, out)
    } else {
        on_unmeant(task, place, out)
    }
}

/// Its modes ask for what is done.
fn on_meant<P: Plan, T: Tree, O: Sink>(
    task: &Task<'_>,
    place: u32,
    there: bool,
    plan: &mut P,
    tree: &mut T,
    out: &mut O,
) -> Result<Decision, RunFault>
    requires task { IsTask task.now }
    requires size { (P.seen plan.old).size ≡ task.now.options.now.buffer }
    requires within { place < length task.now.patch.now.targets.items }
    requires there { (f : Files) → (T.view tree.old).told ≡ Some f → there ≡ is_some (bytes_of (plain_task task.now) f place) }
    ensures starts { Starts (T.view tree.old) (T.view tree.new) (P.seen plan.old) (P.seen plan.new) (O.view out.old) (O.view out.new) P.scratch_after result (bytes_of (plain_task task.now)) (λ f. on_meant (plain_task task.now) f place) }
    ensures rest { O.same_rest out.old out.new }
    ensures within { IfOk result (IsWithin (length task.now.patch.now.targets.items)) }
{
    match is_about_link(task, place, tree) {
        Ok(link) => on_way(task, place, there, link, plan, tree, out),
        Err(_) => Err(RunFault::Tree),
    }
}

/// Where something is in the way, it is refused; `link` says whether it is about a symbolic link.
fn on_way<P: Plan, T: Tree, O: Sink>(
    task: &Task<'_>,
    place: u32,
    there: bool,
    link: bool,
    plan: &mut P,
    tree: &mut T,
    out: &mut O,
) -> Result<Decision, RunFault>
    requires task { IsTask task.now }
    requires size { (P.seen plan.old).size ≡ task.now.options.now.buffer }
    requires within { place < length task.now.patch.now.targets.items }
    requires there { (f : Files) → (T.view tree.old).told ≡ Some f → there ≡ is_some (bytes_of (plain_task task.now) f place) }
    requires link { (f : Files) → (T.view tree.old).told ≡ Some f → link ≡ is_link (plain_task task.now).item.patch }
    ensures starts { Starts (T.view tree.old) (T.view tree.new) (P.seen plan.old) (P.seen plan.new) (O.view out.old) (O.view out.new) P.scratch_after result (bytes_of (plain_task task.now)) (λ f. on_meant (plain_task task.now) f place) }
    ensures rest { O.same_rest out.old out.new }
    ensures within { IfOk result (IsWithin (length task.now.patch.now.targets.items)) }
{
    match obstacle(task, place, there, link, tree) {
        Ok(None) => on_free(task, place, there, link, plan, tree, out),
        Ok(Some(barrier)) => on_barred(task, place, barrier, out),
        Err(_) => Err(RunFault::Tree),
    }
}

/// Nothing is in the way.
fn on_free<P: Plan, T: Tree, O: Sink>(
    task: &Task<'_>,
    place: u32,
    there: bool,
    link: bool,
    plan: &mut P,
    tree: &mut T,
    out: &mut O,
) -> Result<Decision, RunFault>
    requires task { IsTask task.now }
    requires size { (P.seen plan.old).size ≡ task.now.options.now.buffer }
    requires within { place < length task.now.patch.now.targets.items }
    requires there { (f : Files) → (T.view tree.old).told ≡ Some f → there ≡ is_some (bytes_of (plain_task task.now) f place) }
    requires link { (f : Files) → (T.view tree.old).told ≡ Some f → link ≡ is_link (plain_task task.now).item.patch }
    ensures starts { Starts (T.view tree.old) (T.view tree.new) (P.seen plan.old) (P.seen plan.new) (O.view out.old) (O.view out.new) P.scratch_after result (bytes_of (plain_task task.now)) (λ f. on_meant (plain_task task.now) f place) }
    ensures rest { O.same_rest out.old out.new }
    ensures within { IfOk result (IsWithin (length task.now.patch.now.targets.items)) }
{
    say_patching(
        task.options,
        link,
        shown(named(task, place)),
        origin(task, place),
        out,
    )?;
    on_file(task, place, there, own_side(task), plan, tree, out)
}

/// Whether its file fits it decides first.
fn on_file<P: Plan, T: Tree, O: Sink>(
    task: &Task<'_>,
    place: u32,
    there: bool,
    side: Side,
    plan: &mut P,
    tree: &mut T,
    out: &mut O,
) -> Result<Decision, RunFault>
    requires task { IsTask task.now }
    requires size { (P.seen plan.old).size ≡ task.now.options.now.buffer }
    requires within { place < length task.now.patch.now.targets.items }
    requires there { (f : Files) → (T.view tree.old).told ≡ Some f → there ≡ is_some (bytes_of (plain_task task.now) f place) }
    ensures starts { Starts (T.view tree.old) (T.view tree.new) (P.seen plan.old) (P.seen plan.new) (O.view out.old) (O.view out.new) P.scratch_after result (bytes_of (plain_task task.now)) (λ f. on_file (plain_task task.now) f place side) }
    ensures rest { O.same_rest out.old out.new }
    ensures within { IfOk result (IsWithin (length task.now.patch.now.targets.items)) }
{
    match unfit(task, place, side, tree) {
        Ok(None) => on_taking(task, place, there, false, side, plan, tree, out),
        Ok(Some(standing)) => on_unfit(task, standing, place, there, side, plan, tree, out),
        Err(_) => Err(RunFault::Tree),
    }
}

/// The file patch misfits its file, which with `-f` isn't asked but of a file that is needed.
fn on_unfit<P: Plan, T: Tree, O: Sink>(
    task: &Task<'_>,
    standing: Standing,
    place: u32,
    there: bool,
    side: Side,
    plan: &mut P,
    tree: &mut T,
    out: &mut O,
) -> Result<Decision, RunFault>
    requires task { IsTask task.now }
    requires size { (P.seen plan.old).size ≡ task.now.options.now.buffer }
    requires within { place < length task.now.patch.now.targets.items }
    requires there { (f : Files) → (T.view tree.old).told ≡ Some f → there ≡ is_some (bytes_of (plain_task task.now) f place) }
    ensures starts { Starts (T.view tree.old) (T.view tree.new) (P.seen plan.old) (P.seen plan.new) (O.view out.old) (O.view out.new) P.scratch_after result (bytes_of (plain_task task.now)) (λ f. on_unfit (plain_task task.now) standing place (bytes_of (plain_task task.now) f place) side) }
    ensures rest { O.same_rest out.old out.new }
    ensures within { IfOk result (IsWithin (length task.now.patch.now.targets.items)) }
{
    if is_forced(task, place) {
        on_taking(task, place, there, false, side, plan, tree, out)
    } else {
        on_misfit(task, standing, place, there, side, plan, tree, out)
    }
}

/// It is turned round, or skipped.
fn on_misfit<P: Plan, T: Tree, O: Sink>(
    task: &Task<'_>,
    standing: Standing,
    place: u32,
    there: bool,
    side: Side,
    plan: &mut P,
    tree: &mut T,
    out: &mut O,
) -> Result<Decision, RunFault>
    requires task { IsTask task.now }
    requires size { (P.seen plan.old).size ≡ task.now.options.now.buffer }
    requires within { place < length task.now.patch.now.targets.items }
    requires there { (f : Files) → (T.view tree.old).told ≡ Some f → there ≡ is_some (bytes_of (plain_task task.now) f place) }
    ensures starts { Starts (T.view tree.old) (T.view tree.new) (P.seen plan.old) (P.seen plan.new) (O.view out.old) (O.view out.new) P.scratch_after result (bytes_of (plain_task task.now)) (λ f. on_misfit (plain_task task.now) standing place (bytes_of (plain_task task.now) f place) side) }
    ensures rest { O.same_rest out.old out.new }
    ensures within { IfOk result (IsWithin (length task.now.patch.now.targets.items)) }
{
    let is_turned = turns_round(task);
    say_unfit(
        task.options,
        standing,
        shown(written(task, place)),
        is_turned,
        out,
    )?;
    if is_turned {
        on_taking(task, place, there, true, side.other(), plan, tree, out)
    } else {
        Ok(skip_at(place, side))
    }
}

/// All hunks are ignored, though a file was chosen.
pub fn skip_at(place: u32, side: Side) -> Decision
    ensures { result ≡ Decision.Skip (record { side = side; target = Some place; wrote = false }) }
{
    Decision::Skip(Row {
        side,
        target: Some(place),
        wrote: false,
    })
}

/// The file is taken, and weighed.
fn on_taking<P: Plan, T: Tree, O: Sink>(
    task: &Task<'_>,
    place: u32,
    there: bool,
    was_turned: bool,
    side: Side,
    plan: &mut P,
    tree: &mut T,
    out: &mut O,
) -> Result<Decision, RunFault>
    requires task { IsTask task.now }
    requires size { (P.seen plan.old).size ≡ task.now.options.now.buffer }
    requires within { place < length task.now.patch.now.targets.items }
    requires there { (f : Files) → (T.view tree.old).told ≡ Some f → there ≡ is_some (bytes_of (plain_task task.now) f place) }
    ensures starts { Starts (T.view tree.old) (T.view tree.new) (P.seen plan.old) (P.seen plan.new) (O.view out.old) (O.view out.new) P.scratch_after result (bytes_of (plain_task task.now)) (λ f. on_taking (plain_task task.now) place (bytes_of (plain_task task.now) f place) was_turned side) }
    ensures rest { O.same_rest out.old out.new }
    ensures within { IfOk result (IsWithin (length task.now.patch.now.targets.items)) }
{
    take(&chosen(task, place).name, there, plan, tree)?;
    check_prereq_and_reversal(task, place, there, was_turned, side, plan, out)
}

/// Takes the lines of a file, or none where it isn't there.
fn take<P: Plan, T: Tree>(
    name: &Name,
    there: bool,
    plan: &mut P,
    tree: &mut T,
) -> Result<(), OpenFault>
    requires { (f : Files) → (T.view tree.old).told ≡ Some f → there ≡ is_some (get f name.now) }
    ensures { Takes (T.view tree.old) (T.view tree.new) (P.seen plan.old) (P.seen plan.new) P.scratch_after result (λ f. get f name.now) }
{
    if there {
        plan.take_file(tree, name)
    } else {
        plan.take_empty();
        Ok(())
    }
}
