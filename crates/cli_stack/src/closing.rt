//! What a push does behind its patch.
ghost use Rattle.std.specs.Prelude.{◌≡◌, ◌≤◌, length, not, Err, IsSome};
ghost use Rattle.outside.specs.ScratchView.{ScratchView};
ghost use Rattle.outside.specs.SinkView.{SinkView};
ghost use Rattle.patch_run.specs.Doing.{QuietAfter};
ghost use Rattle.series_stack.specs.Saves.{entries_of};
ghost use Rattle.cli_run_answers.specs.declared.why.Why.TheVariants.{Rejected};
ghost use Rattle.cli_run_answers.specs.Worlds.{world};
ghost use Rattle.cli_stack.specs.Stages.{Closes, HasCut, QuietBy, Stage, is_cut, why_by};
ghost use Rattle.cli_stack.specs.States.{stage_of};

use crate::fault::done;
use crate::reading::State;
use crate::taking::count;
use apply_task::RunFault;
use cli_run_answers::Why;
use outside::{Name, Sink, Tree};
use patch_run::Applied;
use stack_state::{keep, reject, undo};
use std::alloc::Global;

/// Keeps a patch that was applied whole, and undoes one of which a part isn't applied, or that was cut off by a file that
/// isn't taken. Behind another fault it does nothing.
pub fn close<T: Tree, O: Sink>(
    alloc: Global,
    state: &State,
    name: &Name,
    save: &[u8],
    ended: Result<Applied, RunFault>,
    tree: &mut T,
    out: &mut O,
) -> Why
    requires few { length state.now.stack.patches.items ≤ 9999 }
    requires applied { state.now.stack.applied ≤ 9999 }
    requires save { IsSome (entries_of save.now) }
    requires quiet { QuietAfter ended (T.view tree.old) }
    requires cut { HasCut ended }
    ensures closes { (a : ScratchView) → Closes ended (world (T.view tree.old) a (O.view out.old)) (world (T.view tree.new) a (O.view out.new)) result (stage_of state.now name.now) (entries_of save.now) }
    ensures rest { O.same_rest out.old out.new }
{
    match ended {
        Ok(applied) => {
            let stack = &state.stack;
            let patches = count(stack);
            if is_whole(&applied) {
                done(keep(alloc, stack.applied, patches, tree, out))
            } else {
                rejected(reject(alloc, name, stack.applied, save, patches, tree, out))
            }
        }
        Err(fault) => close_cut(alloc, state.stack.applied, save, fault, tree),
    }
}

fn is_whole(applied: &Applied) -> bool
    ensures { result ≡ not applied.now.is_bad }
{
    applied.status() == 0
}

fn rejected(done: Result<(), RunFault>) -> Why
    ensures { result ≡ why_by Rejected done }
{
    match done {
        Ok(()) => Why::Rejected,
        Err(fault) => Why::from(fault),
    }
}

/// Behind a run that came to no end. A patch that was cut off is undone.
fn close_cut<T: Tree>(alloc: Global, applied: u32, save: &[u8], cut: RunFault, tree: &mut T) -> Why
    requires applied { applied ≤ 9999 }
    requires save { IsSome (entries_of save.now) }
    requires quiet { QuietBy cut (T.view tree.old) }
    requires cut { HasCut (Err cut) }
    ensures { (a : ScratchView) (c : SinkView) (s : Stage) → s.applied ≡ applied → Closes (Err cut) (world (T.view tree.old) a c) (world (T.view tree.new) a c) result s (entries_of save.now) }
{
    if is_cut(cut) {
        match undo(alloc, applied + 1, save, tree) {
            Ok(()) => Why::from(cut),
            Err(fault) => Why::from(fault),
        }
    } else {
        Why::from(cut)
    }
}

fn is_cut(fault: RunFault) -> bool
    ensures { result ≡ is_cut fault }
{
    match fault {
        RunFault::LongLine { .. } => true,
        RunFault::FileTooLong { .. } => true,
        _ => false,
    }
}
