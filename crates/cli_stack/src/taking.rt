//! The commands that apply no patch: the last one is taken back, or they are counted.
ghost use Rattle.std.specs.Prelude.{◌≡◌, ◌<◌, ◌≤◌, ◌-◌, ◌∷◌, drop, length, nat_lt, Ok};
ghost use Rattle.outside.specs.Quiet.{IsQuiet};
ghost use Rattle.outside.specs.ScratchView.{ScratchView};
ghost use Rattle.cli_tool_words.specs.declared.jobs.StackOp.TheVariants.{Pop, Applied};
ghost use Rattle.cli_run_answers.specs.Worlds.{world};
ghost use Rattle.cli_stack.specs.Command.{on_op};
ghost use Rattle.cli_stack.specs.Carries.{Carries};
ghost use Rattle.cli_stack.specs.Comes.{Comes};
ghost use Rattle.cli_stack.specs.States.{IsState};

use crate::fault::{done, of_state, told};
use crate::reading::State;
use cli_run_answers::Why;
use outside::{Name, Sink, Tree};
use stack_state::{Standing, read_last_save, recover, say_tally, take_back};
use std::alloc::Global;

/// Tells how many patches of how many are applied.
pub fn count_applied<T: Tree, O: Sink>(
    alloc: Global,
    state: &State,
    tree: &mut T,
    out: &mut O,
) -> Why
    requires state { IsState (T.view tree.old) state.now }
    requires quiet { IsQuiet (T.view tree.old) }
    ensures comes { (a : ScratchView) → Comes Applied (world (T.view tree.old) a (O.view out.old)) (world (T.view tree.new) a (O.view out.new)) result (on_op Applied) }
    ensures rest { O.same_rest out.old out.new }
{
    let stack = &state.stack;
    match recover(alloc, stack.applied, &state.next, tree, out) {
        Ok(()) => told(say_tally(out, stack.applied, count(stack))),
        Err(fault) => Why::from(fault),
    }
}

/// Takes the last patch back that is applied.
pub fn take_last<T: Tree, O: Sink>(alloc: Global, state: &State, tree: &mut T, out: &mut O) -> Why
    requires state { IsState (T.view tree.old) state.now }
    requires quiet { IsQuiet (T.view tree.old) }
    ensures carries { (a : ScratchView) → Carries (Ok Pop) (world (T.view tree.old) a (O.view out.old)) (world (T.view tree.new) a (O.view out.new)) result }
    ensures rest { O.same_rest out.old out.new }
{
    if has_applied(&state.stack) {
        take_saved(alloc, state, tree, out)
    } else {
        Why::StackEnd { applied: 0 }
    }
}

fn has_applied(stack: &Standing) -> bool
    ensures { result ≡ nat_lt 0 stack.now.applied }
{
    0 < stack.applied
}

/// Undoes what an interrupted command did, and takes the last patch back by its save.
fn take_saved<T: Tree, O: Sink>(alloc: Global, state: &State, tree: &mut T, out: &mut O) -> Why
    requires state { IsState (T.view tree.old) state.now }
    requires some { 0 < state.now.stack.applied }
    requires quiet { IsQuiet (T.view tree.old) }
    ensures carries { (a : ScratchView) → Carries (Ok Pop) (world (T.view tree.old) a (O.view out.old)) (world (T.view tree.new) a (O.view out.new)) result }
    ensures rest { O.same_rest out.old out.new }
{
    let stack = &state.stack;
    let save = match read_last_save(alloc, stack.applied, tree) {
        Ok(save) => save,
        Err(fault) => return of_state(fault),
    };
    match recover(alloc, stack.applied, &state.next, tree, out) {
        Ok(()) => done(take_back(
            alloc,
            last_name(stack),
            stack.applied - 1,
            &save,
            count(stack),
            tree,
            out,
        )),
        Err(fault) => Why::from(fault),
    }
}

/// The name of the last patch that is applied.
fn last_name(stack: &Standing) -> &Name
    requires some { 0 < stack.now.applied }
    requires applied { stack.now.applied ≤ length stack.now.patches.items }
    ensures { drop (stack.now.applied - 1) stack.now.patches.items ≡ result.now ∷ drop stack.now.applied stack.now.patches.items }
{
    &stack.patches[stack.applied as usize - 1]
}

/// How many patches there are.
pub fn count(stack: &Standing) -> u32
    requires { length stack.now.patches.items ≤ 9999 }
    ensures { result ≡ length stack.now.patches.items }
{
    stack.patches.len() as u32
}
