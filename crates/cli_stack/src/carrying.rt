//! One command of `patchstack`, from its operation to its answer.
ghost use Rattle.std.specs.Prelude.{◌≡◌, Ok};
ghost use Rattle.outside.specs.Quiet.{IsQuiet};
ghost use Rattle.cli_run_answers.specs.Worlds.{world};
ghost use Rattle.cli_stack.specs.Jobs.{IsPushing};
ghost use Rattle.cli_stack.specs.Carries.{Carries};
ghost use Rattle.cli_stack.specs.States.{IsState};

use crate::pushing::apply_next;
use crate::reading::{State, read_state};
use crate::taking::{count_applied, take_last};
use cli_run_answers::{Why, settle};
use cli_tool_words::StackOp;
use outside::{Scratch, Sink, Tree};
use std::alloc::Global;

/// Settles the tree, and carries the operation out over what its files tell. The scratch comes back.
///
/// `carries` says, of what the command does over the tree at entry: which answer comes, with its text and its files; first
/// parts of the text and of the effects after a fault; that a refusal left tree, scratch and standard output as they were; what
/// each crash since the call began can leave, and that it recovers to the files before the command or after it.
pub fn run_op<T: Tree, C: Scratch, O: Sink>(
    alloc: Global,
    op: StackOp,
    tree: &mut T,
    scratch: C,
    out: &mut O,
) -> (Why, C)
    ensures carries { Carries (Ok op) (world (T.view tree.old) (C.view scratch) (O.view out.old)) (world (T.view tree.new) (C.view result.1) (O.view out.new)) result.0 }
    ensures scratch { (IsPushing op → ⊥) → result.1 ≡ scratch }
    ensures rest { O.same_rest out.old out.new }
{
    match settle(tree) {
        Ok(()) => {}
        Err(why) => return (why, scratch),
    }
    match read_state(alloc, tree) {
        Ok(state) => {
            let ended = run_state(alloc, op, &state, tree, scratch, out);
            drop(state);
            ended
        }
        Err(why) => (why, scratch),
    }
}

fn run_state<T: Tree, C: Scratch, O: Sink>(
    alloc: Global,
    op: StackOp,
    state: &State,
    tree: &mut T,
    scratch: C,
    out: &mut O,
) -> (Why, C)
    requires state { IsState (T.view tree.old) state.now }
    requires quiet { IsQuiet (T.view tree.old) }
    ensures carries { Carries (Ok op) (world (T.view tree.old) (C.view scratch) (O.view out.old)) (world (T.view tree.new) (C.view result.1) (O.view out.new)) result.0 }
    ensures scratch { (IsPushing op → ⊥) → result.1 ≡ scratch }
    ensures rest { O.same_rest out.old out.new }
{
    match op {
        StackOp::Push => apply_next(alloc, state, tree, scratch, out),
        StackOp::Pop => (take_last(alloc, state, tree, out), scratch),
        StackOp::Applied => (count_applied(alloc, state, tree, out), scratch),
    }
}
