//! The next patch of a stack is applied.
ghost use Rattle.std.specs.Prelude.{◌≡◌, ◌<◌, ◌≤◌, ◌∷◌, ℕ, List, drop, nat_lt, suc, length, false, ◌⊎◌, None, Some, Ok, IfOk, IfErr, OnOk};
ghost use Rattle.outside.specs.Calls.{IsUntouched};
ghost use Rattle.outside.specs.Quiet.{IsQuiet};
ghost use Rattle.outside.specs.ScratchView.{ScratchView};
ghost use Rattle.outside.specs.SinkView.{SinkView};
ghost use Rattle.series_stack.specs.Stack.{patch_name};
ghost use Rattle.stack_patch.specs.Reading.{push_options, targets_for};
ghost use Rattle.patch_set.specs.SetView.{IsRead, plain_patches};
ghost use Rattle.series_stack.specs.Commands.{names_of, own_line};
ghost use Rattle.outside.specs.Names.{is_absolute};
ghost use Rattle.cli_stack.specs.Command.{on_op};
ghost use Rattle.cli_tool_words.specs.declared.jobs.StackOp.TheVariants.{Push};
ghost use Rattle.cli_run_answers.specs.Worlds.{world};
ghost use Rattle.cli_stack.specs.Carries.{Carries};
ghost use Rattle.cli_stack.specs.Comes.{Comes, StopsEarly};
ghost use Rattle.cli_stack.specs.Stages.{CanPush, IsNext, on_said};
ghost use Rattle.cli_stack.specs.States.{IsNamed, IsState, stage_of};

use crate::closing::close;
use crate::fault::{of_push, of_save};
use crate::reading::State;
use cli_run_answers::Why;
use outside::{Name, Scratch, Sink, Tree};
use patch_run::apply;
use patch_set::PatchSet;
use series_stack::take_names;
use stack_patch::{push_options, read_push, saved_names};
use stack_state::{Standing, put_save, recover, say_applying};
use std::alloc::{AllocError, Global};

/// Applies the next patch, or undoes what was done of it. The scratch comes back.
pub fn apply_next<T: Tree, C: Scratch, O: Sink>(
    alloc: Global,
    state: &State,
    tree: &mut T,
    scratch: C,
    out: &mut O,
) -> (Why, C)
    requires state { IsState (T.view tree.old) state.now }
    requires quiet { IsQuiet (T.view tree.old) }
    ensures carries { Carries (Ok Push) (world (T.view tree.old) (C.view scratch) (O.view out.old)) (world (T.view tree.new) (C.view result.1) (O.view out.new)) result.0 }
    ensures rest { O.same_rest out.old out.new }
{
    if has_next(&state.stack) {
        let name = next_name(&state.stack);
        match read_next(alloc, state, name, tree) {
            Ok(mut next) => {
                let ended = push_next(alloc, state, name, &mut next, tree, scratch, out);
                drop(next);
                ended
            }
            Err(why) => (why, scratch),
        }
    } else {
        let applied = state.stack.applied;
        (Why::StackEnd { applied }, scratch)
    }
}

fn has_next(stack: &Standing) -> bool
    ensures { result ≡ nat_lt stack.now.applied (length stack.now.patches.items) }
{
    (stack.applied as usize) < stack.patches.len()
}

/// The name of the first patch that isn't applied.
fn next_name(stack: &Standing) -> &Name
    requires { stack.now.applied < length stack.now.patches.items }
    ensures { drop stack.now.applied stack.now.patches.items ≡ result.now ∷ drop (suc stack.now.applied) stack.now.patches.items }
{
    &stack.patches[stack.applied as usize]
}

/// A patch, and the names whose files it can change.
#[derive(Drop)]
pub struct Next {
    pub set: PatchSet,
    pub names: Vec<Name>,
}

/// The patch with this name, which has no name of the stack.
fn read_next<T: Tree>(alloc: Global, state: &State, name: &Name, tree: &mut T) -> Result<Next, Why>
    requires state { IsState (T.view tree.old) state.now }
    requires name { IsNamed state.now name.now }
    ensures untouched { IsUntouched (T.view tree.old) (T.view tree.new) }
    ensures next { IfOk result (λ next. IsNext (T.view tree.old) name.now next.set next.names.items) }
    ensures refused { IfErr result (λ why. (a : ScratchView) (c : SinkView) → StopsEarly why Push (world (T.view tree.old) a c) (world (T.view tree.new) a c)) }
{
    match patch_name(alloc, name) {
        Ok(file) => read_from(alloc, state, name, &file, tree),
        Err(_) => Err(Why::Memory),
    }
}

/// The patch with this name, from its file.
fn read_from<T: Tree>(
    alloc: Global,
    state: &State,
    name: &Name,
    file: &Name,
    tree: &mut T,
) -> Result<Next, Why>
    requires state { IsState (T.view tree.old) state.now }
    requires name { IsNamed state.now name.now }
    requires file { is_absolute name.now ≡ false → file.now ≡ patch_name name.now }
    ensures untouched { IsUntouched (T.view tree.old) (T.view tree.new) }
    ensures next { IfOk result (λ next. IsNext (T.view tree.old) name.now next.set next.names.items) }
    ensures refused { IfErr result (λ why. (a : ScratchView) (c : SinkView) → StopsEarly why Push (world (T.view tree.old) a c) (world (T.view tree.new) a c)) }
{
    let options = push_options();
    match read_push(alloc, file, &options, tree) {
        Ok(set) => {
            drop(options);
            with_names(alloc, set)
        }
        Err(fault) => {
            drop(options);
            Err(of_push(fault))
        }
    }
}

/// The set with its names, unless one of them is the stack's.
fn with_names(alloc: Global, set: PatchSet) -> Result<Next, Why>
    requires { (given : List ℕ) × IsRead push_options given set }
    ensures set { IfOk result (λ next. next.set ≡ set) }
    ensures names { IfOk result (λ next. next.names.items ≡ names_of (targets_for push_options (plain_patches set))) }
    ensures own { OnOk result (own_line (targets_for push_options (plain_patches set)) ≡ None) }
    ensures refused { IfErr result (λ why. (why ≡ Why.Memory) ⊎ ((line : ℕ) × (why ≡ Why.StackName line) × (own_line (targets_for push_options (plain_patches set)) ≡ Some line))) }
{
    match saved_names(alloc, &set) {
        Ok(saved) => match saved.own {
            Some(line) => {
                drop(set);
                drop(saved.names);
                Err(Why::StackName { line })
            }
            None => Ok(Next {
                set,
                names: saved.names,
            }),
        },
        Err(_) => {
            drop(set);
            Err(Why::Memory)
        }
    }
}

/// The name of the file of a patch.
fn patch_name(alloc: Global, name: &Name) -> Result<Name, AllocError>
    ensures { IfOk result (λ file. is_absolute name.now ≡ false → file ≡ patch_name name.now) }
{
    let directory = match Name::new(alloc, b"patches") {
        Ok(directory) => directory,
        // The text breaks no rule, so memory ran out.
        Err(_) => return Err(AllocError),
    };
    name.below(alloc, &directory)
}

/// Undoes what an interrupted command did, and applies the patch.
fn push_next<T: Tree, C: Scratch, O: Sink>(
    alloc: Global,
    state: &State,
    name: &Name,
    next: &mut Next,
    tree: &mut T,
    scratch: C,
    out: &mut O,
) -> (Why, C)
    requires state { IsState (T.view tree.old) state.now }
    requires name { IsNamed state.now name.now }
    requires next { IsNext (T.view tree.old) name.now next.old.set next.old.names.items }
    requires quiet { IsQuiet (T.view tree.old) }
    ensures comes { Comes Push (world (T.view tree.old) (C.view scratch) (O.view out.old)) (world (T.view tree.new) (C.view result.1) (O.view out.new)) result.0 (on_op Push) }
    ensures rest { O.same_rest out.old out.new }
{
    match recover(alloc, state.stack.applied, &state.next, tree, out) {
        Ok(()) => {}
        Err(fault) => return (Why::from(fault), scratch),
    }
    match say_applying(out, name) {
        Ok(()) => push_said(alloc, state, name, next, tree, scratch, out),
        Err(_) => (Why::WriteFault, scratch),
    }
}

/// Puts the save, applies the patch, and keeps it or undoes it.
fn push_said<T: Tree, C: Scratch, O: Sink>(
    alloc: Global,
    state: &State,
    name: &Name,
    next: &mut Next,
    tree: &mut T,
    scratch: C,
    out: &mut O,
) -> (Why, C)
    requires few { length state.now.stack.patches.items ≤ 9999 }
    requires applied { state.now.stack.applied ≤ 9999 }
    requires can { CanPush next.old.set }
    requires names { next.old.names.items ≡ names_of (targets_for push_options (plain_patches next.old.set)) }
    requires quiet { IsQuiet (T.view tree.old) }
    ensures comes { Comes Push (world (T.view tree.old) (C.view scratch) (O.view out.old)) (world (T.view tree.new) (C.view result.1) (O.view out.new)) result.0 (on_said next.old.set (stage_of state.now name.now)) }
    ensures rest { O.same_rest out.old out.new }
{
    let taken = match take_names(alloc, &next.names, tree) {
        Ok(taken) => taken,
        Err(fault) => return (of_save(fault), scratch),
    };
    let save = taken.as_slice();
    match put_save(alloc, state.stack.applied + 1, save, tree) {
        Ok(()) => {}
        Err(fault) => return (Why::from(fault), scratch),
    }
    let options = push_options();
    let (ended, scratch) = apply(alloc, &options, &mut next.set, scratch, tree, out);
    drop(options);
    (close(alloc, state, name, save, ended, tree, out), scratch)
}
