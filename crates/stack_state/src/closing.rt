//! The steps before and behind a patch, each with what is said of it.
ghost use Rattle.std.specs.Prelude.{◌≡◌, false, ◌≤◌, ◌+◌, ◌∷◌, ◌++◌, [], codes, suc, Some, None, IsSome, IfSome, option_map, vec_items};
ghost use Rattle.std.specs.FinMap.{get};
ghost use Rattle.outside.specs.Files.{Files};
ghost use Rattle.outside.specs.Calls.{IsThere};
ghost use Rattle.outside.specs.Quiet.{IsQuiet, after};
ghost use Rattle.outside.specs.Quiet.Effect.{Put};
ghost use Rattle.series_stack.specs.Saves.{entries_of};
ghost use Rattle.series_stack.specs.Stack.{save_name, saved_in, undoing_by, undoing};
ghost use Rattle.series_stack.specs.Commands.{is_bad};
ghost use Rattle.series_stack.specs.Commands.Ending.{Rejected};
ghost use Rattle.series_stack.specs.Outcomes.{said, tally, ending_text, recovered_text, raising, lowering};
ghost use Rattle.stack_state.specs.Steps.{Steps};
ghost use Rattle.stack_state.specs.Undoing.{undone_by};

use crate::putting::put_count;
use crate::saying::{said, say_rejected, say_removing, say_restored, say_tally};
use crate::undoing::undo;
use apply_task::RunFault;
use outside::{Name, Sink, Tree};
use std::alloc::Global;

/// Undoes what an interrupted command did, by the save of the first patch that isn't applied, and says so, where there is
/// such a save. So many patches are applied.
pub fn recover<T: Tree, O: Sink>(
    alloc: Global,
    applied: u32,
    save: &Option<Vec<u8>>,
    tree: &mut T,
    out: &mut O,
) -> Result<(), RunFault>
    requires few { applied ≤ 9999 }
    requires good { is_bad (option_map vec_items save.now) ≡ false }
    requires held { (f : Files) → (T.view tree.old).told ≡ Some f → get f (save_name (suc applied)) ≡ option_map vec_items save.now }
    requires quiet { IsQuiet (T.view tree.old) }
    ensures steps { Steps (T.view tree.old) (T.view tree.new) (O.view out.old) (O.view out.new) result (undoing (suc applied)) (λ f. recovered_text applied (undoing (suc applied) f)) }
    ensures rest { O.same_rest out.old out.new }
{
    match save {
        Some(save) => recover_by(alloc, applied, save, tree, out),
        None => Ok(()),
    }
}

fn recover_by<T: Tree, O: Sink>(
    alloc: Global,
    applied: u32,
    save: &[u8],
    tree: &mut T,
    out: &mut O,
) -> Result<(), RunFault>
    requires few { applied ≤ 9999 }
    requires save { IsSome (entries_of save.now) }
    requires held { (f : Files) → (T.view tree.old).told ≡ Some f → get f (save_name (suc applied)) ≡ Some save.now }
    requires quiet { IsQuiet (T.view tree.old) }
    ensures steps { Steps (T.view tree.old) (T.view tree.new) (O.view out.old) (O.view out.new) result (undoing (suc applied)) (λ f. recovered_text applied (undoing (suc applied) f)) }
    ensures rest { O.same_rest out.old out.new }
{
    match undo(alloc, applied + 1, save, tree) {
        Ok(()) => said(say_restored(out, applied)),
        Err(fault) => Err(fault),
    }
}

/// Counts one more than so many patches, the last of them being applied whole.
pub fn keep<T: Tree, O: Sink>(
    alloc: Global,
    applied: u32,
    all: u32,
    tree: &mut T,
    out: &mut O,
) -> Result<(), RunFault>
    requires few { applied ≤ 9999 }
    requires quiet { IsQuiet (T.view tree.old) }
    ensures steps { Steps (T.view tree.old) (T.view tree.new) (O.view out.old) (O.view out.new) result (λ f. raising applied ∷ []) (λ f. tally (suc applied) all) }
    ensures rest { O.same_rest out.old out.new }
{
    match put_count(alloc, applied + 1, tree) {
        Ok(()) => said(say_tally(out, applied + 1, all)),
        Err(fault) => Err(fault),
    }
}

/// Undoes the next patch, of which a part isn't applied, by its save.
pub fn reject<T: Tree, O: Sink>(
    alloc: Global,
    name: &Name,
    applied: u32,
    save: &[u8],
    all: u32,
    tree: &mut T,
    out: &mut O,
) -> Result<(), RunFault>
    requires few { applied ≤ 9999 }
    requires save { IsSome (entries_of save.now) }
    requires quiet { IsQuiet (T.view tree.old) }
    ensures steps { Steps (T.view tree.old) (T.view tree.new) (O.view out.old) (O.view out.new) result (undone_by (save_name (suc applied)) (entries_of save.now)) (λ f. ending_text Rejected name.now applied all) }
    ensures rest { O.same_rest out.old out.new }
{
    match undo(alloc, applied + 1, save, tree) {
        Ok(()) => said(say_rejected(out, name, applied, all)),
        Err(fault) => Err(fault),
    }
}

/// Takes back the last patch that is applied, behind so many, by its save, which is there.
pub fn take_back<T: Tree, O: Sink>(
    alloc: Global,
    name: &Name,
    before: u32,
    save: &[u8],
    all: u32,
    tree: &mut T,
    out: &mut O,
) -> Result<(), RunFault>
    requires few { before ≤ 9999 }
    requires save { IsSome (entries_of save.now) }
    requires there { IsThere (T.view tree.old) (save_name (suc before)) }
    requires quiet { IsQuiet (T.view tree.old) }
    ensures steps { Steps (T.view tree.old) (T.view tree.new) (O.view out.old) (O.view out.new) result
        (λ f. lowering before ∷ undoing_by (save_name (suc before)) (entries_of save.now) (after (lowering before) f)) (λ f. said (codes "Removing patch ") name.now ++ tally before all) }
    ensures rest { O.same_rest out.old out.new }
{
    match say_removing(out, name) {
        Ok(()) => lower(alloc, before, save, all, tree, out),
        Err(_) => Err(RunFault::Write),
    }
}

fn lower<T: Tree, O: Sink>(
    alloc: Global,
    before: u32,
    save: &[u8],
    all: u32,
    tree: &mut T,
    out: &mut O,
) -> Result<(), RunFault>
    requires few { before ≤ 9999 }
    requires save { IsSome (entries_of save.now) }
    requires there { IsThere (T.view tree.old) (save_name (suc before)) }
    requires quiet { IsQuiet (T.view tree.old) }
    ensures steps { Steps (T.view tree.old) (T.view tree.new) (O.view out.old) (O.view out.new) result
        (λ f. lowering before ∷ undoing_by (save_name (suc before)) (entries_of save.now) (after (lowering before) f)) (λ f. tally before all) }
    ensures rest { O.same_rest out.old out.new }
{
    match put_count(alloc, before, tree) {
        Ok(()) => undo_last(alloc, before, save, all, tree, out),
        Err(fault) => Err(fault),
    }
}

fn undo_last<T: Tree, O: Sink>(
    alloc: Global,
    before: u32,
    save: &[u8],
    all: u32,
    tree: &mut T,
    out: &mut O,
) -> Result<(), RunFault>
    requires few { before ≤ 9999 }
    requires save { IsSome (entries_of save.now) }
    requires there { IsThere (T.view tree.old) (save_name (suc before)) }
    requires quiet { IsQuiet (T.view tree.old) }
    ensures steps { Steps (T.view tree.old) (T.view tree.new) (O.view out.old) (O.view out.new) result (λ f. undoing_by (save_name (suc before)) (entries_of save.now) f) (λ f. tally before all) }
    ensures rest { O.same_rest out.old out.new }
{
    match undo(alloc, before + 1, save, tree) {
        Ok(()) => said(say_tally(out, before, all)),
        Err(fault) => Err(fault),
    }
}
