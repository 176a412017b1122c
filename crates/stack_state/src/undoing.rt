//! A save is undone: its names stand again for what they stood for, and then it is taken away.
ghost use Rattle.std.specs.Prelude.{◌≡◌, [], false, IsSome};
ghost use Rattle.outside.specs.Files.{is_temp};
ghost use Rattle.outside.specs.Calls.{IsThere};
ghost use Rattle.outside.specs.SinkView.{SinkView};
ghost use Rattle.outside.specs.Quiet.{IsQuiet};
ghost use Rattle.series_stack.specs.Saves.{entries_of};
ghost use Rattle.series_stack.specs.Stack.{save_name};
ghost use Rattle.stack_state.specs.Steps.{Steps};
ghost use Rattle.stack_state.specs.Undoing.{restored_by, taken_away, undone_by};

use crate::save_name;
use apply_task::RunFault;
use outside::{Name, Tree};
use replace_file::remove_name;
use series_stack::{StackFault, restore};
use std::alloc::Global;

/// Undoes what the patch with this number did, by its save, which is taken away where it is there.
pub fn undo<T: Tree>(alloc: Global, number: u32, save: &[u8], tree: &mut T) -> Result<(), RunFault>
    requires save { IsSome (entries_of save.now) }
    requires quiet { IsQuiet (T.view tree.old) }
    ensures { (c : SinkView) → Steps (T.view tree.old) (T.view tree.new) c c result (undone_by (save_name number) (entries_of save.now)) (λ f. []) }
{
    match save_name(alloc, number) {
        Ok(name) => undo_by(alloc, &name, save, tree),
        Err(_) => Err(RunFault::Memory),
    }
}

/// Looks at the save first, so that the tree can tell where the bytes that are put come from.
fn undo_by<T: Tree>(alloc: Global, name: &Name, save: &[u8], tree: &mut T) -> Result<(), RunFault>
    requires lasting { is_temp name.now ≡ false }
    requires save { IsSome (entries_of save.now) }
    requires quiet { IsQuiet (T.view tree.old) }
    ensures { (c : SinkView) → Steps (T.view tree.old) (T.view tree.new) c c result (undone_by name.now (entries_of save.now)) (λ f. []) }
{
    match tree.size(name) {
        Ok(_) => undo_held(alloc, name, save, tree),
        Err(_) => Err(RunFault::Tree),
    }
}

fn undo_held<T: Tree>(alloc: Global, name: &Name, save: &[u8], tree: &mut T) -> Result<(), RunFault>
    requires lasting { is_temp name.now ≡ false }
    requires save { IsSome (entries_of save.now) }
    requires quiet { IsQuiet (T.view tree.old) }
    ensures { (c : SinkView) → Steps (T.view tree.old) (T.view tree.new) c c result (undone_by name.now (entries_of save.now)) (λ f. []) }
{
    match restore_by(alloc, save, tree) {
        Ok(()) => take_away(name, tree),
        Err(fault) => Err(fault),
    }
}

/// Makes the names stand for what the save holds of them.
fn restore_by<T: Tree>(alloc: Global, save: &[u8], tree: &mut T) -> Result<(), RunFault>
    requires save { IsSome (entries_of save.now) }
    requires quiet { IsQuiet (T.view tree.old) }
    ensures { (c : SinkView) → Steps (T.view tree.old) (T.view tree.new) c c result (restored_by (entries_of save.now)) (λ f. []) }
{
    match restore(alloc, save, tree) {
        Ok(()) => Ok(()),
        Err(StackFault::Tree) => Err(RunFault::Tree),
        Err(_) => Err(RunFault::Memory),
    }
}

/// Takes the name away, where it is there.
fn take_away<T: Tree>(name: &Name, tree: &mut T) -> Result<(), RunFault>
    requires lasting { is_temp name.now ≡ false }
    requires quiet { IsQuiet (T.view tree.old) }
    ensures { (c : SinkView) → Steps (T.view tree.old) (T.view tree.new) c c result (taken_away name.now) (λ f. []) }
{
    match tree.size(name) {
        Ok(Some(_)) => remove_there(name, tree),
        Ok(None) => Ok(()),
        Err(_) => Err(RunFault::Tree),
    }
}

fn remove_there<T: Tree>(name: &Name, tree: &mut T) -> Result<(), RunFault>
    requires lasting { is_temp name.now ≡ false }
    requires there { IsThere (T.view tree.old) name.now }
    requires quiet { IsQuiet (T.view tree.old) }
    ensures { (c : SinkView) → Steps (T.view tree.old) (T.view tree.new) c c result (taken_away name.now) (λ f. []) }
{
    match remove_name(tree, name) {
        Ok(()) => Ok(()),
        Err(_) => Err(RunFault::Tree),
    }
}
