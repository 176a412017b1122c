//! The files are made again what a save holds of them.
ghost use Rattle.std.specs.Prelude.{◌≡◌, ℕ, List, ◌∷◌, ◌++◌, [], None, Some, true, false, IsSome, IfSome, IfOk, IfErr, OnOk, OnErr, is_some};
ghost use Rattle.std.specs.FinMap.{get};
ghost use Rattle.std.specs.Option.{option_copied};
ghost use Rattle.outside.specs.Files.{Files, is_temp, temp_of};
ghost use Rattle.outside.specs.TreeView.{Passes};
ghost use Rattle.outside.specs.Calls.{Becomes, IsThere, LastingSealsStay};
ghost use Rattle.outside.specs.Quiet.{IsQuiet, TellsPrefix, LeavesPrefix};
ghost use Rattle.series_stack.specs.Saves.{Entry, entries_of, first_entry, if_saved, is_saved};
ghost use Rattle.series_stack.specs.Saves.Entry.{Missing, Held};
ghost use Rattle.series_stack.specs.Found.{found, entry_with};
ghost use Rattle.series_stack.specs.Restoring.{restoring, restored, Restores};
ghost use Rattle.series_stack.specs.Causes.{HasFailed};

use crate::entry::first_entry;
use crate::fault::StackFault;
use outside::{Name, Tree};
use replace_file::{put_whole, remove_name};
use std::alloc::{AllocError, Global};

/// Makes each name of a save stand for what it stood for: a file is put with its bytes, whole at every moment, and a name
/// that nothing had is taken away where it is there. The save is one that `check_save` took. The only faults are `Tree`
/// and `Memory`; after each a first part of the effects is made.
pub fn restore<T: Tree>(alloc: Global, save: &[u8], tree: &mut T) -> Result<(), StackFault>
    requires save { IsSome (entries_of save.now) }
    requires quiet { IsQuiet (T.view tree.old) }
    ensures passes { Passes (T.view tree.old) (T.view tree.new) }
    ensures quiet { OnOk result (IsQuiet (T.view tree.new)) }
    ensures seals { LastingSealsStay (T.view tree.old) (T.view tree.new) }
    ensures files { OnOk result ((es : List Entry) → entries_of save.now ≡ Some es → Becomes (T.view tree.old) (T.view tree.new) (restored es)) }
    ensures tells { (es : List Entry) (f : Files) → entries_of save.now ≡ Some es → (T.view tree.old).told ≡ Some f → TellsPrefix (T.view tree.old) (T.view tree.new) (restoring es f) }

    // At every moment the effects are made in their order, each whole or not at all.
    ensures leaves { (es : List Entry) (f : Files) → entries_of save.now ≡ Some es → (T.view tree.old).told ≡ Some f → LeavesPrefix (T.view tree.old) (T.view tree.new) (restoring es f) }
    ensures cause { IfErr result (λ e. HasFailed e (T.view tree.old) (T.view tree.new)) }
{
    restore_all(alloc, save, tree)
}

// Makes the effects of the entries one after another.
fn restore_all<T: Tree>(alloc: Global, save: &[u8], tree: &mut T) -> Result<(), StackFault>
    requires save { IsSome (entries_of save.now) }
    requires quiet { IsQuiet (T.view tree.old) }
    ensures makes { IfSome (entries_of save.now) (λ es. Restores (T.view tree.old) (T.view tree.new) result es) }
    ensures cause { IfErr result (λ e. HasFailed e (T.view tree.old) (T.view tree.new)) }
{
    let mut rest = save;
    while !rest.is_empty() {
        rest = restore_first(alloc, rest, tree)?;
    }
    Ok(())
}

// Makes the effects of the entry at the front, and says what stands behind it.
fn restore_first<'a, T: Tree>(
    alloc: Global,
    text: &'a [u8],
    tree: &mut T,
) -> Result<&'a [u8], StackFault>
    requires saved { IsSome (if_saved (first_entry text.now)) }
    requires quiet { IsQuiet (T.view tree.old) }
    ensures rest { IfOk result (λ rest. IfSome (if_saved (first_entry text.now)) (λ x. rest.now ≡ x.1)) }
    ensures makes { IfSome (if_saved (first_entry text.now)) (λ x. Restores (T.view tree.old) (T.view tree.new) result (x.0 ∷ [])) }
    ensures cause { IfErr result (λ e. HasFailed e (T.view tree.old) (T.view tree.new)) }
{
    match first_entry(text) {
        Some(entry) => match restore_entry(alloc, entry.name, entry.bytes, tree) {
            Ok(()) => Ok(entry.rest),
            Err(fault) => Err(fault),
        },
        // The save was looked at.
        None => Ok(text),
    }
}

fn restore_entry<T: Tree>(
    alloc: Global,
    name: &[u8],
    bytes: Option<&[u8]>,
    tree: &mut T,
) -> Result<(), StackFault>
    requires saved { is_saved name.now ≡ true }
    requires quiet { IsQuiet (T.view tree.old) }
    ensures makes { Restores (T.view tree.old) (T.view tree.new) result (entry_with name.now (option_copied bytes.entry) ∷ []) }
    ensures cause { IfErr result (λ e. HasFailed e (T.view tree.old) (T.view tree.new)) }
{
    match saved_name(alloc, name) {
        Ok(name) => restore_named(alloc, &name, bytes, tree),
        Err(_) => Err(StackFault::Memory),
    }
}

fn restore_named<T: Tree>(
    alloc: Global,
    name: &Name,
    bytes: Option<&[u8]>,
    tree: &mut T,
) -> Result<(), StackFault>
    requires lasting { is_temp name.now ≡ false }
    requires quiet { IsQuiet (T.view tree.old) }
    ensures makes { Restores (T.view tree.old) (T.view tree.new) result (entry_with name.now (option_copied bytes.entry) ∷ []) }
    ensures cause { IfErr result (λ e. HasFailed e (T.view tree.old) (T.view tree.new)) }
{
    match bytes {
        Some(bytes) => put_file(alloc, name, bytes, tree),
        None => take_away(name, tree),
    }
}

// The name with a text that may be saved.
fn saved_name(alloc: Global, text: &[u8]) -> Result<Name, AllocError>
    requires { is_saved text.now ≡ true }
    ensures name { IfOk result (λ name. name ≡ text.now) }
    ensures lasting { IfOk result (λ name. is_temp name ≡ false) }
{
    match Name::new(alloc, text) {
        Ok(name) => Ok(name),
        // The save was looked at, so memory ran out.
        Err(_) => Err(AllocError),
    }
}

fn put_file<T: Tree>(
    alloc: Global,
    name: &Name,
    bytes: &[u8],
    tree: &mut T,
) -> Result<(), StackFault>
    requires lasting { is_temp name.now ≡ false }
    requires quiet { IsQuiet (T.view tree.old) }
    ensures makes { Restores (T.view tree.old) (T.view tree.new) result (Held name.now bytes.now ∷ []) }
    ensures cause { IfErr result (λ e. HasFailed e (T.view tree.old) (T.view tree.new)) }
{
    match name.temporary(alloc) {
        Ok(temp) => put_by(&temp, name, bytes, tree),
        Err(_) => Err(StackFault::Memory),
    }
}

fn put_by<T: Tree>(temp: &Name, name: &Name, bytes: &[u8], tree: &mut T) -> Result<(), StackFault>
    requires named { temp.now ≡ temp_of name.now }
    requires temporary { is_temp temp.now ≡ true }
    requires lasting { is_temp name.now ≡ false }
    requires quiet { IsQuiet (T.view tree.old) }
    ensures makes { Restores (T.view tree.old) (T.view tree.new) result (Held name.now bytes.now ∷ []) }
    ensures cause { IfErr result (λ e. HasFailed e (T.view tree.old) (T.view tree.new)) }
{
    match put_whole(tree, temp, name, bytes) {
        Ok(()) => Ok(()),
        Err(_) => Err(StackFault::Tree),
    }
}

fn take_away<T: Tree>(name: &Name, tree: &mut T) -> Result<(), StackFault>
    requires lasting { is_temp name.now ≡ false }
    requires quiet { IsQuiet (T.view tree.old) }
    ensures makes { Restores (T.view tree.old) (T.view tree.new) result (Missing name.now ∷ []) }
    ensures cause { IfErr result (λ e. HasFailed e (T.view tree.old) (T.view tree.new)) }
{
    match tree.size(name) {
        Ok(Some(_)) => remove_there(name, tree),
        Ok(None) => Ok(()),
        Err(_) => Err(StackFault::Tree),
    }
}

fn remove_there<T: Tree>(name: &Name, tree: &mut T) -> Result<(), StackFault>
    requires lasting { is_temp name.now ≡ false }
    requires quiet { IsQuiet (T.view tree.old) }
    requires there { IsThere (T.view tree.old) name.now }
    ensures makes { Restores (T.view tree.old) (T.view tree.new) result (Missing name.now ∷ []) }
    ensures cause { IfErr result (λ e. HasFailed e (T.view tree.old) (T.view tree.new)) }
{
    match remove_name(tree, name) {
        Ok(()) => Ok(()),
        Err(_) => Err(StackFault::Tree),
    }
}
