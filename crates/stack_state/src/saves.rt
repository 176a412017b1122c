//! The saves at which a command looks before it does anything.
ghost use Rattle.std.specs.Prelude.{◌≡◌, ◌≤◌, ◌⊎◌, ◌||◌, None, Some, Ok, Err, true, false, is_some, is_none, option_map, vec_items, IfOk, IfErr, OnOk};
ghost use Rattle.std.specs.FinMap.{get};
ghost use Rattle.outside.specs.Files.{Files};
ghost use Rattle.outside.specs.Calls.{IsUntouched};
ghost use Rattle.series_stack.specs.Saves.{entries_of};
ghost use Rattle.series_stack.specs.Stack.{save_name, saved_in};
ghost use Rattle.series_stack.specs.Stack.Refusal.{Bad};
ghost use Rattle.series_stack.specs.Commands.{is_bad};
ghost use Rattle.stack_state.specs.Reading.{next_save, last_save, whole_save};
ghost use Rattle.stack_state.specs.Causes.{HasCause, HasReadCause};

use crate::fault::StateFault;
use crate::names::save_name;
use crate::state::of_stack;
use crate::whole::read_whole;
use outside::Tree;
use series_stack::{StateFile, check_save};
use std::alloc::Global;

/// The save of the first patch that isn't applied, where so many are, or none. It is of its form, and no save is behind it.
/// The tree is left untouched.
pub fn read_next_save<T: Tree>(
    alloc: Global,
    applied: u32,
    tree: &mut T,
) -> Result<Option<Vec<u8>>, StateFault>
    requires { applied ≤ 9999 }
    ensures untouched { IsUntouched (T.view tree.old) (T.view tree.new) }
    ensures save { IfOk result (λ held. (f : Files) → (T.view tree.old).told ≡ Some f → next_save applied f ≡ Ok (option_map vec_items held)) }
    ensures good { IfOk result (λ held. is_bad (option_map vec_items held) ≡ false) }
    ensures cause { IfErr result (λ e. HasCause e (T.view tree.old) (T.view tree.new) (next_save applied)) }
{
    let held = read_save(alloc, applied + 1, tree)?;
    let behind = is_saved(alloc, applied + 2, tree)?;
    let held = judged(alloc, held, behind)?;
    Ok(held)
}

/// The save of the patch with this number, which is there and of its form. The tree is left untouched.
pub fn read_last_save<T: Tree>(
    alloc: Global,
    number: u32,
    tree: &mut T,
) -> Result<Vec<u8>, StateFault>
    ensures untouched { IsUntouched (T.view tree.old) (T.view tree.new) }
    ensures save { IfOk result (λ text. (f : Files) → (T.view tree.old).told ≡ Some f → last_save number f ≡ Ok text.items) }
    ensures form { IfOk result (λ text. is_none (entries_of text.items) ≡ false) }
    ensures cause { IfErr result (λ e. HasCause e (T.view tree.old) (T.view tree.new) (last_save number)) }
{
    let held = read_save(alloc, number, tree)?;
    let text = whole(alloc, held)?;
    Ok(text)
}

fn read_save<T: Tree>(
    alloc: Global,
    number: u32,
    tree: &mut T,
) -> Result<Option<Vec<u8>>, StateFault>
    ensures untouched { IsUntouched (T.view tree.old) (T.view tree.new) }
    ensures save { IfOk result (λ held. (f : Files) → (T.view tree.old).told ≡ Some f → get f (save_name number) ≡ option_map vec_items held) }
    ensures cause { IfErr result (λ e. HasReadCause e (T.view tree.old) (T.view tree.new)) }
{
    let name = save_name(alloc, number)?;
    let held = read_whole(alloc, &name, tree)?;
    Ok(held)
}

fn is_saved<T: Tree>(alloc: Global, number: u32, tree: &mut T) -> Result<bool, StateFault>
    ensures untouched { IsUntouched (T.view tree.old) (T.view tree.new) }
    ensures there { IfOk result (λ yes. (f : Files) → (T.view tree.old).told ≡ Some f → yes ≡ is_some (get f (save_name number))) }
    ensures cause { IfErr result (λ e. HasReadCause e (T.view tree.old) (T.view tree.new)) }
{
    let name = save_name(alloc, number)?;
    match tree.size(&name) {
        Ok(size) => Ok(size.is_some()),
        Err(_) => Err(StateFault::Tree),
    }
}

// The same save, where it may be restored.
fn judged(alloc: Global, held: Option<Vec<u8>>, behind: bool) -> Result<Option<Vec<u8>>, StateFault>
    ensures same { IfOk result (λ same. same ≡ held) }
    ensures good { OnOk result ((is_bad (option_map vec_items held) || behind) ≡ false) }
    ensures fine { IfOk result (λ same. is_bad (option_map vec_items same) ≡ false) }
    ensures cause { IfErr result (λ e. (e ≡ StateFault.Memory) ⊎ ((e ≡ StateFault.Bad StateFile.Save) × ((is_bad (option_map vec_items held) || behind) ≡ true))) }
{
    check_held(alloc, &held)?;
    if behind {
        return Err(StateFault::Bad {
            file: StateFile::Save,
        });
    }
    Ok(held)
}

fn check_held(alloc: Global, held: &Option<Vec<u8>>) -> Result<(), StateFault>
    ensures good { OnOk result (is_bad (option_map vec_items held.now) ≡ false) }
    ensures cause { IfErr result (λ e. (e ≡ StateFault.Memory) ⊎ ((e ≡ StateFault.Bad StateFile.Save) × (is_bad (option_map vec_items held.now) ≡ true))) }
{
    match held {
        Some(text) => check(alloc, text),
        None => Ok(()),
    }
}

fn check(alloc: Global, text: &[u8]) -> Result<(), StateFault>
    ensures good { OnOk result (is_none (entries_of text.now) ≡ false) }
    ensures cause { IfErr result (λ e. (e ≡ StateFault.Memory) ⊎ ((e ≡ StateFault.Bad StateFile.Save) × (entries_of text.now ≡ None))) }
{
    match check_save(alloc, text) {
        Ok(()) => Ok(()),
        Err(fault) => Err(of_stack(fault)),
    }
}

fn whole(alloc: Global, held: Option<Vec<u8>>) -> Result<Vec<u8>, StateFault>
    ensures save { IfOk result (λ text. whole_save (option_map vec_items held) (saved_in (option_map vec_items held)) ≡ Ok text.items) }
    ensures form { IfOk result (λ text. is_none (entries_of text.items) ≡ false) }
    ensures cause { IfErr result (λ e. (e ≡ StateFault.Memory) ⊎ ((e ≡ StateFault.Bad StateFile.Save) × (whole_save (option_map vec_items held) (saved_in (option_map vec_items held)) ≡ Err (Bad StateFile.Save)))) }
{
    match held {
        Some(text) => checked(alloc, text),
        None => Err(StateFault::Bad {
            file: StateFile::Save,
        }),
    }
}

fn checked(alloc: Global, text: Vec<u8>) -> Result<Vec<u8>, StateFault>
    ensures same { IfOk result (λ same. same.items ≡ text.items) }
    ensures good { OnOk result (is_none (entries_of text.items) ≡ false) }
    ensures form { IfOk result (λ same. is_none (entries_of same.items) ≡ false) }
    ensures cause { IfErr result (λ e. (e ≡ StateFault.Memory) ⊎ ((e ≡ StateFault.Bad StateFile.Save) × (entries_of text.items ≡ None))) }
{
    check(alloc, &text)?;
    Ok(text)
}
