//! What the series and the count say.
ghost use Rattle.std.specs.Prelude.{◌≡◌, ◌⊎◌, ◌≤◌, None, Some, Ok, Err, length, option_map, vec_items, IfOk, IfErr};
ghost use Rattle.std.specs.FinMap.{get};
ghost use Rattle.outside.specs.Files.{Files};
ghost use Rattle.outside.specs.Calls.{IsUntouched};
ghost use Rattle.series_stack.specs.Series.{series_of};
ghost use Rattle.series_stack.specs.Stack.{series_name, count_name, count_in, stack_of};
ghost use Rattle.stack_state.specs.Reading.{patches_in, applied_in};
ghost use Rattle.stack_state.specs.Causes.{HasCause, of_stack};

use crate::fault::StateFault;
use crate::names::{count_name, series_name};
use crate::whole::read_whole;
use outside::{Name, Tree};
use series_stack::{StackFault, StateFile, read_count, read_series};
use std::alloc::Global;

/// The patches of a stack in their order, and how many of them are applied, from the front.
#[derive(Drop)]
pub struct Standing {
    pub patches: Vec<Name>,
    pub applied: u32,
}

/// The stack that the files tell. A missing count counts none. The tree is left untouched.
pub fn read_stack<T: Tree>(alloc: Global, tree: &mut T) -> Result<Standing, StateFault>
    ensures untouched { IsUntouched (T.view tree.old) (T.view tree.new) }
    ensures stack { IfOk result (λ s. (f : Files) → (T.view tree.old).told ≡ Some f → stack_of f ≡ Ok (record { patches = s.patches.items; applied = s.applied })) }
    ensures few { IfOk result (λ s. length s.patches.items ≤ 9999) }
    ensures applied { IfOk result (λ s. s.applied ≤ length s.patches.items) }
    ensures cause { IfErr result (λ e. HasCause e (T.view tree.old) (T.view tree.new) stack_of) }
{
    match read_patches(alloc, tree) {
        Ok(patches) => with_count(alloc, patches, tree),
        Err(fault) => Err(fault),
    }
}

// The stack of these patches, which the series lists.
fn with_count<T: Tree>(
    alloc: Global,
    patches: Vec<Name>,
    tree: &mut T,
) -> Result<Standing, StateFault>
    requires few { length patches.items ≤ 9999 }
    requires listed { (f : Files) → (T.view tree.old).told ≡ Some f → patches_in (get f series_name) ≡ Ok patches.items }
    ensures untouched { IsUntouched (T.view tree.old) (T.view tree.new) }
    ensures stack { IfOk result (λ s. (f : Files) → (T.view tree.old).told ≡ Some f → stack_of f ≡ Ok (record { patches = s.patches.items; applied = s.applied })) }
    ensures few { IfOk result (λ s. length s.patches.items ≤ 9999) }
    ensures applied { IfOk result (λ s. s.applied ≤ length s.patches.items) }
    ensures cause { IfErr result (λ e. HasCause e (T.view tree.old) (T.view tree.new) stack_of) }
{
    let most = count(&patches);
    match read_applied(alloc, most, tree) {
        Ok(applied) => Ok(Standing { patches, applied }),
        Err(fault) => Err(fault),
    }
}

fn count(patches: &[Name]) -> u32
    requires { length patches.now ≤ 9999 }
    ensures { result ≡ length patches.now }
{
    patches.len() as u32
}

// The patches that the series lists.
fn read_patches<T: Tree>(alloc: Global, tree: &mut T) -> Result<Vec<Name>, StateFault>
    ensures untouched { IsUntouched (T.view tree.old) (T.view tree.new) }
    ensures patches { IfOk result (λ names. (f : Files) → (T.view tree.old).told ≡ Some f → patches_in (get f series_name) ≡ Ok names.items) }
    ensures few { IfOk result (λ names. length names.items ≤ 9999) }
    ensures cause { IfErr result (λ e. HasCause e (T.view tree.old) (T.view tree.new) (λ f. patches_in (get f series_name))) }
{
    let name = series_name(alloc)?;
    match read_whole(alloc, &name, tree)? {
        Some(text) => listed(alloc, &text),
        None => Err(StateFault::NoSeries),
    }
}

fn listed(alloc: Global, text: &[u8]) -> Result<Vec<Name>, StateFault>
    ensures patches { IfOk result (λ names. series_of text.now ≡ Some names.items) }
    ensures few { IfOk result (λ names. length names.items ≤ 9999) }
    ensures cause { IfErr result (λ e. (e ≡ StateFault.Memory) ⊎ ((e ≡ StateFault.Bad StateFile.Series) × (series_of text.now ≡ None))) }
{
    match read_series(alloc, text) {
        Ok(names) => Ok(names),
        Err(fault) => Err(of_stack(fault)),
    }
}

// How many patches are applied.
fn read_applied<T: Tree>(alloc: Global, most: u32, tree: &mut T) -> Result<u32, StateFault>
    ensures untouched { IsUntouched (T.view tree.old) (T.view tree.new) }
    ensures applied { IfOk result (λ n. (f : Files) → (T.view tree.old).told ≡ Some f → applied_in most (get f count_name) ≡ Ok n) }
    ensures few { IfOk result (λ n. n ≤ most) }
    ensures cause { IfErr result (λ e. HasCause e (T.view tree.old) (T.view tree.new) (λ f. applied_in most (get f count_name))) }
{
    let name = count_name(alloc)?;
    match read_whole(alloc, &name, tree)? {
        Some(text) => counted(&text, most),
        None => Ok(0),
    }
}

fn counted(text: &[u8], most: u32) -> Result<u32, StateFault>
    ensures count { IfOk result (λ n. count_in most (Some text.now) ≡ Some n) }
    ensures few { IfOk result (λ n. n ≤ most) }
    ensures cause { IfErr result (λ e. (e ≡ StateFault.Bad StateFile.Count) × (count_in most (Some text.now) ≡ None)) }
{
    match read_count(text, most) {
        Ok(count) => Ok(count),
        Err(fault) => Err(of_stack(fault)),
    }
}

// The same fault, of one who only looks at texts.
pub fn of_stack(fault: StackFault) -> StateFault
    ensures { result ≡ of_stack fault }
{
    match fault {
        StackFault::BadState { file } => StateFault::Bad { file },
        _ => StateFault::Memory,
    }
}
