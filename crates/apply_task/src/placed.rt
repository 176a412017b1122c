//! The effects on the target of a file patch: its backup, and then the target itself.

ghost use Rattle.std.specs.Prelude.{◌≡◌, ◌≢◌, ◌≤◌, ◌++◌, ◌||◌, ◌+◌, if◌then◌else◌, [], ◌∷◌, ℕ, List, true, false, not, length, is_some, Some, IfOk, OnOk, OnErr};
ghost use Rattle.std.specs.FinMap.{get};
ghost use Rattle.outside.specs.Files.{Files};
ghost use Rattle.outside.specs.TreeView.{Rises};
ghost use Rattle.outside.specs.Calls.{IsThere, IsUntouched};
ghost use Rattle.outside.specs.Quiet.{IsQuiet, Effect, Holds};
ghost use Rattle.apply_task.specs.Making.{Makes, GoesQuietly, KeepsAt, IsGone, IsTidy};
ghost use Rattle.apply_task.specs.Named.{IsBeside, IsNamed};
ghost use Rattle.apply_task.specs.TargetEffects.{backup_effects, target_effects};

use crate::fault::RunFault;
use crate::kinds::{Manner, Mode};
use outside::{Failed, Name, Tree};
use read_file_patch::Target;
use replace_file::{Temp, copy_backup, put_begun, remove_name};

/// What was done to the tree.
#[derive(Clone, Copy)]
pub struct Made {
    /// The target was made or taken away.
    pub wrote: bool,
    /// How many effects there were.
    pub effects: u64,
}

/// Backs the target up, where that is due, and puts it, as what is asked, or takes it away. `from` is the file that it is
/// made of.
pub fn write_placed<T: Tree>(
    from: &Name,
    target: &Target,
    due: bool,
    removal: bool,
    manner: Manner,
    temp: Temp<'_>,
    tree: &mut T,
) -> Result<Made, RunFault>
    requires named { IsNamed target.now }
    requires temp { temp.name.now ≡ target.now.temp }
    requires apart { due ≡ true → target.now.backup ≢ target.now.name }
    requires quiet { IsQuiet (T.view tree.old) }
    requires there { IsThere (T.view tree.old) target.now.temp }
    ensures goes { GoesQuietly (T.view tree.old) (T.view tree.new) result }
    ensures makes { (output : List ℕ) → Holds (T.view tree.old) target.now.temp output
        → Makes (T.view tree.old) (T.view tree.new) result target.now.temp (λ f. backup_effects due f target.now ++ target_effects removal f target.now output) }
    ensures gone { OnOk result (IsGone (T.view tree.new) target.now.temp) }
    ensures wrote { IfOk result (λ made. (f : Files) → (T.view tree.old).told ≡ Some f → made.wrote ≡ (not removal || is_some (get f target.now.name))) }
    ensures count { IfOk result (λ made. (f : Files) (output : List ℕ) → (T.view tree.old).told ≡ Some f
        → made.effects ≡ length (backup_effects due f target.now ++ target_effects removal f target.now output)) }
    ensures few { IfOk result (λ made. made.effects ≤ 2) }
    ensures tidy { OnOk result (IsTidy (T.view tree.old) (T.view tree.new)) }
{
    put_backup(target, due, tree)?;
    let wrote = put_target(temp, from, target, removal, manner, tree)?;
    Ok(with_backup(due, wrote))
}

/// Takes the temporary away, and backs the target up, where its bytes are kept; nothing else is done to the target.
pub fn keep_old<T: Tree>(
    target: &Target,
    kept: bool,
    temp: Temp<'_>,
    tree: &mut T,
) -> Result<Made, RunFault>
    requires named { IsNamed target.now }
    requires temp { temp.name.now ≡ target.now.temp }
    requires apart { kept ≡ true → target.now.backup ≢ target.now.name }
    requires quiet { IsQuiet (T.view tree.old) }
    requires there { IsThere (T.view tree.old) target.now.temp }
    ensures goes { GoesQuietly (T.view tree.old) (T.view tree.new) result }
    ensures makes { Makes (T.view tree.old) (T.view tree.new) result target.now.temp (λ f. backup_effects kept f target.now) }
    ensures gone { OnOk result (IsGone (T.view tree.new) target.now.temp) }
    ensures wrote { IfOk result (λ made. made.wrote ≡ false) }
    ensures count { IfOk result (λ made. made.effects ≡ (if kept then 1 else 0)) }
    ensures tidy { OnOk result (IsTidy (T.view tree.old) (T.view tree.new)) }
{
    forget(temp, target, tree)?;
    put_backup(target, kept, tree)?;
    Ok(with_backup(kept, false))
}

/// A backup, if it was due, and what was done to the target.
fn with_backup(due: bool, wrote: bool) -> Made
    ensures wrote { result.wrote ≡ wrote }
    ensures effects { result.effects ≡ (if due then 1 else 0) + (if wrote then 1 else 0) }
{
    Made {
        wrote,
        effects: u64::from(due) + u64::from(wrote),
    }
}

/// Puts the present bytes at the backup's name, where that is due.
pub fn put_backup<T: Tree>(target: &Target, due: bool, tree: &mut T) -> Result<(), RunFault>
    requires named { IsNamed target.now }
    requires quiet { IsQuiet (T.view tree.old) }
    ensures goes { GoesQuietly (T.view tree.old) (T.view tree.new) result }
    ensures makes { (temp : List ℕ) → Makes (T.view tree.old) (T.view tree.new) result temp (λ f. backup_effects due f target.now) }
    ensures keeps { OnOk result ((q : List ℕ) → IsBeside due target.now q → KeepsAt (T.view tree.old) (T.view tree.new) q) }
{
    if !due {
        return Ok(());
    }
    match copy_backup(tree, &target.name, &target.backup_temp, &target.backup) {
        Ok(()) => Ok(()),
        Err(_) => Err(RunFault::Tree),
    }
}

/// Puts or takes away the target, and says whether there was an effect.
fn put_target<T: Tree>(
    temp: Temp<'_>,
    from: &Name,
    target: &Target,
    removal: bool,
    manner: Manner,
    tree: &mut T,
) -> Result<bool, RunFault>
    requires named { IsNamed target.now }
    requires temp { temp.name.now ≡ target.now.temp }
    requires quiet { IsQuiet (T.view tree.old) }
    requires there { IsThere (T.view tree.old) target.now.temp }
    ensures goes { GoesQuietly (T.view tree.old) (T.view tree.new) result }
    ensures makes { (output : List ℕ) → Holds (T.view tree.old) target.now.temp output → Makes (T.view tree.old) (T.view tree.new) result target.now.temp (λ f. target_effects removal f target.now output) }
    ensures gone { OnOk result (IsGone (T.view tree.new) target.now.temp) }
    ensures wrote { IfOk result (λ wrote. (f : Files) → (T.view tree.old).told ≡ Some f → wrote ≡ (not removal || is_some (get f target.now.name))) }
{
    if removal {
        erase(temp, target, tree)
    } else {
        swap_in(temp, from, target, manner, tree)
    }
}

/// Takes the temporary away, and the target, if it is there.
fn erase<T: Tree>(temp: Temp<'_>, target: &Target, tree: &mut T) -> Result<bool, RunFault>
    requires named { IsNamed target.now }
    requires temp { temp.name.now ≡ target.now.temp }
    requires quiet { IsQuiet (T.view tree.old) }
    requires there { IsThere (T.view tree.old) target.now.temp }
    ensures goes { GoesQuietly (T.view tree.old) (T.view tree.new) result }
    ensures makes { (output : List ℕ) → Makes (T.view tree.old) (T.view tree.new) result target.now.temp (λ f. target_effects true f target.now output) }
    ensures gone { OnOk result (IsGone (T.view tree.new) target.now.temp) }
    ensures wrote { IfOk result (λ wrote. (f : Files) → (T.view tree.old).told ≡ Some f → wrote ≡ is_some (get f target.now.name)) }
{
    forget(temp, target, tree)?;
    remove_if_there(target, tree)
}

/// Takes the temporary away.
fn forget<T: Tree>(temp: Temp<'_>, target: &Target, tree: &mut T) -> Result<(), RunFault>
    requires named { IsNamed target.now }
    requires temp { temp.name.now ≡ target.now.temp }
    requires quiet { IsQuiet (T.view tree.old) }
    requires there { IsThere (T.view tree.old) target.now.temp }
    ensures goes { GoesQuietly (T.view tree.old) (T.view tree.new) result }
    ensures makes { Makes (T.view tree.old) (T.view tree.new) result target.now.temp (λ f. []) }
    ensures gone { OnOk result (IsGone (T.view tree.new) target.now.temp) }
    ensures name { OnOk result (KeepsAt (T.view tree.old) (T.view tree.new) target.now.name) }
{
    match temp.forget(tree) {
        Ok(()) => Ok(()),
        Err(_) => Err(RunFault::Tree),
    }
}

/// Takes the target away, if it is there.
fn remove_if_there<T: Tree>(target: &Target, tree: &mut T) -> Result<bool, RunFault>
    requires named { IsNamed target.now }
    requires quiet { IsQuiet (T.view tree.old) }
    requires gone { IsGone (T.view tree.old) target.now.temp }
    ensures goes { GoesQuietly (T.view tree.old) (T.view tree.new) result }
    ensures makes { (output : List ℕ) → Makes (T.view tree.old) (T.view tree.new) result target.now.temp (λ f. target_effects true f target.now output) }
    ensures gone { OnOk result (IsGone (T.view tree.new) target.now.temp) }
    ensures wrote { IfOk result (λ wrote. (f : Files) → (T.view tree.old).told ≡ Some f → wrote ≡ is_some (get f target.now.name)) }
{
    match tree.size(&target.name) {
        Ok(Some(_)) => remove(target, tree),
        Ok(None) => Ok(false),
        Err(_) => Err(RunFault::Tree),
    }
}

/// Takes the target away, which is there, and says that there was an effect.
fn remove<T: Tree>(target: &Target, tree: &mut T) -> Result<bool, RunFault>
    requires named { IsNamed target.now }
    requires quiet { IsQuiet (T.view tree.old) }
    requires there { IsThere (T.view tree.old) target.now.name }
    requires gone { IsGone (T.view tree.old) target.now.temp }
    ensures goes { GoesQuietly (T.view tree.old) (T.view tree.new) result }
    ensures makes { Makes (T.view tree.old) (T.view tree.new) result target.now.temp (λ f. Effect.Remove target.now.name ∷ []) }
    ensures gone { OnOk result (IsGone (T.view tree.new) target.now.temp) }
    ensures wrote { IfOk result (λ wrote. wrote ≡ true) }
{
    take_away(target, tree)?;
    Ok(true)
}

/// Takes the target away, which is there.
pub fn take_away<T: Tree>(target: &Target, tree: &mut T) -> Result<(), RunFault>
    requires named { IsNamed target.now }
    requires quiet { IsQuiet (T.view tree.old) }
    requires there { IsThere (T.view tree.old) target.now.name }
    ensures goes { GoesQuietly (T.view tree.old) (T.view tree.new) result }
    ensures makes { (temp : List ℕ) → Makes (T.view tree.old) (T.view tree.new) result temp (λ f. Effect.Remove target.now.name ∷ []) }
    ensures keeps { OnOk result ((q : List ℕ) → q ≢ target.now.name → KeepsAt (T.view tree.old) (T.view tree.new) q) }
{
    match remove_name(tree, &target.name) {
        Ok(()) => Ok(()),
        Err(_) => Err(RunFault::Tree),
    }
}

/// Puts the temporary at the target, as what is asked.
pub fn swap_in<T: Tree>(
    mut temp: Temp<'_>,
    from: &Name,
    target: &Target,
    manner: Manner,
    tree: &mut T,
) -> Result<bool, RunFault>
    requires named { IsNamed target.now }
    requires temp { temp.name.now ≡ target.now.temp }
    requires quiet { IsQuiet (T.view tree.old) }
    requires there { IsThere (T.view tree.old) target.now.temp }
    ensures goes { GoesQuietly (T.view tree.old) (T.view tree.new) result }
    ensures makes { (output : List ℕ) → Holds (T.view tree.old) target.now.temp output → Makes (T.view tree.old) (T.view tree.new) result target.now.temp (λ f. target_effects false f target.now output) }
    ensures gone { OnOk result (IsGone (T.view tree.new) target.now.temp) }
    ensures keeps { OnOk result ((q : List ℕ) → q ≢ target.now.name → q ≢ target.now.temp → KeepsAt (T.view tree.old) (T.view tree.new) q) }
    ensures wrote { IfOk result (λ wrote. wrote ≡ true) }
{
    match set_manner(&mut temp, from, manner, tree) {
        Ok(()) => put_filled(temp, target, tree),
        Err(_) => Err(RunFault::Tree),
    }
}

/// Says how the temporary's file is put.
fn set_manner<T: Tree>(
    temp: &mut Temp<'_>,
    from: &Name,
    manner: Manner,
    tree: &mut T,
) -> Result<(), Failed>
    requires { IsThere (T.view tree.old) temp.old.name.now }
    ensures name { temp.new.name.now ≡ temp.old.name.now }
    ensures untouched { IsUntouched (T.view tree.old) (T.view tree.new) }
    ensures cause { OnErr result (Rises (T.view tree.old) (T.view tree.new)) }
{
    set_mode(temp, from, manner.mode, tree)?;
    match manner.time {
        Some(change) => temp.set_time(tree, from, change),
        None => Ok(()),
    }
}

/// Says what the temporary's file is to be.
fn set_mode<T: Tree>(
    temp: &mut Temp<'_>,
    from: &Name,
    mode: Mode,
    tree: &mut T,
) -> Result<(), Failed>
    requires { IsThere (T.view tree.old) temp.old.name.now }
    ensures name { temp.new.name.now ≡ temp.old.name.now }
    ensures untouched { IsUntouched (T.view tree.old) (T.view tree.new) }
    ensures cause { OnErr result (Rises (T.view tree.old) (T.view tree.new)) }
{
    match mode {
        Mode::Output => Ok(()),
        Mode::Kept => temp.set_like(tree, from),
        Mode::Plain => temp.set_executable(tree, false),
        Mode::Executable => temp.set_executable(tree, true),
        Mode::Link => temp.set_link(tree),
    }
}

/// Puts the temporary at the target.
fn put_filled<T: Tree>(temp: Temp<'_>, target: &Target, tree: &mut T) -> Result<bool, RunFault>
    requires named { IsNamed target.now }
    requires temp { temp.name.now ≡ target.now.temp }
    requires quiet { IsQuiet (T.view tree.old) }
    requires there { IsThere (T.view tree.old) target.now.temp }
    ensures goes { GoesQuietly (T.view tree.old) (T.view tree.new) result }
    ensures makes { (output : List ℕ) → Holds (T.view tree.old) target.now.temp output → Makes (T.view tree.old) (T.view tree.new) result target.now.temp (λ f. target_effects false f target.now output) }
    ensures gone { OnOk result (IsGone (T.view tree.new) target.now.temp) }
    ensures keeps { OnOk result ((q : List ℕ) → q ≢ target.now.name → q ≢ target.now.temp → KeepsAt (T.view tree.old) (T.view tree.new) q) }
    ensures wrote { IfOk result (λ wrote. wrote ≡ true) }
{
    match put_begun(tree, temp, &target.name) {
        Ok(()) => Ok(true),
        Err(_) => Err(RunFault::Tree),
    }
}
