//! The effects of a rename: the backups of both names, the target, and then the source goes.

ghost use Rattle.std.specs.Prelude.{◌≡◌, ◌≢◌, ◌≤◌, ◌++◌, ◌+◌, if◌then◌else◌, [], ◌∷◌, ℕ, List, true, false, length, Some, IfOk, OnOk};
ghost use Rattle.outside.specs.Files.{Files};
ghost use Rattle.outside.specs.Calls.{IsThere};
ghost use Rattle.outside.specs.Quiet.{IsQuiet, Effect, Holds};
ghost use Rattle.apply_task.specs.Making.{Makes, GoesQuietly, IsGone, IsTidy};
ghost use Rattle.apply_task.specs.Named.{IsNamed};
ghost use Rattle.apply_task.specs.TargetEffects.{target_effects, moving_effects, moved_effects};

use crate::fault::RunFault;
use crate::kinds::Manner;
use crate::placed::{Made, put_backup, swap_in, take_away};
use outside::Tree;
use read_file_patch::Target;
use replace_file::Temp;

/// Backs both names up, where that is due, puts the target, also without a byte, and takes the source away.
pub fn write_moved<T: Tree>(
    source: &Target,
    target: &Target,
    due: bool,
    source_due: bool,
    manner: Manner,
    temp: Temp<'_>,
    tree: &mut T,
) -> Result<Made, RunFault>
    requires named { IsNamed target.now }
    requires source { IsNamed source.now }
    requires moved { target.now.name ≢ source.now.name }
    requires temp { temp.name.now ≡ target.now.temp }
    requires apart { due ≡ true → (target.now.backup ≢ target.now.name) × (target.now.backup ≢ source.now.name) }
    requires source_apart { source_due ≡ true → (source.now.backup ≢ target.now.name) × (source.now.backup ≢ source.now.name) }
    requires quiet { IsQuiet (T.view tree.old) }
    requires there { IsThere (T.view tree.old) target.now.temp }
    requires source_there { IsThere (T.view tree.old) source.now.name }
    ensures goes { GoesQuietly (T.view tree.old) (T.view tree.new) result }
    ensures makes { (output : List ℕ) → Holds (T.view tree.old) target.now.temp output
        → Makes (T.view tree.old) (T.view tree.new) result target.now.temp (λ f. moved_effects due source_due f source.now target.now output) }
    ensures gone { OnOk result (IsGone (T.view tree.new) target.now.temp) }
    ensures wrote { IfOk result (λ made. made.wrote ≡ true) }
    ensures count { IfOk result (λ made. (f : Files) (output : List ℕ) → (T.view tree.old).told ≡ Some f
        → made.effects ≡ length (moved_effects due source_due f source.now target.now output)) }
    ensures few { IfOk result (λ made. made.effects ≤ 4) }
    ensures tidy { OnOk result (IsTidy (T.view tree.old) (T.view tree.new)) }
{
    put_backup(target, due, tree)?;
    move_in(source, target, source_due, manner, temp, tree)?;
    Ok(with_backups(due, source_due))
}

/// The target, the source that went, and the backups that were due.
fn with_backups(due: bool, source_due: bool) -> Made
    ensures wrote { result.wrote ≡ true }
    ensures effects { result.effects ≡ (if due then 1 else 0) + (if source_due then 1 else 0) + 2 }
{
    Made {
        wrote: true,
        effects: u64::from(due) + u64::from(source_due) + 2,
    }
}

/// Backs the source up, where that is due, and puts the target in its place.
fn move_in<T: Tree>(
    source: &Target,
    target: &Target,
    source_due: bool,
    manner: Manner,
    temp: Temp<'_>,
    tree: &mut T,
) -> Result<(), RunFault>
    requires named { IsNamed target.now }
    requires source { IsNamed source.now }
    requires moved { target.now.name ≢ source.now.name }
    requires temp { temp.name.now ≡ target.now.temp }
    requires source_apart { source_due ≡ true → (source.now.backup ≢ target.now.name) × (source.now.backup ≢ source.now.name) }
    requires quiet { IsQuiet (T.view tree.old) }
    requires there { IsThere (T.view tree.old) target.now.temp }
    requires source_there { IsThere (T.view tree.old) source.now.name }
    ensures goes { GoesQuietly (T.view tree.old) (T.view tree.new) result }
    ensures makes { (output : List ℕ) → Holds (T.view tree.old) target.now.temp output
        → Makes (T.view tree.old) (T.view tree.new) result target.now.temp (λ f. moving_effects source_due f source.now target.now output) }
    ensures gone { OnOk result (IsGone (T.view tree.new) target.now.temp) }
{
    put_backup(source, source_due, tree)?;
    supersede(source, target, manner, temp, tree)
}

/// Puts the temporary at the target, and takes the source away.
fn supersede<T: Tree>(
    source: &Target,
    target: &Target,
    manner: Manner,
    temp: Temp<'_>,
    tree: &mut T,
) -> Result<(), RunFault>
    requires named { IsNamed target.now }
    requires source { IsNamed source.now }
    requires moved { target.now.name ≢ source.now.name }
    requires temp { temp.name.now ≡ target.now.temp }
    requires quiet { IsQuiet (T.view tree.old) }
    requires there { IsThere (T.view tree.old) target.now.temp }
    requires source_there { IsThere (T.view tree.old) source.now.name }
    ensures goes { GoesQuietly (T.view tree.old) (T.view tree.new) result }
    ensures makes { (output : List ℕ) → Holds (T.view tree.old) target.now.temp output
        → Makes (T.view tree.old) (T.view tree.new) result target.now.temp (λ f. target_effects false f target.now output ++ Effect.Remove source.now.name ∷ []) }
    ensures gone { OnOk result (IsGone (T.view tree.new) target.now.temp) }
{
    swap_in(temp, &source.name, target, manner, tree)?;
    take_away(source, tree)
}
