//! Whether a file patch finds its file as it is to become already.

ghost use Rattle.std.specs.Prelude.{◌≡◌, ◌<◌, if◌then◌else◌, length, Some, IfOk, OnErr};
ghost use Rattle.std.specs.FinMap.{get};
ghost use Rattle.outside.specs.Files.{Files};
ghost use Rattle.outside.specs.TreeView.{Rises};
ghost use Rattle.outside.specs.Calls.{IsUntouched};
ghost use Rattle.apply_start.specs.Fitting.{standing_by, standing_of, purpose_of, misfits, misfit, is_asked};
ghost use Rattle.apply_start.specs.Start.{standing, unfit};
ghost use Rattle.apply_task.specs.Asking.{moves_at};
ghost use Rattle.apply_task.specs.TaskView.{plain_task, IsTask};

use apply_task::{Task, chosen, is_bare, moves_at, written};
use hunk_core::Side;
use name_choice::may_make;
use outside::{Failed, Name, Tree};
use say_text::Standing;

/// What a file patch does to its file, as far as it can find that done.
#[derive(Clone, Copy)]
pub enum Purpose {
    /// It makes a file with bytes, or gives one another name.
    Makes,
    /// It makes a file without a byte.
    MakesEmpty,
    /// It leaves no byte, or no file.
    Clears,
    /// It takes a file away that has no byte.
    RemovesEmpty,
    /// It only changes it.
    Changes,
}

/// What stands where the file patch doesn't fit what is there.
pub fn unfit<T: Tree>(
    task: &Task<'_>,
    place: u32,
    side: Side,
    tree: &mut T,
) -> Result<Option<Standing>, Failed>
    requires task { IsTask task.now }
    requires within { place < length task.now.patch.now.targets.items }
    ensures untouched { IsUntouched (T.view tree.old) (T.view tree.new) }
    ensures cause { OnErr result (Rises (T.view tree.old) (T.view tree.new)) }
    ensures unfit { IfOk result (λ s. (f : Files) → (T.view tree.old).told ≡ Some f → s ≡ unfit (plain_task task.now) f place side) }
{
    let purpose = purpose_of(task, place, side);
    if !is_asked(purpose) {
        return Ok(None);
    }
    let standing = standing(task, place, tree)?;
    Ok(misfit(purpose, standing))
}

fn purpose_of(task: &Task<'_>, place: u32, side: Side) -> Purpose
    requires task { IsTask task.now }
    ensures { result ≡ purpose_of (moves_at (plain_task task.now).options.reverse (plain_task task.now).item.patch place) side (plain_task task.now).item.patch }
{
    let patch = task.patch;
    if moves_at(patch, task.options.reverse, place) {
        return Purpose::Makes;
    }
    let is_bare = is_bare(patch);
    if patch.creates(side) {
        return making(is_bare);
    }
    if may_make(patch, side.other()) {
        clearing(is_bare)
    } else {
        Purpose::Changes
    }
}

fn making(is_bare: bool) -> Purpose
    ensures { result ≡ (if is_bare then Purpose.MakesEmpty else Purpose.Makes) }
{
    if is_bare {
        Purpose::MakesEmpty
    } else {
        Purpose::Makes
    }
}

fn clearing(is_bare: bool) -> Purpose
    ensures { result ≡ (if is_bare then Purpose.RemovesEmpty else Purpose.Clears) }
{
    if is_bare {
        Purpose::RemovesEmpty
    } else {
        Purpose::Clears
    }
}

fn is_asked(purpose: Purpose) -> bool
    ensures { result ≡ is_asked purpose }
{
    !matches!(purpose, Purpose::Changes)
}

/// What stands at the name of the file that is made or changed: of one that is renamed or copied, at the one that it is to get.
fn standing<T: Tree>(task: &Task<'_>, place: u32, tree: &mut T) -> Result<Standing, Failed>
    requires task { IsTask task.now }
    requires within { place < length task.now.patch.now.targets.items }
    ensures untouched { IsUntouched (T.view tree.old) (T.view tree.new) }
    ensures cause { OnErr result (Rises (T.view tree.old) (T.view tree.new)) }
    ensures standing { IfOk result (λ s. (f : Files) → (T.view tree.old).told ≡ Some f → s ≡ standing (plain_task task.now) f place) }
{
    if task.patch.is_moved() {
        standing_at(&written(task, place).name, tree)
    } else {
        standing_at(&chosen(task, place).name, tree)
    }
}

fn standing_at<T: Tree>(name: &Name, tree: &mut T) -> Result<Standing, Failed>
    ensures untouched { IsUntouched (T.view tree.old) (T.view tree.new) }
    ensures cause { OnErr result (Rises (T.view tree.old) (T.view tree.new)) }
    ensures standing { IfOk result (λ s. (f : Files) → (T.view tree.old).told ≡ Some f → s ≡ standing_of (get f name.now)) }
{
    let size = tree.size(name)?;
    Ok(standing_by(size))
}

fn standing_by(size: Option<u64>) -> Standing
    ensures { result ≡ standing_by size }
{
    match size {
        None => Standing::Missing,
        Some(size) => if size == 0 {
            Standing::Empty
        } else {
            Standing::Filled
        },
    }
}

fn misfit(purpose: Purpose, standing: Standing) -> Option<Standing>
    ensures { result ≡ misfit purpose standing }
{
    if misfits(purpose, standing) {
        Some(standing)
    } else {
        None
    }
}

fn misfits(purpose: Purpose, standing: Standing) -> bool
    ensures { result ≡ misfits purpose standing }
{
    match purpose {
        Purpose::Makes => matches!(standing, Standing::Filled),
        Purpose::MakesEmpty => !matches!(standing, Standing::Missing),
        Purpose::Clears => !matches!(standing, Standing::Filled),
        Purpose::RemovesEmpty => matches!(standing, Standing::Missing),
        Purpose::Changes => false,
    }
}
