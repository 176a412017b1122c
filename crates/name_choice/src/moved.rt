//! The choice of a file that is renamed or copied.
ghost use Rattle.std.specs.Prelude.{◌≡◌, ◌<◌, ◌^◌, true, length, Some, IfOk, OnErr};
ghost use Rattle.outside.specs.Files.{Files};
ghost use Rattle.outside.specs.TreeView.{Rises};
ghost use Rattle.outside.specs.Calls.{IsUntouched};
ghost use Rattle.name_choice.specs.Choice.{done_place, existing_at, existing_if, is_there_at, moved_choice, names_of, source_place, IsWithin, IsFound};

use crate::Choice;
use crate::search::is_there;
use hunk_core::Side;
use outside::{Failed, Tree};
use read_file_patch::Target;
use read_header_record::Action;

/// Chooses the name that the file has, where the rename or the copy is taken from this side: the one that it had before,
/// or the other one of a file that was renamed before.
pub fn choose_moved<T: Tree>(
    targets: &[Target],
    action: Action,
    side: Side,
    tree: &mut T,
) -> Result<Choice, Failed>
    requires { length targets.now < 2 ^ 32 }
    ensures untouched { IsUntouched (T.view tree.old) (T.view tree.new) }
    ensures cause { OnErr result (Rises (T.view tree.old) (T.view tree.new)) }
    ensures within { IfOk result (IsWithin (length targets.now)) }
    ensures chosen { IfOk result (λ chosen. (files : Files) → (T.view tree.old).told ≡ Some files
        → chosen ≡ moved_choice files (names_of targets.now) action side) }
    ensures there { IfOk result (λ chosen. (files : Files) → (T.view tree.new).told ≡ Some files → IsFound targets.now files chosen) }
{
    let source = existing_if_any(targets, source_place(action, side), tree)?;
    match source {
        Choice::Nothing => existing_if_any(targets, done_place(action, side), tree),
        Choice::Existing(_) | Choice::Create(_) => Ok(source),
    }
}

/// The name at a place, if there is such a place and the name is in the tree.
fn existing_if_any<T: Tree>(
    targets: &[Target],
    place: Option<u32>,
    tree: &mut T,
) -> Result<Choice, Failed>
    requires { length targets.now < 2 ^ 32 }
    ensures untouched { IsUntouched (T.view tree.old) (T.view tree.new) }
    ensures cause { OnErr result (Rises (T.view tree.old) (T.view tree.new)) }
    ensures within { IfOk result (IsWithin (length targets.now)) }
    ensures chosen { IfOk result (λ chosen. (files : Files) → (T.view tree.old).told ≡ Some files
        → chosen ≡ existing_at files (names_of targets.now) place) }
    ensures there { IfOk result (λ chosen. (files : Files) → (T.view tree.new).told ≡ Some files → IsFound targets.now files chosen) }
{
    match place {
        Some(place) => existing_at(targets, place, tree),
        None => Ok(Choice::Nothing),
    }
}

/// The place of the name that the file has before.
fn source_place(action: Action, side: Side) -> Option<u32>
    ensures { result ≡ source_place action side }
{
    match action {
        Action::Plain | Action::New | Action::Deleted => None,
        Action::Rename => match side {
            Side::Forward => Some(0),
            Side::Reversed => Some(1),
        },
        Action::Copy => match side {
            Side::Forward => Some(0),
            Side::Reversed => None,
        },
    }
}

/// The place of the name that a renamed file has once that is done.
fn done_place(action: Action, side: Side) -> Option<u32>
    ensures { result ≡ done_place action side }
{
    match action {
        Action::Plain | Action::New | Action::Deleted | Action::Copy => None,
        Action::Rename => match side {
            Side::Forward => Some(1),
            Side::Reversed => Some(0),
        },
    }
}

/// The name at a place, if that is in the tree.
fn existing_at<T: Tree>(targets: &[Target], place: u32, tree: &mut T) -> Result<Choice, Failed>
    requires { length targets.now < 2 ^ 32 }
    ensures untouched { IsUntouched (T.view tree.old) (T.view tree.new) }
    ensures cause { OnErr result (Rises (T.view tree.old) (T.view tree.new)) }
    ensures within { IfOk result (IsWithin (length targets.now)) }
    ensures chosen { IfOk result (λ chosen. (files : Files) → (T.view tree.old).told ≡ Some files
        → chosen ≡ existing_at files (names_of targets.now) (Some place)) }
    ensures there { IfOk result (λ chosen. (files : Files) → (T.view tree.new).told ≡ Some files → IsFound targets.now files chosen) }
{
    let there = is_there_at(targets, place, tree)?;
    Ok(existing_if(there, place))
}

/// Whether the name at a place is in the tree.
fn is_there_at<T: Tree>(targets: &[Target], place: u32, tree: &mut T) -> Result<bool, Failed>
    ensures untouched { IsUntouched (T.view tree.old) (T.view tree.new) }
    ensures cause { OnErr result (Rises (T.view tree.old) (T.view tree.new)) }
    ensures within { IfOk result (λ yes. yes ≡ true → place < length targets.now) }
    ensures there { IfOk result (λ yes. (files : Files) → (T.view tree.old).told ≡ Some files → yes ≡ is_there_at files (names_of targets.now) place) }
{
    match targets.get(place as usize) {
        Some(target) => is_there(&target.name, tree),
        None => Ok(false),
    }
}

fn existing_if(there: bool, place: u32) -> Choice
    ensures { result ≡ existing_if there place }
{
    if there {
        Choice::Existing(place)
    } else {
        Choice::Nothing
    }
}
