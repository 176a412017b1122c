//! The choice among the candidates of a file patch.
ghost use Rattle.std.specs.Prelude.{◌≡◌, ◌<◌, ◌^◌, length, Some, IfOk, IfSome, OnErr};
ghost use Rattle.outside.specs.Files.{Files};
ghost use Rattle.outside.specs.TreeView.{Rises};
ghost use Rattle.outside.specs.Calls.{IsUntouched};
ghost use Rattle.name_choice.specs.Choice.{choice_among, created, existing, first_place, names_of, IsWithin, IsFound};
ghost use Rattle.name_choice.specs.Making.{told_new};

use crate::Choice;
use crate::making::names_new;
use crate::search::{best_existing, best_new, first_existing};
use outside::{Failed, Tree};
use read_file_patch::{FilePatch, Target};

/// Chooses where the file isn't renamed or copied.
pub fn choose_among<T: Tree>(
    patch: &FilePatch,
    operand: bool,
    posix: bool,
    tree: &mut T,
) -> Result<Choice, Failed>
    requires { length patch.now.targets.items < 2 ^ 32 }
    ensures untouched { IsUntouched (T.view tree.old) (T.view tree.new) }
    ensures cause { OnErr result (Rises (T.view tree.old) (T.view tree.new)) }
    ensures within { IfOk result (IsWithin (length patch.now.targets.items)) }
    ensures chosen { IfOk result (λ chosen. (files : Files) → (T.view tree.old).told ≡ Some files
        → chosen ≡ choice_among (names_of patch.now.targets.items) operand (told_new patch.now) posix files) }
    ensures there { IfOk result (λ chosen. (files : Files) → (T.view tree.new).told ≡ Some files → IsFound patch.now.targets.items files chosen) }
{
    choose_from(patch, operand, posix, tree)
}

/// Chooses where the file isn't renamed or copied, without what follows of the tree.
#[tactic(auto, unfolding(crate::specs::Choice::choice_among))]
fn choose_from<T: Tree>(
    patch: &FilePatch,
    operand: bool,
    posix: bool,
    tree: &mut T,
) -> Result<Choice, Failed>
    requires { length patch.now.targets.items < 2 ^ 32 }
    ensures untouched { IsUntouched (T.view tree.old) (T.view tree.new) }
    ensures cause { OnErr result (Rises (T.view tree.old) (T.view tree.new)) }
    ensures within { IfOk result (IsWithin (length patch.now.targets.items)) }
    ensures chosen { IfOk result (λ chosen. (files : Files) → (T.view tree.old).told ≡ Some files
        → chosen ≡ choice_among (names_of patch.now.targets.items) operand (told_new patch.now) posix files) }
{
    if let Some(place) = existing(&patch.targets, posix, tree)? {
        return Ok(Choice::Existing(place));
    }
    if operand {
        return Ok(first_created(&patch.targets));
    }
    if posix || !names_new(patch) {
        return Ok(Choice::Nothing);
    }
    Ok(created(best_new(&patch.targets, tree)?))
}

/// The place of the name in the tree that counts: the best, with `posix` the first.
fn existing<T: Tree>(targets: &[Target], posix: bool, tree: &mut T) -> Result<Option<u32>, Failed>
    requires { length targets.now < 2 ^ 32 }
    ensures untouched { IsUntouched (T.view tree.old) (T.view tree.new) }
    ensures cause { OnErr result (Rises (T.view tree.old) (T.view tree.new)) }
    ensures within { IfOk result (λ place. IfSome place (λ k. k < length targets.now)) }
    ensures place { IfOk result (λ place. (files : Files) → (T.view tree.old).told ≡ Some files → place ≡ existing posix files (names_of targets.now)) }
{
    if posix {
        first_existing(targets, tree)
    } else {
        best_existing(targets, tree)
    }
}

fn created(place: Option<u32>) -> Choice
    ensures { result ≡ created place }
{
    match place {
        Some(place) => Choice::Create(place),
        None => Choice::Nothing,
    }
}

fn first_created(targets: &[Target]) -> Choice
    ensures chosen { result ≡ created (first_place (names_of targets.now)) }
    ensures within { IsWithin (length targets.now) result }
{
    if targets.is_empty() {
        Choice::Nothing
    } else {
        Choice::Create(0)
    }
}
