//! Which of its names a file patch is meant for: the best of those that are there, or one that it can make. Stands on `read_file_patch`
//! and the tree of `outside`. Begin with `specs/Choice.antt`.
#![tactic(auto)]

ghost use Rattle.std.specs.Prelude.{◌≡◌, ◌<◌, ◌^◌, length, Some, IfOk, OnErr};
ghost use Rattle.outside.specs.Files.{Files};
ghost use Rattle.outside.specs.TreeView.{Rises};
ghost use Rattle.outside.specs.Calls.{IsUntouched};
ghost use Rattle.name_choice.specs.Choice.{choice, names_of, side_of, IsWithin, IsFound};
ghost use Rattle.name_choice.specs.Making.{told_new};

mod among;
mod laws;
mod making;
mod moved;
mod rank;
mod search;

use crate::among::choose_among;
use crate::moved::choose_moved;
use hunk_core::Side;
pub use laws::choice_laws;
pub use making::may_make;
use outside::{Failed, Tree};
pub use rank::is_better;
use read_file_patch::FilePatch;

/// The name that was chosen, by its place among the targets, counted from 0.
#[derive(Clone, Copy)]
pub enum Choice {
    /// It is in the tree.
    Existing(u32),
    /// It is to be made.
    Create(u32),
    /// No name results.
    Nothing,
}

/// Chooses the target of a file patch; `operand` says that the one target is the file operand, `reverse` that the file
/// patch is taken reversed, and `posix` that the first target that is in the tree counts, and without an operand none is
/// to be made (GNU diffutils manual, "Multiple Patches in a File"; POSIX `patch`, "Filename Determination"). Of a rename or
/// a copy the one target counts that the file then has.
#[tactic(auto, unfolding(crate::specs::Choice::choice))]
pub fn choose<T: Tree>(
    patch: &FilePatch,
    operand: bool,
    reverse: bool,
    posix: bool,
    tree: &mut T,
) -> Result<Choice, Failed>
    requires { length patch.now.targets.items < 2 ^ 32 }
    ensures untouched { IsUntouched (T.view tree.old) (T.view tree.new) }
    ensures cause { OnErr result (Rises (T.view tree.old) (T.view tree.new)) }
    ensures within { IfOk result (IsWithin (length patch.now.targets.items)) }
    ensures chosen { IfOk result (λ chosen. (files : Files) → (T.view tree.old).told ≡ Some files
        → chosen ≡ choice patch.now.header.action (told_new patch.now) (names_of patch.now.targets.items) operand reverse posix files) }
    ensures there { IfOk result (λ chosen. (files : Files) → (T.view tree.new).told ≡ Some files → IsFound patch.now.targets.items files chosen) }
{
    let side = side_of(reverse);
    if patch.is_moved() {
        choose_moved(&patch.targets, patch.header.action, side, tree)
    } else {
        choose_among(patch, operand, posix, tree)
    }
}

fn side_of(reverse: bool) -> Side
    ensures { result ≡ side_of reverse }
{
    if reverse {
        Side::Reversed
    } else {
        Side::Forward
    }
}
