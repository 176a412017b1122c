//! A file of the tree, read whole.
ghost use Rattle.std.specs.Prelude.{◌≡◌, ◌≤◌, length, Some, IfOk, IfErr};
ghost use Rattle.std.specs.FinMap.{get};
ghost use Rattle.std.specs.Option.{option_copied, option_map};
ghost use Rattle.outside.specs.Files.{Files};
ghost use Rattle.outside.specs.Calls.{IsThere, IsUntouched};
ghost use Rattle.read_file_patch.specs.Targets.{below};
ghost use Rattle.cli_run_answers.specs.Input.{HasFileCause, HasWanted};

use crate::fault::InputFault;
use crate::input::LONGEST;
use outside::{Name, Tree};
use std::alloc::{AllocError, Global};

/// The bytes of the file below the directory.
pub fn read_below<T: Tree>(
    alloc: Global,
    dir: Option<&Name>,
    name: &Name,
    tree: &mut T,
) -> Result<Vec<u8>, InputFault>
    ensures untouched { IsUntouched (T.view tree.old) (T.view tree.new) }
    ensures short { IfOk result (λ text. length text.items ≤ 268435456) }
    ensures text { IfOk result (λ text. (f : Files) → (T.view tree.old).told ≡ Some f → get f (below (option_copied dir.entry) name.now) ≡ Some text.items) }
    ensures cause { IfErr result (λ e. HasFileCause e (T.view tree.old) (T.view tree.new) (below (option_copied dir.entry) name.now)) }
{
    let placed = below(alloc, dir, name)?;
    read_file(alloc, &placed, tree)
}

/// The name below the directory.
fn below(alloc: Global, dir: Option<&Name>, name: &Name) -> Result<Name, AllocError>
    ensures { IfOk result (λ placed. placed ≡ below (option_copied dir.entry) name.now) }
{
    match dir {
        Some(dir) => name.below(alloc, dir),
        None => name.copy(alloc),
    }
}

/// The bytes of a file of the tree, at most 268,435,456.
pub fn read_file<T: Tree>(alloc: Global, name: &Name, tree: &mut T) -> Result<Vec<u8>, InputFault>
    ensures untouched { IsUntouched (T.view tree.old) (T.view tree.new) }
    ensures short { IfOk result (λ text. length text.items ≤ 268435456) }
    ensures text { IfOk result (λ text. (f : Files) → (T.view tree.old).told ≡ Some f → get f name.now ≡ Some text.items) }
    ensures cause { IfErr result (λ e. HasFileCause e (T.view tree.old) (T.view tree.new) name.now) }
{
    let size = match tree.size(name) {
        Ok(Some(size)) => size,
        Ok(None) => return Err(InputFault::NoPatchFile),
        Err(_) => return Err(InputFault::Tree),
    };
    if size > LONGEST {
        return Err(InputFault::TooLong);
    }
    read_whole(alloc, name, size as usize, tree)
}

/// The bytes of a file that is said to have so many. What is taken are the bytes that came.
fn read_whole<T: Tree>(
    alloc: Global,
    name: &Name,
    size: usize,
    tree: &mut T,
) -> Result<Vec<u8>, InputFault>
    requires there { IsThere (T.view tree.old) name.now }
    requires small { size ≤ 268435456 }
    requires stated { (f : Files) → (T.view tree.old).told ≡ Some f → Some size ≡ option_map length (get f name.now) }
    ensures untouched { IsUntouched (T.view tree.old) (T.view tree.new) }
    ensures all { IfOk result (λ text. length text.items ≡ size) }
    ensures text { IfOk result (λ text. (f : Files) → (T.view tree.old).told ≡ Some f → get f name.now ≡ Some text.items) }
    ensures cause { IfErr result (λ e. HasFileCause e (T.view tree.old) (T.view tree.new) name.now) }
    ensures wanted { IfErr result (HasWanted size) }
{
    // One byte more, so that a line feed behind it costs no copy.
    let mut text = vec![in alloc; 0u8; size + 1]?;
    text.truncate(size);
    let count = match tree.read_at(name, 0, &mut text) {
        Ok(count) => count,
        Err(_) => return Err(InputFault::Tree),
    };
    text.truncate(count);
    let got = text.len();
    if got < size {
        return Err(InputFault::Disagree {
            want: size as u64,
            got: got as u64,
        });
    }
    Ok(text)
}
