//! The best of the names, with what the tree tells of them.
ghost use Rattle.std.specs.Prelude.{◌≡◌, ◌<◌, ◌^◌, ℕ, List, length, true, Some, IfOk, IfSome, OnErr};
ghost use Rattle.std.specs.List.{position};
ghost use Rattle.outside.specs.Files.{Files};
ghost use Rattle.outside.specs.TreeView.{Rises};
ghost use Rattle.outside.specs.Calls.{IsUntouched};
ghost use Rattle.name_choice.specs.Better.{best_among};
ghost use Rattle.name_choice.specs.Choice.{is_there, is_new_directory, new_directories, needs_fewest, names_of};

use crate::rank::{best_with, place_of};
use outside::{Failed, Name, Tree};
use read_file_patch::Target;

/// The place of the best of the names that are in the tree.
pub fn best_existing<T: Tree>(targets: &[Target], tree: &mut T) -> Result<Option<u32>, Failed>
    requires { length targets.now < 2 ^ 32 }
    ensures untouched { IsUntouched (T.view tree.old) (T.view tree.new) }
    ensures cause { OnErr result (Rises (T.view tree.old) (T.view tree.new)) }
    ensures within { IfOk result (λ best. IfSome best (λ k. k < length targets.now)) }
    ensures best { IfOk result (λ best. (files : Files) → (T.view tree.old).told ≡ Some files
        → best ≡ best_among (is_there files) (names_of targets.now)) }
{
    let mut best = None;
    for (place, target) in targets.iter().enumerate() {
        let there = is_there(&target.name, tree)?;
        best = best_with(best, there, place as u32, &target.name, 0);
    }
    Ok(place_of(best))
}

/// The place of the first of the names that are in the tree.
pub fn first_existing<T: Tree>(targets: &[Target], tree: &mut T) -> Result<Option<u32>, Failed>
    requires { length targets.now < 2 ^ 32 }
    ensures untouched { IsUntouched (T.view tree.old) (T.view tree.new) }
    ensures cause { OnErr result (Rises (T.view tree.old) (T.view tree.new)) }
    ensures within { IfOk result (λ first. IfSome first (λ k. k < length targets.now)) }
    ensures first { IfOk result (λ first. (files : Files) → (T.view tree.old).told ≡ Some files
        → first ≡ position (is_there files) (names_of targets.now)) }
{
    for (place, target) in targets.iter().enumerate() {
        let there = is_there(&target.name, tree)?;
        if there {
            return Ok(Some(place as u32));
        }
    }
    Ok(None)
}

/// The place of the best of the names that need the fewest new directories.
pub fn best_new<T: Tree>(targets: &[Target], tree: &mut T) -> Result<Option<u32>, Failed>
    requires { length targets.now < 2 ^ 32 }
    ensures untouched { IsUntouched (T.view tree.old) (T.view tree.new) }
    ensures cause { OnErr result (Rises (T.view tree.old) (T.view tree.new)) }
    ensures within { IfOk result (λ best. IfSome best (λ k. k < length targets.now)) }
    ensures best { IfOk result (λ best. (files : Files) → (T.view tree.old).told ≡ Some files
        → best ≡ best_among (needs_fewest files (names_of targets.now)) (names_of targets.now)) }
{
    let mut best = None;
    for (place, target) in targets.iter().enumerate() {
        let missing = new_directories(&target.name, tree)?;
        best = best_with(best, true, place as u32, &target.name, missing);
    }
    Ok(place_of(best))
}

pub fn is_there<T: Tree>(name: &Name, tree: &mut T) -> Result<bool, Failed>
    ensures untouched { IsUntouched (T.view tree.old) (T.view tree.new) }
    ensures cause { OnErr result (Rises (T.view tree.old) (T.view tree.new)) }
    ensures there { IfOk result (λ yes. (files : Files) → (T.view tree.old).told ≡ Some files → yes ≡ is_there files name.now) }
{
    Ok(tree.size(name)?.is_some())
}

/// Whether no file stands below the name's first components.
fn is_new_directory<T: Tree>(name: &Name, parts: u64, tree: &mut T) -> Result<bool, Failed>
    ensures untouched { IsUntouched (T.view tree.old) (T.view tree.new) }
    ensures cause { OnErr result (Rises (T.view tree.old) (T.view tree.new)) }
    ensures there { IfOk result (λ yes. (files : Files) → (T.view tree.old).told ≡ Some files → yes ≡ is_new_directory files name.now parts) }
{
    Ok(!tree.has_dir(name, parts)?)
}

/// How many of the name's directories have no file below them.
fn new_directories<T: Tree>(name: &Name, tree: &mut T) -> Result<u64, Failed>
    ensures untouched { IsUntouched (T.view tree.old) (T.view tree.new) }
    ensures cause { OnErr result (Rises (T.view tree.old) (T.view tree.new)) }
    ensures count { IfOk result (λ count. (files : Files) → (T.view tree.old).told ≡ Some files → count ≡ new_directories files name.now) }
{
    let mut count = 0;
    for parts in 1..name.parts() {
        if is_new_directory(name, parts, tree)? {
            count += 1;
        }
    }
    Ok(count)
}
