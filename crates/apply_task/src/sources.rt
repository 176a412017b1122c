//! Which files a file patch of the text renames or copies.

ghost use Rattle.std.specs.Prelude.{◌≡◌, ℕ, bytes_eq};
ghost use Rattle.apply_task.specs.Contexts.{has_at, is_source};
ghost use Rattle.apply_task.specs.Ready.{moved_of};
ghost use Rattle.apply_task.specs.TaskView.{plain_task};

use crate::asking::source_at;
use crate::names::target_in;
use crate::task::Task;
use outside::Name;
use read_file_patch::FilePatch;

/// Whether a file patch of the text renames or copies the file of this name.
pub fn is_source(task: &Task<'_>, name: &Name) -> bool
    ensures { result ≡ is_source (plain_task task.now) name.now }
{
    let place = source_at(task.options.reverse);
    let patches = task.set.patches();
    patches.iter().any(|patch| moves_from(patch, place, name))
}

/// Whether it renames or copies a file, and this is the name at that place.
fn moves_from(patch: &FilePatch, place: u32, name: &Name) -> bool
    ensures { result ≡ has_at place name.now (moved_of patch.now) }
{
    if !patch.is_moved() {
        return false;
    }
    match target_in(patch, place) {
        Some(target) => is_same(name, &target.name),
        None => false,
    }
}

/// Whether two names are equal.
pub fn is_same(one: &Name, other: &Name) -> bool
    ensures { result ≡ bytes_eq one.now other.now }
{
    one.text().as_bytes() == other.text().as_bytes()
}
