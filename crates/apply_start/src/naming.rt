//! Which name is said first, and where its file comes from.

ghost use Rattle.std.specs.Prelude.{◌≡◌, ◌<◌, length, slice_get};
ghost use Rattle.say_text.specs.Origins.{plain_origin};
ghost use Rattle.apply_task.specs.Named.{IsNamed};
ghost use Rattle.apply_start.specs.Start.{named, origin_of, renamed_before, renamed_from};
ghost use Rattle.apply_task.specs.Asking.{source_at};
ghost use Rattle.apply_task.specs.TaskView.{plain_task, IsTask};

use apply_task::{Task, chosen, shown, source_at, target_in, written};
use read_file_patch::Target;
use read_header_record::Action;
use say_text::Origin;

/// The target that is named first.
pub fn named<'a>(task: &Task<'a>, place: u32) -> &'a Target
    requires task { IsTask task.now }
    requires within { place < length task.now.patch.now.targets.items }
    ensures target { result.now ≡ named (plain_task task.now) place }
    ensures named { IsNamed result.now }
{
    if task.patch.is_moved() {
        written(task, place)
    } else {
        chosen(task, place)
    }
}

/// Where its file comes from.
pub fn origin<'a>(task: &Task<'a>, place: u32) -> Origin<'a>
    requires task { IsTask task.now }
    requires within { place < length task.now.patch.now.targets.items }
    ensures origin { plain_origin result ≡ origin_of (plain_task task.now) place }
{
    match task.patch.header.action {
        Action::Plain | Action::New | Action::Deleted => Origin::Same,
        Action::Rename => renamed_from(task, place),
        Action::Copy => Origin::Copied(shown(chosen(task, place))),
    }
}

/// Where the file of a rename comes from.
fn renamed_from<'a>(task: &Task<'a>, place: u32) -> Origin<'a>
    requires task { IsTask task.now }
    requires within { place < length task.now.patch.now.targets.items }
    ensures origin { plain_origin result ≡ renamed_from (plain_task task.now) place }
{
    if place == source_at(task.options.reverse) {
        Origin::Renamed(shown(chosen(task, place)))
    } else {
        renamed_before(task)
    }
}

/// Where the file comes from if the rename was done before: the name that it then had.
fn renamed_before<'a>(task: &Task<'a>) -> Origin<'a>
    requires task { IsTask task.now }
    ensures origin { plain_origin result ≡ renamed_before (slice_get (plain_task task.now).item.targets (source_at (plain_task task.now).options.reverse)) }
{
    match target_in(task.patch, source_at(task.options.reverse)) {
        Some(source) => Origin::AlreadyRenamed(shown(source)),
        None => Origin::Same,
    }
}
