//! The choices of a run that need no device.

ghost use Rattle.std.specs.Prelude.{◌≡◌, ◌<◌, length};
ghost use Rattle.patch_options.specs.PlainJob.{plain_options};
ghost use Rattle.apply_start.specs.Start.{turns, turns_round, is_needed, is_forced};
ghost use Rattle.apply_task.specs.TaskView.{plain_task, IsTask};

use apply_task::{Task, is_source, moves_at, written};
use patch_options::Options;

/// Whether this file patch is turned round where it doesn't suit its file; a rename or a copy never is.
pub fn turns_round(task: &Task<'_>) -> bool
    ensures { result ≡ turns_round (plain_task task.now) }
{
    turns(task.options) && !task.patch.is_moved()
}

/// Whether a file patch that doesn't suit its file is turned round; else it is skipped. `-N` outweighs
/// `-t`.
fn turns(options: &Options) -> bool
    ensures { result ≡ turns (plain_options options.now) }
{
    options.batch && !options.forward
}

/// Whether it isn't asked if its file fits a file patch. Of a file that is needed it always is.
pub fn is_forced(task: &Task<'_>, place: u32) -> bool
    requires task { IsTask task.now }
    requires within { place < length task.now.patch.now.targets.items }
    ensures { result ≡ is_forced (plain_task task.now) place }
{
    task.options.force && !is_needed(task, place)
}

/// Whether a file would be renamed or copied onto one that a file patch of the text renames or
/// copies.
fn is_needed(task: &Task<'_>, place: u32) -> bool
    requires task { IsTask task.now }
    requires within { place < length task.now.patch.now.targets.items }
    ensures { result ≡ is_needed (plain_task task.now) place }
{
    moves_at(task.patch, task.options.reverse, place) && is_source(task, &written(task, place).name)
}
