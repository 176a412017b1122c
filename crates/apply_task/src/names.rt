//! The names of a target as messages show them.

ghost use Rattle.std.specs.Prelude.{◌≡◌, ◌<◌, ℕ, List, length, drop, All, slice_get, unwrap_or};
ghost use Rattle.std.specs.Option.{ForSome, option_copied};
ghost use Rattle.apply_task.specs.Contexts.{shown, shown_reject, written, written_at, target_at};
ghost use Rattle.apply_task.specs.Ready.{item_of};
ghost use Rattle.apply_task.specs.Named.{BeginsComponent, IsNamed};
ghost use Rattle.read_file_patch.specs.declared.derived.Target.{Target as ThisTarget};
ghost use Rattle.patch_set.specs.declared.skipped.BinaryChange.{BinaryChange};
ghost use Rattle.apply_task.specs.TaskView.{plain_task, IsTask};

use crate::asking::written_place;
use crate::task::Task;
use outside::Name;
use read_file_patch::{FilePatch, Target};

/// The name as messages show it.
pub fn shown(target: &Target) -> &str
    requires { BeginsComponent target.now.name target.now.shown_from }
    ensures { result.now ≡ shown target.now }
{
    shown_from(&target.name, target.shown_from)
}

/// The reject file's name as messages show it.
pub fn shown_reject(target: &Target) -> &str
    requires { BeginsComponent target.now.reject target.now.reject_shown_from }
    ensures { result.now ≡ shown_reject target.now }
{
    shown_from(&target.reject, target.reject_shown_from)
}

/// A name from one of its components on.
fn shown_from(name: &Name, from: usize) -> &str
    requires { BeginsComponent name.now from }
    ensures { result.now ≡ drop from name.now }
{
    &name.text()[from..]
}

/// The target that is read, by its place among the targets of the file patch.
pub fn chosen<'a>(task: &Task<'a>, place: u32) -> &'a Target
    requires task { IsTask task.now }
    requires within { place < length task.now.patch.now.targets.items }
    ensures target { result.now ≡ target_at (plain_task task.now).item.targets place }
    ensures named { IsNamed result.now }
{
    &task.patch.targets[place as usize]
}

/// The target at a place, if there is one.
pub fn target_in<'a>(patch: &'a FilePatch, place: u32) -> Option<&'a Target>
    ensures target { option_copied result ≡ slice_get patch.now.targets.items place }
    ensures named { All IsNamed patch.now.targets.items → ForSome (option_copied result) IsNamed }
{
    patch.targets.get(place as usize)
}

/// The target that a file patch writes without an output of the options, where this one was chosen.
pub fn written_at<'a>(patch: &'a FilePatch, reverse: bool, place: u32) -> Option<&'a Target>
    ensures target { (text : List ℕ) (skipped : List BinaryChange) (moved : List (List ThisTarget)) → option_copied result ≡ written_at reverse (item_of text skipped moved patch.now) place }
    ensures named { All IsNamed patch.now.targets.items → ForSome (option_copied result) IsNamed }
{
    match target_in(patch, written_place(patch, reverse, place)) {
        Some(target) => Some(target),
        None => target_in(patch, place),
    }
}

/// The target that is written: the output of the options, or the one that is read, or the other one where its file gets
/// that name.
pub fn written<'a>(task: &Task<'a>, place: u32) -> &'a Target
    requires task { IsTask task.now }
    requires within { place < length task.now.patch.now.targets.items }
    ensures target { result.now ≡ written (plain_task task.now) place }
    ensures named { IsNamed result.now }
{
    match task.set.output() {
        Some(output) => output,
        None => own_written(task, place),
    }
}

/// The target that is written, where the options name no output.
fn own_written<'a>(task: &Task<'a>, place: u32) -> &'a Target
    requires task { IsTask task.now }
    requires within { place < length task.now.patch.now.targets.items }
    ensures target { result.now ≡ unwrap_or (written_at (plain_task task.now).options.reverse (plain_task task.now).item place) (target_at (plain_task task.now).item.targets place) }
    ensures named { IsNamed result.now }
{
    match written_at(task.patch, task.options.reverse, place) {
        Some(target) => target,
        None => chosen(task, place),
    }
}
