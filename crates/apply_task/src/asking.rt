//! What a file patch asks for by its git header.

ghost use Rattle.std.specs.Prelude.{◌≡◌, ◌<◌, ◌^◌, ℕ, List};
ghost use Rattle.read_file_patch.specs.Absent.{is_said_absent};
ghost use Rattle.read_file_patch.specs.PlainPatch.{patch_of, row_count};
ghost use Rattle.patch_options.specs.PlainJob.{plain_options};
ghost use Rattle.apply_task.specs.Asking.{is_rename, renames, is_bare, acts_new, acts_deleted, other_place, source_at, moves_at, written_place, takes_files};

use hunk_core::Side;
use patch_options::Options;
use read_file_patch::FilePatch;
use read_header_record::Action;

/// Whether its file is renamed.
pub fn renames(patch: &FilePatch) -> bool
    ensures { (text : List ℕ) → result ≡ renames (patch_of text patch.now) }
{
    is_rename(patch.header.action)
}

fn is_rename(action: Action) -> bool
    ensures { result ≡ is_rename action }
{
    match action {
        Action::Plain | Action::New | Action::Deleted | Action::Copy => false,
        Action::Rename => true,
    }
}

/// Whether it has no hunk.
pub fn is_bare(patch: &FilePatch) -> bool
    requires { row_count patch.now.change < 2 ^ 32 }
    ensures { (text : List ℕ) → result ≡ is_bare (patch_of text patch.now) }
{
    patch.hunks() == 0
}

/// Whether by its git header it makes a file, taken from this side.
pub fn acts_new(patch: &FilePatch, side: Side) -> bool
    ensures { (text : List ℕ) → result ≡ acts_new side (patch_of text patch.now) }
{
    is_said_absent(side, patch.header.action)
}

/// Whether by its git header it takes a file away, taken from this side.
pub fn acts_deleted(patch: &FilePatch, side: Side) -> bool
    ensures { (text : List ℕ) → result ≡ acts_deleted side (patch_of text patch.now) }
{
    is_said_absent(side.other(), patch.header.action)
}

/// Whether a git header says that a side is no file.
fn is_said_absent(side: Side, action: Action) -> bool
    ensures { result ≡ is_said_absent side action }
{
    match side {
        Side::Forward => matches!(action, Action::New),
        Side::Reversed => matches!(action, Action::Deleted),
    }
}

/// The place of the name that a file has before it is renamed or copied.
pub fn source_at(reverse: bool) -> u32
    ensures { result ≡ source_at reverse }
{
    if reverse { 1 } else { 0 }
}

/// Whether its file gets its other name, where this target was chosen. A file that is found under the other one has it already.
pub fn moves_at(patch: &FilePatch, reverse: bool, place: u32) -> bool
    ensures { (text : List ℕ) → result ≡ moves_at reverse (patch_of text patch.now) place }
{
    patch.is_moved() && place == source_at(reverse)
}

/// The place of the target that is written, where this one was chosen.
pub fn written_place(patch: &FilePatch, reverse: bool, place: u32) -> u32
    ensures { (text : List ℕ) → result ≡ written_place reverse (patch_of text patch.now) place }
{
    if moves_at(patch, reverse, place) {
        other_place(place)
    } else {
        place
    }
}

/// The other one of two places.
fn other_place(place: u32) -> u32
    ensures { result ≡ other_place place }
{
    if place == 0 { 1 } else { 0 }
}

/// Whether a file patch can take its file away.
pub fn takes_files(options: &Options) -> bool
    ensures { result ≡ takes_files (plain_options options.now) }
{
    !options.posix && options.define.is_none()
}
