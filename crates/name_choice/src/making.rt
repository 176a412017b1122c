//! Whether a file patch can make its file where none of its names is there.
ghost use Rattle.std.specs.Prelude.{◌≡◌, ℕ, List};
ghost use Rattle.read_file_patch.specs.Absent.{IsLawfulPatch};
ghost use Rattle.read_file_patch.specs.PlainPatch.{patch_of};
ghost use Rattle.name_choice.specs.Making.{first_none, may_make, tells_empty_sides, told_making, told_new, told_none};

use hunk_core::{Form, Hunk, Side};
use read_file_patch::{Change, FilePatch};

/// Whether it can make its file, taken from this side: it says that there is none, or its first hunk
/// starts at 0.
pub fn may_make(patch: &FilePatch, side: Side) -> bool
    ensures told { result ≡ told_making side patch.now }
    ensures made { (text : List ℕ) → IsLawfulPatch text patch.now → result ≡ may_make side (patch_of text patch.now) }
{
    says_none(patch, side)
}

fn says_none(patch: &FilePatch, side: Side) -> bool
    ensures { result ≡ told_making side patch.now }
{
    if patch.creates(side) {
        return true;
    }
    tells_empty_sides(patch.header.form) && starts_at_none(&patch.change, side)
}

/// Whether from one side or the other it can make its file.
pub fn names_new(patch: &FilePatch) -> bool
    ensures { result ≡ told_new patch.now }
{
    says_none(patch, Side::Forward) || says_none(patch, Side::Reversed)
}

fn tells_empty_sides(form: Form) -> bool
    ensures { result ≡ tells_empty_sides form }
{
    match form {
        Form::Unified | Form::Context => true,
        Form::Normal | Form::Ed => false,
    }
}

fn starts_at_none(change: &Change, side: Side) -> bool
    ensures { result ≡ told_none side change.now }
{
    match change {
        Change::Hunks(hunks) => first_starts_at_none(hunks, side),
        Change::Script(_) => false,
    }
}

fn first_starts_at_none(hunks: &[Hunk], side: Side) -> bool
    ensures { result ≡ first_none side hunks.now }
{
    match hunks.first() {
        Some(hunk) => hunk.start(side) == 0,
        None => false,
    }
}
