//! One file patch, and the names of the files that it can be meant for; for each also the names of its backup, its reject file and
//! their temporaries, and a number. Stands on `read_header_record` and the options of `patch_options`. Begin with
//! `specs/Candidates.antt`, then `specs/Targets.antt`.
#![tactic(auto)]

ghost use Rattle.std.specs.Prelude.{◌≡◌, ◌<◌, ◌^◌, ℕ, List};
ghost use Rattle.hunk_core.specs.Turned.{other_side};
ghost use Rattle.read_file_patch.specs.Actions.{is_moved};
ghost use Rattle.read_file_patch.specs.Absent.{IsLawfulPatch, creates, deletes, told_absent};
ghost use Rattle.read_file_patch.specs.PlainPatch.{change_of, hunk_count, patch_of, row_count};

mod derived;
mod header_names;
mod laws;
mod moved;
mod numbering;
mod strip;

pub use derived::Target;
use ed_form::EdScript;
pub use header_names::candidates;
use hunk_core::{Hunk, Side};
pub use laws::{
    numbers_come_in_order, numbers_tell_names_apart, quoted_names_are_the_same,
    stripped_fronts_hold_the_slashes, targets_tell_names_apart,
};
use line_list::Span;
pub use moved::moved_names;
pub use numbering::Numbers;
use read_header_record::{Action, Header};
pub use strip::{last_component, shortened};

/// What a file patch does to its file.
#[derive(Drop, Debug)]
pub enum Change {
    /// Its hunks; none where its header is a bare git header.
    Hunks(Vec<Hunk>),
    Script(EdScript),
}

/// A header with the hunks or the ed script behind it. Spans are places in the patch text.
#[derive(Drop, Debug)]
pub struct FilePatch {
    pub header: Header,
    /// The lines in front of the opening that belong to it, and its hunks or its bare git header.
    pub span: Span,
    /// The pieces of the hunks; an ed script is one piece.
    pub hunk_spans: Vec<Span>,
    pub change: Change,
    /// Whether its old side is no file: it is named `/dev/null`, or a git header says that the file is
    /// new, or it is empty with the stamp of the epoch.
    pub old_absent: bool,
    /// Whether its new side is no file, by the same rules; there the git header says that the file is deleted.
    pub new_absent: bool,
    /// The files that it can be meant for. Of a rename or a copy these are two, or none.
    pub targets: Vec<Target>,
    /// How many hunks the file patches before it have, an ed script counting as one.
    pub first_verdict: u32,
}

impl FilePatch {
    /// Whether it makes a file, taken from this side.
    pub fn creates(&self, side: Side) -> bool
        ensures told { result ≡ told_absent side self.now }
        ensures creates { (text : List ℕ) → IsLawfulPatch text self.now → result ≡ creates side (patch_of text self.now) }
    {
        match side {
            Side::Forward => self.old_absent,
            Side::Reversed => self.new_absent,
        }
    }

    /// Whether it takes a file away, taken from this side.
    pub fn deletes(&self, side: Side) -> bool
        ensures told { result ≡ told_absent (other_side side) self.now }
        ensures deletes { (text : List ℕ) → IsLawfulPatch text self.now → result ≡ deletes side (patch_of text self.now) }
    {
        self.creates(side.other())
    }

    /// Whether its file is renamed or copied, so that its targets are the name that the file has and the name that it gets.
    pub fn is_moved(&self) -> bool
        ensures { result ≡ is_moved self.now.header.action }
    {
        match self.header.action {
            Action::Plain | Action::New | Action::Deleted => false,
            Action::Rename | Action::Copy => true,
        }
    }

    /// How many hunks it has; an ed script counts as one, and a bare git header has none.
    pub fn hunks(&self) -> u32
        requires { row_count self.now.change < 2 ^ 32 }
        ensures { (text : List ℕ) → result ≡ hunk_count (change_of text self.now.change) }
    {
        match &self.change {
            Change::Hunks(hunks) => hunks.len() as u32,
            Change::Script(_) => 1,
        }
    }
}
