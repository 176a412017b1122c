//! The answers of a run.

ghost use Rattle.std.specs.Prelude.{◌≡◌};
ghost use Rattle.cli_run_answers.specs.Answers.{exit_status, is_ended, of_words, of_input, of_set, of_run};

use crate::InputFault;
use apply_task::RunFault;
use hunk_core::BadKind;
use patch_options::WordFault;
use patch_set::SetFault;
use series_stack::StateFile;

/// Why a run ends. Lines are numbered from 1, and lengths are in bytes.
#[derive(Clone, Copy)]
pub enum Why {
    /// All was carried out, and nothing was refused.
    Done,
    /// All was carried out, but a hunk failed, a file patch was skipped, a file that was to be deleted wasn't, or an image isn't
    /// put in.
    Rejected,
    /// The words are not a command.
    Usage,
    /// The first fault of the patch text, line by line.
    Malformed { line: u64, kind: BadKind },
    /// The patch text isn't empty and has no file patch.
    Garbage,
    /// An ed script can't be reversed; the line is its opening.
    EdReverse { line: u64 },
    /// One output for so many file patches.
    OutMany { count: u32 },
    /// A file that would be written has a name of a temporary; the line is the opening of its file patch.
    Reserved { line: u64 },
    /// The patch file isn't in the tree.
    NoPatchFile,
    /// The patch text has more than 268,435,456 bytes.
    TooLong,
    /// A line of a file to be patched doesn't fit the buffer.
    LongLine { line: u64, length: u64 },
    /// A file to be patched has 2^40 bytes or more.
    FileTooLong { length: u64 },
    /// The pattern can't be read.
    BadPattern,
    /// The patch hasn't the lines that a form shows.
    NoContext { line: u64 },
    /// The patch can't be written in a form.
    Unfit { line: u64 },
    /// A file of the stack isn't of its form.
    BadState { file: StateFile },
    /// All patches of the stack are applied, or none is to be taken back.
    StackEnd { applied: u32 },
    /// A file that would be written is one of the stack's own; the line is the opening of its file patch.
    StackName { line: u64 },
    /// Standard input failed.
    ReadFault,
    /// Standard output failed.
    WriteFault,
    /// The tree's device failed.
    TreeFault,
    /// The scratch's device failed.
    ScratchFault,
    /// Two numbers that are kept for the same thing differ, as a file's size and the bytes that came.
    Disagree { want: u64, got: u64 },
    /// Memory ran out.
    Memory,
}

impl Why {
    /// The exit status: 0 for `Done`, 1 for `Rejected`, else 2.
    pub fn status(self) -> u8
        ensures { result ≡ exit_status self }
    {
        match self {
            Why::Done => 0,
            Why::Rejected => 1,
            _ => 2,
        }
    }

    /// Whether every file patch had its turn.
    pub fn is_ended(self) -> bool
        ensures { result ≡ is_ended self }
    {
        match self {
            Why::Done | Why::Rejected => true,
            _ => false,
        }
    }
}

impl From<WordFault> for Why {
    ghost from_gives = { λ fault why. why ≡ of_words fault };

    fn from(fault: WordFault) -> Self {
        match fault {
            WordFault::Usage => Why::Usage,
            WordFault::Memory => Why::Memory,
        }
    }
}

impl From<InputFault> for Why {
    ghost from_gives = { λ fault why. why ≡ of_input fault };

    fn from(fault: InputFault) -> Self {
        match fault {
            InputFault::NoPatchFile => Why::NoPatchFile,
            InputFault::TooLong => Why::TooLong,
            InputFault::Source => Why::ReadFault,
            InputFault::Tree => Why::TreeFault,
            InputFault::Disagree { want, got } => Why::Disagree { want, got },
            InputFault::Memory => Why::Memory,
        }
    }
}

impl From<SetFault> for Why {
    ghost from_gives = { λ fault why. why ≡ of_set fault };

    fn from(fault: SetFault) -> Self {
        match fault {
            SetFault::Malformed { line, kind } => Why::Malformed { line, kind },
            SetFault::Garbage => Why::Garbage,
            SetFault::TooLong => Why::TooLong,
            SetFault::OutMany { count } => Why::OutMany { count },
            SetFault::EdReverse { line } => Why::EdReverse { line },
            SetFault::Reserved { line } => Why::Reserved { line },
            SetFault::Memory => Why::Memory,
        }
    }
}

impl From<RunFault> for Why {
    ghost from_gives = { λ fault why. why ≡ of_run fault };

    fn from(fault: RunFault) -> Self {
        match fault {
            RunFault::Tree => Why::TreeFault,
            RunFault::Write => Why::WriteFault,
            RunFault::Scratch => Why::ScratchFault,
            RunFault::LongLine { line, length } => Why::LongLine { line, length },
            RunFault::FileTooLong { length } => Why::FileTooLong { length },
            RunFault::Disagree { want, got } => Why::Disagree { want, got },
            RunFault::Memory => Why::Memory,
        }
    }
}
