//! What a command asks for.

use hunk_core::Form;
use outside::Name;
use std::alloc::{AllocError, AllocFailed};
use thiserror::Error;

/// Where the patch text comes from.
#[derive(Drop, Debug)]
pub enum Input {
    Standard,
    File(Name),
}

/// How the lines of the file to be patched are held.
#[derive(Clone, Copy, Debug)]
pub enum PlanKind {
    /// The whole file, in memory.
    Whole,
    /// Padded records in the scratch.
    Padded,
    /// Packed pages in the scratch.
    Packed,
    /// By the file's size.
    Auto,
}

/// When what a run writes is on the disk.
#[derive(Clone, Copy, Debug)]
pub enum SyncKind {
    /// Each file, before its name is changed; and the names.
    Each,
    /// When the system has it there.
    Never,
}

/// Whether the names of backups have numbers, as `f.~1~`.
#[derive(Clone, Copy, Debug)]
pub enum BackupNumbers {
    Never,
    /// Where the file has a numbered backup already.
    Existing,
    Always,
}

/// When a written file says that it was written.
#[derive(Clone, Copy, Debug)]
pub enum FileTimes {
    /// When it was.
    Written,
    /// At its new stamp, which is local time where it tells no zone.
    Local,
    /// At its new stamp, which is UTC where it tells no zone.
    Utc,
}

/// What is done about a file that may not be written to.
#[derive(Clone, Copy, Debug)]
pub enum ReadOnlyFiles {
    /// It is told, and replaced.
    Told,
    /// It is replaced.
    Replaced,
    /// Its file patch is refused.
    Refused,
}

/// One command of `patch`. Names are as given, without the directory before them.
#[derive(Drop, Debug)]
pub struct Options {
    /// The one form that the patch text may have.
    pub only: Option<Form>,
    /// How many slashes are stripped with what stands before them; none: all.
    pub strip: Option<u32>,
    /// The largest fuzz.
    pub fuzz: u32,
    pub reverse: bool,
    /// It outweighs `forward`.
    pub force: bool,
    pub batch: bool,
    /// It outweighs `batch`.
    pub forward: bool,
    /// White space is compared loosely.
    pub loose: bool,
    pub remove_empty: bool,
    pub backup: bool,
    /// A backup is made where a hunk failed or stands elsewhere than it says.
    pub mismatch_backup: bool,
    /// What stands behind the name of a backup.
    pub suffix: Option<String>,
    /// What stands before the name of a backup.
    pub prefix: Option<String>,
    /// What stands before the last component of a backup's name.
    pub base_prefix: Option<String>,
    pub numbers: BackupNumbers,
    pub dir: Option<Name>,
    /// The file to be patched.
    pub file: Option<Name>,
    pub input: Input,
    pub output: Option<Name>,
    /// The reject file.
    pub reject: Option<Name>,
    /// No reject file is written.
    pub no_rejects: bool,
    pub reject_form: Option<Form>,
    /// The name that conditions in the output test, which then has both the old and the new lines.
    pub define: Option<String>,
    /// As POSIX says it, where GNU patch does otherwise.
    pub posix: bool,
    /// Lines of hunks keep the carriage returns in front of their line feeds, whatever the header of their file patch has.
    pub keep_returns: bool,
    /// Binary changes are passed over, where a patch text that has one is refused without this.
    pub skip_binary: bool,
    pub dry_run: bool,
    pub read_only: ReadOnlyFiles,
    /// No definition has times.
    pub times: FileTimes,
    /// A file that is a link is read behind it. It is for who opens files, and changes nothing else.
    pub follow_links: bool,
    pub silent: bool,
    pub verbose: bool,
    pub plan: PlanKind,
    /// The size of a buffer in bytes, which bounds the lines of the file. Pages have that size, and at most 1,048,576 bytes.
    pub buffer: u32,
    /// It changes nothing but what the loss of power can leave.
    pub sync: SyncKind,
}

/// What a tool is asked for.
#[derive(Drop, Debug)]
pub enum Job {
    Patch(Options),
}

/// Why words give no job. No message comes from its text.
#[derive(Clone, Copy, Debug, Error)]
pub enum WordFault {
    #[error("the words are not a command")]
    Usage,
    #[error("out of memory")]
    Memory,
}

impl From<AllocError> for WordFault {
    ghost use Rattle.std.specs.Prelude.{◌≡◌};
    ghost use Rattle.patch_options.specs.declared.options.WordFault.TheVariants.{Memory};

    ghost from_gives = { λ _ e. e ≡ Memory };

    fn from(_: AllocError) -> Self {
        WordFault::Memory
    }
}

impl<T: Drop> From<AllocFailed<T>> for WordFault {
    ghost use Rattle.std.specs.Prelude.{◌≡◌};
    ghost use Rattle.patch_options.specs.declared.options.WordFault.TheVariants.{Memory};

    ghost from_gives = { λ _ e. e ≡ Memory };

    fn from(_: AllocFailed<T>) -> Self {
        WordFault::Memory
    }
}
