//! What a file patch is about, by the modes of its git header, and what is asked of the file that it writes.

ghost use Rattle.std.specs.Prelude.{◌≡◌, Some, None};
ghost use Rattle.std.specs.Option.{option_copied, option_and_then};
ghost use Rattle.read_file_patch.specs.PlainPatch.{header_of};
ghost use Rattle.apply_task.specs.Asking.{is_set, mode_by, mode_on, mode_asked};
ghost use Rattle.apply_task.specs.Kinds.{kind_by, subject_by, subject_of, is_meant_subject, is_link_subject, is_link};
ghost use Rattle.apply_task.specs.TaskView.{plain_task};

use crate::task::Task;
use hunk_core::{Side, after_prefix};
use outside::TimeChange;
use patch_set::bytes_in;
use read_header_record::{Header, is_executable};

/// What a mode is of.
#[derive(Clone, Copy)]
pub enum Kind {
    /// A regular file.
    File,
    /// A symbolic link.
    Link,
    /// Another repository.
    Submodule,
}

/// What a file patch is about.
#[derive(Clone, Copy)]
pub enum Subject {
    /// A regular file, as where no mode is told.
    File,
    /// A symbolic link.
    Link,
    /// A file that becomes a link.
    FileToLink,
    /// A link that becomes a file.
    LinkToFile,
    Submodule,
}

/// What is asked of the file that is written.
#[derive(Clone, Copy)]
pub enum Mode {
    /// It is an output, which isn't the file that the patch speaks of.
    Output,
    /// It is what the file was that it is made of.
    Kept,
    /// It may be executed by nobody.
    Plain,
    /// It may be executed.
    Executable,
    /// It is a symbolic link.
    Link,
}

/// How the file is put that is written.
#[derive(Clone, Copy)]
pub struct Manner {
    pub mode: Mode,
    /// Its time, if it isn't that of the writing.
    pub time: Option<TimeChange>,
}

/// What it is about.
pub fn subject_of(task: &Task<'_>) -> Subject
    ensures { result ≡ subject_of (plain_task task.now).item.patch }
{
    let old = kind_on(task, Side::Reversed);
    let new = kind_on(task, Side::Forward);
    subject_by(old, new)
}

/// Whether it is about a symbolic link.
pub fn is_link(task: &Task<'_>) -> bool
    ensures { result ≡ is_link (plain_task task.now).item.patch }
{
    subject_of(task).is_link()
}

impl Subject {
    /// Whether a file patch about it can be carried out: a file stays one, and so does a link.
    pub fn is_meant(self) -> bool
        ensures { result ≡ is_meant_subject self }
    {
        matches!(self, Subject::File | Subject::Link)
    }

    fn is_link(self) -> bool
        ensures { result ≡ is_link_subject self }
    {
        matches!(self, Subject::Link)
    }
}

impl Mode {
    /// Whether the file gets a mode.
    pub fn is_set(self) -> bool
        ensures { result ≡ is_set self }
    {
        matches!(self, Mode::Plain | Mode::Executable | Mode::Link)
    }
}

fn subject_by(old: Option<Kind>, new: Option<Kind>) -> Subject
    ensures { result ≡ subject_by old new }
{
    match old {
        None => of_one(new),
        Some(Kind::File) => from_file(new),
        Some(Kind::Link) => from_link(new),
        Some(Kind::Submodule) => Subject::Submodule,
    }
}

fn of_one(new: Option<Kind>) -> Subject
    ensures { result ≡ subject_by None new }
{
    match new {
        None | Some(Kind::File) => Subject::File,
        Some(Kind::Link) => Subject::Link,
        Some(Kind::Submodule) => Subject::Submodule,
    }
}

fn from_file(new: Option<Kind>) -> Subject
    ensures { result ≡ subject_by (Some Kind.File) new }
{
    match new {
        None | Some(Kind::File) => Subject::File,
        Some(Kind::Link) => Subject::FileToLink,
        Some(Kind::Submodule) => Subject::Submodule,
    }
}

fn from_link(new: Option<Kind>) -> Subject
    ensures { result ≡ subject_by (Some Kind.Link) new }
{
    match new {
        None | Some(Kind::Link) => Subject::Link,
        Some(Kind::File) => Subject::LinkToFile,
        Some(Kind::Submodule) => Subject::Submodule,
    }
}

/// What the mode of a side is of, where it is told.
fn kind_on(task: &Task<'_>, side: Side) -> Option<Kind>
    ensures { result ≡ option_and_then kind_by (mode_on side (plain_task task.now).item.patch.header) }
{
    let told = mode_on(task.set.text(), &task.patch.header, side);
    match told {
        Some(mode) => kind_by(mode),
        None => None,
    }
}

fn kind_by(mode: &[u8]) -> Option<Kind>
    ensures { result ≡ kind_by mode.now }
{
    if after_prefix(mode, b"100").is_some() {
        Some(Kind::File)
    } else if after_prefix(mode, b"120").is_some() {
        Some(Kind::Link)
    } else if after_prefix(mode, b"160").is_some() {
        Some(Kind::Submodule)
    } else {
        None
    }
}

/// What is asked of the file that it writes, taken from this side.
pub fn mode_asked(task: &Task<'_>, side: Side) -> Mode
    ensures { result ≡ mode_asked (plain_task task.now).options side (plain_task task.now).item.patch }
{
    if task.options.output.is_some() {
        return Mode::Output;
    }
    if is_link(task) {
        return Mode::Link;
    }
    match mode_on(task.set.text(), &task.patch.header, side) {
        Some(mode) => mode_by(is_executable(mode)),
        None => Mode::Kept,
    }
}

fn mode_by(executable: Option<bool>) -> Mode
    ensures { result ≡ mode_by executable }
{
    match executable {
        None => Mode::Kept,
        Some(true) => Mode::Executable,
        Some(false) => Mode::Plain,
    }
}

/// What a git header says of the mode of the side that is taken as new.
fn mode_on<'a>(text: &'a [u8], header: &Header, side: Side) -> Option<&'a [u8]>
    ensures { option_copied result ≡ mode_on side (header_of text.now header.now) }
{
    match side {
        Side::Forward => bytes_in(text, header.new_mode),
        Side::Reversed => bytes_in(text, header.old_mode),
    }
}
