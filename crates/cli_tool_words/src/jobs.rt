//! What the tools beside `patch` are asked for.

use hunk_core::Form;
use outside::Name;
use patch_options::{Input, PlanKind, SyncKind};

/// Which file patches are meant, by what they are and by their names. A pattern matches a whole name.
#[derive(Drop, Debug)]
pub struct Select {
    /// How many slashes are stripped from a name, with what stands before them, before it is matched.
    pub strip: u32,
    /// Patterns of which one must match, where `only_included` says so.
    pub include: Vec<Vec<u8>>,
    /// Patterns of which none may match.
    pub exclude: Vec<Vec<u8>>,
    /// The file whose lines are patterns to be included.
    pub include_file: Option<Name>,
    /// The file whose lines are patterns to be excluded.
    pub exclude_file: Option<Name>,
    /// There are patterns to be included, or a file of them.
    pub only_included: bool,
    /// Binary changes are passed over, and don't refuse the text.
    pub skip_binary: bool,
}

/// Numbers, as ranges from the first up to and with the last, or all other numbers.
#[derive(Drop, Debug)]
pub struct Ranges {
    pub items: Vec<(u32, u32)>,
    /// All numbers but those of the items are meant.
    pub others: bool,
}

/// How a list shows a file patch.
#[derive(Drop, Debug)]
pub struct Shown {
    /// Whether the number of the line of the names is printed.
    pub numbers: bool,
    /// Whether a line follows for each hunk, with the number of the line at which it begins.
    pub hunks: bool,
    /// Whether a sign says which side is absent.
    pub status: bool,
    /// Whether a side is absent of which no hunk has a line.
    pub empty_absent: bool,
    /// How many slashes are stripped from a name that is printed.
    pub strip: u32,
    /// What is printed in front of a name.
    pub prefix: Vec<u8>,
    /// What stands in front of the line of a file patch: the name of its text, if that is shown.
    pub label: Vec<u8>,
    /// What stands in front of the line of a hunk.
    pub hunk_label: Vec<u8>,
}

/// One command of `lsdiff`.
#[derive(Drop, Debug)]
pub struct ListJob {
    pub input: Input,
    pub select: Select,
    pub shown: Shown,
    /// Whether the number of a file patch in its text is shown.
    pub number_files: bool,
}

/// What is done to the lines of file patches that are written.
#[derive(Drop, Debug)]
pub struct Style {
    /// How many slashes are stripped from the names, with what stands before them.
    pub strip: u32,
    /// What is put in front of both names of the header lines.
    pub prefix: Option<Vec<u8>>,
    /// What is put in front of the old name, on the `diff` line too; in the header lines only where there is no `prefix`.
    pub old_prefix: Vec<u8>,
    /// What is put in front of the new name, in the same lines.
    pub new_prefix: Vec<u8>,
    /// The header lines end behind their names.
    pub no_stamps: bool,
    /// No text outside of file patches is written, nor what stands behind the ranges of a hunk.
    pub clean: bool,
}

/// The side of the file patches that are written whose lines are numbered.
#[derive(Clone, Copy, Debug)]
pub enum Numbered {
    Before,
    After,
}

/// What is told of the hunks that are written, or written in their place.
#[derive(Clone, Copy, Debug)]
pub struct Marks {
    /// Each hunk is told by its number in its file patch, and by the name of that.
    pub annotate: bool,
    /// The lines of this side, with their numbers, stand in place of hunks.
    pub numbered: Option<Numbered>,
}

/// One command of `filterdiff`.
#[derive(Drop, Debug)]
pub struct FilterJob {
    pub input: Input,
    pub select: Select,
    /// The hunks that are kept, by their numbers in the file patch, from 1; none: all.
    pub hunks: Option<Ranges>,
    /// The old lines of which a kept hunk has one; none: all.
    pub lines: Option<Ranges>,
    /// The file patches that are written, by their numbers in the text, from 1; none: all.
    pub files: Option<Ranges>,
    /// The form that is written; none: that of the text.
    pub format: Option<Form>,
    /// The text outside of file patches is written, also where no name is excluded.
    pub verbose: bool,
    pub style: Style,
    /// They ask for something only where no form is asked for.
    pub marks: Marks,
}

/// Which lines of a hunk are searched.
#[derive(Clone, Copy, Debug)]
pub enum Searched {
    All,
    /// Those that the old side has alone.
    Removed,
    /// Those that the new side has alone.
    Added,
    /// Those that one side has alone.
    Changed,
}

/// What is written of the file patches that have a hit.
#[derive(Clone, Copy, Debug)]
pub enum GrepOut {
    /// Their names.
    Names,
    /// Their first lines, and the hunks that have a hit.
    Hunks,
    /// All of them.
    Files,
}

/// One command of `grepdiff`.
#[derive(Drop, Debug)]
pub struct GrepJob {
    pub input: Input,
    pub select: Select,
    /// What a line of a hunk is to have, where no file has the patterns.
    pub pattern: String,
    /// The file whose lines are patterns, of which a line is to have one.
    pub pattern_file: Option<Name>,
    pub searched: Searched,
    pub output: GrepOut,
    /// How their names are shown.
    pub shown: Shown,
    /// Lines are numbered only where hunks or file patches are written.
    pub marks: Marks,
}

/// How the parts of a text are named.
#[derive(Drop, Debug)]
pub struct PartNames {
    /// By the names of their file patches, and not by that of the text.
    pub by_name: bool,
    /// By these names, and in this directory.
    pub directory: Option<Name>,
    /// Without `.patch` at their end.
    pub bare: bool,
    /// How many slashes are stripped from the name of a file patch, with what stands before them.
    pub strip: u32,
}

/// One command of `splitdiff`.
#[derive(Drop, Debug)]
pub struct SplitJob {
    /// The file by whose name the parts are named. It is no temporary's.
    pub input: Name,
    /// Each file patch begins a part.
    pub every: bool,
    pub names: PartNames,
    /// The lines of each part are told.
    pub verbose: bool,
    /// Binary changes are passed over, and don't refuse the file.
    pub skip_binary: bool,
    pub sync: SyncKind,
}

/// One command of `patchgen`.
#[derive(Clone, Copy, Debug)]
pub struct GenJob {
    pub seed: u32,
    /// From 1 to 1,000.
    pub files: u32,
    /// The lines of each file, from 20 to 9,999,999; those of all files are at most 10,000,000.
    pub lines: u32,
    pub plan: PlanKind,
    /// The size of a buffer in bytes, from 512 to 1,048,576, or that of the plan where none is given.
    pub buffer: u32,
    pub sync: SyncKind,
}

/// What is done with the patches of a stack.
#[derive(Clone, Copy, Debug)]
pub enum StackOp {
    /// The next patch is applied.
    Push,
    /// The last one that was applied is taken back.
    Pop,
    /// Those that are applied are counted.
    Applied,
}

/// One command of `patchstack`.
#[derive(Clone, Copy, Debug)]
pub struct StackJob {
    pub op: StackOp,
    /// All patches are applied or taken back, one after the other.
    pub all: bool,
    pub sync: SyncKind,
}

/// What a tool beside `patch` is asked for.
#[derive(Drop, Debug)]
pub enum ToolJob {
    List(ListJob),
    Filter(FilterJob),
    Grep(GrepJob),
    Split(SplitJob),
    /// The text whose counts are made true.
    Recount(Input),
    Gen(GenJob),
    /// The text that is turned round.
    Flip(Input),
    Stack(StackJob),
}
