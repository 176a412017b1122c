//! A header as a record: what the lines in front of the opening of a file patch say; names in quotes and file modes, too. Stands on
//! `stamp` and `hunk_core`. Begin with this file, then `src/quoted.rt`.
#![tactic(auto)]

mod modes;
mod quoted;

use hunk_core::Form;
use line_list::Span;
pub use modes::is_executable;
pub use quoted::{begins_quoted, quoted_length, quotes_are_read_back, unquoted};
use stamp::Stamp;

/// What a git header says of a file.
#[derive(Clone, Copy, Debug)]
pub enum Action {
    /// Nothing but its lines changes.
    Plain,
    /// It is made.
    New,
    /// It is taken away.
    Deleted,
    /// It gets another name.
    Rename,
    /// It is copied to another name.
    Copy,
}

/// The opening of a file patch or a bare git header, and what the lines in front of it say. Spans are places in the text. A
/// bare git header has no stamps; its `Index:` and `Prereq:` lines stand in front of its git line. A file that is new or
/// deleted has no names of rename lines.
#[derive(Clone, Copy, Debug)]
pub struct Header {
    pub form: Form,
    /// The place of the opening's line.
    pub at: usize,
    /// The number of the opening's line.
    pub opening: u64,
    /// The number of the old name's line, or of the opening where there is no old name.
    pub names_line: u64,
    pub old_name: Option<Span>,
    pub new_name: Option<Span>,
    /// The name of the last `Index:` line.
    pub index: Option<Span>,
    /// The word of the last `Prereq:` line.
    pub prereq: Option<Span>,
    pub old_stamp: Stamp,
    pub new_stamp: Stamp,
    /// What the git header says of the file: the bare one that this is, or the one that leads the opening.
    pub action: Action,
    /// Whether this is a bare git header, which no hunk follows. Its opening is its git line.
    pub bare: bool,
    /// The name that the file is renamed or copied from, up to the end of its line.
    pub from: Option<Span>,
    /// The name that the file is renamed or copied to, up to the end of its line.
    pub to: Option<Span>,
    /// What the git header says of the old file's mode, up to the end of its line.
    pub old_mode: Option<Span>,
    /// What it says of the new file's mode.
    pub new_mode: Option<Span>,
}
