//! The lines of a git header, and what they say.

ghost use Rattle.std.specs.Prelude.{◌≡◌, ◌<◌, ◌^◌, ◌||◌, ℕ, List, [], length, slice_range, IfSome};
ghost use Rattle.line_list.specs.Lines.{IsLineAt};
ghost use Rattle.patch_header.specs.Region.{row, LiesIn};
ghost use Rattle.patch_header.specs.Values.{IsPieceOf};
ghost use Rattle.patch_header.specs.GitHeaders.{starts, is_git_line, is_mode_line, is_name_line, is_index_line, is_extended, is_plain};
ghost use Rattle.patch_header.specs.GitRows.{old_mode_of, new_mode_of, git_lines_in};
ghost use Rattle.patch_header.specs.Said.{said_with, has_rename, has_copy, action_said, asks_said, from_said, to_said, SaysWithin};

use crate::content::content;
use crate::region::{Tail, later, tail_of};
use crate::values::whole_in;
use hunk_core::after_prefix;
use line_list::Span;
use read_header_record::Action;

/// The extended lines of a git header: whether there is one of a kind, or the last of a kind.
#[derive(Clone, Copy)]
pub struct GitLines {
    pub is_new: bool,
    pub is_deleted: bool,
    pub rename_from: Option<Tail>,
    pub rename_to: Option<Tail>,
    pub copy_from: Option<Tail>,
    pub copy_to: Option<Tail>,
    pub old_mode: Option<Tail>,
    pub new_mode: Option<Tail>,
}

/// Whether a line begins with the mark.
pub fn starts(line: &[u8], mark: &[u8]) -> bool
    ensures { result ≡ starts mark.now line.now }
{
    after_prefix(content(line), mark).is_some()
}

/// Whether a line begins a git header.
pub fn is_git_line(line: &[u8]) -> bool
    ensures { result ≡ is_git_line line.now }
{
    starts(line, b"diff --git ")
}

fn is_mode_line(line: &[u8]) -> bool
    ensures { result ≡ is_mode_line line.now }
{
    starts(line, b"old mode ")
        || starts(line, b"new mode ")
        || starts(line, b"new file mode ")
        || starts(line, b"deleted file mode ")
}

fn is_name_line(line: &[u8]) -> bool
    ensures { result ≡ is_name_line line.now }
{
    starts(line, b"rename from ")
        || starts(line, b"rename to ")
        || starts(line, b"copy from ")
        || starts(line, b"copy to ")
}

fn is_index_line(line: &[u8]) -> bool
    ensures { result ≡ is_index_line line.now }
{
    starts(line, b"similarity index ")
        || (starts(line, b"dissimilarity index ") || starts(line, b"index "))
}

/// Whether a line goes on with a git header.
#[tactic(auto, unfolding(crate::specs::GitHeaders::is_extended))]
pub fn is_extended(line: &[u8]) -> bool
    ensures { result ≡ is_extended line.now }
{
    is_mode_line(line) || is_name_line(line) || is_index_line(line)
}

/// No extended line.
pub fn no_git_lines() -> GitLines
    ensures is { result ≡ git_lines_in [] }
    ensures lies { (text : List ℕ) → SaysWithin text result }
{
    GitLines {
        is_new: false,
        is_deleted: false,
        rename_from: None,
        rename_to: None,
        copy_from: None,
        copy_to: None,
        old_mode: None,
        new_mode: None,
    }
}

fn either(first: bool, second: bool) -> bool
    ensures { result ≡ (first || second) }
{
    first || second
}

/// What the line says of the old file's mode.
fn old_mode_of(number: u64, text: &[u8], at: usize, end: usize) -> Option<Tail>
    requires { IsLineAt text.now at end }
    ensures is { result ≡ old_mode_of (row number at (slice_range text.now at end)) }
    ensures lies { IfSome result (LiesIn text.now) }
{
    later(
        tail_of(b"old mode ", number, text, at, end),
        tail_of(b"deleted file mode ", number, text, at, end),
    )
}

/// What the line says of the new file's mode.
fn new_mode_of(number: u64, text: &[u8], at: usize, end: usize) -> Option<Tail>
    requires { IsLineAt text.now at end }
    ensures is { result ≡ new_mode_of (row number at (slice_range text.now at end)) }
    ensures lies { IfSome result (LiesIn text.now) }
{
    later(
        tail_of(b"new mode ", number, text, at, end),
        tail_of(b"new file mode ", number, text, at, end),
    )
}

/// The extended lines, the line from `at` up to `end` with them.
pub fn with_line(lines: GitLines, number: u64, text: &[u8], at: usize, end: usize) -> GitLines
    requires line { IsLineAt text.now at end }
    requires lies { SaysWithin text.now lines }
    ensures lies { SaysWithin text.now result }
    ensures is { result ≡ said_with lines (row number at (slice_range text.now at end)) }
{
    let line = &text[at..end];
    GitLines {
        is_new: either(lines.is_new, starts(line, b"new file mode ")),
        is_deleted: either(lines.is_deleted, starts(line, b"deleted file mode ")),
        rename_from: later(
            lines.rename_from,
            tail_of(b"rename from ", number, text, at, end),
        ),
        rename_to: later(
            lines.rename_to,
            tail_of(b"rename to ", number, text, at, end),
        ),
        copy_from: later(
            lines.copy_from,
            tail_of(b"copy from ", number, text, at, end),
        ),
        copy_to: later(lines.copy_to, tail_of(b"copy to ", number, text, at, end)),
        old_mode: later(lines.old_mode, old_mode_of(number, text, at, end)),
        new_mode: later(lines.new_mode, new_mode_of(number, text, at, end)),
    }
}

fn has_rename(lines: GitLines) -> bool
    ensures { result ≡ has_rename lines }
{
    lines.rename_from.is_some() && lines.rename_to.is_some()
}

fn has_copy(lines: GitLines) -> bool
    ensures { result ≡ has_copy lines }
{
    lines.copy_from.is_some() && lines.copy_to.is_some()
}

/// What the extended lines say of a file.
pub fn action_of(lines: GitLines) -> Action
    ensures { result ≡ action_said lines }
{
    if lines.is_new {
        return Action::New;
    }
    if lines.is_deleted {
        return Action::Deleted;
    }
    if has_rename(lines) {
        return Action::Rename;
    }
    if has_copy(lines) {
        return Action::Copy;
    }
    Action::Plain
}

/// Whether an action changes nothing but lines.
fn is_plain(action: Action) -> bool
    ensures { result ≡ is_plain action }
{
    match action {
        Action::Plain => true,
        Action::New | Action::Deleted | Action::Rename | Action::Copy => false,
    }
}

/// Whether the extended lines ask for something without a hunk.
pub fn asks_alone(lines: GitLines) -> bool
    ensures { result ≡ asks_said lines }
{
    if !is_plain(action_of(lines)) {
        return true;
    }
    lines.old_mode.is_some() && lines.new_mode.is_some()
}

/// The name that the extended lines rename or copy a file from.
pub fn from_in(text: &[u8], lines: GitLines) -> Option<Span>
    requires short { length text.now < 2 ^ 32 }
    requires lies { SaysWithin text.now lines }
    ensures is { result ≡ from_said lines }
    ensures piece { IfSome result (IsPieceOf text.now) }
{
    match action_of(lines) {
        Action::Rename => whole_in(text, lines.rename_from),
        Action::Copy => whole_in(text, lines.copy_from),
        Action::Plain | Action::New | Action::Deleted => None,
    }
}

/// The name that the extended lines rename or copy a file to.
pub fn to_in(text: &[u8], lines: GitLines) -> Option<Span>
    requires short { length text.now < 2 ^ 32 }
    requires lies { SaysWithin text.now lines }
    ensures is { result ≡ to_said lines }
    ensures piece { IfSome result (IsPieceOf text.now) }
{
    match action_of(lines) {
        Action::Rename => whole_in(text, lines.rename_to),
        Action::Copy => whole_in(text, lines.copy_to),
        Action::Plain | Action::New | Action::Deleted => None,
    }
}
