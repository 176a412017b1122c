//! A place of a walk over the edits of a change.

ghost use Rattle.std.specs.Prelude.{◌+◌, ◌≤◌, ◌^◌};

use line_list::Span;

/// A line that is added in the gap before line `at`, or line `at` that is dropped.
#[derive(Clone, Copy)]
pub struct LineEdit {
    pub at: u64,
    pub added: Option<Span>,
}

/// Where a walk has come to in a change.
#[derive(Clone, Copy)]
pub struct ChangeCursor {
    /// The hunk, or the command of a script, counted from the last one.
    pub row: usize,
    /// The line of the hunk's body, or of the command's text.
    pub line: usize,
    /// The line of the file that the next old line is.
    pub next: u64,
    ghost near: { next ≤ 2 ^ 42 + line },
}

/// One step of a walk: at most one edit, and the place behind it.
#[derive(Clone, Copy)]
pub struct Step {
    pub edit: Option<LineEdit>,
    pub behind: ChangeCursor,
}
