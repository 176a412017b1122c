//! A place of a walk over the edits of kept hunks.

ghost use Rattle.std.specs.Prelude.{◌+◌, ◌≤◌, ◌^◌};

use line_list::Span;

/// A line that is added in the gap before line `at`, or line `at` that is dropped.
#[derive(Clone, Copy)]
pub struct LineEdit {
    pub at: u64,
    pub adds: bool,
    pub span: Span,
}

/// Where a walk has come to.
#[derive(Clone, Copy)]
pub struct EditCursor {
    pub hunk: usize,
    /// The line of the hunk's body.
    pub line: usize,
    /// The line of the file that the next old line is.
    pub next: u64,
    ghost near: { next ≤ 2 ^ 42 + line },
}

/// One step of a walk: at most one edit, and the place behind it.
#[derive(Clone, Copy)]
pub struct Step {
    pub edit: Option<LineEdit>,
    pub behind: EditCursor,
}

/// An edit, and the place behind it.
#[derive(Clone, Copy)]
pub struct FoundEdit {
    pub edit: LineEdit,
    pub behind: EditCursor,
}
