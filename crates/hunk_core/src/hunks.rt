//! Hunks that were read.

use crate::Hunk;
use line_list::Span;

/// The hunks that follow each other in a text.
#[derive(Debug, Drop)]
pub struct Hunks {
    pub items: Vec<Hunk>,
    /// The pieces of the text that the hunks stand in.
    pub spans: Vec<Span>,
    /// The place after the last hunk.
    pub end: usize,
    /// The number of the line there.
    pub next: u64,
}
