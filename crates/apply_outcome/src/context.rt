//! A file patch whose turn it is.

use apply_task::Task;
use hunk_core::Verdict;
use outside::WrittenNames;

/// A file patch of a set whose turn it is, and what the run knows of those before it.
#[derive(Drop)]
pub struct FilePatchContext<'a> {
    pub task: Task<'a>,
    /// How many file patches stand before it.
    pub count: u32,
    /// The verdicts on the hunks of those.
    pub verdicts: &'a [Verdict],
    /// The names that those made or took away, where these are kept.
    pub written: &'a Option<WrittenNames>,
}
