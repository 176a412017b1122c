//! A file patch that is carried out.

use patch_options::Options;
use patch_set::PatchSet;
use read_file_patch::FilePatch;

/// A file patch of a set, and the options that it is carried out with.
#[derive(Drop)]
pub struct Task<'a> {
    pub options: &'a Options,
    pub set: &'a PatchSet,
    pub patch: &'a FilePatch,
    /// No file patch of the run was before it.
    pub is_first: bool,
}
