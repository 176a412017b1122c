//! A file patch whose hunks are told, and its parts.

ghost use Rattle.std.specs.Prelude.{◌≡◌, ◌<◌, [], slice_index_or};
ghost use Rattle.read_file_patch.specs.PlainPatch.{row_count};
ghost use Rattle.patch_set.specs.PlainName.{plain_name};
ghost use Rattle.patch_filters.specs.Told.{is_set};
ghost use Rattle.patch_filters.specs.Rows.{IsRow, front, plain, texts};

use crate::pieces::{bytes_at, region};
use cli_tool_words::{Marks, Style};
use patch_set::PatchSet;
use read_file_patch::FilePatch;

/// A file patch of a set, counted from 0, and what is asked for.
#[derive(Clone, Copy)]
pub struct Row<'a> {
    pub set: &'a PatchSet,
    pub style: &'a Style,
    pub marks: Marks,
    /// All text outside of file patches is written.
    pub verbose: bool,
    pub patch: u32,
    pub row: &'a FilePatch,
    /// Whether each hunk is kept.
    pub flags: &'a [bool],
}

/// The text of a hunk, counted from 0.
pub fn piece<'a>(row: &Row<'a>, hunk: u32) -> &'a [u8]
    requires row { IsRow row.now }
    requires hunk { hunk < row_count row.now.row.now.change }
    ensures { result.now ≡ slice_index_or (texts row.now) hunk [] }
{
    let span = row.row.hunk_spans[hunk as usize];
    bytes_at(row.set.text(), span)
}

/// The lines in front of the hunks.
pub fn front<'a>(row: &Row<'a>) -> &'a [u8]
    requires { IsRow row.now }
    ensures { result.now ≡ front row.now }
{
    region(row.set.text(), row.row)
}

/// Whether a hunk, counted from 0, is kept.
pub fn is_kept(row: &Row<'_>, hunk: u32) -> bool
    requires row { IsRow row.now }
    requires hunk { hunk < row_count row.now.row.now.change }
    ensures { result ≡ is_set row.now.flags.now hunk }
{
    row.flags[hunk as usize]
}

/// The name by which a filter knows the file patch.
pub fn name<'a>(row: &Row<'a>) -> &'a [u8]
    requires { IsRow row.now }
    ensures { result.now ≡ plain_name (plain row.now).header }
{
    row.set.plain_name(row.patch)
}
