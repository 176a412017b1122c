//! File patches with a hit whose hunks are told by their numbers, or of which the lines of one side are written with numbers.

ghost use Rattle.std.specs.Prelude.{◌≡◌, ◌<◌, IsSome, Some, false, length, slice_index_or, IfOk};
ghost use Rattle.std.specs.Option.{ForSome};
ghost use Rattle.read_file_patch.specs.PlainPatch.{IsLawfulChange, change_of, patch_of, row_count};
ghost use Rattle.patch_set.specs.SetView.{patch_at};
ghost use Rattle.cli_tool_words.specs.PlainJobs.{plain_grep_job, plain_style};
ghost use Rattle.patch_filters.specs.Filtered.{pieces, region};
ghost use Rattle.patch_filters.specs.Grepped.{Finds, IsAsked, IsFirst, found_told, hits_of, is_whole, no_style, plain_telling, shows_names, tells, test_of, written_flags};
ghost use Rattle.patch_filters.specs.Rows.{IsAt};
ghost use Rattle.patch_filters.specs.Told.{told_hunks};

use crate::GrepFault;
use crate::all_told::asks_marks;
use crate::noting::put_told_hunks;
use crate::pieces::put_piece;
use crate::row_parts::Row;
use crate::search::is_hit_behind;
use cli_tool_words::{GrepJob, GrepOut, Marks, Style};
use filter_choice::patch_at;
use outside::{Finder, Sink};
use patch_set::PatchSet;
use read_file_patch::FilePatch;
use std::alloc::{AllocError, Global};

fn shows_names(output: GrepOut) -> bool
    ensures { result ≡ shows_names output }
{
    match output {
        GrepOut::Names => true,
        GrepOut::Hunks | GrepOut::Files => false,
    }
}

/// Whether hunks are told or numbered.
pub fn tells(job: &GrepJob) -> bool
    ensures { result ≡ tells (plain_grep_job job.now) }
{
    asks_marks(job.marks) && !shows_names(job.output)
}

/// Whether hunks without a hit are written, too.
fn is_whole(output: GrepOut) -> bool
    ensures { result ≡ is_whole output }
{
    match output {
        GrepOut::Files => true,
        GrepOut::Names | GrepOut::Hunks => false,
    }
}

/// Whether a hunk, counted from 0, is written, where this is the first one that has a hit.
fn is_written<F: Finder>(
    alloc: Global,
    text: &[u8],
    job: &GrepJob,
    patch: &FilePatch,
    first: u32,
    hunk: u32,
    finder: &mut F,
) -> Result<bool, AllocError>
    requires kept { IsSome (F.view finder.old).kept }
    requires lawful { IsLawfulChange text.now patch.now.change }
    requires within { hunk < row_count patch.now.change }
    requires first { IsFirst (hits_of job.now.searched (test_of (F.view finder.old)) (change_of text.now patch.now.change)) (Some first) }
    ensures asked { IsAsked (F.view finder.old) (F.view finder.new) }
    ensures hit { IfOk result (λ b. b ≡ slice_index_or (written_flags job.now.output (hits_of job.now.searched (test_of (F.view finder.old)) (change_of text.now patch.now.change))) hunk false) }
{
    if is_whole(job.output) {
        return Ok(true);
    }
    is_hit_behind(alloc, text, job.searched, patch, first, hunk, finder)
}

/// Which hunks are written, where this is the first one that has a hit.
fn found_flags<F: Finder>(
    alloc: Global,
    text: &[u8],
    job: &GrepJob,
    patch: &FilePatch,
    first: u32,
    finder: &mut F,
) -> Result<Vec<bool>, AllocError>
    requires kept { IsSome (F.view finder.old).kept }
    requires lawful { IsLawfulChange text.now patch.now.change }
    requires first { IsFirst (hits_of job.now.searched (test_of (F.view finder.old)) (change_of text.now patch.now.change)) (Some first) }
    ensures asked { IsAsked (F.view finder.old) (F.view finder.new) }
    ensures flags { IfOk result (λ flags. flags.items ≡ written_flags job.now.output (hits_of job.now.searched (test_of (F.view finder.old)) (change_of text.now patch.now.change))) }
{
    let mut flags = Vec::new(alloc);
    for hunk in 0..patch.hunks() {
        let written = is_written(alloc, text, job, patch, first, hunk, finder)?;
        flags.push(written)?;
    }
    Ok(flags)
}

/// Names stay.
fn no_style(alloc: Global) -> Style
    ensures { plain_style result ≡ no_style }
{
    Style {
        strip: 0,
        prefix: None,
        old_prefix: Vec::new(alloc),
        new_prefix: Vec::new(alloc),
        no_stamps: false,
        clean: false,
    }
}

/// The text of a file patch, with those of its hunks told or numbered that are written.
fn styled_text(
    alloc: Global,
    set: &PatchSet,
    style: &Style,
    marks: Marks,
    patch: u32,
    row: &FilePatch,
    flags: &[bool],
) -> Result<Vec<u8>, AllocError>
    requires at { IsAt set.now patch row.now }
    requires flags { length flags.now ≡ row_count row.now.change }
    requires plain { plain_style style.now ≡ no_style }
    ensures { IfOk result (λ text. text.items ≡ told_hunks (plain_telling marks) marks.numbered flags.now (patch_of set.now.text row.now) (region set.now.text row.now) (pieces set.now.text row.now)) }
{
    let row = Row {
        set,
        style,
        marks,
        verbose: false,
        patch,
        row,
        flags,
    };
    let mut out = Vec::new(alloc);
    put_told_hunks(alloc, &row, &mut out)?;
    Ok(out)
}

fn told_text(
    alloc: Global,
    set: &PatchSet,
    marks: Marks,
    patch: u32,
    row: &FilePatch,
    flags: &[bool],
) -> Result<Vec<u8>, AllocError>
    requires at { IsAt set.now patch row.now }
    requires flags { length flags.now ≡ row_count row.now.change }
    ensures { IfOk result (λ text. text.items ≡ told_hunks (plain_telling marks) marks.numbered flags.now (patch_of set.now.text row.now) (region set.now.text row.now) (pieces set.now.text row.now)) }
{
    let style = no_style(alloc);
    let text = styled_text(alloc, set, &style, marks, patch, row, flags);
    drop(style);
    text
}

/// Writes a file patch, counted from 0, whose first hunk with a hit is this, with its hunks told or numbered.
pub fn put_told<F: Finder, O: Sink>(
    alloc: Global,
    set: &PatchSet,
    job: &GrepJob,
    patch: u32,
    first: u32,
    finder: &mut F,
    out: &mut O,
) -> Result<(), GrepFault>
    requires kept { IsSome (F.view finder.old).kept }
    requires within { patch < length set.now.patches }
    requires first { ForSome (patch_at set.now patch) (λ p. IsFirst (hits_of job.now.searched (test_of (F.view finder.old)) (change_of set.now.text p.change)) (Some first)) }
    ensures { ForSome (patch_at set.now patch) (λ p. Finds O.view O.same_rest (F.view finder.old) (F.view finder.new) out.old out.new result (found_told (test_of (F.view finder.old)) (plain_grep_job job.now) set.now.text p)) }
{
    let row = patch_at(set, patch);
    let flags = found_flags(alloc, set.text(), job, row, first, finder)?;
    let text = told_text(alloc, set, job.marks, patch, row, &flags);
    drop(flags);
    let text = text?;
    let done = put_piece(out, &text);
    drop(text);
    Ok(done?)
}
