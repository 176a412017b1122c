//! File patches whose hunks are told by their numbers, or of which the lines of one side are written with numbers; and all text, where that is
//! asked for.

ghost use Rattle.std.specs.Prelude.{◌≡◌, ◌<◌, ◌++◌, ◌&&◌, ◌||◌, length, suc, true, IfOk, OnOk};
ghost use Rattle.std.specs.List.{list_any};
ghost use Rattle.std.specs.Option.{ForSome};
ghost use Rattle.read_file_patch.specs.PlainPatch.{change_of, header_of, patch_of, row_count};
ghost use Rattle.hunk_core.specs.PlainHunk.{bytes_at};
ghost use Rattle.patch_set.specs.SetView.{patch_at};
ghost use Rattle.cli_tool_words.specs.PlainJobs.{plain_filter_job};
ghost use Rattle.filter_choice.specs.Kept.{is_taken, kept};
ghost use Rattle.patch_filters.specs.Filtered.{pieces, region};
ghost use Rattle.patch_filters.specs.Told.{asks_bare, asks_marks, asks_told, ends_of, last_end, left_text, telling_of, text_behind, told, told_bare, told_if, told_if_taken, told_kept, told_of};
ghost use Rattle.patch_filters.specs.Rows.{IsAt};

use crate::appending::put;
use crate::filter::asks_no_hunk;
use crate::noting::put_told_hunks;
use crate::pieces::{bytes_at, region};
use crate::row_parts::Row;
use cli_tool_words::{FilterJob, Marks};
use filter_choice::{is_meant, is_selected, keeps, patch_at};
use filter_style::put_text_front;
use patch_set::PatchSet;
use read_file_patch::FilePatch;
use std::alloc::{AllocError, Global};

/// Whether something is told of hunks, or lines are numbered.
pub fn asks_marks(marks: Marks) -> bool
    ensures { result ≡ asks_marks marks }
{
    marks.annotate || marks.numbered.is_some()
}

/// Whether hunks are told or numbered, or all text is written.
pub fn asks_told(job: &FilterJob) -> bool
    ensures { result ≡ asks_told (plain_filter_job job.now) }
{
    asks_marks(job.marks) || job.verbose
}

/// Whether bare git headers are written.
fn asks_bare(job: &FilterJob) -> bool
    ensures { result ≡ asks_bare (plain_filter_job job.now) }
{
    (asks_no_hunk(job) && job.marks.numbered.is_none()) && !job.style.clean
}

/// Whether a file patch, counted from 0, is meant.
fn is_taken(set: &PatchSet, job: &FilterJob, patch: u32, row: &FilePatch) -> bool
    requires { IsAt set.now patch row.now }
    ensures { result ≡ is_taken (plain_filter_job job.now) (suc patch) (header_of set.now.text row.now.header) }
{
    is_selected(&job.select, set.plain_name(patch)) && is_meant(&job.files, u64::from(patch) + 1)
}

/// Whether a bare git header is written.
fn is_bare_told(set: &PatchSet, job: &FilterJob, patch: u32, row: &FilePatch) -> bool
    requires { IsAt set.now patch row.now }
    ensures { result ≡ (job.now.verbose || (asks_bare (plain_filter_job job.now) && is_taken (plain_filter_job job.now) (suc patch) (header_of set.now.text row.now.header))) }
{
    job.verbose || (asks_bare(job) && is_taken(set, job, patch, row))
}

/// Adds a bare git header, if it is meant.
fn put_told_bare(
    set: &PatchSet,
    job: &FilterJob,
    patch: u32,
    row: &FilePatch,
    out: &mut Vec<u8>,
) -> Result<(), AllocError>
    requires { IsAt set.now patch row.now }
    ensures { OnOk result (out.new.items ≡ out.old.items ++ told_bare (plain_filter_job job.now) patch (patch_of set.now.text row.now) (bytes_at set.now.text row.now.span)) }
{
    if is_bare_told(set, job, patch, row) {
        return put(out, bytes_at(set.text(), row.span));
    }
    Ok(())
}

/// Adds the text in front of a file patch that is left out, where that is asked for.
fn put_left_text(
    set: &PatchSet,
    job: &FilterJob,
    patch: u32,
    row: &FilePatch,
    out: &mut Vec<u8>,
) -> Result<(), AllocError>
    requires { IsAt set.now patch row.now }
    ensures { OnOk result (out.new.items ≡ out.old.items ++ left_text (telling_of (plain_filter_job job.now)) (patch_of set.now.text row.now) (region set.now.text row.now)) }
{
    if !job.verbose {
        return Ok(());
    }
    let front = region(set.text(), row);
    put_text_front(out, &job.style, row.header.form, front)
}

/// Whether each hunk of a file patch that is meant is kept.
fn kept_flags(
    alloc: Global,
    set: &PatchSet,
    job: &FilterJob,
    patch: u32,
    row: &FilePatch,
) -> Result<Vec<bool>, AllocError>
    requires at { IsAt set.now patch row.now }
    requires taken { is_taken (plain_filter_job job.now) (suc patch) (header_of set.now.text row.now.header) ≡ true }
    ensures { IfOk result (λ flags. flags.items ≡ kept (plain_filter_job job.now) (change_of set.now.text row.now.change)) }
{
    let mut flags = Vec::new(alloc);
    for hunk in 0..row.hunks() {
        flags.push(keeps(set, job, patch, hunk))?;
    }
    Ok(flags)
}

fn has_set(flags: &[bool]) -> bool
    ensures { result ≡ list_any (λ is. is) flags.now }
{
    flags.iter().any(|flag| *flag)
}

/// Adds a file patch of whose hunks these are kept.
fn put_told_kept(
    alloc: Global,
    set: &PatchSet,
    job: &FilterJob,
    patch: u32,
    row: &FilePatch,
    flags: &[bool],
    out: &mut Vec<u8>,
) -> Result<(), AllocError>
    requires at { IsAt set.now patch row.now }
    requires flags { length flags.now ≡ row_count row.now.change }
    ensures { OnOk result (out.new.items ≡ out.old.items ++ told_kept (telling_of (plain_filter_job job.now)) flags.now (patch_of set.now.text row.now) (region set.now.text row.now) (pieces set.now.text row.now)) }
{
    if !has_set(flags) {
        return put_left_text(set, job, patch, row, out);
    }
    let row = Row {
        set,
        style: &job.style,
        marks: job.marks,
        verbose: job.verbose,
        patch,
        row,
        flags,
    };
    put_told_hunks(alloc, &row, out)
}

/// Adds a file patch that is meant.
fn put_told_taken(
    alloc: Global,
    set: &PatchSet,
    job: &FilterJob,
    patch: u32,
    row: &FilePatch,
    out: &mut Vec<u8>,
) -> Result<(), AllocError>
    requires at { IsAt set.now patch row.now }
    requires taken { is_taken (plain_filter_job job.now) (suc patch) (header_of set.now.text row.now.header) ≡ true }
    ensures { OnOk result (out.new.items ≡ out.old.items ++ told_kept (telling_of (plain_filter_job job.now)) (kept (plain_filter_job job.now) (change_of set.now.text row.now.change)) (patch_of set.now.text row.now) (region set.now.text row.now) (pieces set.now.text row.now)) }
{
    let flags = kept_flags(alloc, set, job, patch, row)?;
    let done = put_told_kept(alloc, set, job, patch, row, &flags, out);
    drop(flags);
    done
}

/// Adds a file patch with hunks, if it is meant.
fn put_told_if_taken(
    alloc: Global,
    set: &PatchSet,
    job: &FilterJob,
    patch: u32,
    row: &FilePatch,
    out: &mut Vec<u8>,
) -> Result<(), AllocError>
    requires { IsAt set.now patch row.now }
    ensures { OnOk result (out.new.items ≡ out.old.items ++ told_if_taken (plain_filter_job job.now) patch (patch_of set.now.text row.now) (region set.now.text row.now) (pieces set.now.text row.now)) }
{
    if !is_taken(set, job, patch, row) {
        return put_left_text(set, job, patch, row, out);
    }
    put_told_taken(alloc, set, job, patch, row, out)
}

/// Adds what is written of a file patch.
fn put_told_if(
    alloc: Global,
    set: &PatchSet,
    job: &FilterJob,
    patch: u32,
    row: &FilePatch,
    out: &mut Vec<u8>,
) -> Result<(), AllocError>
    requires { IsAt set.now patch row.now }
    ensures { OnOk result (out.new.items ≡ out.old.items ++ told_if (plain_filter_job job.now) set.now.text (patch, row.now)) }
{
    if row.header.bare {
        return put_told_bare(set, job, patch, row, out);
    }
    put_told_if_taken(alloc, set, job, patch, row, out)
}

/// Adds what is written of a file patch with this number, counted from 0.
fn put_told_at(
    alloc: Global,
    set: &PatchSet,
    job: &FilterJob,
    patch: u32,
    out: &mut Vec<u8>,
) -> Result<(), AllocError>
    requires { patch < length set.now.patches }
    ensures { ForSome (patch_at set.now patch) (λ p. OnOk result (out.new.items ≡ out.old.items ++ told_if (plain_filter_job job.now) set.now.text (patch, p))) }
{
    put_told_if(alloc, set, job, patch, patch_at(set, patch), out)
}

/// Where the last file patch ends.
fn last_end(set: &PatchSet) -> usize
    ensures { result ≡ last_end (ends_of set.now.patches) }
{
    match set.patches() {
        [.., last] => last.span.end as usize,
        [] => 0,
    }
}

/// Adds the text behind the last file patch, where all text is asked for.
fn put_behind(set: &PatchSet, job: &FilterJob, out: &mut Vec<u8>) -> Result<(), AllocError>
    ensures { OnOk result (out.new.items ≡ out.old.items ++ text_behind job.now.verbose set.now.text (ends_of set.now.patches)) }
{
    if !job.verbose {
        return Ok(());
    }
    let text = set.text();
    put(out, &text[usize::min(last_end(set), text.len())..])
}

/// What is written of the file patches that are meant, with their hunks told by number and name, or with numbered lines of one side in
/// their place; and all text outside of file patches, where that is asked for.
pub fn told_patches(alloc: Global, set: &PatchSet, job: &FilterJob) -> Result<Vec<u8>, AllocError>
    ensures { IfOk result (λ text. text.items ≡ told (plain_filter_job job.now) set.now) }
{
    let mut out = Vec::new(alloc);
    for patch in 0..set.patches().len() {
        put_told_at(alloc, set, job, patch as u32, &mut out)?;
    }
    put_behind(set, job, &mut out)?;
    Ok(out)
}
