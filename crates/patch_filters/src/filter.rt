//! The text of a digest with file patches and hunks left out.

ghost use Rattle.std.specs.Prelude.{◌≡◌, ◌+◌, ◌<◌, ◌^◌, ◌++◌, [], Some, false, length, slice_get, slice_index_or, suc};
ghost use Rattle.std.specs.List.{list_any};
ghost use Rattle.std.specs.Option.{ForSome};
ghost use Rattle.outside.specs.SinkView.{Writes};
ghost use Rattle.outside.specs.Puts.{Puts};
ghost use Rattle.read_file_patch.specs.PlainPatch.{header_of};
ghost use Rattle.read_patch_text.specs.Digests.{IsDigest};
ghost use Rattle.cli_tool_words.specs.PlainJobs.{plain_filter_job};
ghost use Rattle.filter_choice.specs.Kept.{is_taken};
ghost use Rattle.patch_filters.specs.Filtered.{asks_no_hunk, chosen, pieces, region, text_if};
ghost use Rattle.patch_filters.specs.Digested.{digest_if_taken, digest_kept, digest_written, filtered_digest};

use crate::hunks::is_row_kept;
use crate::pieces::{bytes_at, put_piece};
use cli_tool_words::FilterJob;
use filter_choice::{HunkIndex, is_meant, is_selected};
use outside::{Failed, Sink};
use read_file_patch::FilePatch;
use unified_form::OldRange;

/// Whether a file patch, counted from 0, is meant.
fn is_taken(digest: &HunkIndex, job: &FilterJob, patch: usize) -> bool
    requires within { patch < length digest.now.patches }
    requires few { patch + 1 < 2 ^ 64 }
    ensures { ForSome (slice_get digest.now.patches patch) (λ p. result ≡ is_taken (plain_filter_job job.now) (suc patch) (header_of digest.now.text p.header)) }
{
    is_selected(&job.select, digest.plain_name(patch)) && is_meant(&job.files, patch as u64 + 1)
}

fn has_kept(text: &[u8], job: &FilterJob, patch: &FilePatch, olds: &[OldRange]) -> bool
    requires { IsDigest text.now patch.now olds.now }
    ensures { result ≡ list_any (λ is. is) (digest_kept (plain_filter_job job.now) text.now patch.now olds.now) }
{
    for hunk in 0..patch.hunk_spans.len() {
        if is_row_kept(text, job, patch, olds, hunk) {
            return true;
        }
    }
    false
}

/// Writes a hunk, counted from 0, if it is kept.
fn put_if_kept<O: Sink>(
    text: &[u8],
    job: &FilterJob,
    patch: &FilePatch,
    olds: &[OldRange],
    hunk: usize,
    out: &mut O,
) -> Result<(), Failed>
    requires digest { IsDigest text.now patch.now olds.now }
    requires within { hunk < length patch.now.hunk_spans.items }
    ensures { Puts O.view O.same_rest out.old out.new result (text_if (slice_index_or (digest_kept (plain_filter_job job.now) text.now patch.now olds.now) hunk false, slice_index_or (pieces text.now patch.now) hunk [])) }
{
    if !is_row_kept(text, job, patch, olds, hunk) {
        return Ok(());
    }
    let span = patch.hunk_spans[hunk];
    put_piece(out, bytes_at(text, span))
}

/// Writes the region and the kept hunks.
fn put_parts<O: Sink>(
    text: &[u8],
    job: &FilterJob,
    patch: &FilePatch,
    olds: &[OldRange],
    out: &mut O,
) -> Result<(), Failed>
    requires { IsDigest text.now patch.now olds.now }
    ensures { Puts O.view O.same_rest out.old out.new result (region text.now patch.now ++ chosen (digest_kept (plain_filter_job job.now) text.now patch.now olds.now) (pieces text.now patch.now)) }
{
    put_piece(out, &text[patch.span.start as usize..patch.header.at])?;
    for hunk in 0..patch.hunk_spans.len() {
        put_if_kept(text, job, patch, olds, hunk, out)?;
    }
    Ok(())
}

pub fn asks_no_hunk(job: &FilterJob) -> bool
    ensures { result ≡ asks_no_hunk (plain_filter_job job.now) }
{
    job.hunks.is_none() && job.lines.is_none()
}

fn put_written<O: Sink>(
    text: &[u8],
    job: &FilterJob,
    patch: &FilePatch,
    olds: &[OldRange],
    out: &mut O,
) -> Result<(), Failed>
    requires { IsDigest text.now patch.now olds.now }
    ensures { Puts O.view O.same_rest out.old out.new result (digest_written (plain_filter_job job.now) text.now patch.now olds.now) }
{
    if patch.header.bare {
        if !asks_no_hunk(job) {
            return Ok(());
        }
        return put_piece(out, bytes_at(text, patch.span));
    }
    if !has_kept(text, job, patch, olds) {
        return Ok(());
    }
    put_parts(text, job, patch, olds, out)
}

/// A file patch, counted from 0.
fn patch_at(digest: &HunkIndex, patch: usize) -> &FilePatch
    requires { patch < length digest.now.patches }
    ensures is { slice_get digest.now.patches patch ≡ Some result.now }
    ensures digest { ForSome (slice_get digest.now.olds patch) (IsDigest digest.now.text result.now) }
{
    &digest.patches()[patch]
}

/// Writes what is written of a file patch, counted from 0, if it is meant.
fn put_if_taken<O: Sink>(
    digest: &HunkIndex,
    job: &FilterJob,
    patch: usize,
    out: &mut O,
) -> Result<(), Failed>
    requires within { patch < length digest.now.patches }
    requires few { patch + 1 < 2 ^ 64 }
    ensures { ForSome (slice_get digest.now.patches patch) (λ p. ForSome (slice_get digest.now.olds patch) (λ olds. Puts O.view O.same_rest out.old out.new result (digest_if_taken (plain_filter_job job.now) digest.now.text (suc patch, (p, olds))))) }
{
    if !is_taken(digest, job, patch) {
        return Ok(());
    }
    put_written(
        digest.text(),
        job,
        patch_at(digest, patch),
        digest.olds(patch),
        out,
    )
}

/// Writes each file patch that is selected and whose number is meant: the lines in front of its first hunk, and the hunks
/// that are kept; nothing where none is. Range lines stay as they are. A bare git header is written where neither numbers
/// nor lines of hunks are asked for.
pub fn filter_patches<O: Sink>(
    digest: &HunkIndex,
    job: &FilterJob,
    out: &mut O,
) -> Result<(), Failed>
    ensures writes { Writes (O.view out.old) (O.view out.new) result (filtered_digest (plain_filter_job job.now) digest.now) }
    ensures rest { O.same_rest out.old out.new }
{
    for patch in 0..digest.patches().len() {
        put_if_taken(digest, job, patch, out)?;
    }
    Ok(())
}
