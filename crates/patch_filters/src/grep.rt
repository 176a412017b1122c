//! The file patches of a set of which a line is found.

ghost use Rattle.std.specs.Prelude.{◌≡◌, ◌<◌, ◌++◌, IsSome, [], Ok, Some, false, length, slice_index_or, string_bytes, OnOk, OnErr, IfErr};
ghost use Rattle.std.specs.Option.{ForSome};
ghost use Rattle.outside.specs.FinderView.{FinderPasses};
ghost use Rattle.outside.specs.SinkView.{Receives, ReceivesPart, SinkPasses};
ghost use Rattle.read_file_patch.specs.PlainPatch.{IsLawfulChange, change_of, row_count};
ghost use Rattle.patch_set.specs.SetView.{patch_at};
ghost use Rattle.patch_set.specs.Spans.{IsPlaced};
ghost use Rattle.cli_tool_words.specs.PlainJobs.{plain_grep_job};
ghost use Rattle.patch_filters.specs.Filtered.{chosen, pieces, region, text_if};
ghost use Rattle.patch_filters.specs.HunkLines.{hunk_lines};
ghost use Rattle.patch_filters.specs.Grepped.{Finds, HasGrepCause, IsFirst, asked_text, found_text, grepped, hits_of, test_of, text_if_found};

use crate::GrepFault;
use crate::grep_told::{put_told, tells};
use crate::hunk_lines::{first_line, hunk_feeds, hunk_line, put_labelled};
use crate::list::put_name_line;
use crate::pieces::{bytes_at, put_hunk, put_piece, put_region};
use crate::search::{first_hit, is_hit, is_hit_behind, keep_pattern};
use cli_tool_words::{GrepJob, GrepOut, Searched, Shown};
use filter_choice::{is_selected, patch_at};
use outside::{Finder, Sink};
use patch_set::PatchSet;
use read_file_patch::FilePatch;
use std::alloc::Global;

/// Writes a hunk, counted from 0, if it has a hit.
fn put_if_hit<F: Finder, O: Sink>(
    alloc: Global,
    text: &[u8],
    searched: Searched,
    patch: &FilePatch,
    hunk: u32,
    finder: &mut F,
    out: &mut O,
) -> Result<(), GrepFault>
    requires kept { IsSome (F.view finder.old).kept }
    requires lawful { IsLawfulChange text.now patch.now.change }
    requires placed { IsPlaced text.now patch.now.span.start patch.now.first_verdict patch.now }
    requires within { hunk < row_count patch.now.change }
    ensures { Finds O.view O.same_rest (F.view finder.old) (F.view finder.new) out.old out.new result (text_if (slice_index_or (hits_of searched (test_of (F.view finder.old)) (change_of text.now patch.now.change)) hunk false, slice_index_or (pieces text.now patch.now) hunk [])) }
{
    if !is_hit(alloc, text, searched, &patch.change, hunk, finder)? {
        return Ok(());
    }
    Ok(put_hunk(text, patch, hunk, out)?)
}

/// Writes the lines in front of the first hunk, and the hunks that have a hit, of which this is the first; those behind it are
/// searched one by one.
fn put_parts<F: Finder, O: Sink>(
    alloc: Global,
    text: &[u8],
    searched: Searched,
    patch: &FilePatch,
    first: u32,
    finder: &mut F,
    out: &mut O,
) -> Result<(), GrepFault>
    requires kept { IsSome (F.view finder.old).kept }
    requires lawful { IsLawfulChange text.now patch.now.change }
    requires placed { IsPlaced text.now patch.now.span.start patch.now.first_verdict patch.now }
    requires first { IsFirst (hits_of searched (test_of (F.view finder.old)) (change_of text.now patch.now.change)) (Some first) }
    ensures { Finds O.view O.same_rest (F.view finder.old) (F.view finder.new) out.old out.new result (region text.now patch.now ++ chosen (hits_of searched (test_of (F.view finder.old)) (change_of text.now patch.now.change)) (pieces text.now patch.now)) }
{
    put_region(text, patch, out)?;
    put_hunk(text, patch, first, out)?;
    for hunk in first + 1..patch.hunks() {
        put_if_hit(alloc, text, searched, patch, hunk, finder, out)?;
    }
    Ok(())
}

/// Writes the line of a hunk if this, counted from 0, has a hit, where this is the first one that has.
fn put_line_if_hit<F: Finder, O: Sink>(
    alloc: Global,
    text: &[u8],
    searched: Searched,
    patch: &FilePatch,
    first: u32,
    hunk: u32,
    shown: &Shown,
    line: &[u8],
    finder: &mut F,
    out: &mut O,
) -> Result<(), GrepFault>
    requires kept { IsSome (F.view finder.old).kept }
    requires lawful { IsLawfulChange text.now patch.now.change }
    requires within { hunk < row_count patch.now.change }
    requires first { IsFirst (hits_of searched (test_of (F.view finder.old)) (change_of text.now patch.now.change)) (Some first) }
    ensures { Finds O.view O.same_rest (F.view finder.old) (F.view finder.new) out.old out.new result (text_if (slice_index_or (hits_of searched (test_of (F.view finder.old)) (change_of text.now patch.now.change)) hunk false, shown.now.hunk_label.items ++ line.now)) }
{
    if !is_hit_behind(alloc, text, searched, patch, first, hunk, finder)? {
        return Ok(());
    }
    Ok(put_labelled(shown, line, out)?)
}

/// Writes the lines of the hunks that have a hit, of which this is the first.
fn put_hit_lines<F: Finder, O: Sink>(
    alloc: Global,
    text: &[u8],
    searched: Searched,
    patch: &FilePatch,
    first: u32,
    shown: &Shown,
    finder: &mut F,
    out: &mut O,
) -> Result<(), GrepFault>
    requires kept { IsSome (F.view finder.old).kept }
    requires lawful { IsLawfulChange text.now patch.now.change }
    requires placed { IsPlaced text.now patch.now.span.start patch.now.first_verdict patch.now }
    requires first { IsFirst (hits_of searched (test_of (F.view finder.old)) (change_of text.now patch.now.change)) (Some first) }
    ensures { Finds O.view O.same_rest (F.view finder.old) (F.view finder.new) out.old out.new result (chosen (hits_of searched (test_of (F.view finder.old)) (change_of text.now patch.now.change)) (hunk_lines shown.now.hunk_label.items text.now patch.now)) }
{
    let mut line = first_line(patch);
    for hunk in 0..patch.hunks() {
        let own = hunk_line(line, u64::from(hunk) + 1);
        put_line_if_hit(
            alloc,
            text,
            searched,
            patch,
            first,
            hunk,
            shown,
            own.as_slice(),
            finder,
            out,
        )?;
        line += hunk_feeds(text, patch, hunk);
    }
    Ok(())
}

/// Writes the lines of the hunks that have a hit, where they are asked for.
fn put_lines_if_asked<F: Finder, O: Sink>(
    alloc: Global,
    text: &[u8],
    job: &GrepJob,
    patch: &FilePatch,
    first: u32,
    finder: &mut F,
    out: &mut O,
) -> Result<(), GrepFault>
    requires kept { IsSome (F.view finder.old).kept }
    requires lawful { IsLawfulChange text.now patch.now.change }
    requires placed { IsPlaced text.now patch.now.span.start patch.now.first_verdict patch.now }
    requires first { IsFirst (hits_of job.now.searched (test_of (F.view finder.old)) (change_of text.now patch.now.change)) (Some first) }
    ensures { Finds O.view O.same_rest (F.view finder.old) (F.view finder.new) out.old out.new result (text_if (job.now.shown.hunks, chosen (hits_of job.now.searched (test_of (F.view finder.old)) (change_of text.now patch.now.change)) (hunk_lines job.now.shown.hunk_label.items text.now patch.now))) }
{
    if !job.shown.hunks {
        return Ok(());
    }
    let searched = job.searched;
    put_hit_lines(alloc, text, searched, patch, first, &job.shown, finder, out)
}

/// Writes what is asked for of a file patch, counted from 0, whose first hunk with a hit is this.
fn put_found<F: Finder, O: Sink>(
    alloc: Global,
    set: &PatchSet,
    job: &GrepJob,
    patch: u32,
    first: u32,
    finder: &mut F,
    out: &mut O,
) -> Result<(), GrepFault>
    requires kept { IsSome (F.view finder.old).kept }
    requires within { patch < length set.now.patches }
    requires first { ForSome (patch_at set.now patch) (λ p. IsFirst (hits_of job.now.searched (test_of (F.view finder.old)) (change_of set.now.text p.change)) (Some first)) }
    ensures { ForSome (patch_at set.now patch) (λ p. Finds O.view O.same_rest (F.view finder.old) (F.view finder.new) out.old out.new result (found_text (test_of (F.view finder.old)) job.now.output (plain_grep_job job.now) set.now.text p)) }
{
    let text = set.text();
    let found = patch_at(set, patch);
    match job.output {
        GrepOut::Names => {
            put_name_line(&job.shown, None, found, set.plain_name(patch), out)?;
            put_lines_if_asked(alloc, text, job, found, first, finder, out)
        }
        GrepOut::Files => Ok(put_piece(out, bytes_at(text, found.span))?),
        GrepOut::Hunks => put_parts(alloc, text, job.searched, found, first, finder, out),
    }
}

/// Writes what is asked for of a file patch with a hit, its hunks told or numbered where that is asked for.
fn put_asked<F: Finder, O: Sink>(
    alloc: Global,
    set: &PatchSet,
    job: &GrepJob,
    patch: u32,
    first: u32,
    finder: &mut F,
    out: &mut O,
) -> Result<(), GrepFault>
    requires kept { IsSome (F.view finder.old).kept }
    requires within { patch < length set.now.patches }
    requires first { ForSome (patch_at set.now patch) (λ p. IsFirst (hits_of job.now.searched (test_of (F.view finder.old)) (change_of set.now.text p.change)) (Some first)) }
    ensures { ForSome (patch_at set.now patch) (λ p. Finds O.view O.same_rest (F.view finder.old) (F.view finder.new) out.old out.new result (asked_text (test_of (F.view finder.old)) (plain_grep_job job.now) set.now.text p)) }
{
    if tells(job) {
        return put_told(alloc, set, job, patch, first, finder, out);
    }
    put_found(alloc, set, job, patch, first, finder, out)
}

/// Writes what is asked for of a file patch, counted from 0, if it is selected and has a hit.
fn put_if_found<F: Finder, O: Sink>(
    alloc: Global,
    set: &PatchSet,
    job: &GrepJob,
    patch: u32,
    finder: &mut F,
    out: &mut O,
) -> Result<(), GrepFault>
    requires kept { IsSome (F.view finder.old).kept }
    requires within { patch < length set.now.patches }
    ensures { ForSome (patch_at set.now patch) (λ p. Finds O.view O.same_rest (F.view finder.old) (F.view finder.new) out.old out.new result (text_if_found (test_of (F.view finder.old)) (plain_grep_job job.now) set.now.text p)) }
{
    if !is_selected(&job.select, set.plain_name(patch)) {
        return Ok(());
    }
    let Some(first) = first_hit(
        alloc,
        set.text(),
        job.searched,
        patch_at(set, patch),
        finder,
    )?
    else {
        return Ok(());
    };
    put_asked(alloc, set, job, patch, first, finder, out)
}

fn put_grepped<F: Finder, O: Sink>(
    alloc: Global,
    set: &PatchSet,
    job: &GrepJob,
    finder: &mut F,
    out: &mut O,
) -> Result<(), GrepFault>
    requires kept { IsSome (F.view finder.old).kept }
    ensures { Finds O.view O.same_rest (F.view finder.old) (F.view finder.new) out.old out.new result (grepped (test_of (F.view finder.old)) (plain_grep_job job.now) set.now) }
{
    for patch in 0..set.patches().len() {
        put_if_found(alloc, set, job, patch as u32, finder, out)?;
    }
    Ok(())
}

/// Writes what the job asks for of each file patch that is selected and of which a line of a hunk, without its mark and its
/// line feed, has the pattern: its line in a list, the lines in front of its first hunk and the hunks with such a line, or all of it.
/// The finder is asked of no other file patch, of none behind the first hit where that settles it, and of no line twice.
///
/// # Errors
///
/// `Pattern` where the finder refuses the pattern, with nothing written; `Write` where the sink failed; and `Memory`.
pub fn grep_patches<F: Finder, O: Sink>(
    alloc: Global,
    set: &PatchSet,
    job: &GrepJob,
    finder: &mut F,
    out: &mut O,
) -> Result<(), GrepFault>
    ensures finder { FinderPasses (F.view finder.old) (F.view finder.new) }
    ensures passes { SinkPasses (O.view out.old) (O.view out.new) }
    ensures rest { O.same_rest out.old out.new }
    ensures received { OnOk result (Receives (O.view out.old) (O.view out.new) (grepped ((F.view finder.old).hit (string_bytes job.now.pattern)) (plain_grep_job job.now) set.now)) }
    ensures failed { OnErr result (ReceivesPart (O.view out.old) (O.view out.new) (grepped ((F.view finder.old).hit (string_bytes job.now.pattern)) (plain_grep_job job.now) set.now)) }
    ensures cause { IfErr result (λ e. HasGrepCause e O.view (F.view finder.old) (string_bytes job.now.pattern) out.old out.new) }
    ensures unasked { set.now.patches ≡ [] → (result ≡ Ok tt) × (finder.new ≡ finder.old) × (out.new ≡ out.old) }
{
    if set.patches().is_empty() {
        return Ok(());
    }
    keep_pattern(alloc, &job.pattern, finder)?;
    put_grepped(alloc, set, job, finder, out)
}
