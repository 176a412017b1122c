//! The kept hunks of a file patch as diff writes them, with the text behind their ranges.

ghost use Rattle.std.specs.Prelude.{◌≡◌, ◌<◌, [], length, slice_index_or, if◌then◌else◌};
ghost use Rattle.std.specs.Option.{ForSome};
ghost use Rattle.patch_set.specs.SetView.{patch_at};
ghost use Rattle.cli_tool_words.specs.PlainJobs.{plain_filter_job};
ghost use Rattle.std.specs.List.{flat_map, range_with_len, zip};
ghost use Rattle.hunk_core.specs.PlainHunk.{hunk_of, hunks_of};
ghost use Rattle.hunk_core.specs.Turned.{IsLawful};
ghost use Rattle.outside.specs.Puts.{Puts};
ghost use Rattle.read_file_patch.specs.PlainPatch.{AreLawfulHunks, patch_of, row_count};
ghost use Rattle.filter_choice.specs.Kept.{keeps};
ghost use Rattle.format_convert.specs.Taken.{flags};
ghost use Rattle.format_convert.specs.Walk.{IsHunks};
ghost use Rattle.format_convert.specs.Behind.{behind_in};
ghost use Rattle.format_convert.specs.Converted.{hunk_texts, kept_pieces, pieces, told};

use crate::behind::behind_in;
use crate::lines::line_at;
use cli_tool_words::FilterJob;
use filter_choice::{keeps, patch_at};
use hunk_core::{Form, Hunk};
use outside::{Failed, Sink};
use patch_set::PatchSet;
use read_file_patch::{Change, FilePatch};

/// What stands behind the ranges of a hunk of a file patch, both counted from 0.
fn behind_of(set: &PatchSet, patch: u32, number: u32) -> &[u8]
    requires within { patch < length set.now.patches }
    requires number { ForSome (patch_at set.now patch) (λ p. number < row_count p.change) }
    ensures { ForSome (patch_at set.now patch) (λ p. result.now ≡ behind_in p.header.form (slice_index_or (pieces set.now.text p) number [])) }
{
    let row = patch_at(set, patch);
    let span = row.hunk_spans[number as usize];
    behind_in(row.header.form, line_at(set.text(), span))
}

/// A hunk of a file patch, both counted from 0, as diff writes it, if it is kept; the forms of commands have none.
fn put_if_kept<O: Sink>(
    set: &PatchSet,
    job: &FilterJob,
    patch: u32,
    hunk: &Hunk,
    number: u32,
    form: Form,
    out: &mut O,
) -> Result<(), Failed>
    requires within { patch < length set.now.patches }
    requires number { ForSome (patch_at set.now patch) (λ p. number < row_count p.change) }
    requires lawful { IsLawful set.now.text hunk.now }
    ensures { ForSome (patch_at set.now patch) (λ p. Puts O.view O.same_rest out.old out.new result (if keeps (plain_filter_job job.now) patch (patch_of set.now.text p) number then told form p.header.form (slice_index_or (pieces set.now.text p) number [], hunk_of set.now.text hunk.now) else [])) }
{
    if !keeps(set, job, patch, number) {
        return Ok(());
    }
    let text = set.text();
    let behind = behind_of(set, patch, number);
    match form {
        Form::Unified => unified_form::put_shown(hunk, text, behind, out),
        Form::Context => context_form::put_shown(hunk, text, behind, out),
        Form::Normal | Form::Ed => Ok(()),
    }
}

fn put_each<O: Sink>(
    set: &PatchSet,
    job: &FilterJob,
    patch: u32,
    hunks: &[Hunk],
    form: Form,
    out: &mut O,
) -> Result<(), Failed>
    requires within { patch < length set.now.patches }
    requires hunks { ForSome (patch_at set.now patch) (λ p. IsHunks p.change hunks.now) }
    requires spans { ForSome (patch_at set.now patch) (λ p. length p.hunk_spans.items ≡ row_count p.change) }
    requires lawful { AreLawfulHunks set.now.text hunks.now }
    ensures { ForSome (patch_at set.now patch) (λ p. Puts O.view O.same_rest out.old out.new result (flat_map (told form p.header.form) (kept_pieces (flags (plain_filter_job job.now) patch (patch_of set.now.text p)) (zip (pieces set.now.text p) (hunks_of set.now.text hunks.now))))) }
{
    for number in 0..hunks.len() {
        let hunk = &hunks[number];
        put_if_kept(set, job, patch, hunk, number as u32, form, out)?;
    }
    Ok(())
}

/// The kept hunks of a file patch, counted from 0; an ed script has none.
pub fn put_hunks<O: Sink>(
    set: &PatchSet,
    job: &FilterJob,
    patch: u32,
    form: Form,
    out: &mut O,
) -> Result<(), Failed>
    requires { patch < length set.now.patches }
    ensures { ForSome (patch_at set.now patch) (λ p. Puts O.view O.same_rest out.old out.new result (hunk_texts form p.header.form (flags (plain_filter_job job.now) patch (patch_of set.now.text p)) (pieces set.now.text p) (patch_of set.now.text p).change)) }
{
    match &patch_at(set, patch).change {
        Change::Hunks(hunks) => put_each(set, job, patch, hunks, form, out),
        Change::Script(_) => Ok(()),
    }
}
