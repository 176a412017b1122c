//! The file patches of a set, written in a form.

ghost use Rattle.std.specs.Prelude.{◌≡◌, ◌<◌, length};
ghost use Rattle.std.specs.Option.{ForSome};
ghost use Rattle.patch_set.specs.SetView.{patch_at};
ghost use Rattle.cli_tool_words.specs.PlainJobs.{plain_filter_job};
ghost use Rattle.outside.specs.Puts.{Puts};
ghost use Rattle.read_file_patch.specs.PlainPatch.{patch_of};
ghost use Rattle.format_convert.specs.Taken.{left_patch};
ghost use Rattle.format_convert.specs.Converted.{converted, is_written, written_if};

use crate::forms::shows_context;
use crate::hunks::put_hunks;
use crate::{has_blocks, has_kept, put_commands};
use cli_tool_words::FilterJob;
use flip_patch::put_header_lines;
use hunk_core::{Form, Side};
use outside::{Failed, Sink};
use patch_set::PatchSet;

/// Whether anything is written of a file patch of which a hunk is kept.
fn is_written(set: &PatchSet, job: &FilterJob, patch: u32, form: Form) -> bool
    requires { patch < length set.now.patches }
    ensures { ForSome (patch_at set.now patch) (λ p. result ≡ is_written form (left_patch (plain_filter_job job.now) patch (patch_of set.now.text p)).change) }
{
    shows_context(form) || has_blocks(set, job, patch)
}

/// What is written of a file patch, counted from 0, if a hunk is kept.
fn put_if_kept<O: Sink>(
    set: &PatchSet,
    job: &FilterJob,
    patch: u32,
    form: Form,
    out: &mut O,
) -> Result<(), Failed>
    requires { patch < length set.now.patches }
    ensures { ForSome (patch_at set.now patch) (λ p. Puts O.view O.same_rest out.old out.new result (written_if form (plain_filter_job job.now) set.now.text (patch, p))) }
{
    if !has_kept(set, job, patch) {
        return Ok(());
    }
    if !is_written(set, job, patch, form) {
        return Ok(());
    }
    put_header_lines(set, patch, form, Side::Forward, out)?;
    if shows_context(form) {
        put_hunks(set, job, patch, form, out)
    } else {
        put_commands(set, job, patch, form, out)
    }
}

/// What is written of all file patches.
pub fn put_converted<O: Sink>(
    set: &PatchSet,
    job: &FilterJob,
    form: Form,
    out: &mut O,
) -> Result<(), Failed>
    ensures { Puts O.view O.same_rest out.old out.new result (converted form (plain_filter_job job.now) set.now) }
{
    for patch in 0..set.patches().len() {
        put_if_kept(set, job, patch as u32, form, out)?;
    }
    Ok(())
}
