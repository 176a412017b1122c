//! A file patch of a set as commands.

ghost use Rattle.std.specs.Prelude.{◌≡◌, ◌<◌, Some, List, length, not, ◌==◌, ◌^◌};
ghost use Rattle.std.specs.Option.{ForSome};
ghost use Rattle.hunk_core.specs.PlainHunk.{hunks_of};
ghost use Rattle.outside.specs.Puts.{Puts};
ghost use Rattle.read_file_patch.specs.PlainPatch.{change_of, hunks, patch_of};
ghost use Rattle.read_file_patch.specs.declared.Change.TheVariants.{Hunks as HunksOf};
ghost use Rattle.patch_set.specs.SetView.{patch_at};
ghost use Rattle.cli_tool_words.specs.PlainJobs.{plain_filter_job};
ghost use Rattle.format_convert.specs.Blocks.{blocks_in};
ghost use Rattle.format_convert.specs.Commands.{command_text};
ghost use Rattle.format_convert.specs.Fitting.{is_unfit};
ghost use Rattle.format_convert.specs.Taken.{left_patch};
ghost use Rattle.format_convert.specs.Walk.{IsHunks, IsKept, left_hunks};

use crate::ed::put_ed;
use crate::edits::{hunk_start, next_edit};
use crate::fitting::are_unfit;
use crate::kept::Kept;
use crate::normal::put_normal;
use crate::script::{changes, put_script};
use cli_tool_words::FilterJob;
use filter_choice::patch_at;
use hunk_core::{Form, Hunk};
use outside::{Failed, Sink};
use patch_set::PatchSet;
use read_file_patch::Change;

fn kept_of<'a>(set: &'a PatchSet, job: &'a FilterJob, patch: u32, hunks: &'a [Hunk]) -> Kept<'a>
    requires within { patch < length set.now.patches }
    requires hunks { ForSome (patch_at set.now patch) (λ p. IsHunks p.change hunks.now) }
    ensures kept { IsKept result }
    ensures patch { result.patch ≡ patch }
    ensures set { result.set.now ≡ set.now }
    ensures job { result.job.now ≡ job.now }
{
    Kept {
        set,
        job,
        patch,
        row: patch_at(set, patch),
        hunks,
    }
}

/// Whether the kept hunks of a file patch, counted from 0, can't be written as commands of this form.
pub fn is_unfit(set: &PatchSet, job: &FilterJob, patch: u32, form: Form) -> bool
    requires { patch < length set.now.patches }
    ensures { ForSome (patch_at set.now patch) (λ p. result ≡ is_unfit form (left_patch (plain_filter_job job.now) patch (patch_of set.now.text p)).change) }
{
    match &patch_at(set, patch).change {
        Change::Hunks(hunks) => are_unfit(kept_of(set, job, patch, hunks), form),
        Change::Script(_) => false,
    }
}

/// Whether the kept hunks of a file patch, counted from 0, drop or add a line; an ed script is kept whole.
pub fn has_blocks(set: &PatchSet, job: &FilterJob, patch: u32) -> bool
    requires { patch < length set.now.patches }
    ensures { ForSome (patch_at set.now patch) (λ p. result ≡ not (length (blocks_in (left_patch (plain_filter_job job.now) patch (patch_of set.now.text p)).change) == 0)) }
{
    match &patch_at(set, patch).change {
        Change::Hunks(hunks) => {
            let kept = kept_of(set, job, patch, hunks);
            next_edit(kept, hunk_start(kept, 0)).is_some()
        }
        Change::Script(script) => changes(script),
    }
}

fn put_hunks<O: Sink>(kept: Kept, form: Form, out: &mut O) -> Result<(), Failed>
    requires { IsKept kept }
    ensures { Puts O.view O.same_rest out.old out.new result (command_text form (hunks (left_hunks kept.entry))) }
{
    match form {
        Form::Unified => Ok(()),
        Form::Context => Ok(()),
        Form::Normal => put_normal(kept, out),
        Form::Ed => put_ed(kept, out),
    }
}

/// Writes a file patch, counted from 0, as commands: one for each block of its kept hunks. Of an ed script those of the
/// normal form say nothing.
pub fn put_commands<O: Sink>(
    set: &PatchSet,
    job: &FilterJob,
    patch: u32,
    form: Form,
    out: &mut O,
) -> Result<(), Failed>
    requires { patch < length set.now.patches }
    ensures { ForSome (patch_at set.now patch) (λ p. Puts O.view O.same_rest out.old out.new result (command_text form (left_patch (plain_filter_job job.now) patch (patch_of set.now.text p)).change)) }
{
    match &patch_at(set, patch).change {
        Change::Hunks(hunks) => put_hunks(kept_of(set, job, patch, hunks), form, out),
        Change::Script(script) => match form {
            Form::Unified => Ok(()),
            Form::Context => Ok(()),
            Form::Normal => Ok(()),
            Form::Ed => put_script(set.text(), script, out),
        },
    }
}
