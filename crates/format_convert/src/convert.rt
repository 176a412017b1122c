//! A set written in another form.

ghost use Rattle.patch_set.specs.SetView.{plain_patches};
ghost use Rattle.cli_tool_words.specs.PlainJobs.{plain_filter_job};
ghost use Rattle.format_convert.specs.Taken.{left_patches};
ghost use Rattle.format_convert.specs.Refusals.{refusal};
ghost use Rattle.format_convert.specs.Converted.{Converts, converted};

use crate::fault::ConvertFault;
use crate::refusing::refusal;
use crate::writing::put_converted;
use cli_tool_words::FilterJob;
use hunk_core::Form;
use outside::{Failed, Sink};
use patch_set::PatchSet;

/// Writes each file patch of which a hunk is kept in this form: its header lines, and its kept hunks in their canonical
/// texts, or a command for each block of lines that they drop and add. It is refused where a file patch lacks what the form
/// shows, or can't be written as commands.
pub fn convert_patches<O: Sink>(
    set: &PatchSet,
    job: &FilterJob,
    form: Form,
    out: &mut O,
) -> Result<(), ConvertFault>
    ensures { Converts O.view O.same_rest out.old out.new result (refusal form (left_patches (plain_filter_job job.now) (plain_patches set.now))) (converted form (plain_filter_job job.now) set.now) }
{
    if let Some(fault) = refusal(set, job, form) {
        return Err(fault);
    }
    match put_converted(set, job, form, out) {
        Ok(()) => Ok(()),
        Err(Failed) => Err(ConvertFault::Write),
    }
}
