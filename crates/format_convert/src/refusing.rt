//! Both refusals, tested before anything is written.

ghost use Rattle.std.specs.Prelude.{◌≡◌, ◌<◌, ◌&&◌, ℕ, List, length};
ghost use Rattle.std.specs.Option.{ForSome};
ghost use Rattle.patch_set.specs.SetView.{patch_at, plain_patches};
ghost use Rattle.cli_tool_words.specs.PlainJobs.{plain_filter_job};
ghost use Rattle.read_file_patch.specs.PlainPatch.{patch_of, first_opening};
ghost use Rattle.format_convert.specs.Taken.{has_kept, left_patch, left_patches};
ghost use Rattle.format_convert.specs.Refusals.{is_unfit, lacks_context, refusal};

use crate::fault::ConvertFault;
use crate::forms::{is_ed, is_normal, shows_context};
use crate::{has_kept, is_unfit};
use cli_tool_words::FilterJob;
use filter_choice::patch_at;
use hunk_core::Form;
use patch_set::PatchSet;
use read_file_patch::{Change, FilePatch};

/// Whether a file patch lacks what the form shows.
fn lacks_context(patch: &FilePatch, form: Form) -> bool
    ensures { (text : List ℕ) → result ≡ lacks_context form (patch_of text patch.now) }
{
    match &patch.change {
        Change::Hunks(_) => is_normal(patch.header.form) && shows_context(form),
        Change::Script(_) => !is_ed(form),
    }
}

/// Whether a file patch, counted from 0, has a kept hunk and lacks what the form shows.
fn is_lacking(set: &PatchSet, job: &FilterJob, patch: u32, form: Form) -> bool
    requires { patch < length set.now.patches }
    ensures { ForSome (patch_at set.now patch) (λ p. result ≡ (has_kept (plain_filter_job job.now) patch (patch_of set.now.text p) && lacks_context form (patch_of set.now.text p))) }
{
    if !lacks_context(patch_at(set, patch), form) {
        return false;
    }
    has_kept(set, job, patch)
}

/// Whether a file patch, counted from 0, has a kept hunk and can't be written as commands of the form.
fn is_misfit(set: &PatchSet, job: &FilterJob, patch: u32, form: Form) -> bool
    requires { patch < length set.now.patches }
    ensures { ForSome (patch_at set.now patch) (λ p. result ≡ (has_kept (plain_filter_job job.now) patch (patch_of set.now.text p) && is_unfit form (left_patch (plain_filter_job job.now) patch (patch_of set.now.text p)))) }
{
    if shows_context(form) {
        return false;
    }
    if !has_kept(set, job, patch) {
        return false;
    }
    is_unfit(set, job, patch, form)
}

/// Where a file patch, counted from 0, opens.
fn opening(set: &PatchSet, patch: u32) -> u64
    requires { patch < length set.now.patches }
    ensures { ForSome (patch_at set.now patch) (λ p. result ≡ p.header.opening) }
{
    patch_at(set, patch).header.opening
}

/// The line of the first file patch with a kept hunk that lacks what the form shows.
fn first_without_context(set: &PatchSet, job: &FilterJob, form: Form) -> Option<u64>
    ensures { result ≡ first_opening (lacks_context form) (left_patches (plain_filter_job job.now) (plain_patches set.now)) }
{
    for patch in 0..set.patches().len() {
        if is_lacking(set, job, patch as u32, form) {
            return Some(opening(set, patch as u32));
        }
    }
    None
}

/// The line of the first file patch whose kept hunks can't be written as commands of the form.
fn first_unfit(set: &PatchSet, job: &FilterJob, form: Form) -> Option<u64>
    ensures { result ≡ first_opening (is_unfit form) (left_patches (plain_filter_job job.now) (plain_patches set.now)) }
{
    for patch in 0..set.patches().len() {
        if is_misfit(set, job, patch as u32, form) {
            return Some(opening(set, patch as u32));
        }
    }
    None
}

/// Why a set isn't written in this form, if it isn't.
pub fn refusal(set: &PatchSet, job: &FilterJob, form: Form) -> Option<ConvertFault>
    ensures { result ≡ refusal form (left_patches (plain_filter_job job.now) (plain_patches set.now)) }
{
    if let Some(line) = first_without_context(set, job, form) {
        return Some(ConvertFault::NoContext { line });
    }
    match first_unfit(set, job, form) {
        Some(line) => Some(ConvertFault::Unfit { line }),
        None => None,
    }
}
