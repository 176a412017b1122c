//! `filterdiff` with a form: the file patches that it means, written anew in that form.
ghost use Rattle.std.specs.Prelude.{◌≡◌, ℕ, List, None, Ok, IfSome};
ghost use Rattle.hunk_core.specs.declared.Form.{Form};
ghost use Rattle.cli_tool_words.specs.PlainJobs.{PlainFilterJob, PlainSelect, plain_filter_job};
ghost use Rattle.cli_run_answers.specs.Input.{IsFile};
ghost use Rattle.patch_set.specs.Refusals.{refusal as set_refusal};
ghost use Rattle.patch_set.specs.SetView.{SetView, IsRead, plain_patches};
ghost use Rattle.format_convert.specs.Taken.{left_patches};
ghost use Rattle.format_convert.specs.Converted.{Converts, converted};
ghost use Rattle.format_convert.specs.Refusals.{refusal};
ghost use Rattle.filter_whole_text.specs.Texts.{defaults};
ghost use Rattle.cli_filter.specs.Outcomes.{filter_with};
ghost use Rattle.cli_filter.specs.Converting.{Forms, convert_outcome, converted_by, of_converted, unless_unfit};

use crate::form_fault::FormFault;
use cli_tool_words::FilterJob;
use filter_whole_text::open_text;
use format_convert::{ConvertFault, convert_patches};
use hunk_core::Form;
use outside::{Sink, Source, Tree};
use patch_set::PatchSet;
use std::alloc::Global;

/// Carries out a command of `filterdiff` that asks for a form: the file patches that it means are written anew in this form, or
/// the first one is told that can't be.
pub fn run_convert<T: Tree, I: Source, O: Sink>(
    alloc: Global,
    job: &mut FilterJob,
    form: Form,
    tree: &mut T,
    source: &mut I,
    out: &mut O,
) -> Result<(), FormFault>
    ensures forms { Forms form (plain_filter_job job.old) (convert_outcome form (plain_filter_job job.old)) (T.view tree.old) (T.view tree.new) (I.view source.old) (I.view source.new) (O.view out.old) (O.view out.new) result }
    ensures style { job.new.style ≡ job.old.style }
    ensures unread { IsFile job.old.input → source.new ≡ source.old }
    ensures rest { O.same_rest out.old out.new }
{
    match open_text(alloc, &job.input, &mut job.select, tree, source) {
        Ok(opened) => {
            let answer = form_answer(put_converted(&opened, job, form, out));
            drop(opened);
            answer
        }
        Err(fault) => Err(FormFault::Filter(fault)),
    }
}

/// What comes of a text that `patch` takes without options is what comes of the set that is read from it, for each form, job and
/// selection. So what is said of a set in another form holds of it.
pub fn texts_convert_as_sets()
    ensures { (form : Form) (j : PlainFilterJob) (s : PlainSelect) (text : List ℕ) (v : SetView) → set_refusal (defaults s.skip_binary) text ≡ None → IsRead (defaults s.skip_binary) text v
        → converted_by form j (Ok (text, s)) ≡ unless_unfit (refusal form (left_patches (filter_with j s) (plain_patches v))) (converted form (filter_with j s) v) }
{}

/// Writes the file patches that are meant in the form, where there are some.
fn put_converted<O: Sink>(
    opened: &Option<PatchSet>,
    job: &FilterJob,
    form: Form,
    out: &mut O,
) -> Result<(), ConvertFault>
    ensures converts { IfSome opened.now (λ set. Converts O.view O.same_rest out.old out.new result (refusal form (left_patches (plain_filter_job job.now) (plain_patches set))) (converted form (plain_filter_job job.now) set)) }
    ensures none { opened.now ≡ None → (result ≡ Ok tt) × (out.new ≡ out.old) }
    ensures rest { O.same_rest out.old out.new }
{
    match opened {
        Some(set) => convert_patches(set, job, form, out),
        None => Ok(()),
    }
}

fn form_answer(converted: Result<(), ConvertFault>) -> Result<(), FormFault>
    ensures { result ≡ of_converted converted }
{
    match converted {
        Ok(()) => Ok(()),
        Err(fault) => Err(FormFault::from(fault)),
    }
}
