//! `filterdiff` with names and text written otherwise than they stand: what it writes without that goes to memory, and from there on its way.
ghost use Rattle.std.specs.Prelude.{◌≡◌, None, Ok, Some, IfSome};
ghost use Rattle.outside.specs.Puts.{Puts};
ghost use Rattle.cli_tool_words.specs.PlainJobs.{plain_filter_job, plain_select, plain_style};
ghost use Rattle.cli_run_answers.specs.Input.{IsFile};
ghost use Rattle.filter_style.specs.Styled.{restyled};
ghost use Rattle.filter_whole_text.specs.Outcomes.{IsOutcomeOf};
ghost use Rattle.filter_whole_text.specs.Sifting.{HasTextCause, Sifts};
ghost use Rattle.cli_filter.specs.Converting.{Forms, styled_convert};
ghost use Rattle.cli_filter.specs.Outcomes.{styled_filter, told_outcome, untold_filter};
ghost use Rattle.patch_filters.specs.Told.{told};
ghost use Rattle.cli_filter.specs.Styling.{PutsText, form_in_memory, in_memory, of_put};

use crate::converting::run_convert;
use crate::form_fault::FormFault;
use crate::sifting::{leave, run_filter};
use cli_tool_words::{FilterJob, Style};
use filter_style::{Memory, is_plain, restyle};
use filter_whole_text::{FilterFault, open_text};
use hunk_core::Form;
use outside::{Sink, Source, Tree, put_all};
use patch_filters::{asks_told, told_patches};
use patch_set::PatchSet;
use std::alloc::Global;

/// Carries out a command of `filterdiff` that asks for no form.
pub fn run_styled<T: Tree, I: Source, O: Sink>(
    alloc: Global,
    job: FilterJob,
    tree: &mut T,
    source: &mut I,
    out: &mut O,
) -> Result<(), FilterFault>
    ensures sifts { Sifts job.input (plain_select job.select) (HasTextCause job.select.skip_binary) ⊥ (IsOutcomeOf (styled_filter (plain_filter_job job))) (T.view tree.old) (T.view tree.new) (I.view source.old) (I.view source.new) (O.view out.old) (O.view out.new) result }
    ensures unread { IsFile job.input → source.new ≡ source.old }
    ensures rest { O.same_rest out.old out.new }
{
    let mut job = job;
    let answer = filter_so(alloc, &mut job, tree, source, out);
    drop(job);
    answer
}

/// A command without a form, over a job that is lent.
fn filter_so<T: Tree, I: Source, O: Sink>(
    alloc: Global,
    job: &mut FilterJob,
    tree: &mut T,
    source: &mut I,
    out: &mut O,
) -> Result<(), FilterFault>
    ensures sifts { Sifts job.old.input (plain_select job.old.select) (HasTextCause job.old.select.skip_binary) ⊥ (IsOutcomeOf (styled_filter (plain_filter_job job.old))) (T.view tree.old) (T.view tree.new) (I.view source.old) (I.view source.new) (O.view out.old) (O.view out.new) result }
    ensures unread { IsFile job.old.input → source.new ≡ source.old }
    ensures rest { O.same_rest out.old out.new }
{
    if asks_told(job) {
        return filter_told(alloc, job, tree, source, out);
    }
    filter_untold(alloc, job, tree, source, out)
}

/// A command without a form where something is told of hunks, or all text is written.
fn filter_told<T: Tree, I: Source, O: Sink>(
    alloc: Global,
    job: &mut FilterJob,
    tree: &mut T,
    source: &mut I,
    out: &mut O,
) -> Result<(), FilterFault>
    ensures sifts { Sifts job.old.input (plain_select job.old.select) (HasTextCause job.old.select.skip_binary) ⊥ (IsOutcomeOf (told_outcome (plain_filter_job job.old))) (T.view tree.old) (T.view tree.new) (I.view source.old) (I.view source.new) (O.view out.old) (O.view out.new) result }
    ensures unread { IsFile job.old.input → source.new ≡ source.old }
    ensures rest { O.same_rest out.old out.new }
{
    match open_text(alloc, &job.input, &mut job.select, tree, source) {
        Ok(opened) => {
            let answer = put_told(alloc, &opened, job, out);
            leave(opened);
            answer
        }
        Err(fault) => Err(fault),
    }
}

/// Writes what is told of the hunks of the file patches, where there are some.
fn put_told<O: Sink>(
    alloc: Global,
    opened: &Option<PatchSet>,
    job: &FilterJob,
    out: &mut O,
) -> Result<(), FilterFault>
    ensures puts { IfSome opened.now (λ v. PutsText O.view O.same_rest out.old out.new result (told (plain_filter_job job.now) v)) }
    ensures none { opened.now ≡ None → (result ≡ Ok tt) × (out.new ≡ out.old) }
    ensures rest { O.same_rest out.old out.new }
{
    match opened {
        Some(set) => put_told_set(alloc, set, job, out),
        None => Ok(()),
    }
}

fn put_told_set<O: Sink>(
    alloc: Global,
    set: &PatchSet,
    job: &FilterJob,
    out: &mut O,
) -> Result<(), FilterFault>
    ensures { PutsText O.view O.same_rest out.old out.new result (told (plain_filter_job job.now) set.now) }
{
    match told_patches(alloc, set, job) {
        Ok(text) => put_text(&text, out),
        Err(_) => Err(FilterFault::Memory),
    }
}

/// A command without a form where neither is asked for.
fn filter_untold<T: Tree, I: Source, O: Sink>(
    alloc: Global,
    job: &mut FilterJob,
    tree: &mut T,
    source: &mut I,
    out: &mut O,
) -> Result<(), FilterFault>
    ensures sifts { Sifts job.old.input (plain_select job.old.select) (HasTextCause job.old.select.skip_binary) ⊥ (IsOutcomeOf (untold_filter (plain_filter_job job.old))) (T.view tree.old) (T.view tree.new) (I.view source.old) (I.view source.new) (O.view out.old) (O.view out.new) result }
    ensures unread { IsFile job.old.input → source.new ≡ source.old }
    ensures rest { O.same_rest out.old out.new }
{
    if is_plain(&job.style) {
        return run_filter(alloc, job, tree, source, out);
    }
    filter_restyled(alloc, job, tree, source, out)
}

/// A command without a form, by a text in memory.
fn filter_restyled<T: Tree, I: Source, O: Sink>(
    alloc: Global,
    job: &mut FilterJob,
    tree: &mut T,
    source: &mut I,
    out: &mut O,
) -> Result<(), FilterFault>
    ensures sifts { Sifts job.old.input (plain_select job.old.select) (HasTextCause job.old.select.skip_binary) ⊥ (IsOutcomeOf (untold_filter (plain_filter_job job.old))) (T.view tree.old) (T.view tree.new) (I.view source.old) (I.view source.new) (O.view out.old) (O.view out.new) result }
    ensures unread { IsFile job.old.input → source.new ≡ source.old }
    ensures rest { O.same_rest out.old out.new }
{
    let mut memory = Memory::new(alloc);
    match run_filter(alloc, job, tree, source, &mut memory) {
        Ok(()) => put_restyled(alloc, &job.style, memory, out),
        Err(fault) => {
            drop(memory);
            Err(in_memory(fault))
        }
    }
}

/// Carries out a command of `filterdiff` that asks for a form.
pub fn convert_styled<T: Tree, I: Source, O: Sink>(
    alloc: Global,
    job: FilterJob,
    form: Form,
    tree: &mut T,
    source: &mut I,
    out: &mut O,
) -> Result<(), FormFault>
    ensures forms { Forms form (plain_filter_job job) (styled_convert form (plain_filter_job job)) (T.view tree.old) (T.view tree.new) (I.view source.old) (I.view source.new) (O.view out.old) (O.view out.new) result }
    ensures unread { IsFile job.input → source.new ≡ source.old }
    ensures rest { O.same_rest out.old out.new }
{
    let mut job = job;
    let answer = convert_so(alloc, &mut job, form, tree, source, out);
    drop(job);
    answer
}

/// A command with a form, over a job that is lent.
fn convert_so<T: Tree, I: Source, O: Sink>(
    alloc: Global,
    job: &mut FilterJob,
    form: Form,
    tree: &mut T,
    source: &mut I,
    out: &mut O,
) -> Result<(), FormFault>
    ensures forms { Forms form (plain_filter_job job.old) (styled_convert form (plain_filter_job job.old)) (T.view tree.old) (T.view tree.new) (I.view source.old) (I.view source.new) (O.view out.old) (O.view out.new) result }
    ensures unread { IsFile job.old.input → source.new ≡ source.old }
    ensures rest { O.same_rest out.old out.new }
{
    if is_plain(&job.style) {
        return run_convert(alloc, job, form, tree, source, out);
    }
    convert_restyled(alloc, job, form, tree, source, out)
}

/// A command with a form, by a text in memory.
fn convert_restyled<T: Tree, I: Source, O: Sink>(
    alloc: Global,
    job: &mut FilterJob,
    form: Form,
    tree: &mut T,
    source: &mut I,
    out: &mut O,
) -> Result<(), FormFault>
    ensures forms { Forms form (plain_filter_job job.old) (styled_convert form (plain_filter_job job.old)) (T.view tree.old) (T.view tree.new) (I.view source.old) (I.view source.new) (O.view out.old) (O.view out.new) result }
    ensures unread { IsFile job.old.input → source.new ≡ source.old }
    ensures rest { O.same_rest out.old out.new }
{
    let mut memory = Memory::new(alloc);
    match run_convert(alloc, job, form, tree, source, &mut memory) {
        Ok(()) => of_put(put_restyled(alloc, &job.style, memory, out)),
        Err(fault) => {
            drop(memory);
            Err(form_in_memory(fault))
        }
    }
}

/// Writes what is in memory as the style has it.
fn put_restyled<O: Sink>(
    alloc: Global,
    style: &Style,
    memory: Memory,
    out: &mut O,
) -> Result<(), FilterFault>
    ensures { PutsText O.view O.same_rest out.old out.new result (restyled (plain_style style.now) memory.bytes.items) }
{
    match restyle(alloc, style, memory.bytes) {
        Ok(text) => put_text(&text, out),
        Err(_) => Err(FilterFault::Memory),
    }
}

fn put_text<O: Sink>(text: &[u8], out: &mut O) -> Result<(), FilterFault>
    ensures { PutsText O.view O.same_rest out.old out.new result text.now }
{
    match put_all(out, text) {
        Ok(()) => Ok(()),
        Err(_) => Err(FilterFault::Write),
    }
}

/// What a fault is where the sink is in memory, which fails only where memory runs out.
fn in_memory(fault: FilterFault) -> FilterFault
    ensures { result ≡ in_memory fault }
{
    match fault {
        FilterFault::Write => FilterFault::Memory,
        _ => fault,
    }
}

fn form_in_memory(fault: FormFault) -> FormFault
    ensures { result ≡ form_in_memory fault }
{
    match fault {
        FormFault::Filter(fault) => FormFault::Filter(in_memory(fault)),
        _ => fault,
    }
}

fn of_put(put: Result<(), FilterFault>) -> Result<(), FormFault>
    ensures { result ≡ of_put put }
{
    match put {
        Ok(()) => Ok(()),
        Err(fault) => Err(FormFault::Filter(fault)),
    }
}
