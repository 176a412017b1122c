//! The filters that write one text and leave the tree as it is.
ghost use Rattle.std.specs.Prelude.{◌≡◌, ℕ, List, [], true, false, None, Ok, string_bytes, IfErr, IfSome, OnErr, OnOk};
ghost use Rattle.outside.specs.Files.{Files};
ghost use Rattle.outside.specs.FinderView.{FinderPasses};
ghost use Rattle.outside.specs.SinkView.{Receives, ReceivesPart, SinkPasses, Writes};
ghost use Rattle.cli_tool_words.specs.PlainJobs.{PlainFilterJob, plain_filter_job, plain_grep_job, plain_list_job, plain_select, plain_shown};
ghost use Rattle.cli_run_answers.specs.Input.{IsFile};
ghost use Rattle.filter_choice.specs.Digested.{DigestView, IsDigestOf};
ghost use Rattle.filter_choice.specs.Outlined.{outlined};
ghost use Rattle.patch_set.specs.SetView.{IsRead, SetView};
ghost use Rattle.patch_filters.specs.Digested.{filtered_digest};
ghost use Rattle.patch_filters.specs.Filtered.{filtered};
ghost use Rattle.patch_filters.specs.Grepped.{HasGrepCause, grepped};
ghost use Rattle.patch_filters.specs.Listed.{asks_hunks, listed, listed_whole};
ghost use Rattle.cli_filter.specs.Faults.{of_grep, of_search, of_sink};
ghost use Rattle.cli_filter.specs.Outcomes.{HasPatches, filter_outcome, list_outcome};
ghost use Rattle.filter_whole_text.specs.Outcomes.{IsOutcomeOf, given};
ghost use Rattle.filter_whole_text.specs.Texts.{defaults};
ghost use Rattle.cli_filter.specs.Sifting.{Greps};
ghost use Rattle.filter_whole_text.specs.Sifting.{HasTextCause, IsTold, Sifts};

use cli_tool_words::{FilterJob, GrepJob, ListJob};
use filter_choice::{FilePatchList, HunkIndex};
use filter_whole_text::{FilterFault, open_digest, open_outline, open_text};
use outside::{Failed, Finder, Sink, Source, Tree};
use patch_filters::{
    GrepFault, asks_hunks, filter_patches, grep_patches, list_patches, list_whole,
};
use patch_set::PatchSet;
use std::alloc::Global;
use std::mem::forget;

/// Carries out a command of `lsdiff`: the list of the file patches that it means, which are read without their hunks where none is asked for.
/// What was read is left to the end of the process.
pub fn run_list<T: Tree, I: Source, O: Sink>(
    alloc: Global,
    job: ListJob,
    tree: &mut T,
    source: &mut I,
    out: &mut O,
) -> Result<(), FilterFault>
    ensures sifts { Sifts job.input (plain_select job.select) (HasTextCause job.select.skip_binary) ⊥ (IsOutcomeOf (list_outcome (plain_list_job job))) (T.view tree.old) (T.view tree.new) (I.view source.old) (I.view source.new) (O.view out.old) (O.view out.new) result }
    ensures unread { IsFile job.input → source.new ≡ source.old }
    ensures rest { O.same_rest out.old out.new }
{
    if asks_hunks(&job.shown) {
        list_wholes(alloc, job, tree, source, out)
    } else {
        list_outlines(alloc, job, tree, source, out)
    }
}

fn list_outlines<T: Tree, I: Source, O: Sink>(
    alloc: Global,
    job: ListJob,
    tree: &mut T,
    source: &mut I,
    out: &mut O,
) -> Result<(), FilterFault>
    requires { asks_hunks (plain_shown job.shown) ≡ false }
    ensures sifts { Sifts job.input (plain_select job.select) (HasTextCause job.select.skip_binary) ⊥ (IsOutcomeOf (list_outcome (plain_list_job job))) (T.view tree.old) (T.view tree.new) (I.view source.old) (I.view source.new) (O.view out.old) (O.view out.new) result }
    ensures unread { IsFile job.input → source.new ≡ source.old }
    ensures rest { O.same_rest out.old out.new }
{
    let mut job = job;
    match open_outline(alloc, &job.input, &mut job.select, tree, source) {
        Ok(opened) => {
            let answer = sink_answer(put_listed(&opened, &job, out));
            leave(opened);
            drop(job);
            answer
        }
        Err(fault) => {
            drop(job);
            Err(fault)
        }
    }
}

fn list_wholes<T: Tree, I: Source, O: Sink>(
    alloc: Global,
    job: ListJob,
    tree: &mut T,
    source: &mut I,
    out: &mut O,
) -> Result<(), FilterFault>
    requires { asks_hunks (plain_shown job.shown) ≡ true }
    ensures sifts { Sifts job.input (plain_select job.select) (HasTextCause job.select.skip_binary) ⊥ (IsOutcomeOf (list_outcome (plain_list_job job))) (T.view tree.old) (T.view tree.new) (I.view source.old) (I.view source.new) (O.view out.old) (O.view out.new) result }
    ensures unread { IsFile job.input → source.new ≡ source.old }
    ensures rest { O.same_rest out.old out.new }
{
    let mut job = job;
    match open_text(alloc, &job.input, &mut job.select, tree, source) {
        Ok(opened) => {
            let answer = sink_answer(put_whole(&opened, &job, out));
            leave(opened);
            drop(job);
            answer
        }
        Err(fault) => {
            drop(job);
            Err(fault)
        }
    }
}

/// Carries out a command of `filterdiff` that asks for no form: the text without the file patches and hunks that it doesn't mean. What was
/// read is left to the end of the process.
pub fn run_filter<T: Tree, I: Source, O: Sink>(
    alloc: Global,
    job: &mut FilterJob,
    tree: &mut T,
    source: &mut I,
    out: &mut O,
) -> Result<(), FilterFault>
    ensures sifts { Sifts job.old.input (plain_select job.old.select) (HasTextCause job.old.select.skip_binary) ⊥ (IsOutcomeOf (filter_outcome (plain_filter_job job.old))) (T.view tree.old) (T.view tree.new) (I.view source.old) (I.view source.new) (O.view out.old) (O.view out.new) result }
    ensures style { job.new.style ≡ job.old.style }
    ensures unread { IsFile job.old.input → source.new ≡ source.old }
    ensures rest { O.same_rest out.old out.new }
{
    match open_digest(alloc, &job.input, &mut job.select, tree, source) {
        Ok(opened) => {
            let answer = sink_answer(put_filtered(&opened, job, out));
            leave(opened);
            answer
        }
        Err(fault) => Err(fault),
    }
}

/// What is written of a digest is what is written of the set that is read from the same text. So what is said of a set holds of it.
pub fn digests_are_filtered_as_sets()
    ensures { (j : PlainFilterJob) (text : List ℕ) (v : SetView) (d : DigestView) → IsRead (defaults j.select.skip_binary) text v → IsDigestOf (defaults j.select.skip_binary) text d → filtered_digest j d ≡ filtered j v }
{}

/// Carries out a command of `grepdiff`: the names of the file patches that have what is looked for, or these themselves. What was read is left
/// to the end of the process.
pub fn run_grep<T: Tree, F: Finder, I: Source, O: Sink>(
    alloc: Global,
    job: GrepJob,
    tree: &mut T,
    finder: &mut F,
    source: &mut I,
    out: &mut O,
) -> Result<(), FilterFault>
    ensures sifts { Greps (F.view finder.old) (plain_grep_job job) (T.view tree.old) (T.view tree.new) (I.view source.old) (I.view source.new) (O.view out.old) (O.view out.new) result }
    ensures unread { IsFile job.input → source.new ≡ source.old }
    ensures rest { O.same_rest out.old out.new }
    ensures finder { FinderPasses (F.view finder.old) (F.view finder.new) }
    // It isn't asked where the text is refused or has no file patches.
    ensures unasked { (f : Files) (left : List ℕ) → IsTold job.input (plain_select job.select) (T.view tree.old) (I.view source.old) f left → (HasPatches (given job.input (plain_select job.select) f left) → ⊥) → finder.new ≡ finder.old }
{
    let mut job = job;
    match open_text(alloc, &job.input, &mut job.select, tree, source) {
        Ok(opened) => {
            let answer = search_answer(put_grepped(alloc, &opened, &job, finder, out));
            leave(opened);
            drop(job);
            answer
        }
        Err(fault) => {
            drop(job);
            Err(fault)
        }
    }
}

/// Leaves what was read to the end of the process, which a filter comes to next: to give the memory of many file patches or
/// hunks back takes a tenth of a run. So a run over several FILEs holds all texts at its end.
pub fn leave<V: Drop>(opened: Option<V>) {
    forget(opened);
}

/// Writes the list of the file patches, where there are some.
fn put_listed<O: Sink>(
    opened: &Option<FilePatchList>,
    job: &ListJob,
    out: &mut O,
) -> Result<(), Failed>
    ensures writes { IfSome opened.now (λ v. Writes (O.view out.old) (O.view out.new) result (listed (plain_list_job job.now) (outlined v))) }
    ensures none { opened.now ≡ None → (result ≡ Ok tt) × (out.new ≡ out.old) }
    ensures rest { O.same_rest out.old out.new }
{
    match opened {
        Some(outline) => list_patches(outline, job, out),
        None => Ok(()),
    }
}

/// Writes the list of the file patches with their hunks, where there are some.
fn put_whole<O: Sink>(opened: &Option<PatchSet>, job: &ListJob, out: &mut O) -> Result<(), Failed>
    ensures writes { IfSome opened.now (λ v. Writes (O.view out.old) (O.view out.new) result (listed_whole (plain_list_job job.now) v)) }
    ensures none { opened.now ≡ None → (result ≡ Ok tt) × (out.new ≡ out.old) }
    ensures rest { O.same_rest out.old out.new }
{
    match opened {
        Some(set) => list_whole(set, job, out),
        None => Ok(()),
    }
}

/// Writes what is meant of the file patches, where there are some.
fn put_filtered<O: Sink>(
    opened: &Option<HunkIndex>,
    job: &FilterJob,
    out: &mut O,
) -> Result<(), Failed>
    ensures writes { IfSome opened.now (λ v. Writes (O.view out.old) (O.view out.new) result (filtered_digest (plain_filter_job job.now) v)) }
    ensures none { opened.now ≡ None → (result ≡ Ok tt) × (out.new ≡ out.old) }
    ensures rest { O.same_rest out.old out.new }
{
    match opened {
        Some(digest) => filter_patches(digest, job, out),
        None => Ok(()),
    }
}

/// Writes what is found in the file patches, where there are some.
fn put_grepped<F: Finder, O: Sink>(
    alloc: Global,
    opened: &Option<PatchSet>,
    job: &GrepJob,
    finder: &mut F,
    out: &mut O,
) -> Result<(), GrepFault>
    ensures finder { FinderPasses (F.view finder.old) (F.view finder.new) }
    ensures passes { SinkPasses (O.view out.old) (O.view out.new) }
    ensures rest { O.same_rest out.old out.new }
    ensures received { IfSome opened.now (λ set. OnOk result (Receives (O.view out.old) (O.view out.new) (grepped ((F.view finder.old).hit (string_bytes job.now.pattern)) (plain_grep_job job.now) set))) }
    ensures failed { IfSome opened.now (λ set. OnErr result (ReceivesPart (O.view out.old) (O.view out.new) (grepped ((F.view finder.old).hit (string_bytes job.now.pattern)) (plain_grep_job job.now) set))) }
    ensures cause { IfErr result (λ e. HasGrepCause e O.view (F.view finder.old) (string_bytes job.now.pattern) out.old out.new) }
    ensures unasked { IfSome opened.now (λ set. set.patches ≡ [] → (result ≡ Ok tt) × (finder.new ≡ finder.old) × (out.new ≡ out.old)) }
    ensures none { opened.now ≡ None → (result ≡ Ok tt) × (finder.new ≡ finder.old) × (out.new ≡ out.old) }
{
    match opened {
        Some(set) => grep_patches(alloc, set, job, finder, out),
        None => Ok(()),
    }
}

fn sink_answer(written: Result<(), Failed>) -> Result<(), FilterFault>
    ensures { result ≡ of_sink written }
{
    match written {
        Ok(()) => Ok(()),
        Err(_) => Err(FilterFault::Write),
    }
}

fn search_answer(found: Result<(), GrepFault>) -> Result<(), FilterFault>
    ensures { result ≡ of_search found }
{
    match found {
        Ok(()) => Ok(()),
        Err(fault) => Err(fault_of(fault)),
    }
}

fn fault_of(found: GrepFault) -> FilterFault
    ensures { result ≡ of_grep found }
{
    match found {
        GrepFault::Pattern => FilterFault::Pattern,
        GrepFault::Write => FilterFault::Write,
        GrepFault::Memory => FilterFault::Memory,
    }
}
