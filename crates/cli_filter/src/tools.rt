//! Each filter, from its job to its answer, on a settled tree.
ghost use Rattle.std.specs.Prelude.{◌≡◌, ℕ, List, None, Some, Ok};
ghost use Rattle.outside.specs.Files.{Files};
ghost use Rattle.outside.specs.FinderView.{FinderView};
ghost use Rattle.outside.specs.Quiet.{IsQuiet};
ghost use Rattle.outside.specs.SourceView.{SourceView};
ghost use Rattle.cli_run_answers.specs.Input.{IsFile};
ghost use Rattle.cli_tool_words.specs.PlainJobs.{plain_filter_job, plain_grep_job, plain_list_job, plain_split_job};
ghost use Rattle.cli_tool_words.specs.PlainJobs.PlainToolJob.{list_job, filter_job, grep_job, split_job, recount_job, flip_job};
ghost use Rattle.cli_filter.specs.Carries.{Carries};
ghost use Rattle.cli_filter.specs.Command.{Searches};
ghost use Rattle.cli_filter.specs.Worlds.{world, Tells};

use crate::fault::{answer, form_answer};
use crate::sifting::{run_grep, run_list};
use crate::styling::{convert_styled, run_styled};
use cli_run_answers::Why;
use cli_tool_words::{FilterJob, GrepJob, ListJob, SplitJob};
use filter_whole_text::{run_flip, run_recount, run_split};
use outside::{Finder, Sink, Source, Tree};
use patch_options::Input;
use std::alloc::Global;

pub fn lsdiff<T: Tree, I: Source, O: Sink>(
    alloc: Global,
    job: ListJob,
    tree: &mut T,
    source: &mut I,
    out: &mut O,
) -> Why
    requires quiet { IsQuiet (T.view tree.old) }
    ensures carries { (v : FinderView) → Carries (Ok (list_job (plain_list_job job))) (world (T.view tree.old) v (I.view source.old) (O.view out.old)) (world (T.view tree.new) v (I.view source.new) (O.view out.new)) result }
    ensures unread { IsFile job.input → source.new ≡ source.old }
    ensures rest { O.same_rest out.old out.new }
{
    answer(run_list(alloc, job, tree, source, out))
}

pub fn filterdiff<T: Tree, I: Source, O: Sink>(
    alloc: Global,
    job: FilterJob,
    tree: &mut T,
    source: &mut I,
    out: &mut O,
) -> Why
    requires quiet { IsQuiet (T.view tree.old) }
    ensures carries { (v : FinderView) → Carries (Ok (filter_job (plain_filter_job job))) (world (T.view tree.old) v (I.view source.old) (O.view out.old)) (world (T.view tree.new) v (I.view source.new) (O.view out.new)) result }
    ensures unread { IsFile job.input → source.new ≡ source.old }
    ensures rest { O.same_rest out.old out.new }
{
    match job.format {
        None => answer(run_styled(alloc, job, tree, source, out)),
        Some(form) => form_answer(convert_styled(alloc, job, form, tree, source, out)),
    }
}

pub fn grepdiff<T: Tree, F: Finder, I: Source, O: Sink>(
    alloc: Global,
    job: GrepJob,
    tree: &mut T,
    finder: &mut F,
    source: &mut I,
    out: &mut O,
) -> Why
    requires quiet { IsQuiet (T.view tree.old) }
    ensures carries { Carries (Ok (grep_job (plain_grep_job job))) (world (T.view tree.old) (F.view finder.old) (I.view source.old) (O.view out.old)) (world (T.view tree.new) (F.view finder.new) (I.view source.new) (O.view out.new)) result }
    ensures unread { IsFile job.input → source.new ≡ source.old }
    ensures unasked { (v : FinderView) (f : Files) (left : List ℕ) → Tells (Ok (grep_job (plain_grep_job job))) (world (T.view tree.old) v (I.view source.old) (O.view out.old)) f left → (Searches (grep_job (plain_grep_job job)) f left → ⊥) → finder.new ≡ finder.old }
    ensures rest { O.same_rest out.old out.new }
{
    answer(run_grep(alloc, job, tree, finder, source, out))
}

pub fn splitdiff<T: Tree, O: Sink>(alloc: Global, job: &SplitJob, tree: &mut T, out: &mut O) -> Why
    requires quiet { IsQuiet (T.view tree.old) }
    ensures carries { (v : FinderView) (s : SourceView) → Carries (Ok (split_job (plain_split_job job.now))) (world (T.view tree.old) v s (O.view out.old)) (world (T.view tree.new) v s (O.view out.new)) result }
    ensures rest { O.same_rest out.old out.new }
{
    answer(run_split(alloc, job, tree, out))
}

pub fn recountdiff<T: Tree, I: Source, O: Sink>(
    alloc: Global,
    input: &Input,
    tree: &mut T,
    source: &mut I,
    out: &mut O,
) -> Why
    requires quiet { IsQuiet (T.view tree.old) }
    ensures carries { (v : FinderView) → Carries (Ok (recount_job input.now)) (world (T.view tree.old) v (I.view source.old) (O.view out.old)) (world (T.view tree.new) v (I.view source.new) (O.view out.new)) result }
    ensures unread { IsFile input.now → source.new ≡ source.old }
    ensures rest { O.same_rest out.old out.new }
{
    answer(run_recount(alloc, input, tree, source, out))
}

pub fn reversediff<T: Tree, I: Source, O: Sink>(
    alloc: Global,
    input: &Input,
    tree: &mut T,
    source: &mut I,
    out: &mut O,
) -> Why
    requires quiet { IsQuiet (T.view tree.old) }
    ensures carries { (v : FinderView) → Carries (Ok (flip_job input.now)) (world (T.view tree.old) v (I.view source.old) (O.view out.old)) (world (T.view tree.new) v (I.view source.new) (O.view out.new)) result }
    ensures unread { IsFile input.now → source.new ≡ source.old }
    ensures rest { O.same_rest out.old out.new }
{
    answer(run_flip(alloc, input, tree, source, out))
}
