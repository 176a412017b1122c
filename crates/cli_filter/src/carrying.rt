//! A run of a filter, from its words to its answer.
ghost use Rattle.std.specs.Prelude.{◌≡◌, ◌⊎◌, map, true, Ok, Err, string_bytes};
ghost use Rattle.patch_options.specs.declared.options.WordFault.{WordFault};
ghost use Rattle.cli_tool_words.specs.PlainJobs.{plain_tool_job};
ghost use Rattle.cli_run_answers.specs.Answers.{of_words};
ghost use Rattle.cli_filter.specs.Jobs.{AsksFor, HasPattern, ReadsSource, is_filter, job_of};
ghost use Rattle.cli_filter.specs.Command.{UnlessSearched};
ghost use Rattle.cli_filter.specs.Worlds.{world};
ghost use Rattle.cli_filter.specs.Carries.{Carries};

use crate::reading::read_job;
use crate::tools::{filterdiff, grepdiff, lsdiff, recountdiff, reversediff, splitdiff};
use cli_run_answers::{Why, settle};
use cli_tool_words::ToolJob;
use outside::{Finder, Sink, Source, Tree};
use std::alloc::Global;

/// Carries out the words of a filter. `words[0]` is a tool beside `patch`; words of one that is no filter are no command here.
///
/// `carries` says, of what the command does over the tree and the input at entry: which answer comes, with its text and its
/// files; first parts of the text and of the effects after a fault; that a refusal left tree and standard output as they were;
/// and what each crash since the call began can leave.
pub fn run_filter<T: Tree, F: Finder, I: Source, O: Sink>(
    alloc: Global,
    words: &[String],
    tree: &mut T,
    finder: &mut F,
    source: &mut I,
    out: &mut O,
) -> Why
    ensures carries { Carries (job_of (map string_bytes words.now)) (world (T.view tree.old) (F.view finder.old) (I.view source.old) (O.view out.old)) (world (T.view tree.new) (F.view finder.new) (I.view source.new) (O.view out.new)) result }
    // Words that give no job are answered before any device is called.
    ensures words { (fault : WordFault) → job_of (map string_bytes words.now) ≡ Err fault → (result ≡ of_words fault) ⊎ (result ≡ Why.Memory) }
    ensures still { (fault : WordFault) → job_of (map string_bytes words.now) ≡ Err fault → tree.new ≡ tree.old }
    ensures silent { (fault : WordFault) → job_of (map string_bytes words.now) ≡ Err fault → out.new ≡ out.old }
    ensures unread { (ReadsSource (job_of (map string_bytes words.now)) → ⊥) → source.new ≡ source.old }
    ensures unasked { UnlessSearched (job_of (map string_bytes words.now)) (world (T.view tree.old) (F.view finder.old) (I.view source.old) (O.view out.old)) (finder.new ≡ finder.old) }
    ensures no_pattern { (AsksFor (job_of (map string_bytes words.now)) HasPattern → ⊥) → finder.new ≡ finder.old }
    ensures rest { O.same_rest out.old out.new }
{
    match read_job(alloc, words) {
        Ok(job) => run_job(alloc, job, tree, finder, source, out),
        Err(why) => why,
    }
}

/// Settles the tree, and carries the job out.
fn run_job<T: Tree, F: Finder, I: Source, O: Sink>(
    alloc: Global,
    job: ToolJob,
    tree: &mut T,
    finder: &mut F,
    source: &mut I,
    out: &mut O,
) -> Why
    requires filter { is_filter (plain_tool_job job) ≡ true }
    ensures carries { Carries (Ok (plain_tool_job job)) (world (T.view tree.old) (F.view finder.old) (I.view source.old) (O.view out.old)) (world (T.view tree.new) (F.view finder.new) (I.view source.new) (O.view out.new)) result }
    ensures unread { (ReadsSource (Ok (plain_tool_job job)) → ⊥) → source.new ≡ source.old }
    ensures unasked { UnlessSearched (Ok (plain_tool_job job)) (world (T.view tree.old) (F.view finder.old) (I.view source.old) (O.view out.old)) (finder.new ≡ finder.old) }
    ensures no_pattern { (AsksFor (Ok (plain_tool_job job)) HasPattern → ⊥) → finder.new ≡ finder.old }
    ensures rest { O.same_rest out.old out.new }
{
    match settle(tree) {
        Ok(()) => {}
        Err(why) => {
            // (let go here, and not at the exit, where it would be proved field by field beside the devices)
            drop(job);
            return why;
        }
    }
    match job {
        ToolJob::List(job) => lsdiff(alloc, job, tree, source, out),
        ToolJob::Filter(job) => filterdiff(alloc, job, tree, source, out),
        ToolJob::Grep(job) => grepdiff(alloc, job, tree, finder, source, out),
        ToolJob::Split(job) => {
            let why = splitdiff(alloc, &job, tree, out);
            drop(job);
            why
        }
        ToolJob::Recount(input) => {
            let why = recountdiff(alloc, &input, tree, source, out);
            drop(input);
            why
        }
        ToolJob::Flip(input) => {
            let why = reversediff(alloc, &input, tree, source, out);
            drop(input);
            why
        }
        _ => {
            drop(job);
            Why::Usage
        }
    }
}
