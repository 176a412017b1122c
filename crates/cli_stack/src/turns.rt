//! A run of `patchstack`, from its words to its answer: one command, or one behind the other to the end of the stack.
ghost use Rattle.std.specs.Prelude.{◌≡◌, map, string_bytes, Ok};
ghost use Rattle.cli_stack.specs.Jobs.{all_of, job_of};
ghost use Rattle.cli_stack.specs.InTurn.{OneRuns, GoesOn, Runs, ToEnd, behind_some, devices};

use crate::carrying::run_op;
use crate::reading::read_job;
use cli_run_answers::Why;
use cli_tool_words::{StackJob, StackOp};
use outside::{Scratch, Sink, Tree};
use std::alloc::Global;

/// The most patches that a stack may have.
const MOST: u32 = 9_999;

/// Carries out the words of `patchstack`; `words[0]` names it. The scratch comes back.
///
/// `runs` says that this is one command, or with `-a` one behind the other, each with all that is promised of one, until one isn't
/// carried out. What those in front of it did stays.
pub fn run_stack<T: Tree, C: Scratch, O: Sink>(
    alloc: Global,
    words: &[String],
    tree: &mut T,
    scratch: C,
    out: &mut O,
) -> (Why, C)
    ensures runs { Runs (all_of (map string_bytes words.now)) (OneRuns T.view C.view O.view (job_of (map string_bytes words.now))) (devices tree.old scratch out.old) (devices tree.new result.1 out.new) result.0 }
    ensures rest { O.same_rest out.old out.new }
{
    match read_job(alloc, words) {
        Ok(job) => run_job(alloc, job, tree, scratch, out),
        Err(why) => (why, scratch),
    }
}

fn run_job<T: Tree, C: Scratch, O: Sink>(
    alloc: Global,
    job: StackJob,
    tree: &mut T,
    scratch: C,
    out: &mut O,
) -> (Why, C)
    ensures runs { Runs job.all (OneRuns T.view C.view O.view (Ok job.op)) (devices tree.old scratch out.old) (devices tree.new result.1 out.new) result.0 }
    ensures rest { O.same_rest out.old out.new }
{
    if job.all {
        run_all(alloc, job.op, tree, scratch, out)
    } else {
        run_op(alloc, job.op, tree, scratch, out)
    }
}

/// Carries the operation out again and again, to the end of the stack.
fn run_all<T: Tree, C: Scratch, O: Sink>(
    alloc: Global,
    op: StackOp,
    tree: &mut T,
    scratch: C,
    out: &mut O,
) -> (Why, C)
    ensures runs { ToEnd (OneRuns T.view C.view O.view (Ok op)) (devices tree.old scratch out.old) (devices tree.new result.1 out.new) result.0 }
    ensures rest { O.same_rest out.old out.new }
{
    let (why, scratch) = run_op(alloc, op, tree, scratch, out);
    match why {
        Why::Done => run_more(alloc, op, tree, scratch, out),
        why => (why, scratch),
    }
}

/// Goes on to the end of the stack behind a command that was carried out.
fn run_more<T: Tree, C: Scratch, O: Sink>(
    alloc: Global,
    op: StackOp,
    tree: &mut T,
    scratch: C,
    out: &mut O,
) -> (Why, C)
    ensures runs { GoesOn (OneRuns T.view C.view O.view (Ok op)) 9999 (devices tree.old scratch out.old) (devices tree.new result.1 out.new) result.0 }
    ensures rest { O.same_rest out.old out.new }
{
    let mut kept = scratch;
    for _ in 0..MOST {
        let (why, left) = run_op(alloc, op, tree, kept, out);
        kept = left;
        match why {
            Why::Done => {}
            why => return (behind_some(why), kept),
        }
    }
    (Why::Done, kept)
}

/// How a run ends behind commands that were carried out: the end of the stack is its own.
fn behind_some(why: Why) -> Why
    ensures { result ≡ behind_some why }
{
    match why {
        Why::StackEnd { .. } => Why::Done,
        why => why,
    }
}
