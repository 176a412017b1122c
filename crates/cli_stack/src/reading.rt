//! What comes before the first effect: the words, and the stack with the saves at which each command looks.
ghost use Rattle.std.specs.Prelude.{◌≡◌, ◌⊎◌, map, string_bytes, Ok, Err, IfOk, IfErr};
ghost use Rattle.outside.specs.Calls.{IsUntouched};
ghost use Rattle.outside.specs.ScratchView.{ScratchView};
ghost use Rattle.outside.specs.SinkView.{SinkView};
ghost use Rattle.patch_options.specs.declared.options.WordFault.{WordFault as TheFault};
ghost use Rattle.cli_tool_words.specs.PlainJobs.{plain_tool_job};
ghost use Rattle.cli_tool_words.specs.declared.jobs.StackOp.{StackOp as Op};
ghost use Rattle.cli_run_answers.specs.Answers.{of_words};
ghost use Rattle.cli_run_answers.specs.Worlds.{world};
ghost use Rattle.cli_stack.specs.Jobs.{all_of, job_of, stack_all, stack_op};
ghost use Rattle.cli_stack.specs.Comes.{StopsEarly};
ghost use Rattle.cli_stack.specs.States.{IsState};

use crate::fault::of_state;
use cli_run_answers::Why;
use cli_tool_words::{StackJob, ToolJob, read_tool_words};
use outside::Tree;
use patch_options::WordFault;
use stack_state::{Standing, read_next_save, read_stack};
use std::alloc::Global;

/// What the words ask for. The first names the tool.
pub fn read_job(alloc: Global, words: &[String]) -> Result<StackJob, Why>
    ensures op { IfOk result (λ job. job_of (map string_bytes words.now) ≡ Ok job.op) }
    ensures all { IfOk result (λ job. all_of (map string_bytes words.now) ≡ job.all) }
    ensures refused { IfErr result (λ why. (why ≡ Why.Memory) ⊎ ((fault : TheFault) × (why ≡ of_words fault) × (job_of (map string_bytes words.now) ≡ Err fault))) }
{
    match read_tool_words(alloc, words) {
        Ok(read) => {
            let job = supported(&read);
            drop(read);
            job
        }
        Err(fault) => Err(Why::from(fault)),
    }
}

fn supported(job: &ToolJob) -> Result<StackJob, Why>
    ensures op { IfOk result (λ j. stack_op (Ok (plain_tool_job job.now)) ≡ Ok j.op) }
    ensures all { IfOk result (λ j. stack_all (Ok (plain_tool_job job.now)) ≡ j.all) }
    ensures refused { IfErr result (λ why. (why ≡ Why.Usage) × (stack_op (Ok (plain_tool_job job.now)) ≡ Err WordFault.Usage)) }
{
    match job {
        ToolJob::Stack(job) => Ok(*job),
        _ => Err(Why::Usage),
    }
}

/// The stack, and the save of the first patch that isn't applied, if there is one: a command was interrupted.
#[derive(Drop)]
pub struct State {
    pub stack: Standing,
    pub next: Option<Vec<u8>>,
}

/// The stack as its files tell it. The tree is left untouched.
pub fn read_state<T: Tree>(alloc: Global, tree: &mut T) -> Result<State, Why>
    ensures untouched { IsUntouched (T.view tree.old) (T.view tree.new) }
    ensures state { IfOk result (IsState (T.view tree.old)) }
    ensures refused { IfErr result (λ why. (op : Op) (a : ScratchView) (c : SinkView) → StopsEarly why op (world (T.view tree.old) a c) (world (T.view tree.new) a c)) }
{
    match read_stack(alloc, tree) {
        Ok(stack) => match read_next_save(alloc, stack.applied, tree) {
            Ok(next) => Ok(State { stack, next }),
            Err(fault) => {
                drop(stack);
                Err(of_state(fault))
            }
        },
        Err(fault) => Err(of_state(fault)),
    }
}
