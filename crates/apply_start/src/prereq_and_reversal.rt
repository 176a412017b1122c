//! Whether a file patch suits the lines that were taken.

ghost use Rattle.std.specs.Prelude.{◌≡◌, ◌<◌, [], ℕ, List, length, Option, Some, IfOk, IfErr, option_map, unwrap_or};
ghost use Rattle.std.specs.Option.{ForSome, option_copied};
ghost use Rattle.hunk_core.specs.PlainHunk.{hunk_of};
ghost use Rattle.hunk_core.specs.Turned.{IsLawful};
ghost use Rattle.line_store.specs.Store.{Keeps, HasCause};
ghost use Rattle.apply_start.specs.Start.{first_hunk, is_reversed, lacks_word, on_direction, on_prereq};
ghost use Rattle.apply_start.specs.Starting.{Holds, Weighs, IsWithin};
ghost use Rattle.apply_task.specs.TaskView.{plain_task, IsTask};

use crate::choices::turns_round;
use crate::starting::{Decision, skip_at};
use crate::word::has_word;
use apply_task::{RunFault, Task};
use hunk_core::{Hunk, Side};
use hunk_place::looks_reversed;
use line_store::{LineFault, LineStore};
use outside::Sink;
use patch_set::bytes_in;
use read_file_patch::Change;
use say_text::{say_prereq, say_reversed};

/// Decides, the plan standing for the lines of the chosen file; `there` says that it is there.
pub fn check_prereq_and_reversal<P: LineStore, O: Sink>(
    task: &Task<'_>,
    place: u32,
    there: bool,
    was_turned: bool,
    side: Side,
    plan: &mut P,
    out: &mut O,
) -> Result<Decision, RunFault>
    requires task { IsTask task.now }
    requires within { place < length task.now.patch.now.targets.items }
    ensures weighs { Weighs (P.seen plan.old) (P.seen plan.new) (O.view out.old) (O.view out.new) there result (λ bytes. on_prereq (plain_task task.now) place bytes was_turned side) }
    ensures rest { O.same_rest out.old out.new }
    ensures within { IfOk result (IsWithin (length task.now.patch.now.targets.items)) }
{
    if !lacks_word(task, there, plan)? {
        return direct(task, place, was_turned, side, there, plan, out);
    }
    say_prereq(task.options, prereq_word(task), out)?;
    if task.options.force {
        direct(task, place, was_turned, side, there, plan, out)
    } else {
        Ok(skip_at(place, side))
    }
}

/// Tries the hunks from this side, or from the other one, or skips them, as the first one looks.
fn direct<P: LineStore, O: Sink>(
    task: &Task<'_>,
    place: u32,
    was_turned: bool,
    side: Side,
    there: bool,
    plan: &mut P,
    out: &mut O,
) -> Result<Decision, RunFault>
    requires task { IsTask task.now }
    requires within { place < length task.now.patch.now.targets.items }
    ensures weighs { Weighs (P.seen plan.old) (P.seen plan.new) (O.view out.old) (O.view out.new) there result (λ bytes. on_direction (plain_task task.now) place bytes was_turned side) }
    ensures rest { O.same_rest out.old out.new }
    ensures within { IfOk result (IsWithin (length task.now.patch.now.targets.items)) }
{
    if task.options.force || was_turned {
        return Ok(Decision::Try { place, side });
    }
    if !is_reversed(task, side, plan)? {
        return Ok(Decision::Try { place, side });
    }
    let is_turned = turns_round(task);
    say_reversed(task.options, is_turned, out)?;
    if is_turned {
        let side = side.other();
        Ok(Decision::Try { place, side })
    } else {
        Ok(skip_at(place, side))
    }
}

/// Whether the first hunk looks reversed.
fn is_reversed<P: LineStore>(task: &Task<'_>, side: Side, plan: &mut P) -> Result<bool, LineFault>
    requires task { IsTask task.now }
    ensures value { IfOk result (λ yes. (lines : List (List ℕ)) → (P.seen plan.old).told ≡ Some lines → yes ≡ is_reversed (plain_task task.now).options lines side (first_hunk (plain_task task.now).item.patch.change)) }
    ensures keeps { Keeps (P.seen plan.old) (P.seen plan.new) }
    ensures cause { IfErr result (λ e. HasCause e (P.seen plan.old) (P.seen plan.new)) }
{
    let options = task.options;
    match first_hunk(task) {
        Some(hunk) => looks_reversed(
            plan,
            task.set.text(),
            hunk,
            side,
            options.fuzz,
            options.loose,
        ),
        None => Ok(false),
    }
}

fn first_hunk<'a>(task: &Task<'a>) -> Option<&'a Hunk>
    requires task { IsTask task.now }
    ensures first { option_map (hunk_of task.now.set.now.text) (option_copied result) ≡ first_hunk (plain_task task.now).item.patch.change }
    ensures lawful { ForSome (option_copied result) (IsLawful task.now.set.now.text) }
{
    match &task.patch.change {
        Change::Hunks(hunks) => hunks.first(),
        Change::Script(_) => None,
    }
}

/// The word of the `Prereq:` line, empty where there is none.
fn prereq_word<'a>(task: &Task<'a>) -> &'a [u8]
    requires task { IsTask task.now }
    ensures { result.now ≡ unwrap_or (plain_task task.now).item.patch.header.prereq [] }
{
    bytes_in(task.set.text(), task.patch.header.prereq).unwrap_or_default()
}

/// Whether a file that is there lacks the word of the `Prereq:` line.
fn lacks_word<P: LineStore>(task: &Task<'_>, there: bool, plan: &mut P) -> Result<bool, LineFault>
    requires task { IsTask task.now }
    ensures value { IfOk result (λ yes. (bytes : Option (List ℕ)) → Holds (P.seen plan.old) there bytes → yes ≡ lacks_word (plain_task task.now).item.patch.header.prereq bytes) }
    ensures keeps { Keeps (P.seen plan.old) (P.seen plan.new) }
    ensures cause { IfErr result (λ e. HasCause e (P.seen plan.old) (P.seen plan.new)) }
{
    if !there {
        return Ok(false);
    }
    match bytes_in(task.set.text(), task.patch.header.prereq) {
        Some(word) => Ok(!has_word(word, plan)?),
        None => Ok(false),
    }
}
