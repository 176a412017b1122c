//! File patches that are skipped for what they are about, or refused for what is in their way.

ghost use Rattle.std.specs.Prelude.{◌≡◌, ◌<◌, length, false, Some, IfOk, IfErr};
ghost use Rattle.outside.specs.SinkView.{Writes};
ghost use Rattle.name_choice.specs.Choice.{side_of};
ghost use Rattle.apply_task.specs.declared.fault.RunFault.TheVariants.{Write};
ghost use Rattle.apply_task.specs.TaskView.{plain_task, IsTask};
ghost use Rattle.apply_start.specs.Refusing.{barrier_line};
ghost use Rattle.apply_start.specs.Start.{unmeant_line, unmeant_said};

use crate::naming::named;
use crate::obstacles::Barrier;
use crate::starting::{Decision, own_side, skip_at};
use apply_task::{RunFault, Subject, Task, shown, subject_of};
use outside::{Failed, Sink};
use say_text::{say_barred, say_read_only, say_submodule, say_type_change};

/// Something is in its way.
pub fn on_barred<O: Sink>(
    task: &Task<'_>,
    place: u32,
    barrier: Barrier<'_>,
    out: &mut O,
) -> Result<Decision, RunFault>
    ensures writes { Writes (O.view out.old) (O.view out.new) result (barrier_line barrier.entry) }
    ensures fault { IfErr result (λ e. e ≡ Write) }
    ensures rest { O.same_rest out.old out.new }
    ensures refused { IfOk result (λ d. d ≡ Decision.Refuse place (side_of task.now.options.now.reverse)) }
{
    say_barrier(barrier, out)?;
    Ok(Decision::Refuse {
        place,
        side: own_side(task),
    })
}

/// Says what it is.
pub fn say_barrier<O: Sink>(barrier: Barrier<'_>, out: &mut O) -> Result<(), Failed>
    ensures writes { Writes (O.view out.old) (O.view out.new) result (barrier_line barrier.entry) }
    ensures rest { O.same_rest out.old out.new }
{
    match barrier {
        Barrier::Kind { name, link } => say_barred(link, name, out),
        Barrier::ReadOnly { name } => say_read_only(name, out),
    }
}

/// Its modes ask for what isn't done.
pub fn on_unmeant<O: Sink>(task: &Task<'_>, place: u32, out: &mut O) -> Result<Decision, RunFault>
    requires task { IsTask task.now }
    requires within { place < length task.now.patch.now.targets.items }
    ensures writes { Writes (O.view out.old) (O.view out.new) result (unmeant_said (plain_task task.now) place) }
    ensures fault { IfErr result (λ e. e ≡ Write) }
    ensures rest { O.same_rest out.old out.new }
    ensures row { IfOk result (λ d. d ≡ Decision.Skip (record { side = side_of task.now.options.now.reverse; target = Some place; wrote = false })) }
{
    tell_unmeant(task, place, out)?;
    Ok(skip_at(place, own_side(task)))
}

fn tell_unmeant<O: Sink>(task: &Task<'_>, place: u32, out: &mut O) -> Result<(), Failed>
    requires task { IsTask task.now }
    requires within { place < length task.now.patch.now.targets.items }
    ensures writes { Writes (O.view out.old) (O.view out.new) result (unmeant_said (plain_task task.now) place) }
    ensures rest { O.same_rest out.old out.new }
{
    let name = shown(named(task, place));
    say_unmeant(task.options.reverse, name, subject_of(task), out)
}

fn say_unmeant<O: Sink>(
    reverse: bool,
    name: &str,
    subject: Subject,
    out: &mut O,
) -> Result<(), Failed>
    ensures writes { Writes (O.view out.old) (O.view out.new) result (unmeant_line reverse name.now subject) }
    ensures rest { O.same_rest out.old out.new }
{
    match subject {
        Subject::File | Subject::Link => Ok(()),
        Subject::FileToLink => say_type_change(!reverse, name, out),
        Subject::LinkToFile => say_type_change(reverse, name, out),
        Subject::Submodule => say_submodule(name, out),
    }
}
