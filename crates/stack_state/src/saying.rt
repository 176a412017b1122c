//! What the commands of a stack say.
ghost use Rattle.std.specs.Prelude.{◌≡◌, ◌++◌, ◌∷◌, [], codes};
ghost use Rattle.num_text.specs.Numbers.{decimal};
ghost use Rattle.outside.specs.SinkView.{Writes};
ghost use Rattle.series_stack.specs.Outcomes.{said, tally, ending_text};
ghost use Rattle.series_stack.specs.Commands.Ending.{Rejected};
ghost use Rattle.stack_state.specs.Steps.{said_by};

use apply_task::RunFault;
use num_text::put_number;
use outside::{Failed, Name, Sink, put_all};

/// The fault of what is said.
pub fn said(done: Result<(), Failed>) -> Result<(), RunFault>
    ensures { result ≡ said_by done }
{
    match done {
        Ok(()) => Ok(()),
        Err(_) => Err(RunFault::Write),
    }
}

/// So many patches are applied, as what an interrupted command did is undone.
pub fn say_restored<O: Sink>(out: &mut O, applied: u32) -> Result<(), Failed>
    ensures writes { Writes (O.view out.old) (O.view out.new) result (said (codes "Restored to ") (decimal applied)) }
    ensures rest { O.same_rest out.old out.new }
{
    put_all(out, b"Restored to ")?;
    put_number_line(out, applied)
}

/// The patch with this name is applied next.
pub fn say_applying<O: Sink>(out: &mut O, name: &Name) -> Result<(), Failed>
    ensures writes { Writes (O.view out.old) (O.view out.new) result (said (codes "Applying patch ") name.now) }
    ensures rest { O.same_rest out.old out.new }
{
    say(out, b"Applying patch ", name.text().as_bytes())
}

/// The patch with this name is taken back.
pub fn say_removing<O: Sink>(out: &mut O, name: &Name) -> Result<(), Failed>
    ensures writes { Writes (O.view out.old) (O.view out.new) result (said (codes "Removing patch ") name.now) }
    ensures rest { O.same_rest out.old out.new }
{
    say(out, b"Removing patch ", name.text().as_bytes())
}

/// So many patches of so many are applied.
pub fn say_tally<O: Sink>(out: &mut O, applied: u32, all: u32) -> Result<(), Failed>
    ensures writes { Writes (O.view out.old) (O.view out.new) result (tally applied all) }
    ensures rest { O.same_rest out.old out.new }
{
    put_all(out, b"applied ")?;
    put_digits(out, applied)?;
    put_all(out, b" of ")?;
    put_number_line(out, all)
}

/// The patch with this name isn't applied, and so many of so many are.
pub fn say_rejected<O: Sink>(out: &mut O, name: &Name, applied: u32, all: u32) -> Result<(), Failed>
    ensures writes { Writes (O.view out.old) (O.view out.new) result (ending_text Rejected name.now applied all) }
    ensures rest { O.same_rest out.old out.new }
{
    put_all(out, b"Patch ")?;
    put_all(out, name.text().as_bytes())?;
    put_all(out, b" does not apply\n")?;
    say_tally(out, applied, all)
}

fn put_number_line<O: Sink>(out: &mut O, number: u32) -> Result<(), Failed>
    ensures writes { Writes (O.view out.old) (O.view out.new) result (decimal number ++ 10 ∷ []) }
    ensures rest { O.same_rest out.old out.new }
{
    put_digits(out, number)?;
    put_end(out)
}

fn put_digits<O: Sink>(out: &mut O, number: u32) -> Result<(), Failed>
    ensures writes { Writes (O.view out.old) (O.view out.new) result (decimal number) }
    ensures rest { O.same_rest out.old out.new }
{
    let mut digits = [0; 20];
    let count = put_number(u64::from(number), &mut digits);
    put_all(out, &digits[..count])
}

/// A line of these words and a text behind them.
fn say<O: Sink>(out: &mut O, words: &[u8], text: &[u8]) -> Result<(), Failed>
    ensures writes { Writes (O.view out.old) (O.view out.new) result (said words.now text.now) }
    ensures rest { O.same_rest out.old out.new }
{
    put_all(out, words)?;
    put_all(out, text)?;
    put_end(out)
}

fn put_end<O: Sink>(out: &mut O) -> Result<(), Failed>
    ensures writes { Writes (O.view out.old) (O.view out.new) result (10 ∷ []) }
    ensures rest { O.same_rest out.old out.new }
{
    put_all(out, b"\n")
}
