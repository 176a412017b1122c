//! The line that tells what became of the made files.
ghost use Rattle.outside.specs.SinkView.{Writes};
ghost use Rattle.cli_gen.specs.Summary.{field, line_of};

use num_text::put_number;
use outside::{Failed, Sink, put_all};

/// The numbers of the line.
#[derive(Clone, Copy)]
pub struct Summary {
    pub files: u64,
    pub hunks: u64,
    /// The hunks that were placed.
    pub applied: u64,
    /// Those at an offset other than 0.
    pub moved: u64,
    /// The bytes of the made files behind the run.
    pub bytes: u64,
    pub status: u64,
}

/// Writes the line.
pub fn put_summary<O: Sink>(out: &mut O, s: Summary) -> Result<(), Failed>
    ensures writes { Writes (O.view out.old) (O.view out.new) result (line_of s) }
    ensures rest { O.same_rest out.old out.new }
{
    put_field(out, b"files ", s.files)?;
    put_field(out, b" hunks ", s.hunks)?;
    put_field(out, b" applied ", s.applied)?;
    put_field(out, b" moved ", s.moved)?;
    put_field(out, b" bytes ", s.bytes)?;
    put_field(out, b" status ", s.status)?;
    put_all(out, b"\n")
}

/// Writes a number behind what it tells.
fn put_field<O: Sink>(out: &mut O, label: &[u8], number: u64) -> Result<(), Failed>
    ensures writes { Writes (O.view out.old) (O.view out.new) result (field label.now number) }
    ensures rest { O.same_rest out.old out.new }
{
    put_all(out, label)?;
    let mut digits = [0; 20];
    let count = put_number(number, &mut digits);
    put_all(out, &digits[..count])
}
