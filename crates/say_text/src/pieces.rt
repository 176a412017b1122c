//! Pieces written one after another.

ghost use Rattle.std.specs.Prelude.{◌++◌};
ghost use Rattle.outside.specs.SinkView.{Writes};

use outside::{Failed, Sink, put_all};

pub fn put_both<O: Sink>(out: &mut O, first: &[u8], second: &[u8]) -> Result<(), Failed>
    ensures writes { Writes (O.view out.old) (O.view out.new) result (first.now ++ second.now) }
    ensures rest { O.same_rest out.old out.new }
{
    put_all(out, first)?;
    put_all(out, second)
}

/// Writes a name between two pieces.
pub fn put_around<O: Sink>(
    out: &mut O,
    before: &[u8],
    name: &[u8],
    behind: &[u8],
) -> Result<(), Failed>
    ensures writes { Writes (O.view out.old) (O.view out.new) result (before.now ++ (name.now ++ behind.now)) }
    ensures rest { O.same_rest out.old out.new }
{
    put_all(out, before)?;
    put_both(out, name, behind)
}
