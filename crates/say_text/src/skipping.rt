//! What is said of binary changes.

ghost use Rattle.std.specs.Prelude.{◌≡◌};
ghost use Rattle.outside.specs.SinkView.{Writes};
ghost use Rattle.say_text.specs.Messages.{skipping_line, image_line};

use crate::lines::skipping_line;
use crate::pieces::put_around;
use outside::{Failed, Sink, put_all};

/// Says that the binary change at this line of the patch text is passed over. With `-s` too.
pub fn say_skipped<O: Sink>(line: u64, out: &mut O) -> Result<(), Failed>
    ensures writes { Writes (O.view out.old) (O.view out.new) result (skipping_line line) }
    ensures rest { O.same_rest out.old out.new }
{
    let line = skipping_line(line);
    put_all(out, line.as_slice())
}

/// Says that the image of a file isn't put in. With `-s` too.
pub fn say_image<O: Sink>(name: &[u8], out: &mut O) -> Result<(), Failed>
    ensures writes { Writes (O.view out.old) (O.view out.new) result (image_line name.now) }
    ensures rest { O.same_rest out.old out.new }
{
    put_around(
        out,
        b"File ",
        name,
        b": git binary diffs are not supported.\n",
    )
}
