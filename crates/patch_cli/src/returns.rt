//! The line that tells that carriage returns were taken off a patch text.

ghost use Rattle.std.specs.Prelude.{◌≡◌, ◌&&◌, not, true, false, OnErr};
ghost use Rattle.outside.specs.SinkView.{Writes};
ghost use Rattle.patch_options.specs.PlainJob.{plain_options};
ghost use Rattle.patch_cli.specs.Returns.{first_said, says_stripping};

use outside::{Failed, Sink, put_all};
use patch_options::Options;

/// The line, as GNU patch writes it.
const LINE: &[u8] = b"(Stripping trailing CRs from patch; use --binary to disable.)\n";

/// Says that carriage returns were taken off, where they were, unless the options ask for silence.
pub fn say_stripping<O: Sink>(options: &Options, strips: bool, out: &mut O) -> Result<(), Failed>
    ensures writes { Writes (O.view out.old) (O.view out.new) result (first_said (plain_options options.now) strips) }
    ensures rest { O.same_rest out.old out.new }
    ensures still { says_stripping (plain_options options.now) strips ≡ false → out.new ≡ out.old }
    ensures some { OnErr result (says_stripping (plain_options options.now) strips ≡ true) }
{
    if !strips || options.silent {
        return Ok(());
    }
    put_all(out, LINE)
}

/// Whether carriage returns are taken off, where it is known that the text has a file patch that tells of them.
pub fn strips_returns(options: &Options, told: bool) -> bool
    ensures { result ≡ (not options.now.keep_returns && told) }
{
    !options.keep_returns && told
}
