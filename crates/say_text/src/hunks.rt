//! What is said of the hunks of a file.

ghost use Rattle.std.specs.Prelude.{◌≡◌, ◌&&◌, not, Some};
ghost use Rattle.std.specs.Option.{option_copied};
ghost use Rattle.outside.specs.SinkView.{Writes};
ghost use Rattle.patch_options.specs.PlainJob.{plain_options};
ghost use Rattle.say_text.specs.Messages.{silenced, is_told, placed_text, failed_line, failures_line, ignored_line, refused_line};

use crate::lines::{failed_line, placed_line, share_line};
use crate::pieces::put_around;
use outside::{Failed, Sink, put_all};
use patch_options::Options;

/// Says where a hunk was placed: the line of the file as the hunks before it left it. Nothing is written with `-s`, nor
/// without `--verbose` where fuzz and offset are 0.
pub fn say_placed<O: Sink>(
    options: &Options,
    number: u32,
    at: i64,
    fuzz: u32,
    offset: i64,
    out: &mut O,
) -> Result<(), Failed>
    ensures writes { Writes (O.view out.old) (O.view out.new) result (silenced (plain_options options.now) (placed_text options.now.verbose number at fuzz offset)) }
    ensures rest { O.same_rest out.old out.new }
{
    if !is_told(options, fuzz, offset) {
        return Ok(());
    }
    let line = placed_line(number, at, fuzz, offset);
    put_all(out, line.as_slice())
}

fn is_told(options: &Options, fuzz: u32, offset: i64) -> bool
    ensures { result ≡ (not options.now.silent && is_told options.now.verbose fuzz offset) }
{
    !options.silent && (options.verbose || !(fuzz == 0 && offset == 0))
}

/// Says that a hunk has no place, at which line it was to stand, and whether its lines end otherwise than those of the file. Nothing
/// is written with `-s`.
pub fn say_failed<O: Sink>(
    options: &Options,
    number: u32,
    at: i64,
    ends_otherwise: bool,
    out: &mut O,
) -> Result<(), Failed>
    ensures writes { Writes (O.view out.old) (O.view out.new) result (silenced (plain_options options.now) (failed_line number at ends_otherwise)) }
    ensures rest { O.same_rest out.old out.new }
{
    if options.silent {
        return Ok(());
    }
    let line = failed_line(number, at, ends_otherwise);
    put_all(out, line.as_slice())
}

/// Says how many hunks of a file failed, and where their rejects go, if they are written. With `-s` too.
pub fn say_failures<O: Sink>(
    _options: &Options,
    failed: u32,
    hunks: u32,
    reject: Option<&str>,
    out: &mut O,
) -> Result<(), Failed>
    ensures writes { Writes (O.view out.old) (O.view out.new) result (failures_line failed hunks (option_copied reject.entry)) }
    ensures rest { O.same_rest out.old out.new }
{
    match reject {
        None => {
            let line = share_line(failed, hunks, b" FAILED\n");
            put_all(out, line.as_slice())
        }
        Some(name) => put_rejects_line(failed, hunks, name.as_bytes(), out),
    }
}

fn put_rejects_line<O: Sink>(
    failed: u32,
    hunks: u32,
    reject: &[u8],
    out: &mut O,
) -> Result<(), Failed>
    ensures writes { Writes (O.view out.old) (O.view out.new) result (failures_line failed hunks (Some reject.now)) }
    ensures rest { O.same_rest out.old out.new }
{
    let line = share_line(failed, hunks, b" FAILED -- saving rejects to file ");
    put_around(out, line.as_slice(), reject, b"\n")
}

/// Says that all hunks of a file were ignored. With `-s` too.
pub fn say_ignored<O: Sink>(_options: &Options, hunks: u32, out: &mut O) -> Result<(), Failed>
    ensures writes { Writes (O.view out.old) (O.view out.new) result (ignored_line hunks) }
    ensures rest { O.same_rest out.old out.new }
{
    let line = share_line(hunks, hunks, b" ignored\n");
    put_all(out, line.as_slice())
}

/// Says that all hunks of a file patch that is refused were ignored, and where their rejects go, if they are written. With `-s` too.
pub fn say_refused<O: Sink>(
    options: &Options,
    hunks: u32,
    reject: Option<&str>,
    out: &mut O,
) -> Result<(), Failed>
    ensures writes { Writes (O.view out.old) (O.view out.new) result (refused_line hunks (option_copied reject.entry)) }
    ensures rest { O.same_rest out.old out.new }
{
    match reject {
        None => say_ignored(options, hunks, out),
        Some(name) => put_refused_line(hunks, name.as_bytes(), out),
    }
}

fn put_refused_line<O: Sink>(hunks: u32, reject: &[u8], out: &mut O) -> Result<(), Failed>
    ensures writes { Writes (O.view out.old) (O.view out.new) result (refused_line hunks (Some reject.now)) }
    ensures rest { O.same_rest out.old out.new }
{
    let line = share_line(hunks, hunks, b" ignored -- saving rejects to file ");
    put_around(out, line.as_slice(), reject, b"\n")
}
