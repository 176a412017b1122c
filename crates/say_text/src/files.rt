//! What is said of a file patch as a whole.

ghost use Rattle.std.specs.Prelude.{◌≡◌, ◌++◌, codes, true, false};
ghost use Rattle.outside.specs.SinkView.{Writes};
ghost use Rattle.patch_options.specs.PlainJob.{plain_options};
ghost use Rattle.say_text.specs.Origins.{plain_origin};
ghost use Rattle.say_text.specs.Messages.{silenced, doing, behind_name, patching_line, no_file_lines, prereq_line, reaction, reversed_line, would_do, stands_so, unfit_line, not_deleting_line, is_not, barred_line, read_only_line, type_change, type_line, submodule_line};

use crate::lines::no_file_lines;
use crate::origin::Origin;
use crate::pieces::{put_around, put_both};
use crate::standing::Standing;
use outside::{Failed, Sink, put_all};
use patch_options::Options;

/// Says which file or symbolic link is patched, or would be. `name` is the chosen one, but the new one of a rename or a copy. With `-o` its
/// origin isn't told. Nothing is written with `-s`.
pub fn say_patching<O: Sink>(
    options: &Options,
    is_link: bool,
    name: &str,
    origin: Origin<'_>,
    out: &mut O,
) -> Result<(), Failed>
    ensures writes { Writes (O.view out.old) (O.view out.new) result (silenced (plain_options options.now) (patching_line options.now.dry_run is_link options.now.output name.now (plain_origin origin.entry))) }
    ensures rest { O.same_rest out.old out.new }
{
    if options.silent {
        return Ok(());
    }
    put_patching(options, is_link, name.as_bytes(), origin, out)
}

fn doing(is_dry: bool, is_link: bool) -> &'static [u8]
    ensures { result.now ≡ doing is_dry is_link }
{
    if is_link {
        return doing_to_link(is_dry);
    }
    if is_dry {
        b"checking file "
    } else {
        b"patching file "
    }
}

fn doing_to_link(is_dry: bool) -> &'static [u8]
    ensures { result.now ≡ doing is_dry true }
{
    if is_dry {
        b"checking symbolic link "
    } else {
        b"patching symbolic link "
    }
}

fn put_patching<O: Sink>(
    options: &Options,
    is_link: bool,
    name: &[u8],
    origin: Origin<'_>,
    out: &mut O,
) -> Result<(), Failed>
    ensures writes { Writes (O.view out.old) (O.view out.new) result (patching_line options.now.dry_run is_link options.now.output name.now (plain_origin origin.entry)) }
    ensures rest { O.same_rest out.old out.new }
{
    let doing = doing(options.dry_run, is_link);
    match &options.output {
        None => put_patched(out, doing, name, origin),
        Some(output) => put_from(out, doing, output.text().as_bytes(), b" (read from ", name),
    }
}

fn put_patched<O: Sink>(
    out: &mut O,
    doing: &[u8],
    name: &[u8],
    origin: Origin<'_>,
) -> Result<(), Failed>
    ensures writes { Writes (O.view out.old) (O.view out.new) result (doing.now ++ (name.now ++ behind_name (plain_origin origin.entry))) }
    ensures rest { O.same_rest out.old out.new }
{
    match origin {
        Origin::Same => put_around(out, doing, name, b"\n"),
        Origin::Renamed(source) => put_from(
            out,
            doing,
            name,
            b" (renamed from ",
            source.as_bytes(),
        ),
        Origin::AlreadyRenamed(source) => put_from(
            out,
            doing,
            name,
            b" (already renamed from ",
            source.as_bytes(),
        ),
        Origin::Copied(source) => put_from(out, doing, name, b" (copied from ", source.as_bytes()),
    }
}

/// Writes a name, and behind it in brackets another one with how it comes from that.
fn put_from<O: Sink>(
    out: &mut O,
    doing: &[u8],
    name: &[u8],
    how: &[u8],
    source: &[u8],
) -> Result<(), Failed>
    ensures writes { Writes (O.view out.old) (O.view out.new) result (doing.now ++ (name.now ++ (how.now ++ (source.now ++ codes ")\n")))) }
    ensures rest { O.same_rest out.old out.new }
{
    put_both(out, doing, name)?;
    put_around(out, how, source, b")\n")
}

/// Says that no file was found, and at which line of the patch text the file patch opens. With `-s` too.
pub fn say_no_file<O: Sink>(_options: &Options, line: u64, out: &mut O) -> Result<(), Failed>
    ensures writes { Writes (O.view out.old) (O.view out.new) result (no_file_lines line) }
    ensures rest { O.same_rest out.old out.new }
{
    let lines = no_file_lines(line);
    put_all(out, lines.as_slice())
}

/// Says that the file lacks the word of the `Prereq:` line; with `-f` this is a warning. Nothing is written with `-s`.
pub fn say_prereq<O: Sink>(options: &Options, word: &[u8], out: &mut O) -> Result<(), Failed>
    ensures writes { Writes (O.view out.old) (O.view out.new) result (silenced (plain_options options.now) (prereq_line options.now.force word.now)) }
    ensures rest { O.same_rest out.old out.new }
{
    if options.silent {
        return Ok(());
    }
    put_prereq(options.force, word, out)
}

fn put_prereq<O: Sink>(is_forced: bool, word: &[u8], out: &mut O) -> Result<(), Failed>
    ensures writes { Writes (O.view out.old) (O.view out.new) result (prereq_line is_forced word.now) }
    ensures rest { O.same_rest out.old out.new }
{
    if is_forced {
        put_around(
            out,
            b"Warning: this file doesn't appear to be the ",
            word,
            b" version -- patching anyway.\n",
        )
    } else {
        put_around(
            out,
            b"This file doesn't appear to be the ",
            word,
            b" version -- skipping patch.\n",
        )
    }
}

fn reversed_line(is_turned: bool) -> &'static [u8]
    ensures { result.now ≡ reversed_line is_turned }
{
    if is_turned {
        b"Reversed (or previously applied) patch detected!  Assuming -R.\n"
    } else {
        b"Reversed (or previously applied) patch detected!  Skipping patch.\n"
    }
}

/// Says that a patch looks reversed, and whether it is turned round or skipped. Nothing is written with `-s`.
pub fn say_reversed<O: Sink>(options: &Options, turned: bool, out: &mut O) -> Result<(), Failed>
    ensures writes { Writes (O.view out.old) (O.view out.new) result (silenced (plain_options options.now) (reversed_line turned)) }
    ensures rest { O.same_rest out.old out.new }
{
    if options.silent {
        return Ok(());
    }
    put_all(out, reversed_line(turned))
}

fn would_do(standing: Standing) -> &'static [u8]
    ensures { result.now ≡ would_do standing }
{
    match standing {
        Standing::Missing => b"The next patch would delete the file ",
        Standing::Empty => b"The next patch would empty out the file ",
        Standing::Filled => b"The next patch would create the file ",
    }
}

fn skipped_as(standing: Standing) -> &'static [u8]
    ensures { result.now ≡ stands_so standing ++ reaction false }
{
    match standing {
        Standing::Missing => b", which does not exist!  Skipping patch.\n",
        Standing::Empty => b", which is already empty!  Skipping patch.\n",
        Standing::Filled => b", which already exists!  Skipping patch.\n",
    }
}

fn turned_as(standing: Standing) -> &'static [u8]
    ensures { result.now ≡ stands_so standing ++ reaction true }
{
    match standing {
        Standing::Missing => b", which does not exist!  Assuming -R.\n",
        Standing::Empty => b", which is already empty!  Assuming -R.\n",
        Standing::Filled => b", which already exists!  Assuming -R.\n",
    }
}

fn what_follows(standing: Standing, is_turned: bool) -> &'static [u8]
    ensures { result.now ≡ stands_so standing ++ reaction is_turned }
{
    if is_turned {
        turned_as(standing)
    } else {
        skipped_as(standing)
    }
}

/// Says that a patch creates, empties or deletes a file that is so already, and whether it is turned round or skipped. Nothing is
/// written with `-s`.
pub fn say_unfit<O: Sink>(
    options: &Options,
    standing: Standing,
    name: &str,
    turned: bool,
    out: &mut O,
) -> Result<(), Failed>
    ensures writes { Writes (O.view out.old) (O.view out.new) result (silenced (plain_options options.now) (unfit_line standing name.now turned)) }
    ensures rest { O.same_rest out.old out.new }
{
    if options.silent {
        return Ok(());
    }
    put_around(
        out,
        would_do(standing),
        name.as_bytes(),
        what_follows(standing, turned),
    )
}

/// Says that a file that was to be deleted is kept. With `-s` too.
pub fn say_not_deleting<O: Sink>(_options: &Options, name: &str, out: &mut O) -> Result<(), Failed>
    ensures writes { Writes (O.view out.old) (O.view out.new) result (not_deleting_line name.now) }
    ensures rest { O.same_rest out.old out.new }
{
    put_around(
        out,
        b"Not deleting file ",
        name.as_bytes(),
        b" as content differs from patch\n",
    )
}

/// Says that a file patch is refused, since no file can be put at this name, or no symbolic link. With `-s` too.
pub fn say_barred<O: Sink>(is_link: bool, name: &str, out: &mut O) -> Result<(), Failed>
    ensures writes { Writes (O.view out.old) (O.view out.new) result (barred_line is_link name.now) }
    ensures rest { O.same_rest out.old out.new }
{
    put_around(out, b"File ", name.as_bytes(), is_not(is_link))
}

fn is_not(is_link: bool) -> &'static [u8]
    ensures { result.now ≡ is_not is_link }
{
    if is_link {
        b" is not a symbolic link -- refusing to patch\n"
    } else {
        b" is not a regular file -- refusing to patch\n"
    }
}

/// Says that a file patch is refused, since its file may not be written to. With `-s` too.
pub fn say_read_only<O: Sink>(name: &str, out: &mut O) -> Result<(), Failed>
    ensures writes { Writes (O.view out.old) (O.view out.new) result (read_only_line name.now) }
    ensures rest { O.same_rest out.old out.new }
{
    put_around(
        out,
        b"File ",
        name.as_bytes(),
        b" is read-only; refusing to patch\n",
    )
}

/// Says that a file patch is skipped, since it would make a symbolic link of a file, or a file of a link. With `-s` too.
pub fn say_type_change<O: Sink>(to_link: bool, name: &str, out: &mut O) -> Result<(), Failed>
    ensures writes { Writes (O.view out.old) (O.view out.new) result (type_line to_link name.now) }
    ensures rest { O.same_rest out.old out.new }
{
    put_around(out, b"File ", name.as_bytes(), type_change(to_link))
}

fn type_change(to_link: bool) -> &'static [u8]
    ensures { result.now ≡ type_change to_link }
{
    if to_link {
        b": can't change file type from 0100000 to 0120000.\n"
    } else {
        b": can't change file type from 0120000 to 0100000.\n"
    }
}

/// Says that a file patch is skipped, since it is about a submodule. With `-s` too.
pub fn say_submodule<O: Sink>(name: &str, out: &mut O) -> Result<(), Failed>
    ensures writes { Writes (O.view out.old) (O.view out.new) result (submodule_line name.now) }
    ensures rest { O.same_rest out.old out.new }
{
    put_around(
        out,
        b"File ",
        name.as_bytes(),
        b": git submodules are not supported.\n",
    )
}
