//! What a run says of the binary changes that are passed over, and whether one of them fails.

ghost use Rattle.std.specs.Prelude.{◌≡◌, ◌&&◌, [], if◌then◌else◌};
ghost use Rattle.outside.specs.Puts.{Puts};
ghost use Rattle.outside.specs.SinkView.{Writes};
ghost use Rattle.patch_options.specs.PlainJob.{plain_options};
ghost use Rattle.apply_start.specs.Skipping.{is_failing, left_of, failing_line, change_line, changes_said, has_failing};

use apply_task::Task;
use outside::{Failed, Name, Sink};
use patch_options::Options;
use patch_set::BinaryChange;
use read_file_patch::{last_component, shortened};
use say_text::{say_image, say_skipped};

/// Says what becomes of the binary changes of the text, before the first file patch of a run. With `-s` too.
pub fn tell_skipped<O: Sink>(task: &Task<'_>, out: &mut O) -> Result<(), Failed>
    ensures writes { Writes (O.view out.old) (O.view out.new) result (if task.now.is_first then changes_said (plain_options task.now.options.now) task.now.set.now.skipped else []) }
    ensures rest { O.same_rest out.old out.new }
{
    if !task.is_first {
        return Ok(());
    }
    put_changes(task.options, task.set.skipped(), out)
}

/// Whether a binary change fails, which the first file patch of a run has to answer for.
pub fn fails_first(task: &Task<'_>) -> bool
    ensures { result ≡ (task.now.is_first && has_failing (plain_options task.now.options.now) task.now.set.now.skipped) }
{
    task.is_first && has_failing(task.options, task.set.skipped())
}

fn has_failing(options: &Options, changes: &[BinaryChange]) -> bool
    ensures { result ≡ has_failing (plain_options options.now) changes.now }
{
    changes.iter().any(|change| is_failing(options, change))
}

/// Whether it is an image that it isn't asked to pass over.
fn is_failing(options: &Options, change: &BinaryChange) -> bool
    ensures { result ≡ is_failing (plain_options options.now) change.now }
{
    change.is_image && !options.skip_binary
}

fn put_changes<O: Sink>(
    options: &Options,
    changes: &[BinaryChange],
    out: &mut O,
) -> Result<(), Failed>
    ensures { Puts O.view O.same_rest out.old out.new result (changes_said (plain_options options.now) changes.now) }
{
    for change in changes {
        put_change(options, change, out)?;
    }
    Ok(())
}

fn put_change<O: Sink>(options: &Options, change: &BinaryChange, out: &mut O) -> Result<(), Failed>
    ensures { Puts O.view O.same_rest out.old out.new result (change_line (plain_options options.now) change.now) }
{
    say_change(options, change, out)
}

fn say_change<O: Sink>(options: &Options, change: &BinaryChange, out: &mut O) -> Result<(), Failed>
    ensures writes { Writes (O.view out.old) (O.view out.new) result (change_line (plain_options options.now) change.now) }
    ensures rest { O.same_rest out.old out.new }
{
    if is_failing(options, change) {
        say_failing(options, change.line, &change.name, out)
    } else {
        say_skipped(change.line, out)
    }
}

fn say_failing<O: Sink>(
    options: &Options,
    line: u64,
    name: &Option<Name>,
    out: &mut O,
) -> Result<(), Failed>
    ensures writes { Writes (O.view out.old) (O.view out.new) result (failing_line (plain_options options.now) line name.now) }
    ensures rest { O.same_rest out.old out.new }
{
    match name {
        Some(name) => say_image(left_of(options.strip, name.text().as_bytes()), out),
        None => say_skipped(line, out),
    }
}

/// What is left of a name that is stripped.
fn left_of(strip: Option<u32>, name: &[u8]) -> &[u8]
    ensures { result.now ≡ left_of strip name.now }
{
    match strip {
        Some(count) => shortened(count, name),
        None => last_component(name),
    }
}
