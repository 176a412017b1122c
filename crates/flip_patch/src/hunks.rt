//! Hunks turned round and written.

ghost use Rattle.std.specs.Prelude.{◌≡◌, List, All, map, true};
ghost use Rattle.std.specs.List.{flat_map};
ghost use Rattle.hunk_core.specs.PlainHunk.{hunk_of, hunks_of};
ghost use Rattle.hunk_core.specs.Turned.{IsLawful, swapped};
ghost use Rattle.outside.specs.Puts.{Puts};
ghost use Rattle.flip_patch.specs.Flipped.{hunk_text};
ghost use Rattle.flip_patch.specs.Ordered.{IsOrdered};

use hunk_core::{Form, Hunk, Side};
use outside::{Failed, Sink};

/// Writes a hunk with its starts exchanged, and its dropped lines with its added ones.
fn put_hunk<O: Sink>(text: &[u8], form: Form, hunk: &Hunk, out: &mut O) -> Result<(), Failed>
    requires lawful { IsLawful text.now hunk.now }
    requires order { IsOrdered form hunk.now }
    ensures { Puts O.view O.same_rest out.old out.new result (hunk_text form (swapped (hunk_of text.now hunk.now))) }
{
    let starts = (hunk.new_start, hunk.old_start);
    match form {
        Form::Unified => unified_form::put_hunk(hunk, text, Side::Reversed, starts, out),
        Form::Context => context_form::put_hunk(hunk, text, Side::Reversed, starts, out),
        Form::Normal => normal_form::put_hunk(hunk, text, Side::Reversed, starts, out),
        Form::Ed => Ok(()),
    }
}

/// Writes the hunks in their order.
pub fn put_hunks<O: Sink>(
    text: &[u8],
    form: Form,
    hunks: &[Hunk],
    out: &mut O,
) -> Result<(), Failed>
    requires lawful { All (IsLawful text.now) hunks.now }
    requires order { All (IsOrdered form) hunks.now }
    ensures { Puts O.view O.same_rest out.old out.new result (flat_map (hunk_text form) (map swapped (hunks_of text.now hunks.now))) }
{
    for i in 0..hunks.len() {
        put_hunk(text, form, &hunks[i], out)?;
    }
    Ok(())
}
