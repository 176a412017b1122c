//! The hunks that have no place.

ghost use Rattle.std.specs.Prelude.{◌≡◌, ◌<◌, ◌^◌, ◌++◌, ℕ, List, All, length, sum_by, map, pos, negsuc, ◌≤ℤ◌};
ghost use Rattle.std.specs.List.{flat_map};
ghost use Rattle.outside.specs.SinkView.{Writes};
ghost use Rattle.hunk_core.specs.PlainHunk.{hunk_of, hunks_of};
ghost use Rattle.hunk_core.specs.Turned.{IsLawful, taken, turned};
ghost use Rattle.outside.specs.Puts.{Puts};
ghost use Rattle.read_file_patch.specs.PlainPatch.{AreLawfulHunks, IsLawfulChange, change_of, row_count};
ghost use Rattle.reject_text.specs.Headers.{IsRejectForm};
ghost use Rattle.reject_text.specs.Starts.{moved};
ghost use Rattle.reject_text.specs.Again.{AreUnbroken, AreClean, AreReadAgain};
ghost use Rattle.reject_text.specs.Rejects.{AreHunks, hunks_in, rows_of, reject_of, rejects, reject_text};
ghost use Rattle.patch_header.specs.Written.{hunk_text};

use crate::header::put_headers;
use crate::moving::{moved_start, placed_growth};
use hunk_core::{Form, Hunk, Side, Verdict};
use outside::{Failed, Sink};
use read_file_patch::{Change, FilePatch};

fn put_in_form<O: Sink>(
    out: &mut O,
    text: &[u8],
    hunk: &Hunk,
    side: Side,
    starts: (u32, u32),
    form: Form,
) -> Result<(), Failed>
    requires lawful { IsLawful text.now hunk.now }
    requires form { IsRejectForm form }
    ensures { Puts O.view O.same_rest out.old out.new result (hunk_text form (taken side starts.0 starts.1 (hunk_of text.now hunk.now))) }
{
    match form {
        Form::Unified => unified_form::put_hunk(hunk, text, side, starts, out),
        Form::Context => context_form::put_hunk(hunk, text, side, starts, out),
        Form::Normal | Form::Ed => unreachable!(),
    }
}

/// A hunk behind others that added `net` lines.
fn put_moved<O: Sink>(
    out: &mut O,
    text: &[u8],
    hunk: &Hunk,
    side: Side,
    net: i64,
    form: Form,
) -> Result<(), Failed>
    requires lawful { IsLawful text.now hunk.now }
    requires form { IsRejectForm form }
    requires low { negsuc (2 ^ 40) ≤ℤ net }
    requires high { net ≤ℤ pos (2 ^ 40) }
    ensures { Puts O.view O.same_rest out.old out.new result (hunk_text form (moved net (turned side (hunk_of text.now hunk.now)))) }
{
    let other = side.other();
    let old_start = moved_start(hunk.start(side), net, hunk.count(side));
    let new_start = moved_start(hunk.start(other), net, hunk.count(other));
    put_in_form(out, text, hunk, side, (old_start, new_start), form)
}

/// A hunk behind others that added `net` lines, where it has no place; else nothing.
fn put_if_nowhere<O: Sink>(
    out: &mut O,
    text: &[u8],
    hunk: &Hunk,
    verdict: Verdict,
    side: Side,
    net: i64,
    form: Form,
) -> Result<(), Failed>
    requires lawful { IsLawful text.now hunk.now }
    requires form { IsRejectForm form }
    requires low { negsuc (2 ^ 40) ≤ℤ net }
    requires high { net ≤ℤ pos (2 ^ 40) }
    ensures { Puts O.view O.same_rest out.old out.new result (flat_map (hunk_text form) (reject_of net (turned side (hunk_of text.now hunk.now), verdict))) }
{
    match verdict {
        Verdict::Nowhere => put_moved(out, text, hunk, side, net, form),
        Verdict::Untried | Verdict::Ignored | Verdict::At { .. } => Ok(()),
    }
}

fn put_each<O: Sink>(
    out: &mut O,
    text: &[u8],
    hunks: &[Hunk],
    verdicts: &[Verdict],
    side: Side,
    form: Form,
) -> Result<(), Failed>
    requires lawful { AreLawfulHunks text.now hunks.now }
    requires rows { length verdicts.now ≡ length hunks.now }
    requires form { IsRejectForm form }
    ensures { Puts O.view O.same_rest out.old out.new result (flat_map (hunk_text form) (rejects (rows_of side (hunks_of text.now hunks.now) verdicts.now))) }
{
    let mut net = 0;
    for i in 0..hunks.len() {
        let hunk = &hunks[i];
        let verdict = verdicts[i];
        put_if_nowhere(out, text, hunk, verdict, side, net, form)?;
        net += placed_growth(hunk, verdict, side);
    }
    Ok(())
}

fn put_all_hunks<O: Sink>(
    out: &mut O,
    text: &[u8],
    hunks: &[Hunk],
    verdicts: &[Verdict],
    side: Side,
    name: &[u8],
    form: Form,
) -> Result<(), Failed>
    requires lawful { AreLawfulHunks text.now hunks.now }
    requires rows { length verdicts.now ≡ length hunks.now }
    requires form { IsRejectForm form }
    ensures { Puts O.view O.same_rest out.old out.new result (reject_text (hunks_of text.now hunks.now) verdicts.now side name.now form) }
{
    put_headers(out, form, name)?;
    put_each(out, text, hunks, verdicts, side, form)
}

/// Writes the reject text of a file patch: two lines with the name as it is shown, and each hunk that has no place, as
/// it was tried from `side`. Its starts are moved by the lines that the placed hunks in front of it added. Where none
/// failed, the two lines are written alone.
pub fn put_reject<O: Sink>(
    text: &[u8],
    patch: &FilePatch,
    verdicts: &[Verdict],
    side: Side,
    name: &str,
    form: Form,
    out: &mut O,
) -> Result<(), Failed>
    requires lawful { IsLawfulChange text.now patch.now.change }
    requires hunks { AreHunks patch.now.change }
    requires rows { length verdicts.now ≡ row_count patch.now.change }
    requires form { IsRejectForm form }
    ensures writes { Writes (O.view out.old) (O.view out.new) result (reject_text (hunks_in (change_of text.now patch.now.change)) verdicts.now side name.now form) }
    ensures rest { O.same_rest out.old out.new }
    // Where the hunks of the patch break no rule, what is written doesn't either.
    ensures unbroken { AreUnbroken (hunks_in (change_of text.now patch.now.change)) → AreUnbroken (rejects (rows_of side (hunks_in (change_of text.now patch.now.change)) verdicts.now)) }
    // Then each hunk is the first one that its text spells, with what is written behind it, if there
    // is a line feed at most at the end of each line.
    ensures again { AreUnbroken (hunks_in (change_of text.now patch.now.change)) → AreClean (hunks_in (change_of text.now patch.now.change)) → AreReadAgain form (rejects (rows_of side (hunks_in (change_of text.now patch.now.change)) verdicts.now)) }
{
    match &patch.change {
        Change::Hunks(hunks) => {
            put_all_hunks(out, text, hunks, verdicts, side, name.as_bytes(), form)
        }
        Change::Script(_) => unreachable!(),
    }
}
