//! What is said once the hunks were tried.

ghost use Rattle.std.specs.Prelude.{◌≡◌, ◌<◌, ◌^◌, ℕ, List, [], length, All, pos, negsuc, ◌≤ℤ◌};
ghost use Rattle.std.specs.Option.{option_copied};
ghost use Rattle.outside.specs.SinkView.{IsSinkCall, Writes};
ghost use Rattle.hunk_core.specs.PlainHunk.{hunk_of, hunks_of};
ghost use Rattle.hunk_core.specs.Turned.{turned, IsLawful};
ghost use Rattle.read_file_patch.specs.PlainPatch.{AreLawfulHunks, change_of, row_count, is_script};
ghost use Rattle.ed_form.specs.PlainEdit.{edits_of, IsLawfulScript};
ghost use Rattle.reject_text.specs.Rejects.{rows_of};
ghost use Rattle.hunk_apply.specs.Script.{first_address};
ghost use Rattle.hunk_apply.specs.Session.{IsTried};
ghost use Rattle.patch_options.specs.PlainJob.{plain_options};
ghost use Rattle.apply_task.specs.Outputs.{Tried, IsSession};
ghost use Rattle.apply_outcome.specs.HunksSaid.{change_said, hunks_said, hunk_said, script_said};
ghost use Rattle.apply_outcome.specs.Outcome.{kept_said, failures_said, tried_said, is_kept, is_taken_away, is_unrejected, named_reject};
ghost use Rattle.apply_task.specs.Named.{IsNamed};
ghost use Rattle.apply_outcome.specs.ContextView.{plain_context, IsContext};

use crate::context::FilePatchContext;
use apply_task::{acts_deleted, ends_otherwise, is_bare, shown, shown_reject, takes_files};
use ed_form::EdScript;
use hunk_apply::Session;
use hunk_core::{Hunk, Side, Verdict};
use outside::{Failed, Sink};
use patch_options::Options;
use read_file_patch::{Change, Target};
use reject_text::placed_growth;
use say_text::{say_failed, say_failures, say_not_deleting, say_placed};

/// Says what came of the hunks, in a file whose first line ends so.
pub fn tell<O: Sink>(
    turn: &FilePatchContext<'_>,
    target: &Target,
    side: Side,
    session: &Session,
    verdicts: &[Verdict],
    end: Option<bool>,
    out: &mut O,
) -> Result<(), Failed>
    requires turn { IsContext turn.now }
    requires named { IsNamed target.now }
    requires rows { length verdicts.now ≡ row_count turn.now.task.patch.now.change }
    requires tried { All IsTried verdicts.now }
    ensures writes { (x : Tried) → x.side ≡ side → x.verdicts ≡ verdicts.now → IsSession session.now x.verdicts x.text → x.end ≡ end → Writes (O.view out.old) (O.view out.new) result (tried_said (plain_context turn.now) target.now x) }
    ensures call { IsSinkCall (O.view out.old) (O.view out.new) result }
    ensures rest { O.same_rest out.old out.new }
{
    say_change(turn, side, verdicts, end, out)?;
    say_kept(turn, target, side, session, out)?;
    say_rejected(turn, target, session, out)
}

/// Says what came of each hunk.
fn say_change<O: Sink>(
    turn: &FilePatchContext<'_>,
    side: Side,
    verdicts: &[Verdict],
    end: Option<bool>,
    out: &mut O,
) -> Result<(), Failed>
    requires turn { IsContext turn.now }
    requires rows { length verdicts.now ≡ row_count turn.now.task.patch.now.change }
    requires tried { All IsTried verdicts.now }
    ensures writes { Writes (O.view out.old) (O.view out.new) result (change_said (plain_context turn.now).options end side (plain_context turn.now).item.patch.change verdicts.now) }
    ensures rest { O.same_rest out.old out.new }
{
    match &turn.task.patch.change {
        Change::Hunks(hunks) => {
            say_hunks(
                turn.task.options,
                turn.task.set.text(),
                hunks,
                side,
                verdicts,
                end,
                out,
            )
        }
        Change::Script(script) => say_script(turn.task.options, script, verdicts, out),
    }
}

fn say_hunks<O: Sink>(
    options: &Options,
    text: &[u8],
    hunks: &[Hunk],
    side: Side,
    verdicts: &[Verdict],
    end: Option<bool>,
    out: &mut O,
) -> Result<(), Failed>
    requires lawful { AreLawfulHunks text.now hunks.now }
    requires rows { length verdicts.now ≡ length hunks.now }
    requires tried { All IsTried verdicts.now }
    ensures writes { Writes (O.view out.old) (O.view out.new) result (hunks_said (plain_options options.now) end [] (rows_of side (hunks_of text.now hunks.now) verdicts.now)) }
    ensures rest { O.same_rest out.old out.new }
{
    let mut net = 0;
    for i in 0..hunks.len() {
        let hunk = &hunks[i];
        let verdict = verdicts[i];
        say_hunk(
            options,
            i as u32 + 1,
            net,
            text,
            hunk,
            side,
            verdict,
            end,
            out,
        )?;
        net += placed_growth(hunk, verdict, side);
    }
    Ok(())
}

/// Says what came of one hunk, behind hunks that added `net` lines.
fn say_hunk<O: Sink>(
    options: &Options,
    number: u32,
    net: i64,
    text: &[u8],
    hunk: &Hunk,
    side: Side,
    verdict: Verdict,
    end: Option<bool>,
    out: &mut O,
) -> Result<(), Failed>
    requires lawful { IsLawful text.now hunk.now }
    requires low { negsuc (2 ^ 40) ≤ℤ net }
    requires high { net ≤ℤ pos (2 ^ 40) }
    requires tried { IsTried verdict }
    ensures writes { Writes (O.view out.old) (O.view out.new) result (hunk_said (plain_options options.now) end number net (turned side (hunk_of text.now hunk.now)) verdict) }
    ensures rest { O.same_rest out.old out.new }
{
    match verdict {
        Verdict::At { line, fuzz, offset } => {
            say_placed(options, number, line as i64 + net, fuzz, offset, out)
        }
        Verdict::Nowhere => {
            let apart = ends_otherwise(end, text, hunk, side);
            say_failed(options, number, hunk.base(side) as i64 + net, apart, out)
        }
        Verdict::Untried | Verdict::Ignored => Ok(()),
    }
}

fn say_script<O: Sink>(
    options: &Options,
    script: &EdScript,
    verdicts: &[Verdict],
    out: &mut O,
) -> Result<(), Failed>
    requires tried { All IsTried verdicts.now }
    ensures writes { (text : List ℕ) → IsLawfulScript text script.now → Writes (O.view out.old) (O.view out.new) result (script_said (plain_options options.now) (first_address (edits_of text script.now.edits.items)) verdicts.now) }
    ensures rest { O.same_rest out.old out.new }
{
    match verdicts.first() {
        Some(Verdict::At { line, fuzz, offset }) => {
            say_placed(options, 1, *line as i64, *fuzz, *offset, out)
        }
        Some(Verdict::Nowhere) => {
            say_failed(options, 1, i64::from(first_address(script)), false, out)
        }
        _ => Ok(()),
    }
}

/// The first address of the first command.
fn first_address(script: &EdScript) -> u32
    ensures { (text : List ℕ) → result ≡ first_address (edits_of text script.now.edits.items) }
{
    match script.edits.first() {
        Some(edit) => u32::min(edit.first, edit.last),
        None => 0,
    }
}

/// Says that a file that was to be deleted has bytes left. A dry run says so too, and has status 1, where a real one would.
fn say_kept<O: Sink>(
    turn: &FilePatchContext<'_>,
    target: &Target,
    side: Side,
    session: &Session,
    out: &mut O,
) -> Result<(), Failed>
    requires turn { IsContext turn.now }
    requires named { IsNamed target.now }
    ensures writes { (x : Tried) → x.side ≡ side → IsSession session.now x.verdicts x.text → Writes (O.view out.old) (O.view out.new) result (kept_said (plain_context turn.now) target.now x) }
    ensures call { IsSinkCall (O.view out.old) (O.view out.new) result }
    ensures rest { O.same_rest out.old out.new }
{
    if is_kept(turn, side, session) {
        say_not_deleting(turn.task.options, shown(target), out)
    } else {
        Ok(())
    }
}

/// Whether a file that was to be deleted has bytes left.
pub fn is_kept(turn: &FilePatchContext<'_>, side: Side, session: &Session) -> bool
    requires turn { IsContext turn.now }
    ensures { (x : Tried) → x.side ≡ side → IsSession session.now x.verdicts x.text → result ≡ is_kept (plain_context turn.now) x }
{
    is_taken_away(turn, side, session) && !session.output_empty
}

/// Whether its file is to be taken away.
pub fn is_taken_away(turn: &FilePatchContext<'_>, side: Side, session: &Session) -> bool
    requires turn { IsContext turn.now }
    ensures { (x : Tried) → x.side ≡ side → IsSession session.now x.verdicts x.text → result ≡ is_taken_away (plain_context turn.now) x }
{
    if !takes_files(turn.task.options) {
        return false;
    }
    if is_bare(turn.task.patch) {
        acts_deleted(turn.task.patch, side)
    } else {
        turn.task.patch.deletes(side) && session.applied > 0
    }
}

/// Says how many hunks failed, if some did.
fn say_rejected<O: Sink>(
    turn: &FilePatchContext<'_>,
    target: &Target,
    session: &Session,
    out: &mut O,
) -> Result<(), Failed>
    requires turn { IsContext turn.now }
    requires named { IsNamed target.now }
    ensures writes { (x : Tried) → IsSession session.now x.verdicts x.text → Writes (O.view out.old) (O.view out.new) result (failures_said (plain_context turn.now) target.now x) }
    ensures call { IsSinkCall (O.view out.old) (O.view out.new) result }
    ensures rest { O.same_rest out.old out.new }
{
    if session.failed == 0 {
        return Ok(());
    }
    let reject = named_reject(turn, target);
    say_failures(
        turn.task.options,
        session.failed,
        turn.task.patch.hunks(),
        reject,
        out,
    )
}

/// The file of the rejects, where it is written.
fn named_reject<'a>(turn: &FilePatchContext<'_>, target: &'a Target) -> Option<&'a str>
    requires turn { IsContext turn.now }
    requires named { IsNamed target.now }
    ensures { option_copied result ≡ named_reject (plain_context turn.now) target.now }
{
    if turn.task.options.dry_run || is_unrejected(turn.task.options, &turn.task.patch.change) {
        None
    } else {
        Some(shown_reject(target))
    }
}

/// Whether no reject file is written: of an ed script, or as the options ask.
pub fn is_unrejected(options: &Options, change: &Change) -> bool
    ensures { (text : List ℕ) → result ≡ is_unrejected (plain_options options.now) (change_of text change.now) }
{
    if options.no_rejects {
        return true;
    }
    is_script(change)
}

/// Whether it is an ed script.
fn is_script(change: &Change) -> bool
    ensures { (text : List ℕ) → result ≡ is_script (change_of text change.now) }
{
    matches!(change, Change::Script(_))
}
