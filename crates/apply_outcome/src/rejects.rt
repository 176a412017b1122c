//! The reject file of a file patch.

ghost use Rattle.std.specs.Prelude.{◌≡◌, [], ℕ, List, true, length, IfOk, OnOk};
ghost use Rattle.std.specs.List.{list_any};
ghost use Rattle.outside.specs.SinkView.{Writes};
ghost use Rattle.outside.specs.TreeView.{IsRun};
ghost use Rattle.outside.specs.Calls.{IsThere};
ghost use Rattle.outside.specs.Quiet.{IsQuiet, WorksOn, Holds};
ghost use Rattle.read_file_patch.specs.PlainPatch.{change_of, row_count};
ghost use Rattle.hunk_apply.specs.Session.{is_failed};
ghost use Rattle.replace_file.specs.Puts.{Puts};
ghost use Rattle.reject_text.specs.Headers.{IsRejectForm};
ghost use Rattle.reject_text.specs.Rejects.{AreHunks};
ghost use Rattle.patch_options.specs.PlainJob.{plain_options};
ghost use Rattle.apply_task.specs.TargetEffects.{put_if};
ghost use Rattle.apply_task.specs.Contexts.{PlainContext};
ghost use Rattle.apply_outcome.specs.Outcome.{mark_of, own_reject, reject_form, rejected_before, rejects_text, text_if, has_rejects};
ghost use Rattle.apply_task.specs.Making.{Makes, GoesQuietly, IsGone, IsTidy};
ghost use Rattle.apply_task.specs.Named.{IsNamed};
ghost use Rattle.apply_task.specs.Ready.{IsFit, alone};
ghost use Rattle.apply_outcome.specs.ContextView.{plain_context, IsContext};

use crate::context::FilePatchContext;
use crate::past::{Earlier, earlier_patch, written_by};
use crate::saying::is_unrejected;
use apply_task::{RunFault, is_same, shown};
use hunk_core::{Form, Side, Verdict};
use outside::{Failed, Name, Sink, Tree};
use patch_options::Options;
use read_file_patch::{FilePatch, Target};
use reject_text::put_reject;
use replace_file::{Temp, TempSink, begin_temp, put_begun};

/// Puts the reject texts so far of the target's reject file, and its own, where hunks were rejected.
pub fn put_rejects<T: Tree>(
    turn: &FilePatchContext<'_>,
    target: &Target,
    side: Side,
    verdicts: &[Verdict],
    rejected: bool,
    tree: &mut T,
) -> Result<(), RunFault>
    requires turn { IsContext turn.now }
    requires named { IsNamed target.now }
    requires rows { length verdicts.now ≡ row_count turn.now.task.patch.now.change }
    requires hunks { rejected ≡ true → AreHunks turn.now.task.patch.now.change }
    requires quiet { IsQuiet (T.view tree.old) }
    requires gone { IsGone (T.view tree.old) target.now.temp }
    ensures goes { GoesQuietly (T.view tree.old) (T.view tree.new) result }
    ensures makes { Makes (T.view tree.old) (T.view tree.new) result target.now.temp (λ f. put_if rejected target.now.reject (rejects_text (plain_context turn.now) target.now side verdicts.now)) }
    ensures gone { OnOk result (IsGone (T.view tree.new) target.now.temp) }
    ensures tidy { OnOk result (IsTidy (T.view tree.old) (T.view tree.new)) }
{
    if !rejected {
        return Ok(());
    }
    match swap_rejects(turn, target, side, verdicts, tree) {
        Ok(()) => Ok(()),
        Err(_) => Err(RunFault::Tree),
    }
}

/// Puts those reject texts, of a file patch of which hunks were rejected.
pub fn swap_rejects<T: Tree>(
    turn: &FilePatchContext<'_>,
    target: &Target,
    side: Side,
    verdicts: &[Verdict],
    tree: &mut T,
) -> Result<(), Failed>
    requires turn { IsContext turn.now }
    requires named { IsNamed target.now }
    requires rows { length verdicts.now ≡ row_count turn.now.task.patch.now.change }
    requires hunks { AreHunks turn.now.task.patch.now.change }
    requires quiet { IsQuiet (T.view tree.old) }
    ensures { Puts (T.view tree.old) (T.view tree.new) result target.now.reject_temp target.now.reject (λ f. rejects_text (plain_context turn.now) target.now side verdicts.now) }
{
    let begun = begin_temp(tree, &target.reject_temp)?;
    let filled = fill_rejects(turn, target, side, verdicts, begun, tree)?;
    put_begun(tree, filled, &target.reject)
}

/// Writes the reject texts to an empty temporary.
fn fill_rejects<'n, T: Tree>(
    turn: &FilePatchContext<'_>,
    target: &Target,
    side: Side,
    verdicts: &[Verdict],
    begun: Temp<'n>,
    tree: &mut T,
) -> Result<Temp<'n>, Failed>
    requires turn { IsContext turn.now }
    requires named { IsNamed target.now }
    requires rows { length verdicts.now ≡ row_count turn.now.task.patch.now.change }
    requires hunks { AreHunks turn.now.task.patch.now.change }
    requires quiet { IsQuiet (T.view tree.old) }
    requires there { IsThere (T.view tree.old) begun.name.now }
    requires empty { Holds (T.view tree.old) begun.name.now [] }
    ensures name { IfOk result (λ filled. filled.name.now ≡ begun.entry.name.now) }
    ensures run { IsRun (T.view tree.old) (T.view tree.new) result }
    ensures works { WorksOn (T.view tree.old) (T.view tree.new) begun.entry.name.now }
    ensures there { OnOk result (IsThere (T.view tree.new) begun.entry.name.now) }
    ensures holds { OnOk result (Holds (T.view tree.new) begun.entry.name.now (rejects_text (plain_context turn.now) target.now side verdicts.now)) }
{
    let mut sink = TempSink::new(tree, begun);
    put_texts(turn, target, side, verdicts, &mut sink)?;
    Ok(sink.into_temp())
}

/// Writes the reject texts so far of the target's reject file, and its own.
fn put_texts<O: Sink>(
    turn: &FilePatchContext<'_>,
    target: &Target,
    side: Side,
    verdicts: &[Verdict],
    out: &mut O,
) -> Result<(), Failed>
    requires turn { IsContext turn.now }
    requires named { IsNamed target.now }
    requires rows { length verdicts.now ≡ row_count turn.now.task.patch.now.change }
    requires hunks { AreHunks turn.now.task.patch.now.change }
    ensures writes { Writes (O.view out.old) (O.view out.new) result (rejects_text (plain_context turn.now) target.now side verdicts.now) }
    ensures rest { O.same_rest out.old out.new }
{
    put_earlier(turn, &target.reject, out)?;
    put_own(turn, turn.task.patch, target, side, verdicts, out)
}

/// Writes the reject texts of those before it that go to this file.
fn put_earlier<O: Sink>(turn: &FilePatchContext<'_>, name: &Name, out: &mut O) -> Result<(), Failed>
    requires turn { IsContext turn.now }
    ensures writes { Writes (O.view out.old) (O.view out.new) result (rejected_before (plain_context turn.now).past name.now) }
    ensures rest { O.same_rest out.old out.new }
{
    for k in 0..turn.count {
        put_if_to(turn, &earlier_patch(turn, k), name, out)?;
    }
    Ok(())
}

/// Writes the reject text of one before it, if it goes to this file.
fn put_if_to<O: Sink>(
    turn: &FilePatchContext<'_>,
    earlier: &Earlier<'_>,
    name: &Name,
    out: &mut O,
) -> Result<(), Failed>
    requires turn { IsContext turn.now }
    requires fit { IsFit turn.now.task.set.now.text earlier.now.patch.now }
    requires rows { length earlier.now.verdicts.now ≡ row_count earlier.now.patch.now.change }
    ensures writes { Writes (O.view out.old) (O.view out.new) result (text_if name.now (mark_of (alone (plain_context turn.now).options turn.now.task.set.now earlier.now.patch.now) earlier.now.row earlier.now.verdicts.now).rejected) }
    ensures rest { O.same_rest out.old out.new }
{
    if turn.task.options.dry_run || !has_rejects(turn.task.options, earlier) {
        return Ok(());
    }
    let reverse = turn.task.options.reverse;
    match written_by(turn.task.set, earlier.patch, reverse, earlier.row) {
        Some(target) => {
            if is_same(name, &target.reject) {
                put_own(
                    turn,
                    earlier.patch,
                    target,
                    earlier.row.side,
                    earlier.verdicts,
                    out,
                )
            } else {
                Ok(())
            }
        }
        None => Ok(()),
    }
}

/// Whether some hunk of a patch has no place, and goes to a reject file.
fn has_rejects(options: &Options, earlier: &Earlier<'_>) -> bool
    ensures { (t : PlainContext) → (text : List ℕ) → t.options ≡ plain_options options.now → t.item.patch.change ≡ change_of text earlier.now.patch.now.change → result ≡ has_rejects t earlier.now.verdicts.now }
{
    some_failed(earlier.verdicts) && !is_unrejected(options, &earlier.patch.change)
}

fn some_failed(verdicts: &[Verdict]) -> bool
    ensures { result ≡ list_any is_failed verdicts.now }
{
    for i in 0..verdicts.len() {
        if is_failed(verdicts[i]) {
            return true;
        }
    }
    false
}

fn is_failed(verdict: Verdict) -> bool
    ensures { result ≡ is_failed verdict }
{
    matches!(verdict, Verdict::Nowhere)
}

/// Writes the reject text of a file patch of the set.
fn put_own<O: Sink>(
    turn: &FilePatchContext<'_>,
    patch: &FilePatch,
    target: &Target,
    side: Side,
    verdicts: &[Verdict],
    out: &mut O,
) -> Result<(), Failed>
    requires turn { IsContext turn.now }
    requires fit { IsFit turn.now.task.set.now.text patch.now }
    requires named { IsNamed target.now }
    requires rows { length verdicts.now ≡ row_count patch.now.change }
    requires hunks { AreHunks patch.now.change }
    ensures writes { Writes (O.view out.old) (O.view out.new) result (own_reject (alone (plain_context turn.now).options turn.now.task.set.now patch.now) target.now side verdicts.now) }
    ensures rest { O.same_rest out.old out.new }
{
    let form = reject_form(turn, patch);
    put_reject(
        turn.task.set.text(),
        patch,
        verdicts,
        side,
        shown(target),
        form,
        out,
    )
}

/// The form of the rejects of a file patch.
fn reject_form(turn: &FilePatchContext<'_>, patch: &FilePatch) -> Form
    requires turn { IsContext turn.now }
    ensures form { result ≡ reject_form (alone (plain_context turn.now).options turn.now.task.set.now patch.now) }
    ensures fits { IsRejectForm result }
{
    match turn.task.options.reject_form {
        Some(form) => form,
        None => match patch.header.form {
            Form::Unified => Form::Unified,
            Form::Context | Form::Normal | Form::Ed => Form::Context,
        },
    }
}
