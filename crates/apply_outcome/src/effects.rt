//! The effects of a file patch whose hunks were tried.

ghost use Rattle.std.specs.Prelude.{◌≡◌, ◌≢◌, ◌≤◌, ◌||◌, ◌+◌, ◌&&◌, if◌then◌else◌, List, true, false, not, length, count_by, bytes_eq, is_some, is_none, Some, IfOk, OnOk, OnErr};
ghost use Rattle.std.specs.List.{list_any};
ghost use Rattle.std.specs.FinMap.{get};
ghost use Rattle.outside.specs.Files.{Files};
ghost use Rattle.outside.specs.TreeView.{Rises};
ghost use Rattle.outside.specs.Calls.{IsThere, IsUntouched};
ghost use Rattle.outside.specs.Quiet.{IsQuiet, Holds};
ghost use Rattle.hunk_core.specs.declared.Verdict.{Verdict};
ghost use Rattle.hunk_apply.specs.Session.{is_placed, is_failed, is_inexact};
ghost use Rattle.hunk_apply.specs.Written.{is_nothing};
ghost use Rattle.reject_text.specs.Rejects.{AreHunks};
ghost use Rattle.read_file_patch.specs.PlainPatch.{row_count};
ghost use Rattle.patch_options.specs.PlainJob.{plain_options};
ghost use Rattle.apply_task.specs.Asking.{renames, mode_asked};
ghost use Rattle.apply_task.specs.Times.{time_asked};
ghost use Rattle.apply_task.specs.Outputs.{Tried, IsSession};
ghost use Rattle.apply_outcome.specs.Outcome.{is_backup_due, is_backup_apart, is_made_bare, is_taken_away, is_old_kept, is_mismatch_kept, is_written, is_unwanted, is_always_put, is_removal, is_moving, keeps_old, written_effects, effects_of, wrote, has_rejects};
ghost use Rattle.apply_task.specs.Making.{Makes, GoesQuietly, IsGone, IsTidy};
ghost use Rattle.apply_task.specs.Named.{IsNamed};
ghost use Rattle.apply_outcome.specs.ContextView.{plain_context, IsContext};

use crate::context::FilePatchContext;
use crate::past::was_written;
use crate::rejects::put_rejects;
use crate::saying::{is_taken_away, is_unrejected};
use apply_task::{
    Made, Manner, RunFault, acts_deleted, acts_new, is_bare, is_link, is_same, keep_old,
    mode_asked, renames, takes_files, time_asked, write_moved, write_placed,
};
use hunk_apply::Session;
use hunk_core::{Side, Verdict};
use outside::{Failed, Tree};
use patch_options::Options;
use read_file_patch::Target;
use replace_file::Temp;

/// Makes the effects in their order; the target's temporary holds the output, and is gone afterwards.
pub fn make_effects<T: Tree>(
    turn: &FilePatchContext<'_>,
    source: &Target,
    target: &Target,
    side: Side,
    session: &Session,
    verdicts: &[Verdict],
    temp: Temp<'_>,
    tree: &mut T,
) -> Result<Made, RunFault>
    requires turn { IsContext turn.now }
    requires source { IsNamed source.now }
    requires named { IsNamed target.now }
    requires temp { temp.name.now ≡ target.now.temp }
    requires rows { length verdicts.now ≡ row_count turn.now.task.patch.now.change }
    requires wet { turn.now.task.options.now.dry_run ≡ false }
    requires quiet { IsQuiet (T.view tree.old) }
    requires there { IsThere (T.view tree.old) target.now.temp }
    ensures goes { GoesQuietly (T.view tree.old) (T.view tree.new) result }
    ensures makes { (x : Tried) → x.side ≡ side → x.verdicts ≡ verdicts.now → IsSession session.now x.verdicts x.text → Holds (T.view tree.old) target.now.temp x.output
        → Makes (T.view tree.old) (T.view tree.new) result target.now.temp (λ f. effects_of (plain_context turn.now) f source.now target.now x) }
    ensures gone { OnOk result (IsGone (T.view tree.new) target.now.temp) }
    ensures wrote { IfOk result (λ made. (f : Files) (x : Tried) → (T.view tree.old).told ≡ Some f → x.side ≡ side → x.verdicts ≡ verdicts.now → IsSession session.now x.verdicts x.text
        → made.wrote ≡ wrote (plain_context turn.now) f target.now x) }
    ensures count { IfOk result (λ made. (f : Files) (x : Tried) → (T.view tree.old).told ≡ Some f → x.side ≡ side → x.verdicts ≡ verdicts.now → IsSession session.now x.verdicts x.text
        → made.effects ≡ length (effects_of (plain_context turn.now) f source.now target.now x)) }
    ensures few { IfOk result (λ made. made.effects ≤ 5) }
    ensures tidy { OnOk result (IsTidy (T.view tree.old) (T.view tree.new)) }
{
    let made = write_target(turn, source, target, side, session, temp, tree)?;
    let rejected = is_rejected(turn, session);
    put_rejects(turn, target, side, verdicts, rejected, tree)?;
    Ok(with_reject(made, rejected))
}

/// Whether hunks were rejected that go to a reject file.
pub fn is_rejected(turn: &FilePatchContext<'_>, session: &Session) -> bool
    ensures rejected { (vs : List Verdict) → session.now.failed ≡ count_by is_failed vs → result ≡ has_rejects (plain_context turn.now) vs }
    ensures hunks { result ≡ true → AreHunks turn.now.task.patch.now.change }
{
    session.failed > 0 && !is_unrejected(turn.task.options, &turn.task.patch.change)
}

/// What was done, with a reject file, if there is one.
fn with_reject(made: Made, rejected: bool) -> Made
    requires { made.effects ≤ 4 }
    ensures wrote { result.wrote ≡ made.wrote }
    ensures effects { result.effects ≡ made.effects + (if rejected then 1 else 0) }
{
    Made {
        wrote: made.wrote,
        effects: made.effects + u64::from(rejected),
    }
}

/// If the target is written, backs it up, and puts it or takes it away; the source of a rename goes, and is backed up too. If
/// it isn't, its bytes may be kept all the same.
fn write_target<T: Tree>(
    turn: &FilePatchContext<'_>,
    source: &Target,
    target: &Target,
    side: Side,
    session: &Session,
    temp: Temp<'_>,
    tree: &mut T,
) -> Result<Made, RunFault>
    requires turn { IsContext turn.now }
    requires source { IsNamed source.now }
    requires named { IsNamed target.now }
    requires temp { temp.name.now ≡ target.now.temp }
    requires quiet { IsQuiet (T.view tree.old) }
    requires there { IsThere (T.view tree.old) target.now.temp }
    ensures goes { GoesQuietly (T.view tree.old) (T.view tree.new) result }
    ensures makes { (x : Tried) → x.side ≡ side → IsSession session.now x.verdicts x.text → Holds (T.view tree.old) target.now.temp x.output
        → Makes (T.view tree.old) (T.view tree.new) result target.now.temp (λ f. written_effects (plain_context turn.now) f source.now target.now x) }
    ensures gone { OnOk result (IsGone (T.view tree.new) target.now.temp) }
    ensures wrote { IfOk result (λ made. (f : Files) (x : Tried) → (T.view tree.old).told ≡ Some f → x.side ≡ side → IsSession session.now x.verdicts x.text
        → made.wrote ≡ (is_written (plain_context turn.now) x && (not (is_removal (plain_context turn.now) x) || is_some (get f target.now.name)))) }
    ensures count { IfOk result (λ made. (f : Files) (x : Tried) → (T.view tree.old).told ≡ Some f → x.side ≡ side → IsSession session.now x.verdicts x.text
        → made.effects ≡ length (written_effects (plain_context turn.now) f source.now target.now x)) }
    ensures few { IfOk result (λ made. made.effects ≤ 4) }
    ensures tidy { OnOk result (IsTidy (T.view tree.old) (T.view tree.new)) }
{
    if !is_written(turn, side, session) {
        let kept = is_old_kept(turn, target, source, session);
        return keep_old(target, kept, temp, tree);
    }
    let moving = match is_moving(turn, source, target, tree) {
        Ok(moving) => moving,
        Err(_) => return Err(RunFault::Tree),
    };
    let due = is_backup_due(turn, target, source, session);
    let manner = manner_asked(turn, side, session);
    if !moving {
        let removal = is_removal(turn, side, session);
        return write_placed(&source.name, target, due, removal, manner, temp, tree);
    }
    let source_due = is_backup_due(turn, source, target, session);
    write_moved(source, target, due, source_due, manner, temp, tree)
}

/// How the file is put that is written.
fn manner_asked(turn: &FilePatchContext<'_>, side: Side, session: &Session) -> Manner
    requires turn { IsContext turn.now }
    ensures mode { result.mode ≡ mode_asked (plain_context turn.now).options side (plain_context turn.now).item.patch }
    ensures time { result.time ≡ time_asked (plain_context turn.now).options side (plain_context turn.now).item.patch (not session.now.inexact) }
{
    Manner {
        mode: mode_asked(&turn.task, side),
        time: time_asked(&turn.task, side, !session.inexact),
    }
}

/// Whether the source of a rename goes, which is there and isn't the target itself.
fn is_moving<T: Tree>(
    turn: &FilePatchContext<'_>,
    source: &Target,
    target: &Target,
    tree: &mut T,
) -> Result<bool, Failed>
    ensures untouched { IsUntouched (T.view tree.old) (T.view tree.new) }
    ensures cause { OnErr result (Rises (T.view tree.old) (T.view tree.new)) }
    ensures moving { IfOk result (λ moving. (f : Files) → (T.view tree.old).told ≡ Some f → moving ≡ is_moving (plain_context turn.now) f source.now target.now) }
    ensures there { IfOk result (λ moving. moving ≡ true → IsThere (T.view tree.new) source.now.name) }
    ensures apart { IfOk result (λ moving. moving ≡ true → target.now.name ≢ source.now.name) }
    ensures renames { IfOk result (λ moving. moving ≡ true → renames (plain_context turn.now).item.patch ≡ true) }
{
    if !is_renamed(turn, source, target) {
        return Ok(false);
    }
    match tree.size(&source.name) {
        Ok(size) => Ok(size.is_some()),
        Err(failed) => Err(failed),
    }
}

/// Whether the file patch renames a file, and the names differ.
fn is_renamed(turn: &FilePatchContext<'_>, source: &Target, target: &Target) -> bool
    ensures renamed { result ≡ (renames (plain_context turn.now).item.patch && not (bytes_eq source.now.name target.now.name)) }
    ensures apart { result ≡ true → target.now.name ≢ source.now.name }
    ensures renames { result ≡ true → renames (plain_context turn.now).item.patch ≡ true }
{
    if !renames(turn.task.patch) {
        return false;
    }
    !is_same(&source.name, &target.name)
}

/// Whether the target is written.
fn is_written(turn: &FilePatchContext<'_>, side: Side, session: &Session) -> bool
    requires turn { IsContext turn.now }
    ensures { (x : Tried) → x.side ≡ side → IsSession session.now x.verdicts x.text → result ≡ is_written (plain_context turn.now) x }
{
    if session.applied > 0 {
        return true;
    }
    is_bare(turn.task.patch) && is_made_bare(turn, side, session)
}

/// Whether the target of a file patch without hunks is written.
fn is_made_bare(turn: &FilePatchContext<'_>, side: Side, session: &Session) -> bool
    requires turn { IsContext turn.now }
    ensures { (x : Tried) → x.side ≡ side → IsSession session.now x.verdicts x.text → result ≡ is_made_bare (plain_context turn.now) x }
{
    if acts_new(turn.task.patch, side) {
        return true;
    }
    if turn.task.patch.is_moved() {
        return true;
    }
    if acts_deleted(turn.task.patch, side) {
        return is_emptied(turn, side, session);
    }
    mode_asked(&turn.task, side).is_set()
}

/// Whether the file is to be taken away, and has no byte.
fn is_emptied(turn: &FilePatchContext<'_>, side: Side, session: &Session) -> bool
    requires turn { IsContext turn.now }
    ensures { (x : Tried) → x.side ≡ side → IsSession session.now x.verdicts x.text → result ≡ (is_taken_away (plain_context turn.now) x && is_nothing x.text) }
{
    is_taken_away(turn, side, session) && session.output_empty
}

/// Whether a backup of a target is due; a rename has another target.
fn is_backup_due(
    turn: &FilePatchContext<'_>,
    target: &Target,
    other: &Target,
    session: &Session,
) -> bool
    requires turn { IsContext turn.now }
    ensures due { (vs : List Verdict) → session.now.inexact ≡ list_any is_inexact vs → result ≡ is_backup_due (plain_context turn.now) target.now other.now vs }
    ensures apart { result ≡ true → target.now.backup ≢ target.now.name }
    ensures other { result ≡ true → renames (plain_context turn.now).item.patch ≡ true → target.now.backup ≢ other.now.name }
{
    // (the file patches before this one are many, and asked last)
    if !is_backup_asked(turn.task.options, session) || !is_backup_apart(turn, target, other) {
        return false;
    }
    !was_written(turn, &target.name)
}

/// Whether a target gets a backup since hunks that were placed stand elsewhere than they say, or others failed, and not since `-b`
/// asks for each; a rename has another target.
pub fn is_mismatch_kept(
    turn: &FilePatchContext<'_>,
    target: &Target,
    other: &Target,
    session: &Session,
) -> bool
    requires turn { IsContext turn.now }
    ensures kept { (vs : List Verdict) → session.now.applied ≡ count_by is_placed vs → session.now.inexact ≡ list_any is_inexact vs → result ≡ is_mismatch_kept (plain_context turn.now) target.now other.now vs }
{
    if turn.task.options.backup {
        return false;
    }
    session.applied > 0 && is_backup_due(turn, target, other, session)
}

/// Whether the bytes of a target that isn't written are kept; a rename has another target.
fn is_old_kept(
    turn: &FilePatchContext<'_>,
    target: &Target,
    other: &Target,
    session: &Session,
) -> bool
    requires turn { IsContext turn.now }
    ensures kept { (vs : List Verdict) → session.now.failed ≡ count_by is_failed vs → session.now.inexact ≡ list_any is_inexact vs → result ≡ is_old_kept (plain_context turn.now) target.now other.now vs }
    ensures apart { result ≡ true → target.now.backup ≢ target.now.name }
{
    if !keeps_old(turn.task.options, session) {
        return false;
    }
    is_backup_due(turn, target, other, session)
}

/// Whether the options ask that the old bytes are kept where no hunk was placed.
fn keeps_old(options: &Options, session: &Session) -> bool
    ensures { (vs : List Verdict) → session.now.failed ≡ count_by is_failed vs → result ≡ keeps_old (plain_options options.now) vs }
{
    if !options.backup || options.output.is_some() {
        return false;
    }
    session.failed > 0
}

/// Whether the backup's name is none of those that the file patch writes or takes away.
fn is_backup_apart(turn: &FilePatchContext<'_>, target: &Target, other: &Target) -> bool
    ensures apart { result ≡ is_backup_apart (plain_context turn.now) target.now other.now }
    ensures own { result ≡ true → target.now.backup ≢ target.now.name }
    ensures other { result ≡ true → renames (plain_context turn.now).item.patch ≡ true → target.now.backup ≢ other.now.name }
{
    if is_same(&target.backup, &target.name) {
        return false;
    }
    if renames(turn.task.patch) {
        !is_same(&target.backup, &other.name)
    } else {
        true
    }
}

/// Whether the options ask for a backup of the target.
fn is_backup_asked(options: &Options, session: &Session) -> bool
    ensures { result ≡ (options.now.backup || (options.now.mismatch_backup && is_none options.now.output && session.now.inexact)) }
{
    options.backup || (options.mismatch_backup && options.output.is_none() && session.inexact)
}

/// Whether an output without a byte takes the target away.
fn is_removal(turn: &FilePatchContext<'_>, side: Side, session: &Session) -> bool
    requires turn { IsContext turn.now }
    ensures { (x : Tried) → x.side ≡ side → session.now.output_empty ≡ is_nothing x.text → result ≡ is_removal (plain_context turn.now) x }
{
    session.output_empty && !is_always_put(turn) && is_unwanted(turn, side)
}

/// Whether an output without a byte is put too.
fn is_always_put(turn: &FilePatchContext<'_>) -> bool
    ensures { result ≡ is_always_put (plain_context turn.now) }
{
    let options = turn.task.options;
    if options.output.is_some() || options.define.is_some() {
        return true;
    }
    turn.task.patch.is_moved()
}

/// Whether a file without a byte is to be taken away; a symbolic link without a text always is.
fn is_unwanted(turn: &FilePatchContext<'_>, side: Side) -> bool
    requires turn { IsContext turn.now }
    ensures { result ≡ is_unwanted (plain_context turn.now) side }
{
    if turn.task.options.remove_empty || is_link(&turn.task) {
        return true;
    }
    takes_files(turn.task.options) && turn.task.patch.deletes(side)
}
