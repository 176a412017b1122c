//! The patch that `push` applies to a stack's files: it is read as by `patch -p1 --no-backup-if-mismatch`. So it changes only the
//! names of its targets and of their reject files, and a stack that saves these can take it back. Stands on `patch_run` and
//! `series_stack`. Begin with this file (`read_push`), then `specs/Changed.antt`.
#![tactic(auto)]

ghost use Rattle.std.specs.Prelude.{◌≡◌, None, Some, IfOk, IfErr};
ghost use Rattle.std.specs.FinMap.{get};
ghost use Rattle.outside.specs.Files.{Files};
ghost use Rattle.outside.specs.Calls.{IsUntouched};
ghost use Rattle.patch_options.specs.PlainJob.{plain_options};
ghost use Rattle.read_clean_text.specs.Reading.{clean_of};
ghost use Rattle.patch_set.specs.SetView.{IsRead, IsFresh, IsWhole};
ghost use Rattle.stack_patch.specs.Reading.{push_options, patch_of_set, read_patch};
ghost use Rattle.stack_patch.specs.Causes.{HasCause, IsRefusedSo, IsRefusal, RefusesSome};
ghost use Rattle.stack_patch.specs.Pushes.{IsPush};

mod laws;
mod names;

use cli_run_answers::{InputFault, read_file};
pub use laws::{names_given_to_a_run, names_of_a_run, patches_of_a_stack};
pub use names::{Saved, saved_names};
use outside::{Name, Tree};
use patch_options::{BackupNumbers, FileTimes, Input, Options, PlanKind, ReadOnlyFiles, SyncKind};
use patch_set::{PatchSet, SetFault};
use read_clean_text::read_clean;
use std::alloc::Global;

/// Why the patch isn't read.
#[derive(Clone, Copy)]
pub enum PushFault {
    /// Its file isn't.
    Input(InputFault),
    /// Its text isn't taken.
    Set(SetFault),
}

/// The options of `patch -p1 --no-backup-if-mismatch`.
#[tactic(auto, unfolding(crate::specs::Reading::push_options))]
pub fn push_options() -> Options
    ensures { plain_options result ≡ push_options }
{
    Options {
        only: None,
        strip: Some(1),
        fuzz: 2,
        reverse: false,
        force: false,
        batch: false,
        forward: false,
        loose: false,
        remove_empty: false,
        backup: false,
        mismatch_backup: false,
        suffix: None,
        prefix: None,
        base_prefix: None,
        numbers: BackupNumbers::Never,
        dir: None,
        file: None,
        input: Input::Standard,
        output: None,
        reject: None,
        no_rejects: false,
        reject_form: None,
        define: None,
        posix: false,
        keep_returns: false,
        skip_binary: false,
        dry_run: false,
        read_only: ReadOnlyFiles::Told,
        times: FileTimes::Written,
        follow_links: false,
        silent: false,
        verbose: false,
        plan: PlanKind::Auto,
        buffer: u32::MAX,
        sync: SyncKind::Each,
    }
}

/// The set of file patches that the file of a patch holds, for these options, which are a push's. The tree is left untouched.
/// What the set does is what the patch of the file does; where the file is missing or its text is refused there is none.
pub fn read_push<T: Tree>(
    alloc: Global,
    name: &Name,
    options: &Options,
    tree: &mut T,
) -> Result<PatchSet, PushFault>
    requires { plain_options options.now ≡ push_options }
    ensures untouched { IsUntouched (T.view tree.old) (T.view tree.new) }
    ensures push { IfOk result (IsPush (T.view tree.old) name.now) }
    ensures fresh { IfOk result IsFresh }
    ensures whole { IfOk result IsWhole }
    ensures cause { IfErr result (λ e. HasCause e (T.view tree.old) (T.view tree.new) name.now) }
    ensures some { IfErr result RefusesSome }
    ensures none { IfErr result (λ e. IsRefusal e → (f : Files) → (T.view tree.old).told ≡ Some f → read_patch (get f name.now) ≡ None) }
{
    match read_file(alloc, name, tree) {
        Ok(text) => read_text(alloc, text, options),
        Err(fault) => Err(PushFault::Input(fault)),
    }
}

fn read_text(alloc: Global, text: Vec<u8>, options: &Options) -> Result<PatchSet, PushFault>
    requires { plain_options options.now ≡ push_options }
    ensures patch { IfOk result (λ set. read_patch (Some text.items) ≡ Some (patch_of_set set)) }
    ensures read { IfOk result (IsRead push_options (clean_of push_options text.items)) }
    ensures fresh { IfOk result IsFresh }
    ensures whole { IfOk result IsWhole }
    ensures cause { IfErr result (λ e. IsRefusedSo e text.items) }
    ensures some { IfErr result RefusesSome }
    ensures none { IfErr result (λ e. IsRefusal e → read_patch (Some text.items) ≡ None) }
{
    match read_clean(alloc, text, options) {
        Ok(set) => Ok(set),
        Err(fault) => Err(PushFault::Set(fault)),
    }
}
