//! How a filter reads a text: as `patch` does without options, but perhaps for `--skip-binary`.
ghost use Rattle.std.specs.Prelude.{◌≡◌, IfOk};
ghost use Rattle.patch_options.specs.PlainJob.{plain_options, IsLawful};
ghost use Rattle.filter_choice.specs.Digested.{IsDigestOf};
ghost use Rattle.filter_choice.specs.Outlined.{IsOutline};
ghost use Rattle.patch_set.specs.Refusals.{refusal};
ghost use Rattle.patch_set.specs.SetView.{IsRead, IsWhole, Meets};
ghost use Rattle.filter_whole_text.specs.Texts.{defaults, dry_defaults};

use filter_choice::{FilePatchList, HunkIndex, read_digest, read_outline};
use patch_options::{BackupNumbers, FileTimes, Input, Options, PlanKind, ReadOnlyFiles, SyncKind};
use patch_set::{PatchSet, SetFault, read_set};
use std::alloc::Global;

/// The set of a text, of which binary changes are passed over or not.
pub fn read_plain(alloc: Global, text: Vec<u8>, skip_binary: bool) -> Result<PatchSet, SetFault>
    ensures read { IfOk result (IsRead (defaults skip_binary) text.items) }
    ensures whole { IfOk result IsWhole }
    ensures refused { Meets (refusal (defaults skip_binary) text.items) result }
{
    let options = default_options(skip_binary);
    let set = read_set(alloc, text, &options);
    drop(options);
    set
}

/// The same without hunks.
pub fn outline_plain(
    alloc: Global,
    text: Vec<u8>,
    skip_binary: bool,
) -> Result<FilePatchList, SetFault>
    ensures outline { IfOk result (IsOutline (defaults skip_binary) text.items) }
    ensures refused { Meets (refusal (defaults skip_binary) text.items) result }
{
    let options = default_options(skip_binary);
    let outline = read_outline(alloc, text, &options);
    drop(options);
    outline
}

/// The same without hunks, with the piece and the old lines of each.
pub fn digest_plain(alloc: Global, text: Vec<u8>, skip_binary: bool) -> Result<HunkIndex, SetFault>
    ensures digest { IfOk result (IsDigestOf (defaults skip_binary) text.items) }
    ensures refused { Meets (refusal (defaults skip_binary) text.items) result }
{
    let options = default_options(skip_binary);
    let digest = read_digest(alloc, text, &options);
    drop(options);
    digest
}

/// What `patch` alone asks for, or with `--skip-binary`, in a dry run: the set is the same, without the room that a run needs
/// for its marks.
fn default_options(skip_binary: bool) -> Options
    ensures options { plain_options result ≡ dry_defaults skip_binary }
    ensures lawful { IsLawful (plain_options result) }
{
    Options {
        only: None,
        strip: None,
        fuzz: 2,
        reverse: false,
        force: false,
        batch: false,
        forward: false,
        loose: false,
        remove_empty: false,
        backup: false,
        mismatch_backup: true,
        suffix: None,
        prefix: None,
        base_prefix: None,
        numbers: BackupNumbers::Never,
        dir: None,
        file: None,
        input: Input::Standard,
        output: None,
        reject: None,
        no_rejects: false,
        reject_form: None,
        define: None,
        posix: false,
        keep_returns: false,
        skip_binary,
        dry_run: true,
        read_only: ReadOnlyFiles::Told,
        times: FileTimes::Written,
        follow_links: false,
        silent: false,
        verbose: false,
        plan: PlanKind::Auto,
        buffer: u32::MAX,
        sync: SyncKind::Each,
    }
}
