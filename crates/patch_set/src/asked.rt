//! In which ways a patch text is read for a command.
ghost use Rattle.std.specs.Prelude.{◌≡◌};
ghost use Rattle.patch_options.specs.PlainJob.{plain_options};
ghost use Rattle.patch_set.specs.Asked.{is_posix, admits_unified, is_for_own_names, reads_git, skips_binary, ways_of};

use hunk_core::Form;
use patch_header::ReadOptions;
use patch_options::Options;

/// Whether the command has option `--posix`.
pub fn is_posix(options: &Options) -> bool
    ensures { result ≡ is_posix (plain_options options.now) }
{
    options.posix
}

/// Whether git headers are read.
fn reads_git(options: &Options) -> bool
    ensures { result ≡ reads_git (plain_options options.now) }
{
    is_for_own_names(options)
}

/// Whether a file patch of the unified form is meant for its own names.
fn is_for_own_names(options: &Options) -> bool
    ensures { result ≡ is_for_own_names (plain_options options.now) }
{
    if !admits_unified(options.only) || options.posix {
        return false;
    }
    options.file.is_none() && options.output.is_none()
}

/// Whether the unified form may be read.
fn admits_unified(only: Option<Form>) -> bool
    ensures { result ≡ admits_unified only }
{
    match only {
        None | Some(Form::Unified) => true,
        Some(_) => false,
    }
}

/// Whether binary changes are passed over.
fn skips_binary(options: &Options) -> bool
    ensures { result ≡ skips_binary (plain_options options.now) }
{
    options.force || options.batch || options.skip_binary
}

/// The ways in which a patch text is read for a command.
pub fn ways_of(options: &Options) -> ReadOptions
    ensures { result ≡ ways_of (plain_options options.now) }
{
    ReadOptions {
        only: options.only,
        git: reads_git(options),
        skip_binary: skips_binary(options),
    }
}
