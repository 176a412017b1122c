//! Reading a set of a clean text.

ghost use Rattle.std.specs.Prelude.{◌≡◌, IfOk};
ghost use Rattle.patch_options.specs.PlainJob.{plain_options, IsLawful};
ghost use Rattle.patch_set.specs.Asked.{ways_of};
ghost use Rattle.patch_set.specs.Refusals.{refusal};
ghost use Rattle.patch_set.specs.Room.{are_asked};
ghost use Rattle.patch_set.specs.SetView.{IsFresh, IsRead, IsWhole, Meets};
ghost use Rattle.read_clean_text.specs.Cleaned.{tells_stripping};
ghost use Rattle.read_clean_text.specs.Indents.{unindented};
ghost use Rattle.read_clean_text.specs.Reading.{clean_of};

use crate::cleaning::clean_telling;
use crate::indents::unindented;
use patch_options::Options;
use patch_set::{PatchSet, SetFault, ways_of};
use read_git_order::read_in_order;
use std::alloc::Global;

/// Reads a patch text as `read_set` does, once it is without its indent and the carriage returns that are no file's, and its file
/// patches are in the order in which they are carried out; and whether a run that keeps no carriage returns says that some were taken off.
pub fn read_telling(
    alloc: Global,
    given: Vec<u8>,
    options: &Options,
    told: &mut bool,
) -> Result<PatchSet, SetFault>
    requires { IsLawful (plain_options options.now) }
    ensures read { IfOk result (IsRead (plain_options options.now) (clean_of (plain_options options.now) given.items)) }
    ensures fresh { IfOk result IsFresh }
    ensures whole { IfOk result IsWhole }
    ensures marks { IfOk result (λ set. set.has_marks ≡ are_asked (plain_options options.now)) }
    ensures told { IfOk result (λ set. told.new ≡ tells_stripping (ways_of (plain_options options.now)) (unindented (ways_of (plain_options options.now)) given.items)) }
    ensures refused { Meets (refusal (plain_options options.now) (clean_of (plain_options options.now) given.items)) result }
{
    let text = unindented(alloc, given, ways_of(options))?;
    let text = clean_telling(alloc, text, ways_of(options), options.keep_returns, told)?;
    read_in_order(alloc, text, options)
}

/// The same set alone.
pub fn read_clean(alloc: Global, given: Vec<u8>, options: &Options) -> Result<PatchSet, SetFault>
    requires { IsLawful (plain_options options.now) }
    ensures read { IfOk result (IsRead (plain_options options.now) (clean_of (plain_options options.now) given.items)) }
    ensures fresh { IfOk result IsFresh }
    ensures whole { IfOk result IsWhole }
    ensures marks { IfOk result (λ set. set.has_marks ≡ are_asked (plain_options options.now)) }
    ensures refused { Meets (refusal (plain_options options.now) (clean_of (plain_options options.now) given.items)) result }
{
    let mut told = false;
    read_telling(alloc, given, options, &mut told)
}
