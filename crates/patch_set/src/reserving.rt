//! The refusals of file patches whose names aren't kept.
ghost use Rattle.std.specs.Prelude.{◌≡◌, ◌<◌, ◌^◌, ◌||◌, ℕ, List, Ok, IfOk, length, map, option_map};
ghost use Rattle.std.specs.List.{list_any};
ghost use Rattle.read_file_patch.specs.PlainPatch.{header_of, patch_of};
ghost use Rattle.read_file_patch.specs.Targets.{is_reserved};
ghost use Rattle.patch_options.specs.PlainJob.{plain_options, IsLawful};
ghost use Rattle.patch_set.specs.Named.{target_in, targets_of};
ghost use Rattle.patch_set.specs.Refusals.{refusal_of, reserved, reserved_patch, reserves_output};
ghost use Rattle.patch_set.specs.SetView.{Meets};

use crate::SetFault;
use crate::names::names_of;
use crate::refusals::refused;
use outside::Name;
use patch_options::Options;
use read_file_patch::{FilePatch, Target};
use read_header_record::Header;
use std::alloc::{AllocError, Global};

/// Answers what `give_targets` refuses these file patches of a text for. Their targets are made one after another, and none is kept.
pub fn refuse(
    alloc: Global,
    text: &[u8],
    options: &Options,
    patches: &[FilePatch],
) -> Result<(), SetFault>
    requires options { IsLawful (plain_options options.now) }
    requires count { length patches.now < 2 ^ 32 }
    ensures refused { Meets (refusal_of (plain_options options.now) text.now (Ok (map (patch_of text.now) patches.now))) result }
{
    match refused(text, options, patches) {
        Some(fault) => Err(fault),
        None => refuse_reserved(alloc, text, options, patches),
    }
}

/// Answers whether a name of a temporary would be written for one of them, with the line of the first.
fn refuse_reserved(
    alloc: Global,
    text: &[u8],
    options: &Options,
    patches: &[FilePatch],
) -> Result<(), SetFault>
    requires { IsLawful (plain_options options.now) }
    ensures refused { Meets (reserved (plain_options options.now) (map (patch_of text.now) patches.now)) result }
{
    match reserving_line(alloc, text, options, patches)? {
        Some(line) => Err(SetFault::Reserved { line }),
        None => Ok(()),
    }
}

/// The line of the opening of the first file patch for which a name of a temporary would be written.
fn reserving_line(
    alloc: Global,
    text: &[u8],
    options: &Options,
    patches: &[FilePatch],
) -> Result<Option<u64>, AllocError>
    requires { IsLawful (plain_options options.now) }
    ensures { IfOk result (λ line. (known : List (List ℕ)) →
        line ≡ option_map (λ p. p.header.opening) (reserved_patch (plain_options options.now) known (map (patch_of text.now) patches.now))) }
{
    let by_output = reserves_output(alloc, options)?;
    for patch in patches {
        if has_reserved(alloc, text, options, by_output, &patch.header)? {
            return Ok(Some(patch.header.opening));
        }
    }
    Ok(None)
}

/// Whether the output's target has a name of a temporary.
fn reserves_output(alloc: Global, options: &Options) -> Result<bool, AllocError>
    requires { IsLawful (plain_options options.now) }
    ensures { IfOk result (λ has. (known : List (List ℕ)) → has ≡ reserves_output (plain_options options.now) known) }
{
    match &options.output {
        Some(name) => is_reserving(alloc, options, name),
        None => Ok(false),
    }
}

/// Whether the output's target has one, or a target of the file patch with this header.
fn has_reserved(
    alloc: Global,
    text: &[u8],
    options: &Options,
    by_output: bool,
    header: &Header,
) -> Result<bool, AllocError>
    requires { IsLawful (plain_options options.now) }
    ensures { IfOk result (λ has. (known : List (List ℕ)) →
        has ≡ (list_any is_reserved (targets_of (plain_options options.now) known (header_of text.now header.now)) || by_output)) }
{
    if by_output {
        return Ok(true);
    }
    let names = names_of(alloc, text, options, header)?;
    any_reserving(alloc, options, &names)
}

/// Whether the target of one of these names has one.
fn any_reserving(alloc: Global, options: &Options, names: &[Name]) -> Result<bool, AllocError>
    requires { IsLawful (plain_options options.now) }
    ensures { IfOk result (λ has. (known : List (List ℕ)) →
        has ≡ list_any is_reserved (map (target_in (plain_options options.now) known) names.now)) }
{
    for name in names {
        if is_reserving(alloc, options, name)? {
            return Ok(true);
        }
    }
    Ok(false)
}

/// Whether the target with this name has one, whatever its number is.
fn is_reserving(alloc: Global, options: &Options, name: &Name) -> Result<bool, AllocError>
    requires { IsLawful (plain_options options.now) }
    ensures { IfOk result (λ is. (known : List (List ℕ)) → is ≡ is_reserved (target_in (plain_options options.now) known name.now)) }
{
    let target = Target::new(alloc, options, name, 0)?;
    Ok(target.is_reserved())
}
