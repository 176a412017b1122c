//! The refusals of a set, in their order.
ghost use Rattle.std.specs.Prelude.{◌≡◌, ◌<◌, ◌^◌, ◌∷◌, ℕ, List, false, [], length, map, option_map};
ghost use Rattle.std.specs.List.{find, list_any};
ghost use Rattle.std.specs.Option.{option_map_or};
ghost use Rattle.read_file_patch.specs.PlainPatch.{patch_of};
ghost use Rattle.patch_options.specs.PlainJob.{plain_options};
ghost use Rattle.read_file_patch.specs.Targets.{is_reserved};
ghost use Rattle.patch_set.specs.Refusals.{first_of, garbage, out_many, ed_reverse};
ghost use Rattle.patch_set.specs.Looks.{has_script, is_reserving};

use crate::SetFault;
use crate::names::NamedPatches;
use patch_options::Options;
use read_file_patch::{Change, FilePatch, Target};

/// The first of the refusals that need no names.
pub fn refused(text: &[u8], options: &Options, patches: &[FilePatch]) -> Option<SetFault>
    requires { length patches.now < 2 ^ 32 }
    ensures { result ≡ first_of (garbage text.now (map (patch_of text.now) patches.now)
        ∷ out_many (plain_options options.now) (map (patch_of text.now) patches.now)
        ∷ ed_reverse (plain_options options.now) (map (patch_of text.now) patches.now) ∷ []) }
{
    if let Some(fault) = garbage(text, patches) {
        return Some(fault);
    }
    if let Some(fault) = out_many(options, patches) {
        return Some(fault);
    }
    ed_reverse(options, patches)
}

fn garbage(text: &[u8], patches: &[FilePatch]) -> Option<SetFault>
    ensures { result ≡ garbage text.now (map (patch_of text.now) patches.now) }
{
    if patches.is_empty() && !text.is_empty() {
        Some(SetFault::Garbage)
    } else {
        None
    }
}

fn out_many(options: &Options, patches: &[FilePatch]) -> Option<SetFault>
    requires { length patches.now < 2 ^ 32 }
    ensures { (text : List ℕ) → result ≡ out_many (plain_options options.now) (map (patch_of text) patches.now) }
{
    if options.output.is_some() && patches.len() > 1 {
        let count = patches.len() as u32;
        Some(SetFault::OutMany { count })
    } else {
        None
    }
}

fn ed_reverse(options: &Options, patches: &[FilePatch]) -> Option<SetFault>
    ensures { (text : List ℕ) → result ≡ ed_reverse (plain_options options.now) (map (patch_of text) patches.now) }
{
    if !options.reverse {
        return None;
    }
    match first_script(patches) {
        Some(line) => Some(SetFault::EdReverse { line }),
        None => None,
    }
}

/// The line of the opening of the first ed script.
fn first_script(patches: &[FilePatch]) -> Option<u64>
    ensures { result ≡ option_map (λ p. p.header.opening) (find has_script patches.now) }
{
    let patch = patches.iter().find(|patch| has_script(patch))?;
    Some(patch.header.opening)
}

fn has_script(patch: &FilePatch) -> bool
    ensures { result ≡ has_script patch.now }
{
    match &patch.change {
        Change::Hunks(_) => false,
        Change::Script(_) => true,
    }
}

/// The line of the opening of the first file patch for which a name of a temporary would be written.
pub fn reserved(named: &NamedPatches) -> Option<u64>
    ensures { result ≡ option_map (λ p. p.header.opening) (find (is_reserving named.now.output) named.now.patches.items) }
{
    let by_output = is_output_reserved(&named.output);
    let patch = named
        .patches
        .iter()
        .find(|patch| any_reserved(&patch.targets) || by_output)?;
    Some(patch.header.opening)
}

fn is_output_reserved(output: &Option<Target>) -> bool
    ensures { result ≡ option_map_or is_reserved output.now false }
{
    match output {
        Some(target) => target.is_reserved(),
        None => false,
    }
}

fn any_reserved(targets: &[Target]) -> bool
    ensures { result ≡ list_any is_reserved targets.now }
{
    targets.iter().any(|target| target.is_reserved())
}
