//! The targets of file patches.
ghost use Rattle.std.specs.Prelude.{◌≡◌, ◌++◌, ℕ, List, [], IfOk, OnOk, All, length, map};
ghost use Rattle.std.specs.Option.{ForSome, option_copied, option_to_list};
ghost use Rattle.read_file_patch.specs.PlainPatch.{bytes_in, header_of, patch_of};
ghost use Rattle.patch_options.specs.PlainJob.{plain_options, IsLawful};
ghost use Rattle.read_file_patch.specs.Candidates.{candidates};
ghost use Rattle.read_file_patch.specs.Moved.{moved_names};
ghost use Rattle.read_file_patch.specs.Actions.{is_moved};
ghost use Rattle.read_file_patch.specs.Numbered.{number_in, with_name, joined_by};
ghost use Rattle.read_file_patch.specs.Targets.{target_of, HasTemps};
ghost use Rattle.patch_set.specs.Named.{known_names, names_of, output_of, own_names, patch_names, target_in};
ghost use Rattle.patch_set.specs.Naming.{IsNamed, AreNamed};

use crate::asked::is_posix;
use line_list::Span;
use outside::Name;
use patch_options::Options;
use read_file_patch::{FilePatch, Numbers, Target, candidates, moved_names};
use read_header_record::{Action, Header};
use std::alloc::{AllocError, Global};

/// File patches with their targets, and the output's target.
#[derive(Drop)]
pub struct NamedPatches {
    pub patches: Vec<FilePatch>,
    pub output: Option<Target>,
}

/// Gives the file patches of a text their targets.
pub fn name_all(
    alloc: Global,
    text: &[u8],
    options: &Options,
    patches: Vec<FilePatch>,
) -> Result<NamedPatches, AllocError>
    requires { IsLawful (plain_options options.now) }
    ensures patches { IfOk result (λ named.
        AreNamed (plain_options options.now) text.now (known_names (plain_options options.now) (map (patch_of text.now) patches.items)) patches.items named.patches.items) }
    ensures output { IfOk result (λ named.
        named.output ≡ output_of (plain_options options.now) (known_names (plain_options options.now) (map (patch_of text.now) patches.items))) }
    ensures temps { IfOk result (λ named. ForSome named.output HasTemps) }
{
    let mut patches = patches;
    let mut numbers = Numbers::new(alloc);
    name_patches(alloc, text, options, &mut numbers, patches.as_mut_slice())?;
    let output = name_output(alloc, options, &mut numbers)?;
    Ok(NamedPatches { patches, output })
}

fn name_output(
    alloc: Global,
    options: &Options,
    numbers: &mut Numbers,
) -> Result<Option<Target>, AllocError>
    requires { IsLawful (plain_options options.now) }
    ensures output { IfOk result (λ output. output ≡ output_of (plain_options options.now) (joined_by numbers.old (option_to_list options.now.output))) }
    ensures temps { IfOk result (λ output. ForSome output HasTemps) }
{
    match &options.output {
        Some(name) => Ok(Some(target(alloc, options, numbers, name)?)),
        None => Ok(None),
    }
}

fn name_patches(
    alloc: Global,
    text: &[u8],
    options: &Options,
    numbers: &mut Numbers,
    patches: &mut [FilePatch],
) -> Result<(), AllocError>
    requires { IsLawful (plain_options options.now) }
    ensures known { OnOk result (numbers.new ≡ joined_by numbers.old (patch_names (plain_options options.now) (map (patch_of text.now) patches.old))) }
    ensures named { OnOk result ((others : List (List ℕ)) → AreNamed (plain_options options.now) text.now (joined_by numbers.new others) patches.old patches.new) }
{
    for patch in patches.iter_mut() {
        name_patch(alloc, text, options, numbers, patch)?;
    }
    Ok(())
}

fn name_patch(
    alloc: Global,
    text: &[u8],
    options: &Options,
    numbers: &mut Numbers,
    patch: &mut FilePatch,
) -> Result<(), AllocError>
    requires { IsLawful (plain_options options.now) }
    ensures known { OnOk result (numbers.new ≡ joined_by numbers.old (names_of (plain_options options.now) (header_of text.now patch.old.header))) }
    ensures named { OnOk result ((others : List (List ℕ)) → IsNamed (plain_options options.now) text.now (joined_by numbers.new others) patch.old patch.new) }
{
    let names = names_of(alloc, text, options, &patch.header)?;
    patch.targets = targets_for(alloc, options, numbers, &names)?;
    Ok(())
}

/// The targets with these names.
fn targets_for(
    alloc: Global,
    options: &Options,
    numbers: &mut Numbers,
    names: &[Name],
) -> Result<Vec<Target>, AllocError>
    requires { IsLawful (plain_options options.now) }
    ensures known { OnOk result (numbers.new ≡ joined_by numbers.old names.now) }
    ensures targets { IfOk result (λ targets. (others : List (List ℕ)) →
        targets.items ≡ map (target_in (plain_options options.now) (joined_by numbers.new others)) names.now) }
    ensures temps { IfOk result (λ targets. All HasTemps targets.items) }
{
    let mut targets = Vec::with_capacity(alloc, names.len())?;
    for name in names {
        targets.push(target(alloc, options, numbers, name)?)?;
    }
    Ok(targets)
}

/// The target with a name, whose number is a new one if the name has none.
fn target(
    alloc: Global,
    options: &Options,
    numbers: &mut Numbers,
    name: &Name,
) -> Result<Target, AllocError>
    requires { IsLawful (plain_options options.now) }
    ensures known { OnOk result (numbers.new ≡ with_name numbers.old name.now) }
    ensures target { IfOk result (λ target. target ≡ target_in (plain_options options.now) numbers.new name.now) }
    ensures temps { IfOk result HasTemps }
{
    let number = numbers.number(alloc, name)?;
    Target::new(alloc, options, name, number)
}

/// The names that a file patch with this header can be meant for: the file operand, or its own.
pub fn names_of(
    alloc: Global,
    text: &[u8],
    options: &Options,
    header: &Header,
) -> Result<Vec<Name>, AllocError>
    ensures names { IfOk result (λ names. names.items ≡ names_of (plain_options options.now) (header_of text.now header.now)) }
{
    match &options.file {
        Some(file) => Ok(vec![in alloc; file.copy(alloc)?]?),
        None => own_names(alloc, text, options, header),
    }
}

/// The names that a header gives: of a rename or a copy the one that the file has and the one that it gets, else the
/// candidates.
fn own_names(
    alloc: Global,
    text: &[u8],
    options: &Options,
    header: &Header,
) -> Result<Vec<Name>, AllocError>
    ensures names { IfOk result (λ names. names.items ≡ own_names (plain_options options.now) (header_of text.now header.now)) }
{
    match header.action {
        Action::Rename | Action::Copy => moved_names(
            alloc,
            options.strip,
            bytes_in(text, header.from),
            bytes_in(text, header.to),
        ),
        Action::Plain | Action::New | Action::Deleted => candidates(
            alloc,
            options.strip,
            bytes_in(text, header.old_name),
            bytes_in(text, header.new_name),
            bytes_in(text, header.index),
            is_posix(options),
        ),
    }
}

/// The bytes of a span, as far as it lies in the text.
pub fn bytes_in(text: &[u8], span: Option<Span>) -> Option<&[u8]>
    ensures { option_copied result ≡ bytes_in text.now span }
{
    let span = span?;
    let end = usize::min(span.end as usize, text.len());
    let start = usize::min(span.start as usize, end);
    Some(&text[start..end])
}
