//! Room for marks at the names that a run makes or takes away. It is made where a set is read, since a run takes no memory.
//! Names are marked, and not the numbers of targets: a name that is given absolute and one below the directory of `-d` may be
//! one name. A second run over a set has no marks, and looks through the file patches before for each backup.
ghost use Rattle.std.specs.Prelude.{◌≡◌, All, IfOk, OnOk, is_some};
ghost use Rattle.std.specs.Option.{ForSome};
ghost use Rattle.patch_options.specs.PlainJob.{plain_options};
ghost use Rattle.patch_set.specs.Room.{are_asked, AreBlank, AreUnmarked, GivesRoom, HasRoom, HaveRoom};

use outside::WrittenNames;
use patch_options::Options;
use read_file_patch::{FilePatch, Target};
use std::alloc::{AllocError, Global};

/// Whether a run can ask for a backup, of which it has to know whether it made or took away the file itself.
pub fn are_asked(options: &Options) -> bool
    ensures { result ≡ are_asked (plain_options options.now) }
{
    if options.dry_run {
        return false;
    }
    options.backup || options.mismatch_backup
}

/// Marks with room for the names of all targets and the output's, where they are asked for.
pub fn room_if(
    alloc: Global,
    asked: bool,
    patches: &[FilePatch],
    output: &Option<Target>,
) -> Result<Option<WrittenNames>, AllocError>
    ensures blank { IfOk result (AreBlank patches.now output.now) }
    ensures asked { IfOk result (λ marks. is_some marks ≡ asked) }
{
    if !asked {
        return Ok(None);
    }
    let names = room_for(alloc, patches, output)?;
    Ok(Some(names))
}

fn room_for(
    alloc: Global,
    patches: &[FilePatch],
    output: &Option<Target>,
) -> Result<WrittenNames, AllocError>
    ensures unmarked { IfOk result AreUnmarked }
    ensures room { IfOk result (HaveRoom patches.now output.now) }
{
    let mut names = WrittenNames::new(alloc);
    for patch in patches {
        add_targets(alloc, &patch.targets, &mut names)?;
    }
    add_output(alloc, output, &mut names)?;
    Ok(names)
}

fn add_targets(
    alloc: Global,
    targets: &[Target],
    names: &mut WrittenNames,
) -> Result<(), AllocError>
    ensures gives { OnOk result (GivesRoom names.old names.new) }
    ensures room { OnOk result (All (HasRoom names.new) targets.now) }
{
    for target in targets {
        names.add(alloc, &target.name)?;
    }
    Ok(())
}

fn add_output(
    alloc: Global,
    output: &Option<Target>,
    names: &mut WrittenNames,
) -> Result<(), AllocError>
    ensures gives { OnOk result (GivesRoom names.old names.new) }
    ensures room { OnOk result (ForSome output.now (HasRoom names.new)) }
{
    match output {
        Some(target) => names.add(alloc, &target.name),
        None => Ok(()),
    }
}
