//! Backups with numbers (GNU patch manual, "Backup Files"): before the first change the targets of a set get the names of those
//! that come next. What is asked of the tree is told by its last numbers. Stands on `patch_set`. Begin with `specs/Numbering.antt`.
#![tactic(auto)]

ghost use Rattle.std.specs.Prelude.{◌≡◌, ◌<◌, ◌-◌, ◌^◌, Some, None, nat_lt, if◌then◌else◌, IfOk, IfErr, OnOk};
ghost use Rattle.outside.specs.Calls.{IsUntouched};
ghost use Rattle.outside.specs.Numbered.{numbered};
ghost use Rattle.patch_options.specs.PlainJob.{plain_options};
ghost use Rattle.patch_set.specs.Room.{are_asked};
ghost use Rattle.patch_set.specs.SetView.{IsWhole};
ghost use Rattle.apply_backup_numbers.specs.Numbering.{asks_numbers, have_numbers, next_number, with_backup};
ghost use Rattle.apply_backup_numbers.specs.Renumbered.{Each, IsNumbered, IsNumberedIf, IsRetargeted, AreRetargeted, IsRenumbered, HasCause};

use numbered_name::numbered;
use outside::{Failed, Tree};
use patch_options::{BackupNumbers, Options};
use patch_set::{NamedPatches, PatchSet, are_asked, take_apart, untried};
use read_file_patch::{FilePatch, Target};
use std::alloc::{AllocError, Global};

/// Why the numbers aren't known.
#[derive(Clone, Copy)]
pub enum NumberFault {
    /// A call of the tree failed.
    Tree,
    Memory,
}

impl From<Failed> for NumberFault {
    ghost use Rattle.apply_backup_numbers.specs.declared.NumberFault.TheVariants.{Tree};

    ghost from_gives = { λ _ e. e ≡ Tree };

    fn from(_: Failed) -> Self {
        NumberFault::Tree
    }
}

impl From<AllocError> for NumberFault {
    ghost use Rattle.apply_backup_numbers.specs.declared.NumberFault.TheVariants.{Memory};

    ghost from_gives = { λ _ e. e ≡ Memory };

    fn from(_: AllocError) -> Self {
        NumberFault::Memory
    }
}

/// Whether a run with these options can ask for a backup that may have a number.
pub fn asks_numbers(options: &Options) -> bool
    ensures { result ≡ asks_numbers (plain_options options.now) }
{
    are_asked(options) && have_numbers(options.numbers)
}

fn have_numbers(numbers: BackupNumbers) -> bool
    ensures { result ≡ have_numbers numbers }
{
    match numbers {
        BackupNumbers::Never => false,
        BackupNumbers::Existing | BackupNumbers::Always => true,
    }
}

/// The same set with the backups that come next, of which nothing was tried yet. The tree is asked for the last number behind the
/// name of each target.
pub fn number_backups<T: Tree>(
    alloc: Global,
    options: &Options,
    set: PatchSet,
    tree: &mut T,
) -> Result<PatchSet, NumberFault>
    ensures untouched { IsUntouched (T.view tree.old) (T.view tree.new) }
    ensures cause { IfErr result (λ fault. HasCause fault (T.view tree.old) (T.view tree.new)) }
    ensures set { IfOk result (IsRenumbered options.now.numbers (T.view tree.old).told set) }
    ensures whole { IfOk result IsWhole }
    ensures marks { IfOk result (λ made. made.has_marks ≡ are_asked (plain_options options.now)) }
{
    let mut parts = take_apart(set);
    match number_all(alloc, options.numbers, &mut parts.named, tree) {
        Ok(()) => Ok(untried(
            alloc,
            parts.text,
            parts.ways,
            parts.named,
            are_asked(options),
        )?),
        Err(fault) => {
            drop(parts);
            Err(fault)
        }
    }
}

fn number_all<T: Tree>(
    alloc: Global,
    numbers: BackupNumbers,
    named: &mut NamedPatches,
    tree: &mut T,
) -> Result<(), NumberFault>
    ensures untouched { IsUntouched (T.view tree.old) (T.view tree.new) }
    ensures cause { IfErr result (λ fault. HasCause fault (T.view tree.old) (T.view tree.new)) }
    ensures all { OnOk result (AreRetargeted numbers (T.view tree.old).told named.old named.new) }
{
    number_patches(alloc, numbers, named.patches.as_mut_slice(), tree)?;
    number_output(alloc, numbers, &mut named.output, tree)
}

fn number_patches<T: Tree>(
    alloc: Global,
    numbers: BackupNumbers,
    patches: &mut [FilePatch],
    tree: &mut T,
) -> Result<(), NumberFault>
    ensures untouched { IsUntouched (T.view tree.old) (T.view tree.new) }
    ensures cause { IfErr result (λ fault. HasCause fault (T.view tree.old) (T.view tree.new)) }
    ensures each { OnOk result (Each (IsRetargeted numbers (T.view tree.old).told) patches.old patches.new) }
{
    for patch in patches.iter_mut() {
        number_patch(alloc, numbers, patch, tree)?;
    }
    Ok(())
}

fn number_patch<T: Tree>(
    alloc: Global,
    numbers: BackupNumbers,
    patch: &mut FilePatch,
    tree: &mut T,
) -> Result<(), NumberFault>
    ensures untouched { IsUntouched (T.view tree.old) (T.view tree.new) }
    ensures cause { IfErr result (λ fault. HasCause fault (T.view tree.old) (T.view tree.new)) }
    ensures retargeted { OnOk result (IsRetargeted numbers (T.view tree.old).told patch.old patch.new) }
{
    number_targets(alloc, numbers, patch.targets.as_mut_slice(), tree)
}

fn number_targets<T: Tree>(
    alloc: Global,
    numbers: BackupNumbers,
    targets: &mut [Target],
    tree: &mut T,
) -> Result<(), NumberFault>
    ensures untouched { IsUntouched (T.view tree.old) (T.view tree.new) }
    ensures cause { IfErr result (λ fault. HasCause fault (T.view tree.old) (T.view tree.new)) }
    ensures each { OnOk result (Each (IsNumbered numbers (T.view tree.old).told) targets.old targets.new) }
{
    for target in targets.iter_mut() {
        number_target(alloc, numbers, target, tree)?;
    }
    Ok(())
}

fn number_output<T: Tree>(
    alloc: Global,
    numbers: BackupNumbers,
    output: &mut Option<Target>,
    tree: &mut T,
) -> Result<(), NumberFault>
    ensures untouched { IsUntouched (T.view tree.old) (T.view tree.new) }
    ensures cause { IfErr result (λ fault. HasCause fault (T.view tree.old) (T.view tree.new)) }
    ensures numbered { OnOk result (IsNumberedIf numbers (T.view tree.old).told output.old output.new) }
{
    match output {
        Some(target) => number_target(alloc, numbers, target, tree),
        None => Ok(()),
    }
}

fn number_target<T: Tree>(
    alloc: Global,
    numbers: BackupNumbers,
    target: &mut Target,
    tree: &mut T,
) -> Result<(), NumberFault>
    ensures untouched { IsUntouched (T.view tree.old) (T.view tree.new) }
    ensures cause { IfErr result (λ fault. HasCause fault (T.view tree.old) (T.view tree.new)) }
    ensures numbered { OnOk result (IsNumbered numbers (T.view tree.old).told target.old target.new) }
{
    let last = tree.last_number(&target.name)?;
    match next_number(numbers, last) {
        Some(number) => Ok(give_backup(alloc, target, number)?),
        None => Ok(()),
    }
}

fn next_number(numbers: BackupNumbers, last: u64) -> Option<u64>
    ensures { last < 2 ^ 64 - 1 → result ≡ next_number numbers last }
{
    let next = last.saturating_add(1);
    match numbers {
        BackupNumbers::Never => None,
        BackupNumbers::Existing => behind_some(last, next),
        BackupNumbers::Always => Some(next),
    }
}

fn behind_some(last: u64, next: u64) -> Option<u64>
    ensures { result ≡ (if nat_lt 0 last then Some next else None) }
{
    if last > 0 { Some(next) } else { None }
}

/// Gives a target the backup with this number.
fn give_backup(alloc: Global, target: &mut Target, number: u64) -> Result<(), AllocError>
    ensures { OnOk result (target.new ≡ with_backup (numbered target.old.name number) target.old) }
{
    let backup = numbered(alloc, &target.name, number)?;
    let temp = backup.temporary(alloc)?;
    target.backup = backup;
    target.backup_temp = temp;
    Ok(())
}
