//! The names that a push saves.
ghost use Rattle.std.specs.Prelude.{◌≡◌, ◌<◌, ◌^◌, ◌||◌, ◌++◌, ◌∷◌, [], ℕ, List, None, Some, if◌then◌else◌, OnOk, IfOk};
ghost use Rattle.std.specs.List.{fold};
ghost use Rattle.series_stack.specs.Saves.{is_of_stack};
ghost use Rattle.patch_set.specs.SetView.{IsRead, plain_patches};
ghost use Rattle.series_stack.specs.Commands.{names_of, own_line};
ghost use Rattle.stack_patch.specs.Reading.{push_options, targets_for};
ghost use Rattle.stack_patch.specs.Gathering.{gathered, with_names, with_patch, with_target};

use outside::Name;
use patch_set::{FilePatch, PatchSet, Target};
use std::alloc::{AllocError, Global};

/// What a push saves.
#[derive(Drop)]
pub struct Saved {
    /// Each distinct target's name and then that of its reject file, in the order in which they first come.
    pub names: Vec<Name>,
    /// The line that opens the first file patch with a name of the stack, if there is one.
    pub own: Option<u64>,
    /// How many distinct targets there are.
    pub count: u64,
}

/// The names that the file patches of a push can change.
pub fn saved_names(alloc: Global, set: &PatchSet) -> Result<Saved, AllocError>
    requires read { (given : List ℕ) × IsRead push_options given set.now }
    ensures names { IfOk result (λ s. s.names.items ≡ names_of (targets_for push_options (plain_patches set.now))) }
    ensures own { IfOk result (λ s. s.own ≡ own_line (targets_for push_options (plain_patches set.now))) }
{
    let mut saved = Saved {
        names: Vec::new(alloc),
        own: None,
        count: 0,
    };
    for patch in set.patches() {
        add_patch(alloc, patch, &mut saved)?;
    }
    Ok(saved)
}

fn add_patch(alloc: Global, patch: &FilePatch, saved: &mut Saved) -> Result<(), AllocError>
    ensures { OnOk result (gathered saved.new ≡ with_patch (gathered saved.old) patch.now) }
{
    let line = patch.header.opening;
    for target in patch.targets.iter() {
        add_target(alloc, target, line, saved)?;
    }
    Ok(())
}

fn add_target(
    alloc: Global,
    target: &Target,
    line: u64,
    saved: &mut Saved,
) -> Result<(), AllocError>
    ensures { OnOk result (gathered saved.new ≡ with_target line (gathered saved.old) target.now) }
{
    if u64::from(target.number) < saved.count {
        return Ok(());
    }
    add_names(alloc, target, line, saved)
}

fn add_names(alloc: Global, target: &Target, line: u64, saved: &mut Saved) -> Result<(), AllocError>
    requires { saved.old.count < 2 ^ 32 }
    ensures { OnOk result (gathered saved.new ≡ with_names line (gathered saved.old) target.now) }
{
    let name = target.name.copy(alloc)?;
    let reject = target.reject.copy(alloc)?;
    push_both(&mut saved.names, name, reject)?;
    saved.own = saved.own.or(own_here(target, line));
    saved.count += 1;
    Ok(())
}

fn push_both(names: &mut Vec<Name>, name: Name, reject: Name) -> Result<(), AllocError>
    ensures { OnOk result (names.new.items ≡ names.old.items ++ name ∷ reject ∷ []) }
{
    names.push(name)?;
    names.push(reject)?;
    Ok(())
}

fn own_here(target: &Target, line: u64) -> Option<u64>
    ensures { result ≡ (if is_of_stack target.now.name || is_of_stack target.now.reject then Some line else None) }
{
    if has_own(target) { Some(line) } else { None }
}

fn has_own(target: &Target) -> bool
    ensures { result ≡ (is_of_stack target.now.name || is_of_stack target.now.reject) }
{
    is_of_stack(&target.name) || is_of_stack(&target.reject)
}

fn is_of_stack(name: &Name) -> bool
    ensures { result ≡ is_of_stack name.now }
{
    let text = name.text().as_bytes();
    text.starts_with(b".pc/") || text.starts_with(b"patches/")
}
