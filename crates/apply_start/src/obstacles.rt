//! What is in the way of a file patch, and whether it is about a symbolic link. No told tree answers that anything is.

ghost use Rattle.std.specs.Prelude.{◌≡◌, ◌<◌, ◌&&◌, ◌⊎◌, length, drop, true, false, is_some, is_none, None, Some, IfOk, OnErr};
ghost use Rattle.std.specs.Option.{ForSome};
ghost use Rattle.outside.specs.Files.{Files};
ghost use Rattle.outside.specs.TreeView.{Rises};
ghost use Rattle.outside.specs.Calls.{IsThere, IsUntouched};
ghost use Rattle.patch_options.specs.declared.options.ReadOnlyFiles.TheVariants.{Refused};
ghost use Rattle.apply_task.specs.Kinds.{is_link};
ghost use Rattle.apply_task.specs.Named.{IsNamed};
ghost use Rattle.apply_task.specs.Asking.{renames};
ghost use Rattle.apply_task.specs.Contexts.{bytes_of, shown_reject, target_at};
ghost use Rattle.apply_task.specs.TaskView.{plain_task, IsTask};
ghost use Rattle.apply_start.specs.Refusing.{IsFor, IsForBackup, IsBarrierToBackups, IsBarrierToTarget, IsBarrierOfKind, IsBarrierToWriting, IsBarrier, is_apart};

use crate::indexed::keeps_link;
use apply_task::{Task, chosen, is_link, renames, shown, shown_reject, written};
use outside::{Failed, Name, Tree};
use patch_options::{Options, ReadOnlyFiles};
use read_file_patch::Target;

/// What is in the way. Names are as messages show them.
#[derive(Clone, Copy)]
pub enum Barrier<'a> {
    /// No file can be put at this name, or no symbolic link, where one is meant to stand there.
    Kind { name: &'a str, link: bool },
    /// The file of this name may not be written to, and the options ask to leave it then.
    ReadOnly { name: &'a str },
}

/// Whether the file patch is about a symbolic link: as its modes say, or since it finds one.
pub fn is_about_link<T: Tree>(task: &Task<'_>, place: u32, tree: &mut T) -> Result<bool, Failed>
    requires task { IsTask task.now }
    requires within { place < length task.now.patch.now.targets.items }
    ensures untouched { IsUntouched (T.view tree.old) (T.view tree.new) }
    ensures cause { OnErr result (Rises (T.view tree.old) (T.view tree.new)) }
    ensures link { IfOk result (λ yes. (f : Files) → (T.view tree.old).told ≡ Some f → yes ≡ is_link (plain_task task.now).item.patch) }
{
    if is_link(task) {
        Ok(true)
    } else {
        finds_link(task, &chosen(task, place).name, tree)
    }
}

/// Whether it finds what is no regular file where that can be a link, as no tree tells.
fn finds_link<T: Tree>(task: &Task<'_>, name: &Name, tree: &mut T) -> Result<bool, Failed>
    ensures untouched { IsUntouched (T.view tree.old) (T.view tree.new) }
    ensures cause { OnErr result (Rises (T.view tree.old) (T.view tree.new)) }
    ensures free { IfOk result (λ yes. (f : Files) → (T.view tree.old).told ≡ Some f → yes ≡ false) }
{
    match tree.is_barred(name, false) {
        Ok(false) => Ok(false),
        Ok(true) => Ok(keeps_link(task)),
        Err(failed) => Err(failed),
    }
}

/// What is in the way first.
pub fn obstacle<'a, T: Tree>(
    task: &Task<'a>,
    place: u32,
    there: bool,
    link: bool,
    tree: &mut T,
) -> Result<Option<Barrier<'a>>, Failed>
    requires task { IsTask task.now }
    requires within { place < length task.now.patch.now.targets.items }
    requires there { (f : Files) → (T.view tree.old).told ≡ Some f → there ≡ is_some (bytes_of (plain_task task.now) f place) }
    ensures untouched { IsUntouched (T.view tree.old) (T.view tree.new) }
    ensures cause { OnErr result (Rises (T.view tree.old) (T.view tree.new)) }
    ensures free { IfOk result (λ found. (f : Files) → (T.view tree.old).told ≡ Some f → found ≡ None) }
    ensures names { IfOk result (λ found. ForSome found (IsBarrier (plain_task task.now) place link)) }
{
    match obstacle_of_kind(task, place, link, tree) {
        Ok(None) => obstacle_to_writing(task, place, there, link, tree),
        Ok(Some(barrier)) => Ok(Some(barrier)),
        Err(failed) => Err(failed),
    }
}

/// A file that is there and may not be written to, with `--read-only=fail`. A link's text is never read-only.
fn obstacle_to_writing<'a, T: Tree>(
    task: &Task<'a>,
    place: u32,
    there: bool,
    link: bool,
    tree: &mut T,
) -> Result<Option<Barrier<'a>>, Failed>
    requires task { IsTask task.now }
    requires within { place < length task.now.patch.now.targets.items }
    requires there { (f : Files) → (T.view tree.old).told ≡ Some f → there ≡ is_some (bytes_of (plain_task task.now) f place) }
    ensures untouched { IsUntouched (T.view tree.old) (T.view tree.new) }
    ensures cause { OnErr result (Rises (T.view tree.old) (T.view tree.new)) }
    ensures free { IfOk result (λ found. (f : Files) → (T.view tree.old).told ≡ Some f → found ≡ None) }
    ensures names { IfOk result (λ found. ForSome found (IsBarrierToWriting (plain_task task.now) place link)) }
{
    if link {
        return Ok(None);
    }
    if !there {
        return Ok(None);
    }
    let source = chosen(task, place);
    match is_left(task.options, &source.name, tree) {
        Ok(false) => Ok(None),
        Ok(true) => Ok(Some(Barrier::ReadOnly {
            name: shown(source),
        })),
        Err(failed) => Err(failed),
    }
}

/// Whether the options ask to leave a file that may not be written to, and this is one.
fn is_left<T: Tree>(options: &Options, name: &Name, tree: &mut T) -> Result<bool, Failed>
    requires there { IsThere (T.view tree.old) name.now }
    ensures untouched { IsUntouched (T.view tree.old) (T.view tree.new) }
    ensures cause { OnErr result (Rises (T.view tree.old) (T.view tree.new)) }
    ensures free { IfOk result (λ yes. (f : Files) → (T.view tree.old).told ≡ Some f → yes ≡ false) }
    ensures only { IfOk result (λ yes. yes ≡ true → options.now.read_only ≡ Refused) }
{
    match options.read_only {
        ReadOnlyFiles::Told | ReadOnlyFiles::Replaced => Ok(false),
        ReadOnlyFiles::Refused => tree.is_read_only(name),
    }
}

/// The first of its names at which something stands that the file patch can't be about, or on the way to which something is no
/// directory: the file that it reads, the one that it writes, with `-b` their backups.
fn obstacle_of_kind<'a, T: Tree>(
    task: &Task<'a>,
    place: u32,
    link: bool,
    tree: &mut T,
) -> Result<Option<Barrier<'a>>, Failed>
    requires task { IsTask task.now }
    requires within { place < length task.now.patch.now.targets.items }
    ensures untouched { IsUntouched (T.view tree.old) (T.view tree.new) }
    ensures cause { OnErr result (Rises (T.view tree.old) (T.view tree.new)) }
    ensures free { IfOk result (λ found. (f : Files) → (T.view tree.old).told ≡ Some f → found ≡ None) }
    ensures names { IfOk result (λ found. ForSome found (IsBarrierOfKind (plain_task task.now) place link)) }
{
    let source = chosen(task, place);
    match ask_if(true, &source.name, link, tree) {
        Ok(false) => obstacle_to_target(task, place, link, tree),
        Ok(true) => Ok(Some(Barrier::Kind {
            name: shown(source),
            link,
        })),
        Err(failed) => Err(failed),
    }
}

/// What is in the way at the name that a file is to get, and at the output that the options name, which is never a link.
fn obstacle_to_target<'a, T: Tree>(
    task: &Task<'a>,
    place: u32,
    link: bool,
    tree: &mut T,
) -> Result<Option<Barrier<'a>>, Failed>
    requires task { IsTask task.now }
    requires within { place < length task.now.patch.now.targets.items }
    ensures untouched { IsUntouched (T.view tree.old) (T.view tree.new) }
    ensures cause { OnErr result (Rises (T.view tree.old) (T.view tree.new)) }
    ensures free { IfOk result (λ found. (f : Files) → (T.view tree.old).told ≡ Some f → found ≡ None) }
    ensures names { IfOk result (λ found. ForSome found (IsBarrierToTarget (plain_task task.now) place link)) }
{
    let target = written(task, place);
    let link = link && task.options.output.is_none();
    match ask_if(is_apart(task), &target.name, link, tree) {
        Ok(false) => obstacle_to_backups(task, place, tree),
        Ok(true) => Ok(Some(Barrier::Kind {
            name: shown(target),
            link,
        })),
        Err(failed) => Err(failed),
    }
}

/// Whether the file that is written may be another one than that which is read.
fn is_apart(task: &Task<'_>) -> bool
    ensures { result ≡ is_apart (plain_task task.now) }
{
    task.options.output.is_some() || task.patch.is_moved()
}

/// What is in the way of the backups: of a rename the source has one too.
fn obstacle_to_backups<'a, T: Tree>(
    task: &Task<'a>,
    place: u32,
    tree: &mut T,
) -> Result<Option<Barrier<'a>>, Failed>
    requires task { IsTask task.now }
    requires within { place < length task.now.patch.now.targets.items }
    ensures untouched { IsUntouched (T.view tree.old) (T.view tree.new) }
    ensures cause { OnErr result (Rises (T.view tree.old) (T.view tree.new)) }
    ensures free { IfOk result (λ found. (f : Files) → (T.view tree.old).told ≡ Some f → found ≡ None) }
    ensures names { IfOk result (λ found. ForSome found (IsBarrierToBackups (plain_task task.now) place)) }
{
    let target = written(task, place);
    match obstacle_to_backup(target, task.options.backup, tree) {
        Ok(None) => obstacle_to_source_backup(task, place, tree),
        Ok(Some(barrier)) => Ok(Some(barrier)),
        Err(failed) => Err(failed),
    }
}

fn obstacle_to_source_backup<'a, T: Tree>(
    task: &Task<'a>,
    place: u32,
    tree: &mut T,
) -> Result<Option<Barrier<'a>>, Failed>
    requires task { IsTask task.now }
    requires within { place < length task.now.patch.now.targets.items }
    ensures untouched { IsUntouched (T.view tree.old) (T.view tree.new) }
    ensures cause { OnErr result (Rises (T.view tree.old) (T.view tree.new)) }
    ensures free { IfOk result (λ found. (f : Files) → (T.view tree.old).told ≡ Some f → found ≡ None) }
    ensures names { IfOk result (λ found. ForSome found (λ barrier. ((task.now.options.now.backup && renames (plain_task task.now).item.patch) ≡ true) × IsForBackup (target_at (plain_task task.now).item.targets place) barrier)) }
{
    obstacle_to_backup(chosen(task, place), keeps_source(task), tree)
}

/// Whether the options ask for a backup of the file that a rename takes away.
fn keeps_source(task: &Task<'_>) -> bool
    ensures { result ≡ (task.now.options.now.backup && renames (plain_task task.now).item.patch) }
{
    task.options.backup && renames(task.patch)
}

/// What is in the way of one backup, where that is asked for: it is what stands at the target's name.
pub fn obstacle_to_backup<'a, T: Tree>(
    target: &'a Target,
    is_asked: bool,
    tree: &mut T,
) -> Result<Option<Barrier<'a>>, Failed>
    ensures untouched { IsUntouched (T.view tree.old) (T.view tree.new) }
    ensures cause { OnErr result (Rises (T.view tree.old) (T.view tree.new)) }
    ensures free { IfOk result (λ found. (f : Files) → (T.view tree.old).told ≡ Some f → found ≡ None) }
    ensures names { IfOk result (λ found. ForSome found (λ barrier. (is_asked ≡ true) × IsForBackup target.now barrier)) }
{
    match ask_if(is_asked, &target.name, false, tree) {
        Ok(link) => obstacle_at_backup(target, is_asked, link, tree),
        Err(failed) => Err(failed),
    }
}

fn obstacle_at_backup<'a, T: Tree>(
    target: &'a Target,
    is_asked: bool,
    link: bool,
    tree: &mut T,
) -> Result<Option<Barrier<'a>>, Failed>
    ensures untouched { IsUntouched (T.view tree.old) (T.view tree.new) }
    ensures cause { OnErr result (Rises (T.view tree.old) (T.view tree.new)) }
    ensures free { IfOk result (λ found. (f : Files) → (T.view tree.old).told ≡ Some f → found ≡ None) }
    ensures names { IfOk result (λ found. ForSome found (λ barrier. (is_asked ≡ true) × IsForBackup target.now barrier)) }
{
    match ask_if(is_asked, &target.backup, link, tree) {
        Ok(false) => Ok(None),
        Ok(true) => Ok(Some(Barrier::Kind {
            name: shown_backup(target),
            link,
        })),
        Err(failed) => Err(failed),
    }
}

/// Whether no file can be put at a name, or no link, which is asked only where it counts.
fn ask_if<T: Tree>(counts: bool, name: &Name, link: bool, tree: &mut T) -> Result<bool, Failed>
    ensures untouched { IsUntouched (T.view tree.old) (T.view tree.new) }
    ensures cause { OnErr result (Rises (T.view tree.old) (T.view tree.new)) }
    ensures free { IfOk result (λ yes. (f : Files) → (T.view tree.old).told ≡ Some f → yes ≡ false) }
    ensures asked { IfOk result (λ yes. yes ≡ true → counts ≡ true) }
{
    if !counts {
        return Ok(false);
    }
    let barred = tree.is_barred(name, link)?;
    Ok(barred)
}

/// What is in the way of the reject file, where one is asked for.
pub fn obstacle_to_rejects<'a, T: Tree>(
    target: &'a Target,
    is_asked: bool,
    tree: &mut T,
) -> Result<Option<Barrier<'a>>, Failed>
    requires named { IsNamed target.now }
    ensures untouched { IsUntouched (T.view tree.old) (T.view tree.new) }
    ensures cause { OnErr result (Rises (T.view tree.old) (T.view tree.new)) }
    ensures free { IfOk result (λ found. (f : Files) → (T.view tree.old).told ≡ Some f → found ≡ None) }
    ensures names { IfOk result (λ found. ForSome found (λ barrier. (is_asked ≡ true) × IsFor (shown_reject target.now) false barrier)) }
{
    match ask_if(is_asked, &target.reject, false, tree) {
        Ok(false) => Ok(None),
        Ok(true) => Ok(Some(Barrier::Kind {
            name: shown_reject(target),
            link: false,
        })),
        Err(failed) => Err(failed),
    }
}

/// The backup's name as messages show it.
fn shown_backup(target: &Target) -> &str
    ensures { (result.now ≡ drop target.now.shown_from target.now.backup) ⊎ (result.now ≡ target.now.backup) }
{
    let name = target.backup.text();
    match name.get(target.shown_from..) {
        Some(shown) => shown,
        None => name,
    }
}
