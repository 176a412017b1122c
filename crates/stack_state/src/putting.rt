//! The files that a stack keeps of itself are put, whole at every moment.
ghost use Rattle.std.specs.Prelude.{◌≡◌, ◌∷◌, [], true, false, IfOk};
ghost use Rattle.outside.specs.Files.{is_temp, temp_of};
ghost use Rattle.outside.specs.SinkView.{SinkView};
ghost use Rattle.outside.specs.Quiet.{IsQuiet};
ghost use Rattle.outside.specs.Quiet.Effect.{Put};
ghost use Rattle.series_stack.specs.Count.{count_text};
ghost use Rattle.series_stack.specs.Stack.{count_name, save_name};
ghost use Rattle.stack_state.specs.Steps.{Steps};

use crate::{count_name, save_name};
use apply_task::RunFault;
use num_text::put_number;
use outside::{Name, Tree};
use replace_file::put_whole;
use std::alloc::{AllocError, Global};

/// How many patches are applied.
pub fn put_count<T: Tree>(alloc: Global, count: u32, tree: &mut T) -> Result<(), RunFault>
    requires quiet { IsQuiet (T.view tree.old) }
    ensures { (c : SinkView) → Steps (T.view tree.old) (T.view tree.new) c c result (λ f. Put count_name (count_text count) ∷ []) (λ f. []) }
{
    let Ok(name) = count_name(alloc) else {
        return Err(RunFault::Memory);
    };
    let Ok(text) = count_text(alloc, count) else {
        return Err(RunFault::Memory);
    };
    put_file(alloc, &name, &text, tree)
}

/// What the patch with this number found, counted from 1.
pub fn put_save<T: Tree>(
    alloc: Global,
    number: u32,
    save: &[u8],
    tree: &mut T,
) -> Result<(), RunFault>
    requires quiet { IsQuiet (T.view tree.old) }
    ensures { (c : SinkView) → Steps (T.view tree.old) (T.view tree.new) c c result (λ f. Put (save_name number) save.now ∷ []) (λ f. []) }
{
    let Ok(name) = save_name(alloc, number) else {
        return Err(RunFault::Memory);
    };
    put_file(alloc, &name, save, tree)
}

fn count_text(alloc: Global, count: u32) -> Result<Vec<u8>, AllocError>
    ensures { IfOk result (λ text. text.items ≡ count_text count) }
{
    let mut digits = [0; 20];
    let length = put_number(u64::from(count), &mut digits);
    let mut text = Vec::new(alloc);
    text.extend_from_slice(&digits[..length])?;
    text.extend_from_slice(b"\n")?;
    Ok(text)
}

fn put_file<T: Tree>(alloc: Global, name: &Name, bytes: &[u8], tree: &mut T) -> Result<(), RunFault>
    requires lasting { is_temp name.now ≡ false }
    requires quiet { IsQuiet (T.view tree.old) }
    ensures { (c : SinkView) → Steps (T.view tree.old) (T.view tree.new) c c result (λ f. Put name.now bytes.now ∷ []) (λ f. []) }
{
    match name.temporary(alloc) {
        Ok(temp) => put_by(&temp, name, bytes, tree),
        Err(_) => Err(RunFault::Memory),
    }
}

fn put_by<T: Tree>(temp: &Name, name: &Name, bytes: &[u8], tree: &mut T) -> Result<(), RunFault>
    requires named { temp.now ≡ temp_of name.now }
    requires temporary { is_temp temp.now ≡ true }
    requires lasting { is_temp name.now ≡ false }
    requires quiet { IsQuiet (T.view tree.old) }
    ensures { (c : SinkView) → Steps (T.view tree.old) (T.view tree.new) c c result (λ f. Put name.now bytes.now ∷ []) (λ f. []) }
{
    match put_whole(tree, temp, name, bytes) {
        Ok(()) => Ok(()),
        Err(_) => Err(RunFault::Tree),
    }
}
