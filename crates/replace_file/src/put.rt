//! A file is put whole, or a name taken away.
ghost use Rattle.std.specs.Prelude.{◌≡◌, ◌⊎◌, ℕ, List, true, false, Some, OnOk, OnErr};
ghost use Rattle.std.specs.FinMap.{insert, remove};
ghost use Rattle.outside.specs.Files.{Files, is_temp, bytes_at};
ghost use Rattle.outside.specs.TreeView.{IsRun};
ghost use Rattle.outside.specs.Calls.{Becomes, IsThere, SealsStay};
ghost use Rattle.outside.specs.Quiet.{IsQuiet, TellsEither, LeavesEitherSince, MakesEffect};
ghost use Rattle.outside.specs.Quiet.Effect.{Put, Remove};
ghost use Rattle.replace_file.specs.Puts.{Puts, TellsEitherBut};

use crate::temp::{Temp, begin_temp};
use outside::{Failed, Name, Tree};

// Puts the bytes, by way of the temporary.
fn put_bytes<T: Tree>(tree: &mut T, temp: &Name, to: &Name, bytes: &[u8]) -> Result<(), Failed>
    requires temporary { is_temp temp.now ≡ true }
    requires lasting { is_temp to.now ≡ false }
    requires quiet { IsQuiet (T.view tree.old) }
    ensures { Puts (T.view tree.old) (T.view tree.new) result temp.now to.now (λ f. bytes.now) }
{
    let mut begun = begin_temp(tree, temp)?;
    begun.put(tree, bytes)?;
    put_begun(tree, begun, to)
}

/// Puts what a temporary holds at a name, whole at every moment.
pub fn put_begun<T: Tree>(tree: &mut T, begun: Temp<'_>, to: &Name) -> Result<(), Failed>
    requires there { IsThere (T.view tree.old) begun.name.now }
    requires lasting { is_temp to.now ≡ false }
    requires quiet { IsQuiet (T.view tree.old) }
    ensures { Puts (T.view tree.old) (T.view tree.new) result begun.entry.name.now to.now (λ f. bytes_at f begun.entry.name.now) }
{
    let sealed = begun.seal(tree)?;
    sealed.swap(tree, to)
}

/// Puts a file with these bytes, whole at every moment, by way of the temporary. It puts one file: who has several loops over
/// it, by the lemmas of `outside/proofs/Effects.antt`.
pub fn put_whole<T: Tree>(tree: &mut T, temp: &Name, to: &Name, bytes: &[u8]) -> Result<(), Failed>
    requires temporary { is_temp temp.now ≡ true }
    requires lasting { is_temp to.now ≡ false }
    requires quiet { IsQuiet (T.view tree.old) }

    ensures run { IsRun (T.view tree.old) (T.view tree.new) result }
    ensures ok { OnOk result (Becomes (T.view tree.old) (T.view tree.new) (λ f. remove (insert f to.now bytes.now) temp.now)) }
    ensures quiet { OnOk result (IsQuiet (T.view tree.new)) }

    // After `Failed`, what reads give is as before or has the file whole.
    ensures err { OnErr result (TellsEither (T.view tree.old) (T.view tree.new) (λ f. insert f to.now bytes.now)) }

    // And so is what each crash since the call began leaves.
    ensures any_moment { LeavesEitherSince (T.view tree.old) (T.view tree.new) (λ f. insert f to.now bytes.now) }
    ensures makes { MakesEffect (T.view tree.old) (T.view tree.new) result (Put to.now bytes.now) }

    // Of the temporary names it changes this one alone.
    ensures tells { TellsEitherBut (T.view tree.old) (T.view tree.new) temp.now (λ f. insert f to.now bytes.now) }
    ensures seals { SealsStay (T.view tree.old) (T.view tree.new) temp.now }
{
    put_bytes(tree, temp, to, bytes)
}

/// Takes a name away, whole at every moment.
pub fn remove_name<T: Tree>(tree: &mut T, name: &Name) -> Result<(), Failed>
    requires lasting { is_temp name.now ≡ false }
    requires quiet { IsQuiet (T.view tree.old) }
    requires there { IsThere (T.view tree.old) name.now }
    ensures run { IsRun (T.view tree.old) (T.view tree.new) result }
    ensures ok { OnOk result (Becomes (T.view tree.old) (T.view tree.new) (λ f. remove f name.now)) }
    ensures quiet { OnOk result (IsQuiet (T.view tree.new)) }

    // After `Failed`, reads give what they gave, or all but the name.
    ensures tells { (f g : Files) → (T.view tree.old).told ≡ Some f → (T.view tree.new).told ≡ Some g → (g ≡ f) ⊎ (g ≡ remove f name.now) }
    ensures makes { MakesEffect (T.view tree.old) (T.view tree.new) result (Remove name.now) }
    ensures seals { SealsStay (T.view tree.old) (T.view tree.new) name.now }
{
    tree.drop_name(name)?;
    tree.fix_names()
}
