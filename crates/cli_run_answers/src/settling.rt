//! The first step of a run: the tree is settled, so all that reads give is synced to disk.
ghost use Rattle.std.specs.Prelude.{◌≡◌, IfErr, OnOk};
ghost use Rattle.outside.specs.TreeView.{Rises};
ghost use Rattle.outside.specs.Quiet.{IsQuiet};
ghost use Rattle.cli_run_answers.specs.Moments.{Opens};

use crate::why::Why;
use outside::Tree;

/// Settles the tree: each crash from then on leaves what reads give.
pub fn settle<T: Tree>(tree: &mut T) -> Result<(), Why>
    ensures opens { Opens (T.view tree.old) (T.view tree.new) }
    ensures quiet { OnOk result (IsQuiet (T.view tree.new)) }
    ensures cause { IfErr result (λ why. (why ≡ Why.TreeFault) × Rises (T.view tree.old) (T.view tree.new)) }
{
    match tree.settle() {
        Ok(()) => Ok(()),
        Err(_) => Err(Why::TreeFault),
    }
}
