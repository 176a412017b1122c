//! What holds of steps of a tree, whatever calls they were.
ghost use Rattle.std.specs.Prelude.{ℕ, List};
ghost use Rattle.outside.specs.Calls.{IsUntouched};
ghost use Rattle.outside.specs.Quiet.{SameRest};

use crate::Tree;

/// Making no call leaves a tree untouched, and two steps in a row which each leave it untouched do so together. The same
/// goes for the rest of a tree beside a temporary name. The three stand for one tree at three moments.
pub fn tree_laws<T: Tree>(before: &T, between: &T, after: &T)
    ensures untouched_none { IsUntouched (T.view before.now) (T.view before.now) }
    ensures untouched_both { IsUntouched (T.view before.now) (T.view between.now) → IsUntouched (T.view between.now) (T.view after.now)
        → IsUntouched (T.view before.now) (T.view after.now) }
    ensures rest_none { (temp : List ℕ) → SameRest (T.view before.now) (T.view before.now) temp }
    ensures rest_both { (temp : List ℕ) → SameRest (T.view before.now) (T.view between.now) temp → SameRest (T.view between.now) (T.view after.now) temp
        → SameRest (T.view before.now) (T.view after.now) temp }
{}
