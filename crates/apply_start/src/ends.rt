//! How the first line of a file ends.

ghost use Rattle.std.specs.Prelude.{◌≡◌, ℕ, List, Some, IfOk, IfErr};
ghost use Rattle.line_store.specs.Store.{Keeps};
ghost use Rattle.apply_task.specs.LineEnds.{first_end};
ghost use Rattle.apply_start.specs.Trying.{HasLineCause};

use apply_task::{RunFault, is_returned};
use line_store::{Half, LineStore};

/// Whether the first line ends in a carriage return and a line feed, if there is one.
pub fn first_end<P: LineStore>(plan: &mut P) -> Result<Option<bool>, RunFault>
    ensures value { IfOk result (λ end. (lines : List (List ℕ)) → (P.seen plan.old).told ≡ Some lines → end ≡ first_end lines) }
    ensures keeps { Keeps (P.seen plan.old) (P.seen plan.new) }
    ensures cause { IfErr result (λ e. HasLineCause e (P.seen plan.old) (P.seen plan.new)) }
{
    if plan.count() == 0 {
        return Ok(None);
    }
    plan.load(1, Half::First)?;
    Ok(Some(is_returned(plan.line(Half::First))))
}
