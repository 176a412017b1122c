//! A file taken into a scratch: it is measured, and then copied.

ghost use Rattle.std.specs.Prelude.{◌≡◌, ◌≤◌, ◌<◌, ◌^◌, ℕ, List, [], length, None, Some, IfOk, IfErr};
ghost use Rattle.line_list.specs.Lines.{lines};
ghost use Rattle.line_store.specs.Taking.{refusal, HasOpenCause, KeepsAtLong};
ghost use Rattle.outside.specs.Calls.{IsThere, IsUntouched};
ghost use Rattle.outside.specs.ScratchView.{ScratchPasses};
ghost use Rattle.plan_b.specs.Layout.{IsLayout};
ghost use Rattle.page_pair.specs.Held.{bare};
ghost use Rattle.page_pair.specs.Records.{IsWriteFault};
ghost use Rattle.page_pair.specs.Reading.{told_file};
ghost use Rattle.plan_b.specs.Copying.{IsWritten};
ghost use Rattle.plan_b.specs.Measuring.{IsMeasuredAs};

use crate::copying::copy_anew;
use crate::layout::Layout;
use crate::measuring::measure_layout;
use line_store::OpenFault;
use outside::{Name, Scratch, Tree};
use page_pair::PagePair;
use page_pair::reading::size_of;

/// The least number of bytes that is too many.
const TOO_LONG: u64 = 1 << 40;

/// Takes a file into the scratch, which holds its padded pages then.
pub fn take_pages<T: Tree, C: Scratch>(
    pair: &mut PagePair,
    scratch: &mut C,
    tree: &mut T,
    name: &Name,
) -> Result<Layout, OpenFault>
    requires { IsThere (T.view tree.old) name.now }
    ensures untouched { IsUntouched (T.view tree.old) (T.view tree.new) }
    ensures size { pair.new.size ≡ pair.old.size }
    ensures passes { ScratchPasses (C.view scratch.old) (C.view scratch.new) }
    ensures layout { IfOk result (λ l. IsLayout l) }
    ensures page { IfOk result (λ l. l.size ≡ pair.old.size) }
    ensures written { IfOk result (λ l. IsWritten l (C.view scratch.new).told (told_file (T.view tree.old) name.now)) }
    ensures measured { IfOk result (λ l. (text : List ℕ) → told_file (T.view tree.old) name.now ≡ Some text → IsMeasuredAs l (lines text)) }
    ensures short { IfOk result (λ l. (text : List ℕ) → told_file (T.view tree.old) name.now ≡ Some text → length text < 2 ^ 40) }
    ensures cause { IfErr result (λ e. HasOpenCause e (bare pair.old.size (C.view scratch.old)) (bare pair.old.size (C.view scratch.new)) (T.view tree.old) (T.view tree.new) name.now) }
    ensures kept { IfErr result (λ e. KeepsAtLong e (C.view scratch.old).told (C.view scratch.new).told) }
{
    let total = match size_of(tree, name) {
        Ok(total) => total,
        Err(fault) => return Err(fault),
    };
    if total >= TOO_LONG {
        return Err(OpenFault::FileTooLong { length: total });
    }
    let layout = match measure_layout(pair, tree, name, total) {
        Ok(layout) => layout,
        Err(fault) => return Err(fault),
    };
    match copy_anew(pair, scratch, tree, name, layout, total) {
        Ok(()) => Ok(layout),
        Err(fault) => Err(fault),
    }
}
