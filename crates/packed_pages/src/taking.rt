//! A file taken into a scratch: it is measured, and then copied.

ghost use Rattle.std.specs.Prelude.{◌≡◌, ◌≤◌, ◌<◌, ◌+◌, ◌^◌, ℕ, List, [], length, None, Some, IfOk, IfErr};
ghost use Rattle.line_list.specs.Lines.{lines};
ghost use Rattle.line_store.specs.Taking.{HasOpenCause, KeepsAtLong};
ghost use Rattle.outside.specs.Calls.{IsThere, IsUntouched};
ghost use Rattle.outside.specs.ScratchView.{ScratchPasses};
ghost use Rattle.page_pair.specs.Reading.{told_file, HasLength, IsMeasureFault};
ghost use Rattle.packed_pages.specs.Layout.{IsLayout};
ghost use Rattle.page_pair.specs.Held.{bare};
ghost use Rattle.packed_pages.specs.Filling.{IsMeasuredAs};
ghost use Rattle.packed_pages.specs.Copying.{IsWritten};

use crate::copying::copy_anew;
use crate::layout::Layout;
use line_store::OpenFault;
use outside::{Name, Scratch, Tree};
use page_pair::PagePair;
use page_pair::measuring::measure;
use page_pair::reading::size_of;

/// The least number of bytes that is too many.
const TOO_LONG: u64 = 1 << 40;

/// The layout of the lines of a file of `length` bytes.
fn measure_layout<T: Tree>(
    pair: &mut PagePair,
    tree: &mut T,
    name: &Name,
    length: u64,
) -> Result<Layout, OpenFault>
    requires there { IsThere (T.view tree.old) name.now }
    requires stated { HasLength (told_file (T.view tree.old) name.now) length }
    requires few { length < 2 ^ 40 }
    ensures untouched { IsUntouched (T.view tree.old) (T.view tree.new) }
    ensures size { pair.new.size ≡ pair.old.size }
    ensures layout { IfOk result (λ l. IsLayout l) }
    ensures page { IfOk result (λ l. l.size ≡ pair.old.size) }
    ensures lines { IfOk result (λ l. (text : List ℕ) → told_file (T.view tree.old) name.now ≡ Some text → IsMeasuredAs l (lines text)) }
    ensures cause { IfErr result (λ e. IsMeasureFault e pair.old.size (T.view tree.old) (T.view tree.new) name.now) }
{
    let size = pair.size() as u64;
    match measure(pair, tree, name, length) {
        Ok(now) => Ok(Layout {
            size,
            pages: now.room.page_count(),
            count: now.count,
        }),
        Err(fault) => Err(fault),
    }
}

/// Takes a file into the scratch, which holds its packed pages then.
pub fn take_pages<T: Tree, C: Scratch>(
    pair: &mut PagePair,
    scratch: &mut C,
    tree: &mut T,
    name: &Name,
) -> Result<Layout, OpenFault>
    requires { IsThere (T.view tree.old) name.now }
    ensures untouched { IsUntouched (T.view tree.old) (T.view tree.new) }
    ensures size { pair.new.size ≡ pair.old.size }
    ensures passes { ScratchPasses (C.view scratch.old) (C.view scratch.new) }
    ensures layout { IfOk result (λ l. IsLayout l) }
    ensures page { IfOk result (λ l. l.size ≡ pair.old.size) }
    ensures written { IfOk result (λ l. IsWritten l (C.view scratch.new).told (told_file (T.view tree.old) name.now)) }
    ensures measured { IfOk result (λ l. (text : List ℕ) → told_file (T.view tree.old) name.now ≡ Some text → IsMeasuredAs l (lines text)) }
    ensures short { IfOk result (λ l. (text : List ℕ) → told_file (T.view tree.old) name.now ≡ Some text → length text < 2 ^ 40) }
    ensures cause { IfErr result (λ e. HasOpenCause e (bare pair.old.size (C.view scratch.old)) (bare pair.old.size (C.view scratch.new)) (T.view tree.old) (T.view tree.new) name.now) }
    ensures kept { IfErr result (λ e. KeepsAtLong e (C.view scratch.old).told (C.view scratch.new).told) }
{
    let total = match size_of(tree, name) {
        Ok(total) => total,
        Err(fault) => return Err(fault),
    };
    if total >= TOO_LONG {
        return Err(OpenFault::FileTooLong { length: total });
    }
    let layout = match measure_layout(pair, tree, name, total) {
        Ok(layout) => layout,
        Err(fault) => return Err(fault),
    };
    match copy_anew(pair, scratch, tree, name, layout, total) {
        Ok(()) => Ok(layout),
        Err(fault) => Err(fault),
    }
}
