//! The first reading of a file: the layout that its lines have.

ghost use Rattle.std.specs.Prelude.{◌≡◌, ◌<◌, ◌^◌, ℕ, List, Some, IfOk, IfErr};
ghost use Rattle.line_list.specs.Lines.{lines};
ghost use Rattle.outside.specs.Calls.{IsThere, IsUntouched};
ghost use Rattle.page_pair.specs.Reading.{told_file, HasLength, IsMeasureFault};
ghost use Rattle.plan_b.specs.Layout.{IsLayout};
ghost use Rattle.plan_b.specs.Measuring.{IsMeasuredAs};

use crate::layout::Layout;
use line_store::OpenFault;
use outside::{Name, Tree};
use page_pair::PagePair;
use page_pair::measuring::measure;

/// The layout of the lines of a file of `length` bytes.
pub fn measure_layout<T: Tree>(
    pair: &mut PagePair,
    tree: &mut T,
    name: &Name,
    length: u64,
) -> Result<Layout, OpenFault>
    requires there { IsThere (T.view tree.old) name.now }
    requires stated { HasLength (told_file (T.view tree.old) name.now) length }
    requires few { length < 2 ^ 40 }
    ensures untouched { IsUntouched (T.view tree.old) (T.view tree.new) }
    ensures size { pair.new.size ≡ pair.old.size }
    ensures layout { IfOk result (λ l. IsLayout l) }
    ensures page { IfOk result (λ l. l.size ≡ pair.old.size) }
    ensures lines { IfOk result (λ l. (text : List ℕ) → told_file (T.view tree.old) name.now ≡ Some text → IsMeasuredAs l (lines text)) }
    ensures cause { IfErr result (λ e. IsMeasureFault e pair.old.size (T.view tree.old) (T.view tree.new) name.now) }
{
    let size = pair.size();
    match measure(pair, tree, name, length) {
        Ok(now) => Ok(Layout::new(size, now.longest, now.count)),
        Err(fault) => Err(fault),
    }
}
