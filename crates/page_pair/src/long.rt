//! A line that no page can hold: how long it is.

ghost use Rattle.std.specs.Prelude.{◌≡◌, ◌≤◌, ◌<◌, ◌+◌, ◌-◌, ◌^◌, ℕ, List, ◌∷◌, drop, slice_range, false, true, Some, IfOk, IfErr};
ghost use Rattle.line_list.specs.Lines.{lines};
ghost use Rattle.line_store.specs.declared.Half.TheVariants.{First, Second};
ghost use Rattle.outside.specs.Calls.{IsThere, IsUntouched};
ghost use Rattle.page_pair.specs.Pair.{page_of};
ghost use Rattle.page_pair.specs.Reading.{told_file, HasLength, IsReadFault, IsOpen, GoesTo};

use crate::PagePair;
use crate::reading::read_piece;
use line_list::first_feed;
use line_store::{Half, OpenFault};
use outside::{Name, Tree};

/// How far a line is known.
#[derive(Clone, Copy)]
struct Known {
    end: u64,
    is_ended: bool,
}

/// The place after the line that begins at `at`, of which no line feed stands before `from`.
pub fn end_of_line<T: Tree>(
    pair: &mut PagePair,
    tree: &mut T,
    name: &Name,
    at: u64,
    from: u64,
    length: u64,
) -> Result<u64, OpenFault>
    requires there { IsThere (T.view tree.old) name.now }
    requires stated { HasLength (told_file (T.view tree.old) name.now) length }
    requires low { at < from }
    requires high { from ≤ length }
    requires few { length < 2 ^ 40 }
    requires is_open { (text : List ℕ) → told_file (T.view tree.old) name.now ≡ Some text → IsOpen text at from }
    ensures untouched { IsUntouched (T.view tree.old) (T.view tree.new) }
    ensures size { pair.new.size ≡ pair.old.size }
    ensures low { IfOk result (λ end. from ≤ end) }
    ensures high { IfOk result (λ end. end ≤ length) }
    ensures line { IfOk result (λ end. (text : List ℕ) → told_file (T.view tree.old) name.now ≡ Some text → lines (drop at text) ≡ slice_range text at end ∷ lines (drop end text)) }
    ensures cause { IfErr result (λ e. IsReadFault e (T.view tree.old) (T.view tree.new)) }
{
    let mut known = Known {
        end: from,
        is_ended: false,
    };
    while !known.is_ended && known.end < length {
        known = read_on(pair, tree, name, at, known.end, length)?;
    }
    Ok(known.end)
}

/// Reads on in a line that has no line feed before `end`.
fn read_on<T: Tree>(
    pair: &mut PagePair,
    tree: &mut T,
    name: &Name,
    at: u64,
    end: u64,
    length: u64,
) -> Result<Known, OpenFault>
    requires there { IsThere (T.view tree.old) name.now }
    requires stated { HasLength (told_file (T.view tree.old) name.now) length }
    requires low { at < end }
    requires high { end < length }
    requires few { length < 2 ^ 40 }
    requires is_open { (text : List ℕ) → told_file (T.view tree.old) name.now ≡ Some text → IsOpen text at end }
    ensures untouched { IsUntouched (T.view tree.old) (T.view tree.new) }
    ensures size { pair.new.size ≡ pair.old.size }
    ensures low { IfOk result (λ known. end < known.end) }
    ensures high { IfOk result (λ known. known.end ≤ length) }
    ensures goes { IfOk result (λ known. (text : List ℕ) → told_file (T.view tree.old) name.now ≡ Some text → GoesTo text at known.end known.is_ended) }
    ensures cause { IfErr result (λ e. IsReadFault e (T.view tree.old) (T.view tree.new)) }
{
    let got = read_piece(pair, tree, name, end, length)?;
    let piece = pair.page(Half::First);
    match first_feed(&piece[..got]) {
        Some(k) => Ok(Known {
            end: end + k as u64 + 1,
            is_ended: true,
        }),
        None => Ok(Known {
            end: end + got as u64,
            is_ended: false,
        }),
    }
}
