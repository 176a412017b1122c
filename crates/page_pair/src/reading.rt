//! A file read in pieces, each as large as a page.

ghost use Rattle.std.specs.Prelude.{◌≡◌, ◌≤◌, ◌<◌, ◌+◌, ◌-◌, ◌^◌, ◌≢◌, ℕ, List, length, take, drop, min, Some, IfOk, IfErr};
ghost use Rattle.line_store.specs.declared.Half.TheVariants.{First, Second};
ghost use Rattle.outside.specs.TreeView.{Passes};
ghost use Rattle.outside.specs.Calls.{IsThere, IsUntouched};
ghost use Rattle.page_pair.specs.Pair.{page_of, IsPair};
ghost use Rattle.page_pair.specs.Reading.{told_file, HasLength, IsReadFault, FindsWhole, IsOpenEnd};

use crate::PagePair;
use line_list::first_feed;
use line_store::{Half, OpenFault};
use outside::{Name, Tree};

/// The stated size of a file. One that isn't told to be there counts as empty.
pub fn size_of<T: Tree>(tree: &mut T, name: &Name) -> Result<u64, OpenFault>
    requires { IsThere (T.view tree.old) name.now }
    ensures untouched { IsUntouched (T.view tree.old) (T.view tree.new) }
    ensures size { IfOk result (HasLength (told_file (T.view tree.old) name.now)) }
    ensures cause { IfErr result (λ e. IsReadFault e (T.view tree.old) (T.view tree.new)) }
{
    Ok(tree.size(name)?.unwrap_or(0))
}

/// Reads a file of `length` bytes from a place on into the first page, as far as the page or the file goes. A piece begins
/// where the first line begins that isn't whole yet, so the bytes of a line that is cut are read again.
pub fn read_piece<T: Tree>(
    pair: &mut PagePair,
    tree: &mut T,
    name: &Name,
    at: u64,
    length: u64,
) -> Result<usize, OpenFault>
    requires there { IsThere (T.view tree.old) name.now }
    requires stated { HasLength (told_file (T.view tree.old) name.now) length }
    requires within { at ≤ length }
    ensures untouched { IsUntouched (T.view tree.old) (T.view tree.new) }
    ensures size { pair.new.size ≡ pair.old.size }
    ensures second { page_of pair.new Second ≡ page_of pair.old Second }
    ensures pair { IsPair pair.new }
    ensures count { IfOk result (λ n. n ≡ min pair.old.size (length - at)) }
    ensures bytes { IfOk result (λ n. (text : List ℕ) → told_file (T.view tree.old) name.now ≡ Some text → take n (page_of pair.new First) ≡ take n (drop at text)) }
    ensures cause { IfErr result (λ e. IsReadFault e (T.view tree.old) (T.view tree.new)) }
{
    let want = u64::min(pair.size() as u64, length - at);
    let got = tree.read_at(name, at, pair.page_mut(Half::First))?;
    if got as u64 != want {
        return Err(OpenFault::Disagree {
            want,
            got: got as u64,
        });
    }
    Ok(got)
}

/// The place after the line at `at` of a piece, if all of that line is there.
pub fn whole_line(piece: &[u8], is_last: bool, at: usize) -> Option<usize>
    requires { at ≤ length piece.now }
    ensures { FindsWhole piece.now is_last at result }
{
    match first_feed(&piece[at..]) {
        Some(k) => Some(at + k + 1),
        None => open_line(piece.len(), is_last, at),
    }
}

/// The end of a line without a line feed: that of the last piece.
fn open_line(length: usize, is_last: bool, at: usize) -> Option<usize>
    ensures { IsOpenEnd length is_last at result }
{
    if is_last && at < length {
        return Some(length);
    }
    None
}
