//! The second reading of a file: its lines copied into records. Each full page is written with its entry of the index, so the
//! two agree also where the tree tells nothing. Entry 0 is never read.

ghost use Rattle.std.specs.Prelude.{◌≡◌, ◌≢◌, ◌≤◌, ◌<◌, ◌+◌, ◌-◌, ◌*◌, ◌^◌, ◌++◌, ◌∷◌, [], ℕ, List, length, take, drop, replicate, slice_range, Some, IfOk, IfErr, OnOk};
ghost use Rattle.line_list.specs.Lines.{lines};
ghost use Rattle.line_store.specs.declared.Half.TheVariants.{First, Second};
ghost use Rattle.outside.specs.Calls.{IsThere, IsUntouched};
ghost use Rattle.outside.specs.ScratchView.{ScratchPasses};
ghost use Rattle.page_pair.specs.Pair.{page_of};
ghost use Rattle.page_pair.specs.Reading.{told_file, HasLength, IsNoneWhole, IsTakeFault};
ghost use Rattle.page_pair.specs.Records.{IsWriteFault};
ghost use Rattle.page_pair.specs.Room.{room_with};
ghost use Rattle.packed_pages.specs.Layout.{IsLayout};
ghost use Rattle.packed_pages.specs.Filling.{IsReady, IsFilled, IsPacked, IsMeasuredAs};
ghost use Rattle.packed_pages.specs.Copying.{Copies, IsLineFault, IsCopyFault, IsCopied, IsEndFault, IsWritten};

use crate::filling::{Filling, flush, put_record, write_entry};
use crate::layout::Layout;
use line_store::{Half, OpenFault};
use outside::{Name, Scratch, Tree};
use page_pair::PagePair;
use page_pair::paging::restart;
use page_pair::reading::{read_piece, whole_line};
use page_pair::room::Room;

/// The lines before a place are filled in.
#[derive(Clone, Copy)]
struct Copied {
    at: u64,
    filling: Filling,
}

/// Copies a line of the first page. One that no page holds wasn't there when the file was measured.
fn copy_line<C: Scratch>(
    pair: &mut PagePair,
    scratch: &mut C,
    layout: Layout,
    filling: Filling,
    from: usize,
    to: usize,
) -> Result<Filling, OpenFault>
    requires layout { IsLayout layout }
    requires size { layout.size ≡ pair.old.size }
    requires ready { IsReady layout (C.view scratch.old).told filling }
    requires few { filling.count < 2 ^ 40 }
    requires low { from ≤ to }
    requires high { to ≤ pair.old.size }
    ensures size { pair.new.size ≡ pair.old.size }
    ensures first { page_of pair.new First ≡ page_of pair.old First }
    ensures passes { ScratchPasses (C.view scratch.old) (C.view scratch.new) }
    ensures ready { IfOk result (λ next. IsReady layout (C.view scratch.new).told next) }
    ensures count { IfOk result (λ next. next.count ≡ filling.count + 1) }
    ensures room { IfOk result (λ next. room_with layout.size filling.room (4 + (to - from)) ≡ next.room) }
    ensures filled { IfOk result (λ next. (ls : List (List ℕ)) → IsFilled layout (C.view scratch.old).told (page_of pair.old Second) filling ls → IsFilled layout (C.view scratch.new).told (page_of pair.new Second) next (ls ++ slice_range (page_of pair.old First) from to ∷ [])) }
    ensures cause { IfErr result (λ e. IsLineFault e layout filling (C.view scratch.old) (C.view scratch.new) (to - from)) }
{
    let most = layout.size - 4;
    let count = to - from;
    if count as u64 > most {
        return Err(OpenFault::Disagree {
            want: most,
            got: count as u64,
        });
    }
    put_record(pair, scratch, layout, filling, from, count)
}

/// Copies the whole lines of a piece of `got` bytes on the first page.
fn copy_lines<C: Scratch>(
    pair: &mut PagePair,
    scratch: &mut C,
    layout: Layout,
    filling: Filling,
    got: usize,
    is_last: bool,
) -> Result<Copied, OpenFault>
    requires layout { IsLayout layout }
    requires size { layout.size ≡ pair.old.size }
    requires ready { IsReady layout (C.view scratch.old).told filling }
    requires few { filling.count + got ≤ 2 ^ 40 }
    requires within { got ≤ pair.old.size }
    ensures size { pair.new.size ≡ pair.old.size }
    ensures passes { ScratchPasses (C.view scratch.old) (C.view scratch.new) }
    ensures ready { IfOk result (λ now. IsReady layout (C.view scratch.new).told now.filling) }
    ensures count { IfOk result (λ now. now.filling.count ≤ filling.count + now.at) }
    ensures within { IfOk result (λ now. now.at ≤ got) }
    ensures left { IfOk result (λ now. IsNoneWhole (take got (page_of pair.old First)) is_last now.at) }
    ensures copies { IfOk result (λ now. Copies layout (C.view scratch.old).told (C.view scratch.new).told (page_of pair.old Second) (page_of pair.new Second) filling now.filling (take got (page_of pair.old First)) is_last now.at) }
    ensures cause { IfErr result (λ e. IsCopyFault e layout filling (C.view scratch.old) (C.view scratch.new) (take got (page_of pair.old First)) is_last) }
{
    let mut at = 0;
    let mut now = filling;
    while let Some(end) = whole_line(&pair.page(Half::First)[..got], is_last, at) {
        now = match copy_line(pair, scratch, layout, now, at, end) {
            Ok(next) => next,
            Err(fault) => return Err(fault),
        };
        at = end;
    }
    Ok(Copied {
        at: at as u64,
        filling: now,
    })
}

/// Copies the lines of the next piece of a file of `length` bytes.
fn copy_piece<T: Tree, C: Scratch>(
    pair: &mut PagePair,
    scratch: &mut C,
    tree: &mut T,
    name: &Name,
    layout: Layout,
    copied: Copied,
    length: u64,
) -> Result<Copied, OpenFault>
    requires there { IsThere (T.view tree.old) name.now }
    requires stated { HasLength (told_file (T.view tree.old) name.now) length }
    requires measured { (text : List ℕ) → told_file (T.view tree.old) name.now ≡ Some text → IsMeasuredAs layout (lines text) }
    requires layout { IsLayout layout }
    requires size { layout.size ≡ pair.old.size }
    requires ready { IsReady layout (C.view scratch.old).told copied.filling }
    requires few { copied.filling.count ≤ copied.at }
    requires within { copied.at < length }
    requires short { length < 2 ^ 40 }
    requires copied { IsCopied layout (C.view scratch.old).told (page_of pair.old Second) copied.at copied.filling (told_file (T.view tree.old) name.now) }
    ensures untouched { IsUntouched (T.view tree.old) (T.view tree.new) }
    ensures size { pair.new.size ≡ pair.old.size }
    ensures passes { ScratchPasses (C.view scratch.old) (C.view scratch.new) }
    ensures ready { IfOk result (λ now. IsReady layout (C.view scratch.new).told now.filling) }
    ensures few { IfOk result (λ now. now.filling.count ≤ now.at) }
    ensures on { IfOk result (λ now. copied.at < now.at) }
    ensures within { IfOk result (λ now. now.at ≤ length) }
    ensures copied { IfOk result (λ now. IsCopied layout (C.view scratch.new).told (page_of pair.new Second) now.at now.filling (told_file (T.view tree.old) name.now)) }
    ensures cause { IfErr result (λ e. IsTakeFault e (C.view scratch.old) (C.view scratch.new) (T.view tree.old) (T.view tree.new)) }
{
    let got = match read_piece(pair, tree, name, copied.at, length) {
        Ok(got) => got,
        Err(fault) => return Err(fault),
    };
    let is_last = copied.at + got as u64 == length;
    let now = match copy_lines(pair, scratch, layout, copied.filling, got, is_last) {
        Ok(now) => now,
        Err(fault) => return Err(fault),
    };
    if now.at == 0 {
        return Err(OpenFault::Disagree {
            want: layout.size - 4,
            got: got as u64,
        });
    }
    Ok(Copied {
        at: copied.at + now.at,
        filling: now.filling,
    })
}

/// Writes the last page, if it has lines. There must be as many lines and pages as were counted.
fn finish<C: Scratch>(
    pair: &mut PagePair,
    scratch: &mut C,
    layout: Layout,
    filling: Filling,
) -> Result<(), OpenFault>
    requires layout { IsLayout layout }
    requires size { layout.size ≡ pair.old.size }
    requires ready { IsReady layout (C.view scratch.old).told filling }
    ensures size { pair.new.size ≡ pair.old.size }
    ensures passes { ScratchPasses (C.view scratch.old) (C.view scratch.new) }
    ensures count { OnOk result (layout.count ≡ filling.count) }
    ensures pages { OnOk result ((ls : List (List ℕ)) → IsFilled layout (C.view scratch.old).told (page_of pair.old Second) filling ls → IsPacked layout (C.view scratch.new).told ls) }
    ensures cause { IfErr result (λ e. IsEndFault e layout filling (C.view scratch.old) (C.view scratch.new)) }
{
    if filling.count != layout.count {
        return Err(OpenFault::Disagree {
            want: layout.count,
            got: filling.count,
        });
    }
    let pages = filling.room.page_count();
    if pages != layout.pages {
        return Err(OpenFault::Disagree {
            want: layout.pages,
            got: pages,
        });
    }
    if filling.room.filled == 0 {
        return Ok(());
    }
    match flush(pair, scratch, layout, filling) {
        Ok(()) => Ok(()),
        Err(fault) => Err(fault),
    }
}

/// Keeps a place for the entry of each page, at the start of a scratch that holds nothing.
fn lay_entries<C: Scratch>(scratch: &mut C, pages: u64) -> Result<(), OpenFault>
    requires few { pages ≤ 2 ^ 40 }
    requires empty { (b : List ℕ) → (C.view scratch.old).told ≡ Some b → b ≡ [] }
    ensures passes { ScratchPasses (C.view scratch.old) (C.view scratch.new) }
    ensures laid { OnOk result ((b : List ℕ) → (C.view scratch.new).told ≡ Some b → b ≡ replicate (8 * pages) 0) }
    ensures cause { IfErr result (λ e. IsWriteFault e (C.view scratch.old) (C.view scratch.new)) }
{
    let mut page = 0;
    while page < pages {
        match write_entry(scratch, page, 0) {
            Ok(()) => page += 1,
            Err(fault) => return Err(fault),
        }
    }
    Ok(())
}

/// Copies the lines of a file of `length` bytes that was measured, behind the places of the entries.
fn copy_pages<T: Tree, C: Scratch>(
    pair: &mut PagePair,
    scratch: &mut C,
    tree: &mut T,
    name: &Name,
    layout: Layout,
    length: u64,
) -> Result<(), OpenFault>
    requires there { IsThere (T.view tree.old) name.now }
    requires stated { HasLength (told_file (T.view tree.old) name.now) length }
    requires measured { (text : List ℕ) → told_file (T.view tree.old) name.now ≡ Some text → IsMeasuredAs layout (lines text) }
    requires layout { IsLayout layout }
    requires size { layout.size ≡ pair.old.size }
    requires laid { (b : List ℕ) → (C.view scratch.old).told ≡ Some b → b ≡ replicate (8 * layout.pages) 0 }
    requires short { length < 2 ^ 40 }
    ensures untouched { IsUntouched (T.view tree.old) (T.view tree.new) }
    ensures size { pair.new.size ≡ pair.old.size }
    ensures passes { ScratchPasses (C.view scratch.old) (C.view scratch.new) }
    ensures written { OnOk result (IsWritten layout (C.view scratch.new).told (told_file (T.view tree.old) name.now)) }
    ensures cause { IfErr result (λ e. IsTakeFault e (C.view scratch.old) (C.view scratch.new) (T.view tree.old) (T.view tree.new)) }
{
    let mut copied = Copied {
        at: 0,
        filling: Filling {
            room: Room {
                pages: 0,
                filled: 0,
            },
            first: 1,
            count: 0,
        },
    };
    while copied.at < length {
        copied = copy_piece(pair, scratch, tree, name, layout, copied, length)?;
    }
    match finish(pair, scratch, layout, copied.filling) {
        Ok(()) => Ok(()),
        Err(fault) => Err(fault),
    }
}

/// Copies a file that was measured, over what the scratch held.
pub fn copy_anew<T: Tree, C: Scratch>(
    pair: &mut PagePair,
    scratch: &mut C,
    tree: &mut T,
    name: &Name,
    layout: Layout,
    length: u64,
) -> Result<(), OpenFault>
    requires there { IsThere (T.view tree.old) name.now }
    requires stated { HasLength (told_file (T.view tree.old) name.now) length }
    requires measured { (text : List ℕ) → told_file (T.view tree.old) name.now ≡ Some text → IsMeasuredAs layout (lines text) }
    requires layout { IsLayout layout }
    requires size { layout.size ≡ pair.old.size }
    requires short { length < 2 ^ 40 }
    ensures untouched { IsUntouched (T.view tree.old) (T.view tree.new) }
    ensures size { pair.new.size ≡ pair.old.size }
    ensures passes { ScratchPasses (C.view scratch.old) (C.view scratch.new) }
    ensures written { OnOk result (IsWritten layout (C.view scratch.new).told (told_file (T.view tree.old) name.now)) }
    ensures cause { IfErr result (λ e. IsTakeFault e (C.view scratch.old) (C.view scratch.new) (T.view tree.old) (T.view tree.new)) }
{
    match restart(scratch) {
        Ok(()) => {}
        Err(fault) => return Err(fault),
    }
    match lay_entries(scratch, layout.pages) {
        Ok(()) => {}
        Err(fault) => return Err(fault),
    }
    match copy_pages(pair, scratch, tree, name, layout, length) {
        Ok(()) => Ok(()),
        Err(fault) => Err(fault),
    }
}
