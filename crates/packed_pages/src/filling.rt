//! Records made on the second page, and the page written with its entry once the next record doesn't fit it.

ghost use Rattle.std.specs.Prelude.{◌≡◌, ◌≤◌, ◌<◌, ◌+◌, ◌-◌, ◌*◌, ◌^◌, ◌++◌, ◌∷◌, [], ℕ, List, length, take, drop, Some, IfOk, IfErr, OnOk};
ghost use Rattle.std.specs.Int.{w64, to_le_bytes};
ghost use Rattle.line_store.specs.declared.Half.TheVariants.{First, Second};
ghost use Rattle.outside.specs.ScratchView.{ScratchPasses, ReachesTo, overwritten};
ghost use Rattle.page_pair.specs.Pair.{page_of};
ghost use Rattle.page_pair.specs.Records.{padded, IsWriteFault};
ghost use Rattle.page_pair.specs.Room.{room_with};
ghost use Rattle.packed_pages.specs.Layout.{IsLayout};
ghost use Rattle.packed_pages.specs.Filling.{IsReady, IsFilled};
ghost use Rattle.packed_pages.specs.Copying.{IsLineFault};

use crate::layout::Layout;
use line_store::OpenFault;
use outside::Scratch;
use page_pair::PagePair;
use page_pair::paging::{make_record, write_page};
use page_pair::room::Room;

/// So many lines, the room that they take, and the number of the first line of the page that is begun.
#[derive(Clone, Copy)]
pub struct Filling {
    pub room: Room,
    pub first: u64,
    pub count: u64,
}

/// Writes the entry of a page.
pub fn write_entry<C: Scratch>(scratch: &mut C, page: u64, first: u64) -> Result<(), OpenFault>
    requires few { page ≤ 2 ^ 40 }
    requires there { ReachesTo (C.view scratch.old) (page * 8) }
    ensures passes { ScratchPasses (C.view scratch.old) (C.view scratch.new) }
    ensures written { OnOk result ((b : List ℕ) → (C.view scratch.old).told ≡ Some b → (C.view scratch.new).told ≡ Some (overwritten b (page * 8) (to_le_bytes w64 first))) }
    ensures cause { IfErr result (λ e. IsWriteFault e (C.view scratch.old) (C.view scratch.new)) }
{
    match scratch.write_at(page * 8, &first.to_le_bytes()) {
        Ok(()) => Ok(()),
        Err(_) => Err(OpenFault::Scratch),
    }
}

/// Writes the page that is begun and its entry.
pub fn flush<C: Scratch>(
    pair: &mut PagePair,
    scratch: &mut C,
    layout: Layout,
    filling: Filling,
) -> Result<(), OpenFault>
    requires layout { IsLayout layout }
    requires size { layout.size ≡ pair.old.size }
    requires ready { IsReady layout (C.view scratch.old).told filling }
    requires there { filling.room.pages < layout.pages }
    ensures size { pair.new.size ≡ pair.old.size }
    ensures first { page_of pair.new First ≡ page_of pair.old First }
    ensures passes { ScratchPasses (C.view scratch.old) (C.view scratch.new) }
    ensures written { OnOk result ((b : List ℕ) → (C.view scratch.old).told ≡ Some b → (C.view scratch.new).told ≡ Some (overwritten b (filling.room.pages * 8) (to_le_bytes w64 filling.first) ++ padded layout.size (take filling.room.filled (page_of pair.old Second)))) }
    ensures cause { IfErr result (λ e. IsWriteFault e (C.view scratch.old) (C.view scratch.new)) }
{
    let Room { pages, filled } = filling.room;
    match write_entry(scratch, pages, filling.first) {
        Ok(()) => {}
        Err(fault) => return Err(fault),
    }
    let at = 8 * layout.pages + pages * layout.size;
    match write_page(pair, scratch, filled as usize, at) {
        Ok(()) => Ok(()),
        Err(fault) => Err(fault),
    }
}

/// Makes the record of a line of the first page, behind those before it, or on the next page where it doesn't fit.
pub fn put_record<C: Scratch>(
    pair: &mut PagePair,
    scratch: &mut C,
    layout: Layout,
    filling: Filling,
    from: usize,
    count: usize,
) -> Result<Filling, OpenFault>
    requires layout { IsLayout layout }
    requires size { layout.size ≡ pair.old.size }
    requires ready { IsReady layout (C.view scratch.old).told filling }
    requires few { filling.count < 2 ^ 40 }
    requires read { from + count ≤ pair.old.size }
    requires fits { 4 + count ≤ layout.size }
    ensures size { pair.new.size ≡ pair.old.size }
    ensures first { page_of pair.new First ≡ page_of pair.old First }
    ensures passes { ScratchPasses (C.view scratch.old) (C.view scratch.new) }
    ensures ready { IfOk result (λ next. IsReady layout (C.view scratch.new).told next) }
    ensures count { IfOk result (λ next. next.count ≡ filling.count + 1) }
    ensures room { IfOk result (λ next. room_with layout.size filling.room (4 + count) ≡ next.room) }
    ensures filled { IfOk result (λ next. (ls : List (List ℕ)) → IsFilled layout (C.view scratch.old).told (page_of pair.old Second) filling ls → IsFilled layout (C.view scratch.new).told (page_of pair.new Second) next (ls ++ take count (drop from (page_of pair.old First)) ∷ [])) }
    ensures cause { IfErr result (λ e. IsLineFault e layout filling (C.view scratch.old) (C.view scratch.new) count) }
{
    // That the pages have the pair's size keeps the line whole.
    let _size = pair.size();
    let Room { pages, filled } = filling.room;
    let bytes = 4 + count;
    let lines = filling.count + 1;
    if filled + bytes as u64 <= layout.size {
        make_record(pair, from, count, filled as usize, bytes);
        return Ok(Filling {
            room: Room {
                pages,
                filled: filled + bytes as u64,
            },
            first: filling.first,
            count: lines,
        });
    }
    if pages == layout.pages {
        return Err(OpenFault::Disagree {
            want: pages,
            got: pages + 1,
        });
    }
    match flush(pair, scratch, layout, filling) {
        Ok(()) => {}
        Err(fault) => return Err(fault),
    }
    make_record(pair, from, count, 0, bytes);
    Ok(Filling {
        room: Room {
            pages: pages + 1,
            filled: bytes as u64,
        },
        first: lines,
        count: lines,
    })
}
