//! Records made on the second page, and the page written once it is full.

ghost use Rattle.std.specs.Prelude.{◌≡◌, ◌≤◌, ◌<◌, ◌+◌, ◌-◌, ◌*◌, ◌^◌, ◌++◌, ◌∷◌, [], ℕ, List, length, take, drop, replicate, Some, IfOk, IfErr, OnOk};
ghost use Rattle.std.specs.Int.{w32, to_le_bytes};
ghost use Rattle.line_store.specs.declared.Half.TheVariants.{First, Second};
ghost use Rattle.outside.specs.ScratchView.{ScratchPasses, overwritten};
ghost use Rattle.page_pair.specs.Pair.{page_of};
ghost use Rattle.plan_b.specs.Layout.{IsLayout};
ghost use Rattle.page_pair.specs.Records.{padded, record_of};
ghost use Rattle.page_pair.specs.Records.{Extends, IsWriteFault};
ghost use Rattle.plan_b.specs.Filling.{IsReady, IsFilled};

use crate::layout::Layout;
use line_store::OpenFault;
use outside::Scratch;
use page_pair::PagePair;
use page_pair::paging::{make_record, write_page};

/// So many whole pages are written, and so many records made on the next one.
#[derive(Clone, Copy)]
pub struct Filling {
    pub pages: u64,
    pub records: u64,
}

/// Makes the record of a line of the first page, behind those before it. A page that is full then is written.
pub fn put_record<C: Scratch>(
    pair: &mut PagePair,
    scratch: &mut C,
    layout: Layout,
    filling: Filling,
    from: usize,
    count: usize,
) -> Result<Filling, OpenFault>
    requires layout { IsLayout layout }
    requires size { layout.size ≡ pair.old.size }
    requires ready { IsReady layout (C.view scratch.old).told filling }
    requires few { filling.pages * layout.per_page + filling.records < 2 ^ 40 }
    requires read { from + count ≤ pair.old.size }
    requires fits { count + 4 ≤ layout.width }
    ensures size { pair.new.size ≡ pair.old.size }
    ensures first { page_of pair.new First ≡ page_of pair.old First }
    ensures passes { ScratchPasses (C.view scratch.old) (C.view scratch.new) }
    ensures ready { IfOk result (λ next. IsReady layout (C.view scratch.new).told next) }
    ensures count { IfOk result (λ next. next.pages * layout.per_page + next.records ≡ filling.pages * layout.per_page + filling.records + 1) }
    ensures filled { IfOk result (λ next. (ls : List (List ℕ)) → IsFilled layout (C.view scratch.old).told (page_of pair.old Second) filling ls → IsFilled layout (C.view scratch.new).told (page_of pair.new Second) next (ls ++ take count (drop from (page_of pair.old First)) ∷ [])) }
    ensures cause { IfErr result (λ e. IsWriteFault e (C.view scratch.old) (C.view scratch.new)) }
{
    let Filling { pages, records } = filling;
    make_record(
        pair,
        from,
        count,
        (records * layout.width) as usize,
        layout.width as usize,
    );
    let records = records + 1;
    if records < layout.per_page {
        return Ok(Filling { pages, records });
    }
    match write_page(
        pair,
        scratch,
        (records * layout.width) as usize,
        pages * layout.size,
    ) {
        Ok(()) => Ok(Filling {
            pages: pages + 1,
            records: 0,
        }),
        Err(fault) => Err(fault),
    }
}
