//! A line fetched into a half.

ghost use Rattle.std.specs.Prelude.{◌≡◌, ◌≢◌, ◌↔◌, ◌≤◌, ◌<◌, ◌+◌, ◌-◌, ◌*◌, ◌^◌, IsTrue, ℕ, List, length, true, None, Some, IfErr, IfOk, OnOk, OnErr};
ghost use Rattle.outside.specs.ScratchView.{ScratchPasses, counted};
ghost use Rattle.line_store.specs.declared.Half.{Half};
ghost use Rattle.line_store.specs.Halves.{half_of};
ghost use Rattle.line_store.specs.Store.{Keeps, HasCause};
ghost use Rattle.page_pair.specs.Pair.{page_of};
ghost use Rattle.plan_b.specs.Layout.{IsLayout, HasRecords, page_number, place_on_page};
ghost use Rattle.page_pair.specs.Records.{stated};
ghost use Rattle.plan_b.specs.Spots.{IsSpot, AreSpots};
ghost use Rattle.plan_b.specs.Held.{seen_of, IsHeld, IsLoaded, HoldsPage, HoldsRecords, page_held, ReadsOnceAtMost};
ghost use Rattle.page_pair.specs.Held.{HasPageCause};

use crate::layout::Layout;
use crate::spots::{RecordOnPage, Spots};
use crate::stepping::near;
use line_store::{Half, Halves, LineFault};
use outside::Scratch;
use page_pair::PagePair;
use page_pair::record::stated_length;

/// Reads a page of the scratch into a half.
pub fn read_page<C: Scratch>(
    pair: &mut PagePair,
    scratch: &mut C,
    layout: Layout,
    half: Half,
    page: u64,
) -> Result<(), LineFault>
    requires fits { page * layout.size + layout.size < 2 ^ 63 }
    requires size { layout.size ≡ pair.old.size }
    requires whole { (bytes : List ℕ) → (C.view scratch.old).told ≡ Some bytes → page * layout.size + layout.size ≤ length bytes }
    ensures size { pair.new.size ≡ pair.old.size }
    ensures other { (h : Half) → h ≢ half → page_of pair.new h ≡ page_of pair.old h }
    ensures page { OnOk result (HoldsPage pair.new layout (C.view scratch.new) half page) }
    ensures passes { ScratchPasses (C.view scratch.old) (C.view scratch.new) }
    ensures told { (C.view scratch.new).told ≡ (C.view scratch.old).told }
    ensures reads { (C.view scratch.new).reads ≡ counted (C.view scratch.old).reads }
    ensures cause { IfErr result (λ e. HasPageCause e (C.view scratch.old) (C.view scratch.new)) }
{
    let want = layout.size;
    match scratch.read_at(page * want, pair.page_mut(half)) {
        Ok(got) if got as u64 == want => Ok(()),
        Ok(got) => Err(LineFault::Disagree {
            want,
            got: got as u64,
        }),
        Err(_) => Err(LineFault::Scratch),
    }
}

/// Has a half hold the page of line `k`, which is read where the half holds another.
fn fetch_page<C: Scratch>(
    pair: &mut PagePair,
    scratch: &mut C,
    halves: Halves,
    layout: Layout,
    k: u64,
    half: Half,
) -> Result<(), LineFault>
    requires held { IsHeld pair.old layout halves (C.view scratch.old) }
    requires low { 1 ≤ k }
    requires high { k ≤ layout.count }
    ensures size { pair.new.size ≡ pair.old.size }
    ensures other { (h : Half) → h ≢ half → page_of pair.new h ≡ page_of pair.old h }
    ensures page { OnOk result (HoldsPage pair.new layout (C.view scratch.new) half (page_number layout (k - 1))) }
    ensures passes { ScratchPasses (C.view scratch.old) (C.view scratch.new) }
    ensures told { (C.view scratch.new).told ≡ (C.view scratch.old).told }
    ensures reads { ReadsOnceAtMost (C.view scratch.old) (C.view scratch.new) }
    ensures still { page_held layout halves half ≡ Some (page_number layout (k - 1)) → (C.view scratch.new).reads ≡ (C.view scratch.old).reads }
    ensures cause { IfErr result (λ e. HasPageCause e (C.view scratch.old) (C.view scratch.new)) }
{
    let page = layout.page_number(k - 1);
    if holds_page(halves, layout, half, page) {
        return Ok(());
    }
    read_page(pair, scratch, layout, half, page)
}

/// Whether a half holds the page with that number.
fn holds_page(halves: Halves, layout: Layout, half: Half, page: u64) -> bool
    requires is { IsLayout layout }
    requires low { (k : ℕ) → half_of halves half ≡ Some k → 1 ≤ k }
    ensures { IsTrue result ↔ (page_held layout halves half ≡ Some page) }
{
    match halves.get(half) {
        Some(k) => layout.page_number(k - 1) == page,
        None => false,
    }
}

/// Finds line `k` on its page, in a half. Its record may not state more bytes than fit it.
fn find_line<C: Scratch>(
    pair: &mut PagePair,
    scratch: &mut C,
    halves: Halves,
    layout: Layout,
    k: u64,
    half: Half,
) -> Result<(), LineFault>
    requires held { IsHeld pair.old layout halves (C.view scratch.old) }
    requires low { 1 ≤ k }
    requires high { k ≤ layout.count }
    ensures size { pair.new.size ≡ pair.old.size }
    ensures other { (h : Half) → h ≢ half → page_of pair.new h ≡ page_of pair.old h }
    ensures loaded { OnOk result (IsLoaded pair.new layout (C.view scratch.new) half k) }
    ensures passes { ScratchPasses (C.view scratch.old) (C.view scratch.new) }
    ensures told { (C.view scratch.new).told ≡ (C.view scratch.old).told }
    ensures reads { ReadsOnceAtMost (C.view scratch.old) (C.view scratch.new) }
    ensures still { page_held layout halves half ≡ Some (page_number layout (k - 1)) → (C.view scratch.new).reads ≡ (C.view scratch.old).reads }
    ensures cause { IfErr result (λ e. HasPageCause e (C.view scratch.old) (C.view scratch.new)) }
{
    match fetch_page(pair, scratch, halves, layout, k, half) {
        Ok(()) => {}
        Err(fault) => return Err(fault),
    }
    let most = layout.width - 4;
    let length = stated_length(pair.page(half), layout.place_on_page(k - 1));
    if length > most {
        return Err(LineFault::Disagree {
            want: most,
            got: length,
        });
    }
    Ok(())
}

/// Finds line `k`, which a half holds, or the line behind or before it, or else on its page. The answer is its record.
fn fetch_line<C: Scratch>(
    pair: &mut PagePair,
    scratch: &mut C,
    halves: Halves,
    spots: Spots,
    layout: Layout,
    k: u64,
    half: Half,
) -> Result<RecordOnPage, LineFault>
    requires held { IsHeld pair.old layout halves (C.view scratch.old) }
    requires spots { AreSpots layout halves spots }
    requires low { 1 ≤ k }
    requires high { k ≤ layout.count }
    ensures size { pair.new.size ≡ pair.old.size }
    ensures other { (h : Half) → h ≢ half → page_of pair.new h ≡ page_of pair.old h }
    ensures loaded { OnOk result (IsLoaded pair.new layout (C.view scratch.new) half k) }
    ensures spot { IfOk result (λ s. IsSpot layout k s) }
    ensures passes { ScratchPasses (C.view scratch.old) (C.view scratch.new) }
    ensures told { (C.view scratch.new).told ≡ (C.view scratch.old).told }
    ensures reads { ReadsOnceAtMost (C.view scratch.old) (C.view scratch.new) }
    ensures still { page_held layout halves half ≡ Some (page_number layout (k - 1)) → (C.view scratch.new).reads ≡ (C.view scratch.old).reads }
    ensures cause { IfErr result (λ e. HasPageCause e (C.view scratch.old) (C.view scratch.new)) }
{
    match near(
        pair.page(half),
        layout,
        halves.get(half),
        spots.get(half),
        k,
    ) {
        Some(spot) => Ok(spot),
        None => match find_line(pair, scratch, halves, layout, k, half) {
            Ok(()) => Ok(layout.spot(k - 1)),
            Err(fault) => Err(fault),
        },
    }
}

/// Has a half hold line `k`. The answer is its record.
pub fn load_line<C: Scratch>(
    pair: &mut PagePair,
    scratch: &mut C,
    halves: &mut Halves,
    spots: &mut Spots,
    layout: Layout,
    k: u64,
    half: Half,
) -> Result<RecordOnPage, LineFault>
    requires held { IsHeld pair.old layout halves.old (C.view scratch.old) }
    requires spots { AreSpots layout halves.old spots.old }
    requires low { 1 ≤ k }
    requires high { k ≤ layout.count }
    ensures held { IsHeld pair.new layout halves.new (C.view scratch.new) }
    ensures spots { AreSpots layout halves.new spots.new }
    ensures spot { IfOk result (λ s. IsSpot layout k s) }
    ensures loaded { OnOk result (half_of halves.new half ≡ Some k) }
    ensures page { OnOk result (HoldsPage pair.new layout (C.view scratch.new) half (page_number layout (k - 1))) }
    ensures dropped { OnErr result (half_of halves.new half ≡ None) }
    ensures other { (h : Half) → h ≢ half → half_of halves.new h ≡ half_of halves.old h }
    ensures other_page { (h : Half) → h ≢ half → page_of pair.new h ≡ page_of pair.old h }
    ensures keeps { Keeps (seen_of layout halves.old (C.view scratch.old)) (seen_of layout halves.new (C.view scratch.new)) }
    ensures cause { IfErr result (λ e. HasCause e (seen_of layout halves.old (C.view scratch.old)) (seen_of layout halves.new (C.view scratch.new))) }
    ensures reads { ReadsOnceAtMost (C.view scratch.old) (C.view scratch.new) }
    ensures still { page_held layout halves.old half ≡ Some (page_number layout (k - 1)) → (C.view scratch.new).reads ≡ (C.view scratch.old).reads }
{
    match fetch_line(pair, scratch, *halves, *spots, layout, k, half) {
        Ok(spot) => {
            halves.set(half, Some(k));
            spots.set(half, spot);
            Ok(spot)
        }
        Err(fault) => {
            halves.set(half, None);
            Err(fault)
        }
    }
}
