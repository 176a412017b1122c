//! A line fetched into a half.

ghost use Rattle.std.specs.Prelude.{◌≡◌, ◌≢◌, ◌≤◌, ◌<◌, ◌+◌, ◌-◌, ◌*◌, ◌^◌, ℕ, List, length, None, Some, IfErr, IfOk, OnOk, OnErr};
ghost use Rattle.outside.specs.ScratchView.{ScratchPasses};
ghost use Rattle.line_store.specs.declared.Half.{Half};
ghost use Rattle.line_store.specs.Store.{Keeps, HasCause};
ghost use Rattle.page_pair.specs.Pair.{Pair, page_of};
ghost use Rattle.page_pair.specs.Records.{stated};
ghost use Rattle.packed_pages.specs.declared.places.RecordPlace.{RecordPlace};
ghost use Rattle.packed_pages.specs.Layout.{IsLayout, page_in, place_in};
ghost use Rattle.packed_pages.specs.Marks.{IsMark, AreMarks, AreMarked, marks_of};
ghost use Rattle.packed_pages.specs.Held.{seen_of, place_of, line_held, IsHeld, IsOnPage, IsLoaded, HoldsPage, HoldsPacks, HoldsPageOf, HasPageOf, IsRecordFault, IfStart, ReadsAtMost, ReadsByDigits};
ghost use Rattle.page_pair.specs.Held.{HasPageCause};

use crate::layout::Layout;
use crate::marks::{Marks, RecordMark};
use crate::places::{Places, RecordPlace};
use crate::searching::find_page;
use crate::stepping::{near, reach_near};
use crate::walking::find_record;
use line_store::{Half, LineFault};
use outside::Scratch;
use page_pair::PagePair;

/// Reads a page of the scratch into a half.
#[tactic(auto, unfolding(crate::specs::Layout::page_in))]
fn read_page<C: Scratch>(
    pair: &mut PagePair,
    scratch: &mut C,
    layout: Layout,
    half: Half,
    page: u64,
) -> Result<(), LineFault>
    requires layout { IsLayout layout }
    requires packs { HoldsPacks layout (C.view scratch.old) }
    requires size { layout.size ≡ pair.old.size }
    requires there { page < layout.pages }
    ensures size { pair.new.size ≡ pair.old.size }
    ensures other { (h : Half) → h ≢ half → page_of pair.new h ≡ page_of pair.old h }
    ensures page { OnOk result ((b : List ℕ) → (C.view scratch.old).told ≡ Some b → page_of pair.new half ≡ page_in layout b page) }
    ensures passes { ScratchPasses (C.view scratch.old) (C.view scratch.new) }
    ensures told { (C.view scratch.new).told ≡ (C.view scratch.old).told }
    ensures reads { ReadsAtMost 1 (C.view scratch.old) (C.view scratch.new) }
    ensures cause { IfErr result (λ e. HasPageCause e (C.view scratch.old) (C.view scratch.new)) }
{
    let want = layout.size;
    match scratch.read_at(8 * layout.pages + page * want, pair.page_mut(half)) {
        Ok(got) if got as u64 == want => Ok(()),
        Ok(got) => Err(LineFault::Disagree {
            want,
            got: got as u64,
        }),
        Err(_) => Err(LineFault::Scratch),
    }
}

/// Reads the page of line `k` into a half. The answer is the place of the page's first line.
fn open_page<C: Scratch>(
    pair: &mut PagePair,
    scratch: &mut C,
    layout: Layout,
    k: u64,
    half: Half,
) -> Result<RecordPlace, LineFault>
    requires layout { IsLayout layout }
    requires packs { HoldsPacks layout (C.view scratch.old) }
    requires size { layout.size ≡ pair.old.size }
    requires low { 1 ≤ k }
    requires high { k ≤ layout.count }
    ensures size { pair.new.size ≡ pair.old.size }
    ensures other { (h : Half) → h ≢ half → page_of pair.new h ≡ page_of pair.old h }
    ensures place { IfOk result (λ p. IsOnPage pair.new layout (C.view scratch.new) half p) }
    ensures low { IfOk result (λ p. p.line ≤ k) }
    ensures high { IfOk result (λ p. k < p.next) }
    ensures passes { ScratchPasses (C.view scratch.old) (C.view scratch.new) }
    ensures told { (C.view scratch.new).told ≡ (C.view scratch.old).told }
    ensures reads { ReadsByDigits layout.pages 1 (C.view scratch.old) (C.view scratch.new) }
    ensures cause { IfErr result (λ e. HasPageCause e (C.view scratch.old) (C.view scratch.new)) }
{
    let span = match find_page(scratch, layout, k) {
        Ok(span) => span,
        Err(fault) => return Err(fault),
    };
    match read_page(pair, scratch, layout, half, span.low) {
        Ok(()) => Ok(RecordPlace {
            line: span.first,
            at: 0,
            first: span.first,
            next: span.next,
            page: span.low,
        }),
        Err(fault) => Err(fault),
    }
}

/// A place from which line `k` is found on the page that a half holds, if that is its page: the one that the half holds, or a
/// marked one where line `k` stands before that.
fn held_start(places: Places, marks: &mut Marks, half: Half, k: u64) -> Option<RecordPlace>
    ensures start { IfStart (place_of places half) (marks_of marks.old half) k result }
    ensures marked { (pair : Pair) → AreMarked pair marks.old → AreMarked pair marks.new }
{
    let place = match places.get(half) {
        Some(place) => place,
        None => return None,
    };
    if k < place.first || k >= place.next {
        return None;
    }
    if place.line <= k {
        return Some(place);
    }
    let mark = marks.back_to(half, k - place.first);
    Some(RecordPlace {
        line: place.first + mark.before,
        at: mark.at,
        ..place
    })
}

/// The place of a record, found on the page of a half from one before it.
fn find_in(
    page: &[u8],
    marks: &mut Marks,
    half: Half,
    start: RecordMark,
    wanted: u64,
) -> Result<usize, LineFault>
    requires small { length page.now ≤ 2 ^ 20 }
    requires marks { AreMarks page.now (marks_of marks.old half) }
    requires start { IsMark page.now start }
    requires order { start.before ≤ wanted }
    ensures marks { AreMarks page.now (marks_of marks.new half) }
    ensures other { (h : Half) → h ≢ half → marks_of marks.new h ≡ marks_of marks.old h }
    ensures place { IfOk result (λ place. place ≡ place_in wanted page.now) }
    ensures within { IfOk result (λ place. place + 4 + stated page.now place ≤ length page.now) }
    ensures cause { IfErr result (λ e. IsRecordFault e wanted page.now) }
{
    match half {
        Half::First => find_record(page, &mut marks.first, start, wanted),
        Half::Second => find_record(page, &mut marks.second, start, wanted),
    }
}

/// The place of line `k`, found from that of a line before it on its page.
fn walk(
    pair: &PagePair,
    marks: &mut Marks,
    half: Half,
    start: RecordPlace,
    k: u64,
) -> Result<RecordPlace, LineFault>
    requires marked { AreMarked pair.now marks.old }
    requires low { start.first ≤ start.line }
    requires place { start.at ≡ place_in (start.line - start.first) (page_of pair.now half) }
    requires within { start.at ≤ length (page_of pair.now half) }
    requires order { start.line ≤ k }
    ensures marked { AreMarked pair.now marks.new }
    ensures line { IfOk result (λ p. p ≡ record { line = k; at = p.at; first = start.first; next = start.next; page = start.page }) }
    ensures place { IfOk result (λ p. p.at ≡ place_in (k - start.first) (page_of pair.now half)) }
    ensures within { IfOk result (λ p. p.at + 4 + stated (page_of pair.now half) p.at ≤ length (page_of pair.now half)) }
    ensures cause { IfErr result (λ e. IsRecordFault e (k - start.first) (page_of pair.now half)) }
{
    let mark = RecordMark {
        before: start.line - start.first,
        at: start.at,
    };
    match find_in(pair.page(half), marks, half, mark, k - start.first) {
        Ok(at) => Ok(RecordPlace {
            line: k,
            at,
            ..start
        }),
        Err(fault) => Err(fault),
    }
}

/// A place from which line `k` is found, on the page that a half holds or on one that is read into it.
fn reach<C: Scratch>(
    pair: &mut PagePair,
    scratch: &mut C,
    places: Places,
    marks: &mut Marks,
    layout: Layout,
    k: u64,
    half: Half,
) -> Result<RecordPlace, LineFault>
    requires held { IsHeld pair.old layout places (C.view scratch.old) }
    requires marked { AreMarked pair.old marks.old }
    requires low { 1 ≤ k }
    requires high { k ≤ layout.count }
    ensures size { pair.new.size ≡ pair.old.size }
    ensures other { (h : Half) → h ≢ half → page_of pair.new h ≡ page_of pair.old h }
    ensures marked { AreMarked pair.new marks.new }
    ensures place { IfOk result (λ p. IsOnPage pair.new layout (C.view scratch.new) half p) }
    ensures low { IfOk result (λ p. p.line ≤ k) }
    ensures high { IfOk result (λ p. k < p.next) }
    ensures passes { ScratchPasses (C.view scratch.old) (C.view scratch.new) }
    ensures told { (C.view scratch.new).told ≡ (C.view scratch.old).told }
    ensures reads { ReadsByDigits layout.pages 1 (C.view scratch.old) (C.view scratch.new) }
    ensures still { HasPageOf places half k → (C.view scratch.new).reads ≡ (C.view scratch.old).reads }
    ensures cause { IfErr result (λ e. HasPageCause e (C.view scratch.old) (C.view scratch.new)) }
{
    match held_start(places, marks, half, k) {
        Some(start) => Ok(start),
        None => {
            marks.clear(half);
            open_page(pair, scratch, layout, k, half)
        }
    }
}

/// Finds line `k`, on the page that a half holds or on one that is read into it.
fn find_line<C: Scratch>(
    pair: &mut PagePair,
    scratch: &mut C,
    places: Places,
    marks: &mut Marks,
    layout: Layout,
    k: u64,
    half: Half,
) -> Result<RecordPlace, LineFault>
    requires held { IsHeld pair.old layout places (C.view scratch.old) }
    requires marked { AreMarked pair.old marks.old }
    requires low { 1 ≤ k }
    requires high { k ≤ layout.count }
    ensures size { pair.new.size ≡ pair.old.size }
    ensures other { (h : Half) → h ≢ half → page_of pair.new h ≡ page_of pair.old h }
    ensures marked { AreMarked pair.new marks.new }
    ensures loaded { IfOk result (λ p. IsLoaded pair.new layout (C.view scratch.new) half p) }
    ensures line { IfOk result (λ p. p.line ≡ k) }
    ensures passes { ScratchPasses (C.view scratch.old) (C.view scratch.new) }
    ensures told { (C.view scratch.new).told ≡ (C.view scratch.old).told }
    ensures reads { ReadsByDigits layout.pages 1 (C.view scratch.old) (C.view scratch.new) }
    ensures still { HasPageOf places half k → (C.view scratch.new).reads ≡ (C.view scratch.old).reads }
    ensures cause { IfErr result (λ e. HasPageCause e (C.view scratch.old) (C.view scratch.new)) }
{
    let start = match reach(pair, scratch, places, marks, layout, k, half) {
        Ok(start) => start,
        Err(fault) => return Err(fault),
    };
    match walk(pair, marks, half, start, k) {
        Ok(place) => Ok(place),
        Err(fault) => Err(fault),
    }
}

/// The place of line `k`, which a half holds, or the line before it, or else is found.
fn fetch_line<C: Scratch>(
    pair: &mut PagePair,
    scratch: &mut C,
    places: Places,
    marks: &mut Marks,
    layout: Layout,
    k: u64,
    half: Half,
) -> Result<RecordPlace, LineFault>
    requires held { IsHeld pair.old layout places (C.view scratch.old) }
    requires marked { AreMarked pair.old marks.old }
    requires low { 1 ≤ k }
    requires high { k ≤ layout.count }
    ensures size { pair.new.size ≡ pair.old.size }
    ensures other { (h : Half) → h ≢ half → page_of pair.new h ≡ page_of pair.old h }
    ensures marked { AreMarked pair.new marks.new }
    ensures loaded { IfOk result (λ p. IsLoaded pair.new layout (C.view scratch.new) half p) }
    ensures line { IfOk result (λ p. p.line ≡ k) }
    ensures passes { ScratchPasses (C.view scratch.old) (C.view scratch.new) }
    ensures told { (C.view scratch.new).told ≡ (C.view scratch.old).told }
    ensures reads { ReadsByDigits layout.pages 1 (C.view scratch.old) (C.view scratch.new) }
    ensures still { HasPageOf places half k → (C.view scratch.new).reads ≡ (C.view scratch.old).reads }
    ensures cause { IfErr result (λ e. HasPageCause e (C.view scratch.old) (C.view scratch.new)) }
{
    match near(pair.page(half), places.get(half), k) {
        Some(place) => Ok(place),
        None => find_line(pair, scratch, places, marks, layout, k, half),
    }
}

/// Has a half hold line `k`. The answer is its place.
pub fn load_line<C: Scratch>(
    pair: &mut PagePair,
    scratch: &mut C,
    places: &mut Places,
    marks: &mut Marks,
    layout: Layout,
    k: u64,
    half: Half,
) -> Result<RecordPlace, LineFault>
    requires held { IsHeld pair.old layout places.old (C.view scratch.old) }
    requires marked { AreMarked pair.old marks.old }
    requires low { 1 ≤ k }
    requires high { k ≤ layout.count }
    ensures held { IsHeld pair.new layout places.new (C.view scratch.new) }
    ensures marked { AreMarked pair.new marks.new }
    ensures loaded { OnOk result (line_held places.new half ≡ Some k) }
    ensures place { IfOk result (λ p. place_of places.new half ≡ Some p) }
    ensures line { IfOk result (λ p. p.line ≡ k) }
    ensures page { OnOk result (HoldsPageOf layout places.new (C.view scratch.new) half k) }
    ensures dropped { OnErr result (line_held places.new half ≡ None) }
    ensures other { (h : Half) → h ≢ half → place_of places.new h ≡ place_of places.old h }
    ensures other_page { (h : Half) → h ≢ half → page_of pair.new h ≡ page_of pair.old h }
    ensures keeps { Keeps (seen_of layout places.old (C.view scratch.old)) (seen_of layout places.new (C.view scratch.new)) }
    ensures cause { IfErr result (λ e. HasCause e (seen_of layout places.old (C.view scratch.old)) (seen_of layout places.new (C.view scratch.new))) }
    ensures reads { ReadsByDigits layout.pages 1 (C.view scratch.old) (C.view scratch.new) }
    ensures still { HasPageOf places.old half k → (C.view scratch.new).reads ≡ (C.view scratch.old).reads }
{
    match fetch_line(pair, scratch, *places, marks, layout, k, half) {
        Ok(place) => {
            places.set(half, Some(place));
            Ok(place)
        }
        Err(fault) => {
            places.set(half, None);
            Err(fault)
        }
    }
}

/// Has a half hold line `k`.
pub fn load_half<C: Scratch>(
    pair: &mut PagePair,
    scratch: &mut C,
    places: &mut Places,
    marks: &mut Marks,
    layout: Layout,
    k: u64,
    half: Half,
) -> Result<(), LineFault>
    requires held { IsHeld pair.old layout places.old (C.view scratch.old) }
    requires marked { AreMarked pair.old marks.old }
    requires low { 1 ≤ k }
    requires high { k ≤ layout.count }
    ensures held { IsHeld pair.new layout places.new (C.view scratch.new) }
    ensures marked { AreMarked pair.new marks.new }
    ensures loaded { OnOk result (line_held places.new half ≡ Some k) }
    ensures page { OnOk result (HoldsPageOf layout places.new (C.view scratch.new) half k) }
    ensures dropped { OnErr result (line_held places.new half ≡ None) }
    ensures other { (h : Half) → h ≢ half → place_of places.new h ≡ place_of places.old h }
    ensures other_page { (h : Half) → h ≢ half → page_of pair.new h ≡ page_of pair.old h }
    ensures keeps { Keeps (seen_of layout places.old (C.view scratch.old)) (seen_of layout places.new (C.view scratch.new)) }
    ensures cause { IfErr result (λ e. HasCause e (seen_of layout places.old (C.view scratch.old)) (seen_of layout places.new (C.view scratch.new))) }
    ensures reads { ReadsByDigits layout.pages 1 (C.view scratch.old) (C.view scratch.new) }
    ensures still { HasPageOf places.old half k → (C.view scratch.new).reads ≡ (C.view scratch.old).reads }
{
    match reach_near(pair.page(half), places, half, k) {
        Some(at) => {
            places.go_to(half, k, at);
            Ok(())
        }
        None => match load_line(pair, scratch, places, marks, layout, k, half) {
            Ok(_) => Ok(()),
            Err(fault) => Err(fault),
        },
    }
}
