//! The first or last line that is the same as another one, looked for page by page. A pass stops before a record that isn't
//! whole, and the slow way then says why.

ghost use Rattle.std.specs.Prelude.{◌≡◌, ◌≢◌, ◌≤◌, ◌<◌, ◌+◌, ◌^◌, ℕ, List, length, true, false, None, Some, IfErr, IfOk, IfSome, OnOk, OnErr};
ghost use Rattle.line_store.specs.declared.Half.{Half};
ghost use Rattle.line_store.specs.Store.{Keeps, HasCause, NoneAlike, IsFirstAlike, IsLastAlike};
ghost use Rattle.std.specs.Option.{option_map};
ghost use Rattle.packed_pages.specs.declared.places.RecordPlace.{RecordPlace};
ghost use Rattle.page_pair.specs.Pair.{page_of};
ghost use Rattle.packed_pages.specs.Marks.{AreMarked};
ghost use Rattle.packed_pages.specs.Layout.{lines_told};
ghost use Rattle.packed_pages.specs.Held.{seen_of, place_of, IsHeld};
ghost use Rattle.page_pair.specs.Alike.{FindsFirst};

use crate::layout::Layout;
use crate::loading::load_line;
use crate::marks::Marks;
use crate::places::{Places, RecordPlace};
use crate::stepping::{Pass, first_pass, last_pass};
use line_store::{Half, LineFault};
use outside::Scratch;
use page_pair::PagePair;

/// The least and the greatest number of lines that a search goes back by.
const FEWEST: u64 = 8;

const MOST: u64 = 512;

/// Looks for a line from line `k` on, at most up to before line `to` and to the end of the page of line `k`.
fn first_on_page<C: Scratch>(
    pair: &mut PagePair,
    scratch: &mut C,
    places: &mut Places,
    marks: &mut Marks,
    layout: Layout,
    k: u64,
    to: u64,
    line: &[u8],
    half: Half,
) -> Result<Pass, LineFault>
    requires held { IsHeld pair.old layout places.old (C.view scratch.old) }
    requires marked { AreMarked pair.old marks.old }
    requires low { 1 ≤ k }
    requires order { k < to }
    requires high { to ≤ layout.count + 1 }
    ensures held { IsHeld pair.new layout places.new (C.view scratch.new) }
    ensures marked { AreMarked pair.new marks.new }
    ensures on { IfOk result (λ p. k ≤ p.place.line) }
    ensures within { IfOk result (λ p. p.place.line < to) }
    ensures value { IfOk result (λ p. (lines : List (List ℕ)) → lines_told layout (C.view scratch.old).told ≡ Some lines → FindsFirst lines line.now k p.place.line p.is_alike) }
    ensures other { (h : Half) → h ≢ half → place_of places.new h ≡ place_of places.old h }
    ensures keeps { Keeps (seen_of layout places.old (C.view scratch.old)) (seen_of layout places.new (C.view scratch.new)) }
    ensures cause { IfErr result (λ e. HasCause e (seen_of layout places.old (C.view scratch.old)) (seen_of layout places.new (C.view scratch.new))) }
{
    let start = match load_line(pair, scratch, places, marks, layout, k, half) {
        Ok(place) => place,
        Err(fault) => return Err(fault),
    };
    let pass = first_pass(pair.page(half), start, to, line);
    places.set(half, Some(pass.place));
    Ok(pass)
}

/// The first line from line `from` up to before line `to` that has these bytes.
pub fn find_first<C: Scratch>(
    pair: &mut PagePair,
    scratch: &mut C,
    places: &mut Places,
    marks: &mut Marks,
    layout: Layout,
    from: u64,
    to: u64,
    line: &[u8],
    half: Half,
) -> Result<Option<u64>, LineFault>
    requires held { IsHeld pair.old layout places.old (C.view scratch.old) }
    requires marked { AreMarked pair.old marks.old }
    requires low { 1 ≤ from }
    requires high { to ≤ layout.count + 1 }
    ensures held { IsHeld pair.new layout places.new (C.view scratch.new) }
    ensures marked { AreMarked pair.new marks.new }
    ensures within { IfOk result (λ found. IfSome found (λ k. (from ≤ k) × (k < to))) }
    ensures value { IfOk result (λ found. (lines : List (List ℕ)) → lines_told layout (C.view scratch.old).told ≡ Some lines → IsFirstAlike lines line.now from to found) }
    ensures other { (h : Half) → h ≢ half → place_of places.new h ≡ place_of places.old h }
    ensures keeps { Keeps (seen_of layout places.old (C.view scratch.old)) (seen_of layout places.new (C.view scratch.new)) }
    ensures cause { IfErr result (λ e. HasCause e (seen_of layout places.old (C.view scratch.old)) (seen_of layout places.new (C.view scratch.new))) }
{
    let mut k = from;
    while k < to {
        let pass = match first_on_page(pair, scratch, places, marks, layout, k, to, line, half) {
            Ok(pass) => pass,
            Err(fault) => return Err(fault),
        };
        if pass.is_alike {
            return Ok(Some(pass.place.line));
        }
        k = pass.place.line + 1;
    }
    Ok(None)
}

/// The last line that was looked at, and the last one that is alike.
#[derive(Clone, Copy)]
struct Reached {
    line: u64,
    alike: Option<u64>,
}

/// Looks at the lines from line `k` on, at most up to before line `to` and to the end of the page of line `k`. The half goes on at
/// the line that is alike, or else at the last one that was looked at.
fn last_on_page<C: Scratch>(
    pair: &mut PagePair,
    scratch: &mut C,
    places: &mut Places,
    marks: &mut Marks,
    layout: Layout,
    k: u64,
    to: u64,
    line: &[u8],
    half: Half,
) -> Result<Reached, LineFault>
    requires held { IsHeld pair.old layout places.old (C.view scratch.old) }
    requires marked { AreMarked pair.old marks.old }
    requires low { 1 ≤ k }
    requires order { k < to }
    requires high { to ≤ layout.count + 1 }
    ensures held { IsHeld pair.new layout places.new (C.view scratch.new) }
    ensures marked { AreMarked pair.new marks.new }
    ensures on { IfOk result (λ r. k ≤ r.line) }
    ensures within { IfOk result (λ r. r.line < to) }
    ensures between { IfOk result (λ r. IfSome r.alike (λ w. (k ≤ w) × (w < r.line + 1))) }
    ensures value { IfOk result (λ r. (lines : List (List ℕ)) → lines_told layout (C.view scratch.old).told ≡ Some lines → IsLastAlike lines line.now k (r.line + 1) r.alike) }
    ensures other { (h : Half) → h ≢ half → place_of places.new h ≡ place_of places.old h }
    ensures keeps { Keeps (seen_of layout places.old (C.view scratch.old)) (seen_of layout places.new (C.view scratch.new)) }
    ensures cause { IfErr result (λ e. HasCause e (seen_of layout places.old (C.view scratch.old)) (seen_of layout places.new (C.view scratch.new))) }
{
    let start = match load_line(pair, scratch, places, marks, layout, k, half) {
        Ok(place) => place,
        Err(fault) => return Err(fault),
    };
    let pass = last_pass(pair.page(half), start, to, line);
    places.set(half, Some(pass.alike.unwrap_or(pass.place)));
    Ok(Reached {
        line: pass.place.line,
        alike: number_of(pass.alike),
    })
}

/// The line of a place.
fn number_of(place: Option<RecordPlace>) -> Option<u64>
    ensures { result ≡ option_map (λ p. p.line) place }
{
    match place {
        Some(place) => Some(place.line),
        None => None,
    }
}

/// The last of the lines from line `from` up to before line `to` that has these bytes, looked for from the first of them on.
fn last_between<C: Scratch>(
    pair: &mut PagePair,
    scratch: &mut C,
    places: &mut Places,
    marks: &mut Marks,
    layout: Layout,
    from: u64,
    to: u64,
    line: &[u8],
    half: Half,
) -> Result<Option<u64>, LineFault>
    requires held { IsHeld pair.old layout places.old (C.view scratch.old) }
    requires marked { AreMarked pair.old marks.old }
    requires low { 1 ≤ from }
    requires order { from ≤ to }
    requires high { to ≤ layout.count + 1 }
    ensures held { IsHeld pair.new layout places.new (C.view scratch.new) }
    ensures marked { AreMarked pair.new marks.new }
    ensures within { IfOk result (λ found. IfSome found (λ k. (from ≤ k) × (k < to))) }
    ensures value { IfOk result (λ found. (lines : List (List ℕ)) → lines_told layout (C.view scratch.old).told ≡ Some lines → IsLastAlike lines line.now from to found) }
    ensures other { (h : Half) → h ≢ half → place_of places.new h ≡ place_of places.old h }
    ensures keeps { Keeps (seen_of layout places.old (C.view scratch.old)) (seen_of layout places.new (C.view scratch.new)) }
    ensures cause { IfErr result (λ e. HasCause e (seen_of layout places.old (C.view scratch.old)) (seen_of layout places.new (C.view scratch.new))) }
{
    let mut k = from;
    let mut found = None;
    while k < to {
        let reached = match last_on_page(pair, scratch, places, marks, layout, k, to, line, half) {
            Ok(reached) => reached,
            Err(fault) => return Err(fault),
        };
        found = reached.alike.or(found);
        k = reached.line + 1;
    }
    Ok(found)
}

/// Where a search goes back to from before line `end`: at most `most` lines on the page that a half holds, and by one line where
/// that is another page.
fn back_from(held: Option<RecordPlace>, from: u64, end: u64, most: u64) -> u64
    requires order { from < end }
    requires some { 1 ≤ most }
    ensures low { from ≤ result }
    ensures high { result < end }
{
    match held {
        Some(place) if place.first < end && end <= place.next => {
            u64::max(u64::max(from, place.first), end.saturating_sub(most))
        }
        _ => end - 1,
    }
}

/// The last line from line `from` up to before line `to` that has these bytes. Lines are looked at in groups, each twice as
/// large as the one behind it, since records are found from the one before them.
pub fn find_last<C: Scratch>(
    pair: &mut PagePair,
    scratch: &mut C,
    places: &mut Places,
    marks: &mut Marks,
    layout: Layout,
    from: u64,
    to: u64,
    line: &[u8],
    half: Half,
) -> Result<Option<u64>, LineFault>
    requires held { IsHeld pair.old layout places.old (C.view scratch.old) }
    requires marked { AreMarked pair.old marks.old }
    requires low { 1 ≤ from }
    requires high { to ≤ layout.count + 1 }
    ensures held { IsHeld pair.new layout places.new (C.view scratch.new) }
    ensures marked { AreMarked pair.new marks.new }
    ensures within { IfOk result (λ found. IfSome found (λ k. (from ≤ k) × (k < to))) }
    ensures value { IfOk result (λ found. (lines : List (List ℕ)) → lines_told layout (C.view scratch.old).told ≡ Some lines → IsLastAlike lines line.now from to found) }
    ensures other { (h : Half) → h ≢ half → place_of places.new h ≡ place_of places.old h }
    ensures keeps { Keeps (seen_of layout places.old (C.view scratch.old)) (seen_of layout places.new (C.view scratch.new)) }
    ensures cause { IfErr result (λ e. HasCause e (seen_of layout places.old (C.view scratch.old)) (seen_of layout places.new (C.view scratch.new))) }
{
    let mut end = to;
    let mut most = FEWEST;
    while from < end {
        let k = back_from(places.get(half), from, end, most);
        match last_between(pair, scratch, places, marks, layout, k, end, line, half) {
            Ok(None) => {}
            Ok(Some(w)) => return Ok(Some(w)),
            Err(fault) => return Err(fault),
        }
        end = k;
        most = u64::min(2 * most, MOST);
    }
    Ok(None)
}
