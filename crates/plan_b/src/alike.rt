//! The first or last line that is the same as another one, looked for page by page.

ghost use Rattle.std.specs.Prelude.{◌≡◌, ◌≢◌, ◌≤◌, ◌<◌, ◌+◌, ℕ, List, Some, IfErr, IfOk, IfSome};
ghost use Rattle.line_store.specs.declared.Half.{Half};
ghost use Rattle.line_store.specs.Halves.{half_of};
ghost use Rattle.line_store.specs.Store.{Keeps, HasCause, IsFirstAlike, IsLastAlike};
ghost use Rattle.plan_b.specs.Layout.{lines_told};
ghost use Rattle.plan_b.specs.Held.{seen_of, IsHeld};
ghost use Rattle.plan_b.specs.Spots.{AreSpots, FindsLast};
ghost use Rattle.page_pair.specs.Alike.{FindsFirst};

use crate::layout::Layout;
use crate::loading::load_line;
use crate::spots::Spots;
use crate::stepping::{Pass, first_pass, last_pass};
use line_store::{Half, Halves, LineFault};
use outside::Scratch;
use page_pair::PagePair;

/// Looks for a line from line `k` on, at most up to before line `to` and to the end of the page of line `k`.
fn first_on_page<C: Scratch>(
    pair: &mut PagePair,
    scratch: &mut C,
    halves: &mut Halves,
    spots: &mut Spots,
    layout: Layout,
    k: u64,
    to: u64,
    line: &[u8],
    half: Half,
) -> Result<Pass, LineFault>
    requires held { IsHeld pair.old layout halves.old (C.view scratch.old) }
    requires spots { AreSpots layout halves.old spots.old }
    requires low { 1 ≤ k }
    requires order { k < to }
    requires high { to ≤ layout.count + 1 }
    ensures held { IsHeld pair.new layout halves.new (C.view scratch.new) }
    ensures spots { AreSpots layout halves.new spots.new }
    ensures on { IfOk result (λ p. k ≤ p.line) }
    ensures within { IfOk result (λ p. p.line < to) }
    ensures value { IfOk result (λ p. (lines : List (List ℕ)) → lines_told layout (C.view scratch.old).told ≡ Some lines → FindsFirst lines line.now k p.line p.is_alike) }
    ensures other { (h : Half) → h ≢ half → half_of halves.new h ≡ half_of halves.old h }
    ensures keeps { Keeps (seen_of layout halves.old (C.view scratch.old)) (seen_of layout halves.new (C.view scratch.new)) }
    ensures cause { IfErr result (λ e. HasCause e (seen_of layout halves.old (C.view scratch.old)) (seen_of layout halves.new (C.view scratch.new))) }
{
    let start = match load_line(pair, scratch, halves, spots, layout, k, half) {
        Ok(spot) => spot,
        Err(fault) => return Err(fault),
    };
    let pass = first_pass(pair.page(half), layout, k, start, to, line);
    halves.set(half, Some(pass.line));
    spots.set(half, pass.spot);
    Ok(pass)
}

/// The first line from line `from` up to before line `to` that has these bytes.
pub fn find_first<C: Scratch>(
    pair: &mut PagePair,
    scratch: &mut C,
    halves: &mut Halves,
    spots: &mut Spots,
    layout: Layout,
    from: u64,
    to: u64,
    line: &[u8],
    half: Half,
) -> Result<Option<u64>, LineFault>
    requires held { IsHeld pair.old layout halves.old (C.view scratch.old) }
    requires spots { AreSpots layout halves.old spots.old }
    requires low { 1 ≤ from }
    requires high { to ≤ layout.count + 1 }
    ensures held { IsHeld pair.new layout halves.new (C.view scratch.new) }
    ensures spots { AreSpots layout halves.new spots.new }
    ensures within { IfOk result (λ found. IfSome found (λ k. (from ≤ k) × (k < to))) }
    ensures value { IfOk result (λ found. (lines : List (List ℕ)) → lines_told layout (C.view scratch.old).told ≡ Some lines → IsFirstAlike lines line.now from to found) }
    ensures other { (h : Half) → h ≢ half → half_of halves.new h ≡ half_of halves.old h }
    ensures keeps { Keeps (seen_of layout halves.old (C.view scratch.old)) (seen_of layout halves.new (C.view scratch.new)) }
    ensures cause { IfErr result (λ e. HasCause e (seen_of layout halves.old (C.view scratch.old)) (seen_of layout halves.new (C.view scratch.new))) }
{
    let mut k = from;
    while k < to {
        let pass = match first_on_page(pair, scratch, halves, spots, layout, k, to, line, half) {
            Ok(pass) => pass,
            Err(fault) => return Err(fault),
        };
        if pass.is_alike {
            return Ok(Some(pass.line));
        }
        k = pass.line + 1;
    }
    Ok(None)
}

/// Looks for a line from before line `to` back, at most to line `from` and to the first line of the page.
fn last_on_page<C: Scratch>(
    pair: &mut PagePair,
    scratch: &mut C,
    halves: &mut Halves,
    spots: &mut Spots,
    layout: Layout,
    from: u64,
    to: u64,
    line: &[u8],
    half: Half,
) -> Result<Pass, LineFault>
    requires held { IsHeld pair.old layout halves.old (C.view scratch.old) }
    requires spots { AreSpots layout halves.old spots.old }
    requires low { 1 ≤ from }
    requires order { from < to }
    requires high { to ≤ layout.count + 1 }
    ensures held { IsHeld pair.new layout halves.new (C.view scratch.new) }
    ensures spots { AreSpots layout halves.new spots.new }
    ensures low { IfOk result (λ p. from ≤ p.line) }
    ensures within { IfOk result (λ p. p.line < to) }
    ensures value { IfOk result (λ p. (lines : List (List ℕ)) → lines_told layout (C.view scratch.old).told ≡ Some lines → FindsLast lines line.now to p.line p.is_alike) }
    ensures other { (h : Half) → h ≢ half → half_of halves.new h ≡ half_of halves.old h }
    ensures keeps { Keeps (seen_of layout halves.old (C.view scratch.old)) (seen_of layout halves.new (C.view scratch.new)) }
    ensures cause { IfErr result (λ e. HasCause e (seen_of layout halves.old (C.view scratch.old)) (seen_of layout halves.new (C.view scratch.new))) }
{
    let start = match load_line(pair, scratch, halves, spots, layout, to - 1, half) {
        Ok(spot) => spot,
        Err(fault) => return Err(fault),
    };
    let pass = last_pass(pair.page(half), layout, from, to - 1, start, line);
    halves.set(half, Some(pass.line));
    spots.set(half, pass.spot);
    Ok(pass)
}

/// The last such line.
pub fn find_last<C: Scratch>(
    pair: &mut PagePair,
    scratch: &mut C,
    halves: &mut Halves,
    spots: &mut Spots,
    layout: Layout,
    from: u64,
    to: u64,
    line: &[u8],
    half: Half,
) -> Result<Option<u64>, LineFault>
    requires held { IsHeld pair.old layout halves.old (C.view scratch.old) }
    requires spots { AreSpots layout halves.old spots.old }
    requires low { 1 ≤ from }
    requires high { to ≤ layout.count + 1 }
    ensures held { IsHeld pair.new layout halves.new (C.view scratch.new) }
    ensures spots { AreSpots layout halves.new spots.new }
    ensures within { IfOk result (λ found. IfSome found (λ k. (from ≤ k) × (k < to))) }
    ensures value { IfOk result (λ found. (lines : List (List ℕ)) → lines_told layout (C.view scratch.old).told ≡ Some lines → IsLastAlike lines line.now from to found) }
    ensures other { (h : Half) → h ≢ half → half_of halves.new h ≡ half_of halves.old h }
    ensures keeps { Keeps (seen_of layout halves.old (C.view scratch.old)) (seen_of layout halves.new (C.view scratch.new)) }
    ensures cause { IfErr result (λ e. HasCause e (seen_of layout halves.old (C.view scratch.old)) (seen_of layout halves.new (C.view scratch.new))) }
{
    let mut end = to;
    while from < end {
        let pass = match last_on_page(pair, scratch, halves, spots, layout, from, end, line, half) {
            Ok(pass) => pass,
            Err(fault) => return Err(fault),
        };
        if pass.is_alike {
            return Ok(Some(pass.line));
        }
        end = pass.line;
    }
    Ok(None)
}
