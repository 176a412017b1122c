//! Places reached from the one that a half holds, record by record.

ghost use Rattle.std.specs.Prelude.{◌≡◌, ◌≤◌, ◌<◌, ◌+◌, ◌^◌, IsTrue, ◌↔◌, ℕ, List, length, None, Some, IfSome};
ghost use Rattle.page_pair.specs.Records.{stated, line_in};
ghost use Rattle.packed_pages.specs.declared.places.RecordPlace.{RecordPlace};
ghost use Rattle.packed_pages.specs.Steps.{IsWhole, Follows, IfNear, Misses, IfLast, IfReaches};
ghost use Rattle.page_pair.specs.Alike.{TellsAlike};
ghost use Rattle.packed_pages.specs.Held.{place_of};

use crate::places::{Places, RecordPlace};
use line_store::Half;
use page_pair::record::{line_of, stated_length};

/// The records of a page up to one that is alike, or to the last that was looked at.
#[derive(Clone, Copy)]
pub struct Pass {
    pub place: RecordPlace,
    pub is_alike: bool,
}

/// Whether a page has all of the record at a place.
fn is_whole(page: &[u8], at: usize) -> bool
    requires small { length page.now ≤ 2 ^ 20 }
    requires within { at ≤ length page.now }
    ensures { IsTrue result ↔ (at + 4 + stated page.now at ≤ length page.now) }
{
    let size = page.len();
    if at + 4 > size {
        return false;
    }
    stated_length(page, at) <= (size - 4 - at) as u64
}

/// The place behind one, if its record is whole.
pub fn next_on(page: &[u8], place: RecordPlace) -> Option<RecordPlace>
    requires small { length page.now ≤ 2 ^ 20 }
    requires whole { IsWhole page.now place }
    requires few { place.line + 1 < place.next }
    ensures follows { IfSome result (λ q. Follows page.now place q) }
    ensures line { IfSome result (λ q. q.line ≡ place.line + 1) }
{
    let at = place.at + 4 + stated_length(page, place.at) as usize;
    if is_whole(page, at) {
        return Some(RecordPlace {
            line: place.line + 1,
            at,
            ..place
        });
    }
    None
}

/// The place of line `k`, where a half holds it or the line before it on the same page.
pub fn near(page: &[u8], held: Option<RecordPlace>, k: u64) -> Option<RecordPlace>
    requires small { length page.now ≤ 2 ^ 20 }
    requires whole { (p : RecordPlace) → held ≡ Some p → IsWhole page.now p }
    requires within { (p : RecordPlace) → held ≡ Some p → p.line < p.next }
    ensures { IfNear page.now held k result }
{
    let place = match held {
        Some(place) => place,
        None => return None,
    };
    if k == place.line {
        return Some(place);
    }
    if k != place.line + 1 || k >= place.next {
        return None;
    }
    next_on(page, place)
}

/// Where line `k` stands, if it is the line of a place or the one behind it on the same page.
fn reach_from(page: &[u8], place: &RecordPlace, k: u64) -> Option<usize>
    requires small { length page.now ≤ 2 ^ 20 }
    requires whole { IsWhole page.now place.now }
    requires within { place.now.line < place.now.next }
    ensures { IfReaches page.now (Some place.now) k result }
{
    if k == place.line {
        return Some(place.at);
    }
    if k != place.line + 1 || k >= place.next {
        return None;
    }
    let at = place.at + 4 + stated_length(page, place.at) as usize;
    if is_whole(page, at) {
        return Some(at);
    }
    None
}

/// Where line `k` stands, if it is the line of a place, which may be none, or the one behind it on the same page.
fn reach_in(page: &[u8], held: &Option<RecordPlace>, k: u64) -> Option<usize>
    requires small { length page.now ≤ 2 ^ 20 }
    requires whole { (p : RecordPlace) → held.now ≡ Some p → IsWhole page.now p }
    requires within { (p : RecordPlace) → held.now ≡ Some p → p.line < p.next }
    ensures { IfReaches page.now held.now k result }
{
    match held {
        Some(place) => reach_from(page, place, k),
        None => None,
    }
}

/// Where line `k` stands, if a half holds it or the line before it on the same page.
pub fn reach_near(page: &[u8], places: &Places, half: Half, k: u64) -> Option<usize>
    requires small { length page.now ≤ 2 ^ 20 }
    requires whole { (p : RecordPlace) → place_of places.now half ≡ Some p → IsWhole page.now p }
    requires within { (p : RecordPlace) → place_of places.now half ≡ Some p → p.line < p.next }
    ensures { IfReaches page.now (place_of places.now half) k result }
{
    match half {
        Half::First => reach_in(page, &places.first, k),
        Half::Second => reach_in(page, &places.second, k),
    }
}

/// Whether two lines are equal. Most others differ in their lengths, or in their last byte before the line feed.
fn is_same(a: &[u8], b: &[u8]) -> bool
    ensures { IsTrue result ↔ (a.now ≡ b.now) }
{
    if a.len() != b.len() {
        return false;
    }
    let near_end = a.len().saturating_sub(2);
    if near_end < a.len() && a[near_end] != b[near_end] {
        return false;
    }
    a == b
}

/// Whether the record at a place holds this line.
fn is_alike(page: &[u8], at: usize, line: &[u8]) -> bool
    requires { at + 4 + stated page.now at ≤ length page.now }
    ensures { TellsAlike page.now line.now at result }
{
    is_same(line_of(page, at), line)
}

/// Goes on from a place to the first record that holds this line, at most up to before line `to`. It stops before a record
/// that isn't whole.
pub fn first_pass(page: &[u8], start: RecordPlace, to: u64, line: &[u8]) -> Pass
    requires small { length page.now ≤ 2 ^ 20 }
    requires whole { IsWhole page.now start }
    requires within { start.line < start.next }
    requires before { start.line < to }
    ensures follows { Follows page.now start result.place }
    ensures before { result.place.line < to }
    ensures misses { Misses page.now start.first line.now start.line result.place.line }
    ensures tells { TellsAlike page.now line.now result.place.at result.is_alike }
{
    let end = u64::min(to, start.next);
    let mut now = start;
    while !is_alike(page, now.at, line) {
        if now.line + 1 >= end {
            return Pass {
                place: now,
                is_alike: false,
            };
        }
        now = match next_on(page, now) {
            Some(next) => next,
            None => {
                return Pass {
                    place: now,
                    is_alike: false,
                };
            }
        };
    }
    Pass {
        place: now,
        is_alike: true,
    }
}

/// The records of a page up to one, and the last of them that is alike.
#[derive(Clone, Copy)]
pub struct LastPass {
    pub place: RecordPlace,
    pub alike: Option<RecordPlace>,
}

/// This place, if its record holds the line, and else the one that was alike before.
fn later(
    page: &[u8],
    place: RecordPlace,
    alike: Option<RecordPlace>,
    line: &[u8],
) -> Option<RecordPlace>
    requires whole { IsWhole page.now place }
    ensures { (start : RecordPlace) → Follows page.now start place → IfLast page.now start line.now place.line alike → IfLast page.now start line.now (place.line + 1) result }
{
    if is_alike(page, place.at, line) {
        return Some(place);
    }
    alike
}

/// Goes on from a place up to before line `to`. It stops before a record that isn't whole.
pub fn last_pass(page: &[u8], start: RecordPlace, to: u64, line: &[u8]) -> LastPass
    requires small { length page.now ≤ 2 ^ 20 }
    requires whole { IsWhole page.now start }
    requires within { start.line < start.next }
    requires before { start.line < to }
    ensures follows { Follows page.now start result.place }
    ensures before { result.place.line < to }
    ensures last { IfLast page.now start line.now (result.place.line + 1) result.alike }
{
    let end = u64::min(to, start.next);
    let mut now = start;
    let mut alike = later(page, start, None, line);
    while now.line + 1 < end {
        now = match next_on(page, now) {
            Some(next) => next,
            None => return LastPass { place: now, alike },
        };
        alike = later(page, now, alike, line);
    }
    LastPass { place: now, alike }
}
