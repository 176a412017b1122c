//! Records reached from that of the line that a half holds, on the same page.

ghost use Rattle.std.specs.Prelude.{◌≡◌, ◌≤◌, ◌<◌, ◌+◌, ◌-◌, ◌^◌, IsTrue, ◌↔◌, ℕ, List, length, None, Some, IfSome};
ghost use Rattle.page_pair.specs.Records.{stated, line_in};
ghost use Rattle.plan_b.specs.Layout.{IsLayout};
ghost use Rattle.plan_b.specs.Spots.{IsRecord, Follows, IfNear, Misses};
ghost use Rattle.page_pair.specs.Alike.{TellsAlike};

use crate::layout::Layout;
use crate::spots::RecordOnPage;
use page_pair::record::{line_of, stated_length};

/// The line that a pass over a page came to, its record, and whether it is alike.
#[derive(Clone, Copy)]
pub struct Pass {
    pub line: u64,
    pub spot: RecordOnPage,
    pub is_alike: bool,
}

/// The spot, if its record states no more bytes than fit it.
fn if_fits(page: &[u8], layout: Layout, spot: RecordOnPage) -> Option<RecordOnPage>
    requires layout { IsLayout layout }
    requires within { spot.at + 4 ≤ length page.now }
    ensures { IfSome result (λ s. (s ≡ spot) × (stated page.now spot.at + 4 ≤ layout.width)) }
{
    if stated_length(page, spot.at) > layout.width - 4 {
        return None;
    }
    Some(spot)
}

/// The record behind that of line `k`.
fn next_on(page: &[u8], layout: Layout, k: u64, spot: RecordOnPage) -> Option<RecordOnPage>
    requires layout { IsLayout layout }
    requires size { length page.now ≡ layout.size }
    requires is { IsRecord page.now layout k spot }
    ensures { IfSome result (λ s. Follows page.now layout k (k + 1) s) }
{
    if spot.index + 1 >= layout.per_page {
        return None;
    }
    let next = RecordOnPage {
        index: spot.index + 1,
        at: spot.at + layout.width as usize,
    };
    if_fits(page, layout, next)
}

/// The record before that of line `k`.
fn spot_before(page: &[u8], layout: Layout, k: u64, spot: RecordOnPage) -> Option<RecordOnPage>
    requires layout { IsLayout layout }
    requires size { length page.now ≡ layout.size }
    requires is { IsRecord page.now layout k spot }
    ensures { IfSome result (λ s. Follows page.now layout k (k - 1) s) }
{
    if spot.index == 0 {
        return None;
    }
    let before = RecordOnPage {
        index: spot.index - 1,
        at: spot.at - layout.width as usize,
    };
    if_fits(page, layout, before)
}

/// The record of line `k`, where a half holds it, or the one before or behind it on the same page.
pub fn near(
    page: &[u8],
    layout: Layout,
    held: Option<u64>,
    spot: RecordOnPage,
    k: u64,
) -> Option<RecordOnPage>
    requires layout { IsLayout layout }
    requires size { length page.now ≡ layout.size }
    requires is { (j : ℕ) → held ≡ Some j → IsRecord page.now layout j spot }
    requires few { (j : ℕ) → held ≡ Some j → j ≤ 2 ^ 40 }
    ensures { IfNear page.now layout held k result }
{
    let j = match held {
        Some(j) => j,
        None => return None,
    };
    if k == j + 1 {
        return next_on(page, layout, j, spot);
    }
    if k == j {
        return Some(spot);
    }
    if k == j - 1 {
        return spot_before(page, layout, j, spot);
    }
    None
}

/// Whether two lines are equal. Most others differ in their lengths, or in their last byte before the line feed.
fn is_same(a: &[u8], b: &[u8]) -> bool
    ensures { IsTrue result ↔ (a.now ≡ b.now) }
{
    if a.len() != b.len() {
        return false;
    }
    let near_end = a.len().saturating_sub(2);
    if near_end < a.len() && a[near_end] != b[near_end] {
        return false;
    }
    a == b
}

/// Whether the record at a place holds this line.
fn is_alike(page: &[u8], at: usize, line: &[u8]) -> bool
    requires { at + 4 + stated page.now at ≤ length page.now }
    ensures { TellsAlike page.now line.now at result }
{
    is_same(line_of(page, at), line)
}

/// Goes on from line `k` to the first one that is alike, at most up to before line `to`. It stops before a record that states
/// too many bytes.
pub fn first_pass(
    page: &[u8],
    layout: Layout,
    k: u64,
    spot: RecordOnPage,
    to: u64,
    line: &[u8],
) -> Pass
    requires layout { IsLayout layout }
    requires size { length page.now ≡ layout.size }
    requires is { IsRecord page.now layout k spot }
    requires before { k < to }
    ensures follows { Follows page.now layout k result.line result.spot }
    ensures order { k ≤ result.line }
    ensures before { result.line < to }
    ensures misses { Misses page.now layout line.now k result.line }
    ensures tells { TellsAlike page.now line.now result.spot.at result.is_alike }
{
    let mut now = k;
    let mut at = spot;
    while !is_alike(page, at.at, line) {
        if now + 1 >= to {
            return Pass {
                line: now,
                spot: at,
                is_alike: false,
            };
        }
        at = match next_on(page, layout, now, at) {
            Some(next) => next,
            None => {
                return Pass {
                    line: now,
                    spot: at,
                    is_alike: false,
                };
            }
        };
        now += 1;
    }
    Pass {
        line: now,
        spot: at,
        is_alike: true,
    }
}

/// Goes back from line `k` to the last one that is alike, at most to line `from`. It stops before a record that states too
/// many bytes.
pub fn last_pass(
    page: &[u8],
    layout: Layout,
    from: u64,
    k: u64,
    spot: RecordOnPage,
    line: &[u8],
) -> Pass
    requires layout { IsLayout layout }
    requires size { length page.now ≡ layout.size }
    requires is { IsRecord page.now layout k spot }
    requires before { from ≤ k }
    ensures follows { Follows page.now layout k result.line result.spot }
    ensures order { result.line ≤ k }
    ensures low { from ≤ result.line }
    ensures misses { Misses page.now layout line.now (result.line + 1) (k + 1) }
    ensures tells { TellsAlike page.now line.now result.spot.at result.is_alike }
{
    let mut now = k;
    let mut at = spot;
    while !is_alike(page, at.at, line) {
        if now <= from {
            return Pass {
                line: now,
                spot: at,
                is_alike: false,
            };
        }
        at = match spot_before(page, layout, now, at) {
            Some(before) => before,
            None => {
                return Pass {
                    line: now,
                    spot: at,
                    is_alike: false,
                };
            }
        };
        now -= 1;
    }
    Pass {
        line: now,
        spot: at,
        is_alike: true,
    }
}
