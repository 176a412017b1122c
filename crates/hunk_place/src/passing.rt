//! The first and the last place of a range where a pattern fits, looked for by the first line that it compares.

ghost use Rattle.std.specs.Prelude.{◌≡◌, ◌+◌, ◌-◌, ◌<◌, ◌≤◌, ◌^◌, ℕ, IfOk, IfErr, IfSome};
ghost use Rattle.std.specs.Option.{option_map};
ghost use Rattle.line_store.specs.Store.{Keeps, HasCause};
ghost use Rattle.hunk_place.specs.Pattern.{IsPattern};
ghost use Rattle.hunk_place.specs.Passing.{IsFirstPass, IsLastPass, SkipsTo, SkipsBack, IsFirstLine, WhereTold};

use crate::pattern::Pattern;
use hunk_core::is_taken;
use line_store::{Half, LineFault, LineStore};

/// The first place from `from` up to, not including, `to` where the pattern fits. Places are looked at in the first half.
pub fn first_between<S: LineStore>(
    store: &mut S,
    pattern: &Pattern,
    from: u64,
    to: u64,
) -> Result<Option<u64>, LineFault>
    requires pattern { IsPattern pattern.now }
    requires first { 1 ≤ from }
    requires small { to ≤ 2 ^ 62 }
    requires last { pattern.now.front < pattern.now.last → to + pattern.now.last ≤ (S.seen store.old).count + 2 }
    ensures within { IfOk result (λ found. IfSome found (λ w. (from ≤ w) × (w < to))) }
    ensures value { IfOk result (λ found. WhereTold (S.seen store.old).told pattern.now (λ f. IsFirstPass f from to found)) }
    ensures keeps { Keeps (S.seen store.old) (S.seen store.new) }
    ensures cause { IfErr result (λ e. HasCause e (S.seen store.old) (S.seen store.new)) }
{
    let mut at = from;
    while at < to {
        match next_place(store, pattern, at, to)? {
            Some(w) => {
                if pattern.fits_at(store, w, Half::First)? {
                    return Ok(Some(w));
                }
                at = w + 1;
            }
            None => return Ok(None),
        }
    }
    Ok(None)
}

/// The last such place. Places are looked at in the second half.
pub fn last_between<S: LineStore>(
    store: &mut S,
    pattern: &Pattern,
    from: u64,
    to: u64,
) -> Result<Option<u64>, LineFault>
    requires pattern { IsPattern pattern.now }
    requires first { 1 ≤ from }
    requires small { to ≤ 2 ^ 62 }
    requires last { pattern.now.front < pattern.now.last → to + pattern.now.last ≤ (S.seen store.old).count + 2 }
    ensures within { IfOk result (λ found. IfSome found (λ w. (from ≤ w) × (w < to))) }
    ensures value { IfOk result (λ found. WhereTold (S.seen store.old).told pattern.now (λ f. IsLastPass f from to found)) }
    ensures keeps { Keeps (S.seen store.old) (S.seen store.new) }
    ensures cause { IfErr result (λ e. HasCause e (S.seen store.old) (S.seen store.new)) }
{
    let mut end = to;
    while from < end {
        match place_before(store, pattern, from, end)? {
            Some(w) => {
                if pattern.fits_at(store, w, Half::Second)? {
                    return Ok(Some(w));
                }
                end = w;
            }
            None => return Ok(None),
        }
    }
    Ok(None)
}

/// The first place from `from` up to, not including, `to` where the pattern may fit.
fn next_place<S: LineStore>(
    store: &mut S,
    pattern: &Pattern,
    from: u64,
    to: u64,
) -> Result<Option<u64>, LineFault>
    requires pattern { IsPattern pattern.now }
    requires first { 1 ≤ from }
    requires order { from < to }
    requires small { to ≤ 2 ^ 62 }
    requires last { pattern.now.front < pattern.now.last → to + pattern.now.last ≤ (S.seen store.old).count + 2 }
    ensures within { IfOk result (λ found. IfSome found (λ w. (from ≤ w) × (w < to))) }
    ensures value { IfOk result (λ found. WhereTold (S.seen store.old).told pattern.now (λ f. SkipsTo f from to found)) }
    ensures keeps { Keeps (S.seen store.old) (S.seen store.new) }
    ensures cause { IfErr result (λ e. HasCause e (S.seen store.old) (S.seen store.new)) }
{
    let front = pattern.front as u64;
    match first_line(pattern) {
        Some(line) => {
            let found = store.first_alike(from + front, to + front, line, Half::First)?;
            Ok(moved_back(found, front))
        }
        None => Ok(Some(from)),
    }
}

/// The last such place.
fn place_before<S: LineStore>(
    store: &mut S,
    pattern: &Pattern,
    from: u64,
    to: u64,
) -> Result<Option<u64>, LineFault>
    requires pattern { IsPattern pattern.now }
    requires first { 1 ≤ from }
    requires order { from < to }
    requires small { to ≤ 2 ^ 62 }
    requires last { pattern.now.front < pattern.now.last → to + pattern.now.last ≤ (S.seen store.old).count + 2 }
    ensures within { IfOk result (λ found. IfSome found (λ w. (from ≤ w) × (w < to))) }
    ensures value { IfOk result (λ found. WhereTold (S.seen store.old).told pattern.now (λ f. SkipsBack f from to found)) }
    ensures keeps { Keeps (S.seen store.old) (S.seen store.new) }
    ensures cause { IfErr result (λ e. HasCause e (S.seen store.old) (S.seen store.new)) }
{
    let front = pattern.front as u64;
    match first_line(pattern) {
        Some(line) => {
            let found = store.last_alike(from + front, to + front, line, Half::Second)?;
            Ok(moved_back(found, front))
        }
        None => Ok(Some(to - 1)),
    }
}

/// The place at which a line stands so many lines behind the first.
fn moved_back(found: Option<u64>, front: u64) -> Option<u64>
    requires { IfSome found (λ k. front ≤ k) }
    ensures { result ≡ option_map (λ k. k - front) found }
{
    match found {
        Some(k) => Some(k - front),
        None => None,
    }
}

/// The first line that is compared, if it is compared byte by byte.
pub fn first_line<'a>(pattern: &Pattern<'a>) -> Option<&'a [u8]>
    requires { IsPattern pattern.now }
    ensures { IfSome result (λ line. IsFirstLine pattern.now line.now) }
{
    if pattern.loose {
        return None;
    }
    if pattern.front >= pattern.last {
        return None;
    }
    if pattern.from >= pattern.hunk.body.len() {
        return None;
    }
    let line = &pattern.hunk.body[pattern.from];
    if !is_taken(line.mark, pattern.side) {
        return None;
    }
    Some(&pattern.text[line.span.start as usize..line.span.end as usize])
}
