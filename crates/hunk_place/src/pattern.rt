//! The old lines of a hunk that are compared at a place, found once for a whole search.

ghost use Rattle.std.specs.Prelude.{◌≡◌, ◌+◌, ◌-◌, ◌<◌, ◌≤◌, ℕ, List, drop, Some, IfOk, IfErr};
ghost use Rattle.line_store.specs.Store.{Keeps, HasCause, line_at};
ghost use Rattle.hunk_core.specs.Sides.{taken_count};
ghost use Rattle.hunk_core.specs.Turned.{IsLawful};
ghost use Rattle.hunk_place.specs.Loose.{same_line};
ghost use Rattle.hunk_place.specs.Taken.{side_lines};
ghost use Rattle.hunk_place.specs.Pattern.{IsPattern, LieWithin};
ghost use Rattle.hunk_place.specs.Passing.{WhereTold};

use crate::loose::are_same;
use hunk_core::{Hunk, Side, is_taken};
use line_store::{Half, LineFault, LineStore};

/// The old lines `front` + 1 to `last` of a hunk, the first of them found in the body.
#[derive(Clone, Copy)]
pub struct Pattern<'a> {
    pub text: &'a [u8],
    pub hunk: &'a Hunk,
    pub side: Side,
    pub loose: bool,
    /// Where the body has the first old line that is compared, or lines of the other side before it.
    pub from: usize,
    pub front: u32,
    pub last: u32,
}

impl<'a> Pattern<'a> {
    /// All old lines of the hunk but the first `front` and the last `back`.
    pub fn new(
        text: &'a [u8],
        hunk: &'a Hunk,
        side: Side,
        front: u32,
        back: u32,
        loose: bool,
    ) -> Pattern<'a>
        requires { IsLawful text.now hunk.now }
        ensures is { IsPattern result }
        ensures text { result.text.now ≡ text.now }
        ensures hunk { result.hunk.now ≡ hunk.now }
        ensures side { result.side ≡ side }
        ensures loose { result.loose ≡ loose }
        ensures front { result.front ≡ front }
        ensures last { result.last ≡ taken_count side hunk.now.body.items - back }
        ensures same_last { result.last ≡ taken_count result.side result.hunk.now.body.items - back }
    {
        Pattern {
            text,
            hunk,
            side,
            loose,
            from: index_behind(text, hunk, side, front),
            front,
            last: hunk.count(side).saturating_sub(back),
        }
    }

    /// Whether the pattern's lines are those of the store when the first old line stands at `at`. They are looked at in
    /// this half.
    pub fn fits_at<S: LineStore>(
        &self,
        store: &mut S,
        at: u64,
        half: Half,
    ) -> Result<bool, LineFault>
        requires pattern { IsPattern self.now }
        requires within { LieWithin self.now (S.seen store.old).count at }
        ensures value { IfOk result (λ yes. WhereTold (S.seen store.old).told self.now (λ f. yes ≡ f at)) }
        ensures keeps { Keeps (S.seen store.old) (S.seen store.new) }
        ensures cause { IfErr result (λ e. HasCause e (S.seen store.old) (S.seen store.new)) }
    {
        let mut i = self.front;
        for k in self.from..self.hunk.body.len() {
            if i >= self.last {
                return Ok(true);
            }
            let line = &self.hunk.body[k];
            if is_taken(line.mark, self.side) {
                let want = &self.text[line.span.start as usize..line.span.end as usize];
                if !is_line(store, want, at + i as u64, half, self.loose)? {
                    return Ok(false);
                }
                i += 1;
            }
        }
        Ok(true)
    }
}

/// The place in the body behind so many old lines.
fn index_behind(text: &[u8], hunk: &Hunk, side: Side, front: u32) -> usize
    requires { IsLawful text.now hunk.now }
    ensures { side_lines text.now side (drop result hunk.now.body.items) ≡ drop front (side_lines text.now side hunk.now.body.items) }
{
    let mut i: u32 = 0;
    for k in 0..hunk.body.len() {
        if is_taken(hunk.body[k].mark, side) {
            if i == front {
                return k;
            }
            i += 1;
        }
    }
    hunk.body.len()
}

/// Whether the store's line `k`, fetched into a half, is this one.
fn is_line<S: LineStore>(
    store: &mut S,
    want: &[u8],
    k: u64,
    half: Half,
    loose: bool,
) -> Result<bool, LineFault>
    requires low { 1 ≤ k }
    requires high { k ≤ (S.seen store.old).count }
    ensures value { IfOk result (λ yes. (lines : List (List ℕ)) → (S.seen store.old).told ≡ Some lines → yes ≡ same_line loose want.now (line_at lines k)) }
    ensures keeps { Keeps (S.seen store.old) (S.seen store.new) }
    ensures cause { IfErr result (λ e. HasCause e (S.seen store.old) (S.seen store.new)) }
{
    store.load(k, half)?;
    Ok(are_same(want, store.line(half), loose))
}
