//! The page of a line found by halving over the entries.

ghost use Rattle.std.specs.Prelude.{◌≡◌, ◌<◌, ◌≤◌, ◌+◌, ◌-◌, ◌*◌, ℕ, List, Some, IfOk, IfErr};
ghost use Rattle.outside.specs.ScratchView.{ScratchPasses};
ghost use Rattle.packed_pages.specs.Layout.{IsLayout, first_line};
ghost use Rattle.packed_pages.specs.Held.{HoldsPacks, IsSpan, IsSpanTold, ReadsAtMost, ReadsByDigits};
ghost use Rattle.page_pair.specs.Held.{HasPageCause};

use crate::layout::Layout;
use line_store::LineFault;
use outside::Scratch;

/// The pages from `low` up to before `high`, the number of the first line of the one, and that of the other.
#[derive(Clone, Copy)]
pub struct Span {
    pub low: u64,
    pub high: u64,
    pub first: u64,
    pub next: u64,
}

/// The number of the first line of a page, from its entry.
fn read_entry<C: Scratch>(scratch: &mut C, layout: Layout, page: u64) -> Result<u64, LineFault>
    requires layout { IsLayout layout }
    requires packs { HoldsPacks layout (C.view scratch.old) }
    requires there { page < layout.pages }
    ensures passes { ScratchPasses (C.view scratch.old) (C.view scratch.new) }
    ensures told { (C.view scratch.new).told ≡ (C.view scratch.old).told }
    ensures reads { ReadsAtMost 1 (C.view scratch.old) (C.view scratch.new) }
    ensures entry { IfOk result (λ first. (b : List ℕ) → (C.view scratch.old).told ≡ Some b → first_line layout b page ≡ first) }
    ensures cause { IfErr result (λ e. HasPageCause e (C.view scratch.old) (C.view scratch.new)) }
{
    let mut entry = [0u8; 8];
    match scratch.read_at(page * 8, &mut entry) {
        Ok(8) => Ok(u64::from_le_bytes(entry)),
        Ok(got) => Err(LineFault::Disagree {
            want: 8,
            got: got as u64,
        }),
        Err(_) => Err(LineFault::Scratch),
    }
}

/// The half of a span that has the page of line `k`.
fn halve<C: Scratch>(scratch: &mut C, layout: Layout, k: u64, span: Span) -> Result<Span, LineFault>
    requires layout { IsLayout layout }
    requires packs { HoldsPacks layout (C.view scratch.old) }
    requires span { IsSpan layout k span }
    requires wide { span.low + 1 < span.high }
    requires entries { (b : List ℕ) → (C.view scratch.old).told ≡ Some b → IsSpanTold layout b span }
    ensures passes { ScratchPasses (C.view scratch.old) (C.view scratch.new) }
    ensures told { (C.view scratch.new).told ≡ (C.view scratch.old).told }
    ensures reads { ReadsAtMost 1 (C.view scratch.old) (C.view scratch.new) }
    ensures span { IfOk result (λ s. IsSpan layout k s) }
    ensures half { IfOk result (λ s. 2 * (s.high - s.low) ≤ span.high - span.low + 1) }
    ensures entries { IfOk result (λ s. (b : List ℕ) → (C.view scratch.old).told ≡ Some b → IsSpanTold layout b s) }
    ensures cause { IfErr result (λ e. HasPageCause e (C.view scratch.old) (C.view scratch.new)) }
{
    let middle = span.low + (span.high - span.low) / 2;
    let first = match read_entry(scratch, layout, middle) {
        Ok(first) => first,
        Err(fault) => return Err(fault),
    };
    if first <= k {
        return Ok(Span {
            low: middle,
            first,
            ..span
        });
    }
    Ok(Span {
        high: middle,
        next: first,
        ..span
    })
}

/// The page of line `k`, as a span of one page.
pub fn find_page<C: Scratch>(scratch: &mut C, layout: Layout, k: u64) -> Result<Span, LineFault>
    requires layout { IsLayout layout }
    requires packs { HoldsPacks layout (C.view scratch.old) }
    requires low { 1 ≤ k }
    requires high { k ≤ layout.count }
    ensures passes { ScratchPasses (C.view scratch.old) (C.view scratch.new) }
    ensures told { (C.view scratch.new).told ≡ (C.view scratch.old).told }
    ensures reads { ReadsByDigits layout.pages 0 (C.view scratch.old) (C.view scratch.new) }
    ensures span { IfOk result (λ s. IsSpan layout k s) }
    ensures one { IfOk result (λ s. s.high ≡ s.low + 1) }
    ensures entries { IfOk result (λ s. (b : List ℕ) → (C.view scratch.old).told ≡ Some b → IsSpanTold layout b s) }
    ensures cause { IfErr result (λ e. HasPageCause e (C.view scratch.old) (C.view scratch.new)) }
{
    let mut span = Span {
        low: 0,
        high: layout.pages,
        first: 1,
        next: layout.count + 1,
    };
    while span.low + 1 < span.high {
        span = halve(scratch, layout, k, span)?;
    }
    Ok(span)
}
