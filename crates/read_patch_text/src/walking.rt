//! The file patches of a text, found one after the other: what is read behind a header, and what is kept of it, is told by who asks.

ghost use Rattle.std.specs.Prelude.{◌≡◌, ◌+◌, ◌<◌, ◌≤◌, ◌^◌, ℕ, List, None, Ok, Err, true, false, length, drop, IfOk, IfErr, IfSome};
ghost use Rattle.line_list.specs.Lines.{lines};
ghost use Rattle.hunk_core.specs.declared.BadKind.{BadKind};
ghost use Rattle.hunk_core.specs.declared.fault.FormFault.{FormFault};
ghost use Rattle.hunk_core.specs.Reading.{Fails};
ghost use Rattle.patch_header.specs.Content.{has_dot};
ghost use Rattle.patch_header.specs.Steps.{IsEnd};
ghost use Rattle.patch_header.specs.declared.read_options.ReadOptions.{ReadOptions};
ghost use Rattle.read_file_patch.specs.PlainPatch.{PlainPatch};
ghost use Rattle.read_patch_text.specs.Patches.{next_patch, patch_at, patches_of};
ghost use Rattle.read_patch_text.specs.Reading.{IsHeaderFrom, IsProgress};
ghost use Rattle.read_patch_text.specs.Texts.{ComesFault};
ghost use Rattle.read_patch_text.specs.Walked.{AreTaken, IsNext, IsStopped, IsTaken};

use crate::patches::Progress;
use hunk_core::{BadKind, FormFault, bad};
use patch_header::{HeaderStep, ReadOptions, header_from};
use read_header_record::Header;
use std::alloc::Global;

/// File patches, each kept as it is read.
pub trait PatchWalk {
    /// It has these file patches of a text that is read in these ways: up to a place whose line has this number, and with so many hunks.
    ghost Has: { ReadOptions → List ℕ → List PlainPatch → ℕ → ℕ → ℕ → Self → Type 0 };

    /// How far the text is read behind the file patch with this header.
    fn take(
        &mut self,
        alloc: Global,
        text: &[u8],
        header: Header,
        here: Progress,
    ) -> Result<Progress, FormFault>
        requires short { length text.now < 2 ^ 32 }
        requires few { here.hunks ≤ here.at }
        requires numbers { here.number ≤ here.at + 1 }
        requires header { IsHeaderFrom text.now here.at here.number header }
        requires known { here.dotless ≡ true → has_dot (lines (drop header.at text.now)) ≡ false }
        ensures progress { IfOk result (λ next. IsProgress text.now next) }
        ensures behind { IfOk result (λ next. here.at < next.at) }
        ensures taken { IfOk result (λ next. IsTaken Has text.now header here self.old self.new next) }
        ensures fails { IfErr result (λ e. Fails e (patch_at text.now header)) };
}

/// How far the text is read behind the file patch that comes next, if there is one.
fn take_next<W: PatchWalk>(
    kept: &mut W,
    alloc: Global,
    text: &[u8],
    ways: ReadOptions,
    here: Progress,
) -> Result<Option<Progress>, FormFault>
    requires short { length text.now < 2 ^ 32 }
    requires progress { IsProgress text.now here }
    ensures progress { IfOk result (λ o. IfSome o (λ next. IsProgress text.now next)) }
    ensures behind { IfOk result (λ o. IfSome o (λ next. here.at < next.at)) }
    ensures comes { IfOk result (λ o. IfSome o (λ next. IsNext W.Has ways text.now here kept.old kept.new next)) }
    ensures ends { IfOk result (λ o. o ≡ None → IsEnd ways text.now here.at × (kept.new ≡ kept.old)) }
    ensures none { IfOk result (λ o. o ≡ None → next_patch ways text.now here.at here.number ≡ Ok None) }
    ensures fails { IfErr result (λ e. Fails e (next_patch ways text.now here.at here.number)) }
    ensures malformed { (line : ℕ) (kind : BadKind) → result ≡ Err (FormFault.Malformed line kind) → ComesFault ways text.now here.at here.number line kind }
{
    if here.at == text.len() {
        return Ok(None);
    }
    let (step, dotless) = header_from(text, here.at, here.number, ways, here.dotless);
    match step {
        HeaderStep::Found(header) => {
            let here = Progress { dotless, ..here };
            let next = kept.take(alloc, text, header, here)?;
            Ok(Some(next))
        }
        HeaderStep::Binary { line } => Err(bad(line, BadKind::Binary)),
        HeaderStep::End => Ok(None),
    }
}

/// Takes all file patches of a text that is read in these ways, and tells how far it is read.
pub fn walk<W: PatchWalk>(
    kept: &mut W,
    alloc: Global,
    text: &[u8],
    ways: ReadOptions,
) -> Result<Progress, FormFault>
    requires { length text.now < 2 ^ 32 }
    ensures taken { IfOk result (λ end. AreTaken W.Has ways text.now kept.old kept.new end) }
    ensures fails { IfErr result (λ e. Fails e (patches_of ways text.now)) }
    ensures stopped { (line : ℕ) (kind : BadKind) → result ≡ Err (FormFault.Malformed line kind) → IsStopped W.Has ways text.now kept.old line kind }
{
    let mut here = Progress {
        at: 0,
        number: 1,
        dotless: false,
        hunks: 0,
    };
    'patches: while let Some(next) = take_next(kept, alloc, text, ways, here)? {
        here = next;
    }
    Ok(here)
}
