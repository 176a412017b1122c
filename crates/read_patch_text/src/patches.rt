//! File patches that follow each other.

ghost use Rattle.std.specs.Prelude.{◌≡◌, ◌<◌, ◌≤◌, ◌^◌, ◌+◌, ℕ, List, Ok, Err, true, false, length, drop, map, sum_by, IfOk, All};
ghost use Rattle.line_list.specs.Lines.{lines};
ghost use Rattle.hunk_core.specs.declared.BadKind.{BadKind};
ghost use Rattle.hunk_core.specs.declared.fault.FormFault.{FormFault};
ghost use Rattle.hunk_core.specs.Reading.{Gives};
ghost use Rattle.patch_header.specs.Content.{has_dot};
ghost use Rattle.read_file_patch.specs.PlainPatch.{PlainPatch, patch_of, row_count};
ghost use Rattle.read_file_patch.specs.Absent.{IsLawfulPatch};
ghost use Rattle.read_patch_text.specs.Patches.{patch_at, patches_of};
ghost use Rattle.read_patch_text.specs.Regions.{region_of, regions_of};
ghost use Rattle.read_patch_text.specs.Reading.{IsProgress, IsHeaderFrom, ahead_of};
ghost use Rattle.read_patch_text.specs.Spans.{IsPatch, ArePatches};
ghost use Rattle.read_patch_text.specs.Texts.{IsFaulty, HasPatches};
ghost use Rattle.read_patch_text.specs.Walked.{HasWhole};

use crate::absent::is_absent;
use crate::change::read_behind;
use crate::walking::{PatchWalk, walk};
use hunk_core::{FormFault, Side};
use line_list::Span;
use patch_header::ReadOptions;
use read_file_patch::FilePatch;
use read_header_record::Header;
use std::alloc::Global;

/// How far a text is read.
#[derive(Clone, Copy)]
pub struct Progress {
    /// The place behind the last file patch, and the number of the line there.
    pub at: usize,
    pub number: u64,
    /// It is known that no line from there on is `.`.
    pub dotless: bool,
    /// How many hunks were read.
    pub hunks: u32,
}

/// The file patch with this header, and how far the text is read behind it.
fn read_patch(
    alloc: Global,
    text: &[u8],
    header: Header,
    here: Progress,
) -> Result<(FilePatch, Progress), FormFault>
    requires short { length text.now < 2 ^ 32 }
    requires few { here.hunks ≤ here.at }
    requires numbers { here.number ≤ here.at + 1 }
    requires header { IsHeaderFrom text.now here.at here.number header }
    requires known { here.dotless ≡ true → has_dot (lines (drop header.at text.now)) ≡ false }
    ensures is { IfOk result (λ x. IsPatch text.now here.at here.hunks x.0 x.1.number) }
    ensures header { IfOk result (λ x. x.0.header ≡ header) }
    ensures progress { IfOk result (λ x. IsProgress text.now x.1) }
    ensures behind { IfOk result (λ x. (here.at < x.1.at) × (x.1.at ≡ x.0.span.end) × (x.1.hunks ≡ here.hunks + row_count x.0.change)) }
    ensures exact { Gives (λ x. (patch_of text.now x.0, ahead_of text.now x.1)) result (patch_at text.now header) }
{
    let read = read_behind(alloc, text, header)?;
    let patch = FilePatch {
        old_absent: is_absent(text, Side::Forward, &header, &read.change),
        new_absent: is_absent(text, Side::Reversed, &header, &read.change),
        header,
        span: Span {
            start: here.at as u32,
            end: read.end as u32,
        },
        hunk_spans: read.spans,
        change: read.change,
        targets: Vec::new(alloc),
        first_verdict: here.hunks,
    };
    let behind = Progress {
        at: read.end,
        number: read.next,
        dotless: here.dotless,
        hunks: here.hunks + patch.hunks(),
    };
    Ok((patch, behind))
}

/// The file patches that were read.
#[derive(Drop)]
struct Whole {
    patches: Vec<FilePatch>,
}

impl PatchWalk for Whole {
    ghost Has = { λ ways text front at number hunks w. HasWhole ways text front at number hunks w.patches.items };

    fn take(
        &mut self,
        alloc: Global,
        text: &[u8],
        header: Header,
        here: Progress,
    ) -> Result<Progress, FormFault> {
        let (patch, behind) = read_patch(alloc, text, header, here)?;
        self.patches.push(patch)?;
        Ok(behind)
    }
}

/// The file patches of a text that is read in these ways, or the first fault. The text is meant to be
/// completed: each of its lines has its line feed. Garbage in front of a file patch is in its span, and
/// garbage behind the last is in none; a file patch of a form that isn't asked for is garbage too, and so
/// is a git header where git headers aren't read. A bare git header is a file patch without hunks. The
/// time is linear in the text.
pub fn read_patches(
    alloc: Global,
    text: &[u8],
    ways: ReadOptions,
) -> Result<Vec<FilePatch>, FormFault>
    requires { length text.now < 2 ^ 32 }
    // What is read is what the text has by the grammars of the forms.
    ensures found { IfOk result (λ ps. HasPatches ways text.now (map (patch_of text.now) ps.items)) }
    // What a text has so is read, unless memory runs out.
    ensures only { (ps : List PlainPatch) → HasPatches ways text.now ps → Gives (λ xs. map (patch_of text.now) xs.items) result (Ok ps) }
    // What is malformed comes behind file patches that the text has.
    ensures malformed { (line : ℕ) (kind : BadKind) → result ≡ Err (FormFault.Malformed line kind) → IsFaulty ways text.now line kind }
    // The same as a function: the file patches, or the first fault.
    ensures exact { Gives (λ ps. map (patch_of text.now) ps.items) result (patches_of ways text.now) }
    // Where each lies is told by the text and the ways alone.
    ensures regions { IfOk result (λ ps. map region_of ps.items ≡ regions_of ways text.now) }
    // It begins where the one before ends, and its verdicts come behind those before.
    ensures are { IfOk result (λ ps. ArePatches ways text.now ps.items) }
    // Each has lawful hunks or edits, and says rightly which of its sides is no file.
    ensures lawful { IfOk result (λ ps. All (IsLawfulPatch text.now) ps.items) }
    ensures count { IfOk result (λ ps. length ps.items < 2 ^ 32) }
    ensures hunks { IfOk result (λ ps. sum_by (λ p. row_count p.change) ps.items < 2 ^ 32) }
{
    let mut whole = Whole {
        patches: Vec::new(alloc),
    };
    walk(&mut whole, alloc, text, ways)?;
    Ok(whole.patches)
}
