//! File patches without their hunks, for who wants no more of them than a list: the hunks are read, and a fault in any is answered, but none
//! of several is kept.

ghost use Rattle.std.specs.Prelude.{◌≡◌, ◌+◌, ◌<◌, ◌≤◌, ◌^◌, ℕ, List, [], ◌∷◌, true, false, length, drop, map, IfOk, All};
ghost use Rattle.line_list.specs.Lines.{lines};
ghost use Rattle.hunk_core.specs.declared.Form.{Form};
ghost use Rattle.hunk_core.specs.PlainHunk.{PlainHunk, hunk_of};
ghost use Rattle.hunk_core.specs.Turned.{IsLawful};
ghost use Rattle.hunk_core.specs.Reading.{Gives};
ghost use Rattle.unified_form.specs.Skimmed.{are_some};
ghost use Rattle.patch_header.specs.Content.{has_dot};
ghost use Rattle.read_file_patch.specs.PlainPatch.{patch_of, change_of, hunks, IsLawfulChange};
ghost use Rattle.read_file_patch.specs.Absent.{IsLawfulPatch};
ghost use Rattle.read_patch_text.specs.Patches.{begins_change};
ghost use Rattle.read_patch_text.specs.Reading.{IsProgress, IsHeaderFrom, ahead_of};
ghost use Rattle.read_patch_text.specs.Outlines.{IsOutlined, behind_outlined, change_outlined, only_hunk, outlined_of, outlines_of, patch_outlined};
ghost use Rattle.read_patch_text.specs.Walked.{HasOutlines};

use crate::absent::is_absent;
use crate::change::read_behind;
use crate::patches::Progress;
use crate::walking::{PatchWalk, walk};
use hunk_core::{Form, FormFault, Side};
use line_list::Span;
use patch_header::ReadOptions;
use read_file_patch::{Change, FilePatch};
use read_header_record::Header;
use std::alloc::{AllocError, Global};
use unified_form::{HunkScan, scan_hunks};

/// A change of which one hunk is kept at most.
#[derive(Drop)]
pub struct Outlined {
    pub change: Change,
    /// The place after it, and the number of the line there.
    pub end: usize,
    pub next: u64,
}

/// The change whose only hunk this is, or one with none of several.
fn of_hunk_scan(alloc: Global, hunk_scan: HunkScan) -> Result<Change, AllocError>
    ensures only { IfOk result (λ change. (text : List ℕ) (others : List PlainHunk) → hunk_scan.more ≡ are_some others → change_of text change ≡ only_hunk (hunks (hunk_of text hunk_scan.first ∷ others))) }
    ensures lawful { IfOk result (λ change. (text : List ℕ) → IsLawful text hunk_scan.first → length hunk_scan.first.body.items < 2 ^ 32 → IsLawfulChange text change) }
{
    let mut hunks = Vec::new(alloc);
    if !hunk_scan.more {
        hunks.push(hunk_scan.first)?;
    }
    Ok(Change::Hunks(hunks))
}

/// The hunks of the unified form that open at `at`, where the line has this number.
fn outline_unified(alloc: Global, text: &[u8], at: usize, line: u64) -> Result<Outlined, FormFault>
    requires short { length text.now < 2 ^ 32 }
    requires within { at ≤ length text.now }
    requires small { line < 2 ^ 32 }
    requires opens { begins_change Form.Unified (lines (drop at text.now)) ≡ true }
    ensures is { IfOk result (IsOutlined text.now at line) }
    ensures exact { Gives (outlined_of text.now) result (change_outlined Form.Unified line (lines (drop at text.now))) }
{
    let hunk_scan = scan_hunks(alloc, text, at, line)?;
    let end = hunk_scan.end;
    let next = hunk_scan.next;
    let change = of_hunk_scan(alloc, hunk_scan)?;
    Ok(Outlined { change, end, next })
}

/// The change without its hunks, where it has more than one.
fn only_hunk(alloc: Global, change: Change) -> Change
    ensures only { (text : List ℕ) → change_of text result ≡ only_hunk (change_of text change) }
    ensures lawful { (text : List ℕ) → IsLawfulChange text change → IsLawfulChange text result }
{
    match change {
        Change::Hunks(hunks) => {
            if hunks.len() > 1 {
                Change::Hunks(Vec::new(alloc))
            } else {
                Change::Hunks(hunks)
            }
        }
        Change::Script(script) => Change::Script(script),
    }
}

/// What a header opens, read whole.
fn outline_whole(alloc: Global, text: &[u8], header: Header) -> Result<Outlined, FormFault>
    requires short { length text.now < 2 ^ 32 }
    requires within { header.at < length text.now }
    requires small { header.opening < 2 ^ 32 }
    requires opens { header.bare ≡ false → begins_change header.form (lines (drop header.at text.now)) ≡ true }
    ensures is { IfOk result (IsOutlined text.now header.at header.opening) }
    ensures exact { Gives (outlined_of text.now) result (behind_outlined text.now header) }
{
    let read = read_behind(alloc, text, header)?;
    let end = read.end;
    let next = read.next;
    Ok(Outlined {
        change: only_hunk(alloc, read.change),
        end,
        next,
    })
}

/// Whether hunks of the unified form follow a header.
pub fn is_unified(header: &Header) -> bool
    ensures form { result ≡ true → header.now.form ≡ Form.Unified }
    ensures bare { result ≡ true → header.now.bare ≡ false }
{
    if header.bare {
        return false;
    }
    match header.form {
        Form::Unified => true,
        Form::Context | Form::Normal | Form::Ed => false,
    }
}

/// What a header opens.
fn outline_behind(alloc: Global, text: &[u8], header: Header) -> Result<Outlined, FormFault>
    requires short { length text.now < 2 ^ 32 }
    requires within { header.at < length text.now }
    requires small { header.opening < 2 ^ 32 }
    requires opens { header.bare ≡ false → begins_change header.form (lines (drop header.at text.now)) ≡ true }
    ensures is { IfOk result (IsOutlined text.now header.at header.opening) }
    ensures exact { Gives (outlined_of text.now) result (behind_outlined text.now header) }
{
    if is_unified(&header) {
        return outline_unified(alloc, text, header.at, header.opening);
    }
    outline_whole(alloc, text, header)
}

/// The file patch with this header, and how far the text is read behind it. Hunks aren't counted.
fn outline_patch(
    alloc: Global,
    text: &[u8],
    header: Header,
    here: Progress,
) -> Result<(FilePatch, Progress), FormFault>
    requires short { length text.now < 2 ^ 32 }
    requires numbers { here.number ≤ here.at + 1 }
    requires header { IsHeaderFrom text.now here.at here.number header }
    requires known { here.dotless ≡ true → has_dot (lines (drop header.at text.now)) ≡ false }
    ensures lawful { IfOk result (λ x. IsLawfulPatch text.now x.0) }
    ensures progress { IfOk result (λ x. IsProgress text.now x.1) }
    ensures behind { IfOk result (λ x. here.at < x.1.at) }
    ensures exact { Gives (λ x. (patch_of text.now x.0, ahead_of text.now x.1)) result (patch_outlined text.now header) }
{
    let read = outline_behind(alloc, text, header)?;
    let behind = Progress {
        at: read.end,
        number: read.next,
        dotless: here.dotless,
        hunks: 0,
    };
    let patch = FilePatch {
        old_absent: is_absent(text, Side::Forward, &header, &read.change),
        new_absent: is_absent(text, Side::Reversed, &header, &read.change),
        header,
        span: Span {
            start: here.at as u32,
            end: read.end as u32,
        },
        hunk_spans: Vec::new(alloc),
        change: read.change,
        targets: Vec::new(alloc),
        first_verdict: 0,
    };
    Ok((patch, behind))
}

/// The file patches that were read.
#[derive(Drop)]
struct Outlines {
    patches: Vec<FilePatch>,
}

impl PatchWalk for Outlines {
    ghost Has = { λ ways text front at number hunks o. HasOutlines text front at o.patches.items };

    fn take(
        &mut self,
        alloc: Global,
        text: &[u8],
        header: Header,
        here: Progress,
    ) -> Result<Progress, FormFault> {
        let (patch, behind) = outline_patch(alloc, text, header, here)?;
        self.patches.push(patch)?;
        Ok(behind)
    }
}

/// The file patches of a text that is read in these ways, each with its only hunk or with none of several, or the first fault; an ed
/// script stays. What each stands for is else as `read_patches` gives it; where its hunks lie, and how many came before, isn't told. The text
/// is meant to be completed. The time is linear in the text. Hunks of the unified form but the first are read without being kept, those of
/// the other forms one file patch at a time.
pub fn read_outlines(
    alloc: Global,
    text: &[u8],
    ways: ReadOptions,
) -> Result<Vec<FilePatch>, FormFault>
    requires { length text.now < 2 ^ 32 }
    ensures exact { Gives (λ ps. map (patch_of text.now) ps.items) result (outlines_of ways text.now) }
    // Each says rightly which of its sides is no file.
    ensures lawful { IfOk result (λ ps. All (IsLawfulPatch text.now) ps.items) }
    ensures count { IfOk result (λ ps. length ps.items < 2 ^ 32) }
{
    let mut outlines = Outlines {
        patches: Vec::new(alloc),
    };
    walk(&mut outlines, alloc, text, ways)?;
    Ok(outlines.patches)
}
