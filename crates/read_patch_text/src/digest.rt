//! File patches of which of each hunk only the piece and the old lines are kept, for who leaves out file patches and hunks: the bodies are
//! read, and a fault in any is answered.

ghost use Rattle.std.specs.Prelude.{◌≡◌, ◌+◌, ◌<◌, ◌≤◌, ◌^◌, ℕ, List, [], true, false, All, length, drop, map, IfOk};
ghost use Rattle.line_list.specs.Lines.{lines};
ghost use Rattle.hunk_core.specs.declared.Form.{Form};
ghost use Rattle.hunk_core.specs.PlainHunk.{hunk_of, hunks_of};
ghost use Rattle.hunk_core.specs.Reading.{Gives};
ghost use Rattle.unified_form.specs.Skimmed.{old_range};
ghost use Rattle.patch_header.specs.Content.{has_dot};
ghost use Rattle.read_file_patch.specs.PlainPatch.{patch_of, change_of, IsLawfulChange};
ghost use Rattle.read_patch_text.specs.Patches.{begins_change};
ghost use Rattle.read_patch_text.specs.Regions.{region_of, region_up_to, regions_of};
ghost use Rattle.read_patch_text.specs.Reading.{IsProgress, IsHeaderFrom, ahead_of};
ghost use Rattle.read_patch_text.specs.Digests.{AreDigests, AreShort, IsDigest, IsDigested, behind_digested, digested_of, digests_of, no_hunks, old_ranges, patch_digested, plain_digests};
ghost use Rattle.read_patch_text.specs.Walked.{HasDigests};

use crate::absent::is_absent;
use crate::change::read_behind;
use crate::outline::is_unified;
use crate::patches::Progress;
use crate::walking::{PatchWalk, walk};
use hunk_core::{FormFault, Hunk, Side};
use line_list::Span;
use patch_header::ReadOptions;
use read_file_patch::{Change, FilePatch};
use read_header_record::Header;
use std::alloc::{AllocError, Global};
use unified_form::{OldRange, read_rows};

/// A change of which no hunk is kept, but the piece and the old lines of each.
#[derive(Drop)]
pub struct Digested {
    pub change: Change,
    pub spans: Vec<Span>,
    pub olds: Vec<OldRange>,
    /// The place after it, and the number of the line there.
    pub end: usize,
    pub next: u64,
}

/// File patches without hunks, each with the pieces of its hunks, and the old lines of the hunks of each. An ed script stays, and has none.
#[derive(Drop)]
pub struct Digests {
    pub patches: Vec<FilePatch>,
    pub olds: Vec<Vec<OldRange>>,
}

/// The hunks of the unified form that a header opens.
fn digest_unified(alloc: Global, text: &[u8], header: Header) -> Result<Digested, FormFault>
    requires short { length text.now < 2 ^ 32 }
    requires within { header.at < length text.now }
    requires small { header.opening < 2 ^ 32 }
    requires form { header.form ≡ Form.Unified }
    requires some { header.bare ≡ false }
    requires opens { begins_change Form.Unified (lines (drop header.at text.now)) ≡ true }
    ensures is { IfOk result (IsDigested text.now header) }
    ensures exact { Gives (digested_of text.now) result (behind_digested text.now header) }
{
    let rows = read_rows(alloc, text, header.at, header.opening)?;
    let none = Vec::new(alloc);
    Ok(Digested {
        change: Change::Hunks(none),
        spans: rows.spans,
        olds: rows.olds,
        end: rows.end,
        next: rows.next,
    })
}

fn old_range(hunk: &Hunk) -> OldRange
    requires { length hunk.now.body.items < 2 ^ 32 }
    ensures { (text : List ℕ) → result ≡ old_range (hunk_of text hunk.now) }
{
    OldRange {
        start: hunk.old_start,
        count: hunk.count(Side::Forward),
    }
}

/// The old lines of each hunk.
fn ranges_of(alloc: Global, hunks: &[Hunk]) -> Result<Vec<OldRange>, AllocError>
    requires { All (λ h. length h.body.items < 2 ^ 32) hunks.now }
    ensures { IfOk result (λ olds. (text : List ℕ) → olds.items ≡ map old_range (hunks_of text hunks.now)) }
{
    let mut olds = Vec::new(alloc);
    for k in 0..hunks.len() {
        olds.push(old_range(&hunks[k]))?;
    }
    Ok(olds)
}

fn old_ranges(alloc: Global, change: &Change) -> Result<Vec<OldRange>, AllocError>
    requires { AreShort change.now }
    ensures { IfOk result (λ olds. (text : List ℕ) → olds.items ≡ old_ranges (change_of text change.now)) }
{
    match change {
        Change::Hunks(hunks) => ranges_of(alloc, hunks),
        Change::Script(_) => Ok(Vec::new(alloc)),
    }
}

/// The change without its hunks.
fn no_hunks(alloc: Global, change: Change) -> Change
    ensures is { (text : List ℕ) → change_of text result ≡ no_hunks (change_of text change) }
    ensures lawful { (text : List ℕ) → IsLawfulChange text change → IsLawfulChange text result }
{
    match change {
        Change::Hunks(_) => Change::Hunks(Vec::new(alloc)),
        Change::Script(script) => Change::Script(script),
    }
}

/// What a header opens, read whole.
fn digest_whole(alloc: Global, text: &[u8], header: Header) -> Result<Digested, FormFault>
    requires short { length text.now < 2 ^ 32 }
    requires within { header.at < length text.now }
    requires small { header.opening < 2 ^ 32 }
    requires opens { header.bare ≡ false → begins_change header.form (lines (drop header.at text.now)) ≡ true }
    ensures is { IfOk result (IsDigested text.now header) }
    ensures exact { Gives (digested_of text.now) result (behind_digested text.now header) }
{
    let read = read_behind(alloc, text, header)?;
    let olds = old_ranges(alloc, &read.change)?;
    let end = read.end;
    let next = read.next;
    Ok(Digested {
        spans: read.spans,
        olds,
        end,
        next,
        change: no_hunks(alloc, read.change),
    })
}

/// What a header opens.
fn digest_behind(alloc: Global, text: &[u8], header: Header) -> Result<Digested, FormFault>
    requires short { length text.now < 2 ^ 32 }
    requires within { header.at < length text.now }
    requires small { header.opening < 2 ^ 32 }
    requires opens { header.bare ≡ false → begins_change header.form (lines (drop header.at text.now)) ≡ true }
    ensures is { IfOk result (IsDigested text.now header) }
    ensures exact { Gives (digested_of text.now) result (behind_digested text.now header) }
{
    if is_unified(&header) {
        return digest_unified(alloc, text, header);
    }
    digest_whole(alloc, text, header)
}

/// The file patch with this header, the old lines of its hunks, and how far the text is read behind it. Hunks aren't counted.
fn digest_patch(
    alloc: Global,
    text: &[u8],
    header: Header,
    here: Progress,
) -> Result<(FilePatch, Vec<OldRange>, Progress), FormFault>
    requires short { length text.now < 2 ^ 32 }
    requires numbers { here.number ≤ here.at + 1 }
    requires header { IsHeaderFrom text.now here.at here.number header }
    requires known { here.dotless ≡ true → has_dot (lines (drop header.at text.now)) ≡ false }
    ensures is { IfOk result (λ x. IsDigest text.now x.0 x.1.items) }
    ensures region { IfOk result (λ x. region_of x.0 ≡ region_up_to text.now here.at header x.2.at) }
    ensures progress { IfOk result (λ x. IsProgress text.now x.2) }
    ensures behind { IfOk result (λ x. here.at < x.2.at) }
    ensures exact { Gives (λ x. (patch_of text.now x.0, x.1.items, ahead_of text.now x.2)) result (patch_digested text.now header) }
{
    let read = digest_behind(alloc, text, header)?;
    let behind = Progress {
        at: read.end,
        number: read.next,
        dotless: here.dotless,
        hunks: 0,
    };
    let patch = FilePatch {
        old_absent: is_absent(text, Side::Forward, &header, &read.change),
        new_absent: is_absent(text, Side::Reversed, &header, &read.change),
        header,
        span: Span {
            start: here.at as u32,
            end: read.end as u32,
        },
        hunk_spans: read.spans,
        change: read.change,
        targets: Vec::new(alloc),
        first_verdict: 0,
    };
    Ok((patch, read.olds, behind))
}

impl PatchWalk for Digests {
    ghost Has = { λ ways text front at number hunks d. HasDigests ways text front at number d.patches.items (map (λ os. os.items) d.olds.items) };

    fn take(
        &mut self,
        alloc: Global,
        text: &[u8],
        header: Header,
        here: Progress,
    ) -> Result<Progress, FormFault> {
        let (patch, olds, behind) = digest_patch(alloc, text, header, here)?;
        self.patches.push(patch)?;
        self.olds.push(olds)?;
        Ok(behind)
    }
}

/// The file patches of a text that is read in these ways, without hunks, but with the piece and the old lines of each; or the first fault. What
/// each stands for is else as `read_patches` gives it; but which of its sides is no file is told by its header alone, and how many hunks came
/// before isn't. The text is meant to be completed. The time is linear in the text. Hunks of the unified form are read without being kept,
/// those of the other forms one file patch at a time.
pub fn read_digests(alloc: Global, text: &[u8], ways: ReadOptions) -> Result<Digests, FormFault>
    requires { length text.now < 2 ^ 32 }
    ensures exact { Gives (plain_digests text.now) result (digests_of ways text.now) }
    // Where each lies is told by the text and the ways alone.
    ensures regions { IfOk result (λ d. map region_of d.patches.items ≡ regions_of ways text.now) }
    // Each has lawful edits, and a piece for each of its hunks.
    ensures are { IfOk result (λ d. AreDigests text.now d.patches.items (map (λ os. os.items) d.olds.items)) }
    ensures count { IfOk result (λ d. length d.patches.items < 2 ^ 32) }
{
    let mut digests = Digests {
        patches: Vec::new(alloc),
        olds: Vec::new(alloc),
    };
    walk(&mut digests, alloc, text, ways)?;
    Ok(digests)
}
