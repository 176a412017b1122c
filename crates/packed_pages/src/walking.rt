//! A record found on its page, by the lengths of those before it.

ghost use Rattle.std.specs.Prelude.{◌≡◌, ◌≤◌, ◌<◌, ◌+◌, ◌^◌, length, IfOk, IfErr};
ghost use Rattle.page_pair.specs.Records.{stated};
ghost use Rattle.packed_pages.specs.Layout.{place_in};
ghost use Rattle.packed_pages.specs.Marks.{IsMark, AreMarks};
ghost use Rattle.packed_pages.specs.Held.{IsRecordFault, IsPastEnd};

use crate::marks::{PageMarks, RecordMark, keep};
use line_store::LineFault;
use page_pair::record::stated_length;

/// The place behind the record at a place of a page, which it may not reach past.
fn record_end(page: &[u8], at: usize) -> Result<usize, LineFault>
    requires small { length page.now ≤ 2 ^ 20 }
    requires within { at ≤ length page.now }
    ensures end { IfOk result (λ end. end ≡ at + 4 + stated page.now at) }
    ensures within { IfOk result (λ end. end ≤ length page.now) }
    ensures cause { IfErr result (λ e. IsPastEnd e page.now at) }
{
    let size = page.len() as u64;
    if at + 4 > page.len() {
        return Err(LineFault::Disagree {
            want: size,
            got: at as u64 + 4,
        });
    }
    let left = size - 4 - at as u64;
    let length = stated_length(page, at);
    if length > left {
        return Err(LineFault::Disagree {
            want: left,
            got: length,
        });
    }
    Ok(at + 4 + length as usize)
}

/// The place of the record that has `wanted` before it, found from one before it. Records on the way are marked.
#[tactic(auto, using(crate::proofs::Pages::mark_behind))]
pub fn find_record(
    page: &[u8],
    marks: &mut PageMarks,
    start: RecordMark,
    wanted: u64,
) -> Result<usize, LineFault>
    requires small { length page.now ≤ 2 ^ 20 }
    requires marks { AreMarks page.now marks.old }
    requires start { IsMark page.now start }
    requires order { start.before ≤ wanted }
    ensures marks { AreMarks page.now marks.new }
    ensures place { IfOk result (λ place. place ≡ place_in wanted page.now) }
    ensures within { IfOk result (λ place. place + 4 + stated page.now place ≤ length page.now) }
    ensures cause { IfErr result (λ e. IsRecordFault e wanted page.now) }
{
    let mut now = start;
    while now.before < wanted {
        now = RecordMark {
            before: now.before + 1,
            at: record_end(page, now.at)?,
        };
        keep(page, marks, now);
    }
    match record_end(page, now.at) {
        Ok(_) => Ok(now.at),
        Err(fault) => Err(fault),
    }
}
