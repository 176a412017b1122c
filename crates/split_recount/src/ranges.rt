//! The range line of a hunk whose counts aren't trusted.

ghost use Rattle.std.specs.Prelude.{◌≡◌, ◌<◌, ◌≤◌, ◌^◌, ◌++◌, ◌||◌, IfOk, OnOk, if◌then◌else◌};
ghost use Rattle.num_text.specs.Numbers.{decimal};
ghost use Rattle.line_list.specs.Reader.{Reads};
ghost use Rattle.unified_form.specs.Ranges.{range_at, is_bad_range};
ghost use Rattle.hunk_core.specs.Rules.{is_too_large};
ghost use Rattle.unified_form.specs.Canonical.{range_text};
ghost use Rattle.split_recount.specs.RangeLines.{first_line, range_parts, stated};
ghost use Rattle.split_recount.specs.Walking.{Says, both_ranges, written};

use hunk_core::{BadKind, after_prefix};
use num_text::{NumberRange, put_number, read_range};
use std::alloc::AllocError;

/// Some lines of a file. A number above the greatest `u32` stands as one more than that.
#[derive(Clone, Copy)]
pub struct Range {
    pub start: u64,
    pub count: u64,
}

/// Without a second number the count is 1.
fn count_of(range: NumberRange) -> u64
    ensures { result ≡ (if range.is_single then 1 else range.last) }
{
    if range.is_single { 1 } else { range.last }
}

/// A range, and what stands after it.
#[tactic(auto, using(crate::proofs::Alike::ranges_alike))]
fn range_of(bytes: &[u8]) -> Option<(Range, &[u8])>
    ensures { Reads (λ x. ((x.0.start, x.0.count), x.1.now)) result (range_at bytes.now) }
{
    let (range, rest) = read_range(bytes)?;
    let range = Range {
        start: range.first,
        count: count_of(range),
    };
    Some((range, rest))
}

#[tactic(auto, unfolding(crate::specs::RangeLines::range_parts))]
fn parts_of(line: &[u8]) -> Option<(Range, Range, &[u8])>
    ensures { Reads (λ x. (both_ranges x.0 x.1, x.2.now)) result (range_parts line.now) }
{
    let Some(rest) = after_prefix(line, b"@@ -") else {
        return None;
    };
    let Some((old, rest)) = range_of(rest) else {
        return None;
    };
    let Some(rest) = after_prefix(rest, b" +") else {
        return None;
    };
    let Some((new, rest)) = range_of(rest) else {
        return None;
    };
    let Some(rest) = after_prefix(rest, b" @@") else {
        return None;
    };
    Some((old, new, rest))
}

fn is_bad(range: Range) -> bool
    ensures { result ≡ is_bad_range range.start range.count }
{
    range.start == 0 && range.count != 0
}

const MAX: u64 = 4_294_967_295;

/// Whether a range goes on above the greatest number.
fn is_large(range: Range) -> bool
    ensures { result ≡ is_too_large range.start range.count }
{
    range.start > MAX || range.count > MAX - range.start
}

/// Whether one of two does.
pub fn are_large(old: Range, new: Range) -> bool
    ensures { result ≡ (is_too_large old.start old.count || is_too_large new.start new.count) }
{
    is_large(old) || is_large(new)
}

/// The line at which a range begins; an empty one stands in front of it, behind its start.
fn first_line(range: Range) -> u64
    requires { range.start < 2 ^ 32 }
    ensures is { result ≡ first_line range.start range.count }
    ensures small { result ≤ 2 ^ 32 }
{
    if range.count == 0 {
        range.start + 1
    } else {
        range.start
    }
}

/// The line at which the old range begins, and what stands behind the ranges of a line.
pub fn stated_by(line: &[u8]) -> Result<(u64, &[u8]), BadKind>
    ensures exact { Says (λ x. (x.0, x.1.now)) result (stated line.now) }
    ensures small { IfOk result (λ x. x.0 ≤ 2 ^ 32) }
{
    let Some((old, new, rest)) = parts_of(line) else {
        return Err(BadKind::Range);
    };
    if is_bad(old) || is_bad(new) {
        return Err(BadKind::Range);
    }
    if are_large(old, new) {
        return Err(BadKind::NumberTooLarge);
    }
    Ok((first_line(old), rest))
}

fn put_count(out: &mut Vec<u8>, value: u64) -> Result<(), AllocError>
    ensures { OnOk result (out.new.items ≡ out.old.items ++ decimal value) }
{
    let mut digits = [0; 20];
    let len = put_number(value, &mut digits);
    out.extend_from_slice(&digits[..len])
}

/// A count of 1 is left out.
fn put_range(out: &mut Vec<u8>, range: Range) -> Result<(), AllocError>
    ensures { OnOk result (out.new.items ≡ out.old.items ++ range_text range.start range.count) }
{
    put_count(out, range.start)?;
    if range.count == 1 {
        return Ok(());
    }
    out.push(b',')?;
    put_count(out, range.count)
}

/// A range line, with what stands behind its ranges.
pub fn put_range_line(
    out: &mut Vec<u8>,
    old: Range,
    new: Range,
    rest: &[u8],
) -> Result<(), AllocError>
    ensures { OnOk result (out.new.items ≡ out.old.items ++ written old new rest.now) }
{
    out.extend_from_slice(b"@@ -")?;
    put_range(out, old)?;
    out.extend_from_slice(b" +")?;
    put_range(out, new)?;
    out.extend_from_slice(b" @@")?;
    out.extend_from_slice(rest)
}
