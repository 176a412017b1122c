//! The line behind a run over a patch text with a line like the range of a hunk that is none: such a line opens no hunk.

use crate::lines::{Filler, Lines, is_feed};
use patch_header::ReadOptions;
use read_clean_text::{loses_indent, unindented};
use std::alloc::Global;
use unified_form::at_opening;

/// What such a line does.
const NO_RANGE: &str =
    "line # looks like the range of a hunk and is none: what stands from there to the next file patch isn't applied";

/// A line for the first of the text, as it is read in these ways, that begins like a range of the unified form and isn't one.
pub fn put_ranges(lines: &mut Lines, tool: &str, ways: ReadOptions, text: &[u8]) {
    let found = match without_indent(lines.alloc, ways, text) {
        Some(even) => first_damaged(&even, false),
        None => first_damaged(text, false),
    };
    if let Some(number) = found {
        lines.put_said(tool, NO_RANGE, Filler::Number(number));
    }
}

/// A line for the first of a text without file patches that begins so behind blanks and tabs, if any. Whether there was one.
pub fn put_any_range(lines: &mut Lines, tool: &str, text: &[u8]) -> bool {
    match first_damaged(text, true) {
        Some(number) => {
            lines.put_said(tool, NO_RANGE, Filler::Number(number));
            true
        }
        None => false,
    }
}

/// The text without its indent, line for line, where it is read so.
fn without_indent(alloc: Global, ways: ReadOptions, text: &[u8]) -> Option<Vec<u8>> {
    match loses_indent(alloc, text, ways) {
        Ok(true) => {}
        _ => return None,
    }
    let mut copy = Vec::new(alloc);
    copy.extend_from_slice(text).ok()?;
    unindented(alloc, copy, ways).ok()
}

/// The number of the first line that is damaged so, with or without the blanks and tabs in front of it.
fn first_damaged(text: &[u8], skips_blanks: bool) -> Option<u64> {
    let mut number = 0u64;
    for line in text.split(is_feed) {
        number = number.saturating_add(1);
        let line = if skips_blanks {
            line.trim_ascii_start()
        } else {
            line
        };
        if line.starts_with(b"@@ -") && !at_opening(line, 0) {
            return Some(number);
        }
    }
    None
}
