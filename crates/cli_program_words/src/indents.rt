//! The lines behind a run over a patch text with blanks or tabs in front of its lines.

use crate::lines::{Filler, Lines, is_feed};
use patch_header::ReadOptions;
use read_clean_text::loses_indent;

/// What became of an indent.
const TAKEN_OFF: &str =
    "the patch is indented, and was read without the blanks and tabs in front of its lines";

/// Why a patch may be garbage.
const UNLIKE: &str =
    "line # looks like one of an indented patch, which is read only where each of its lines has the same blanks and tabs in front";

/// How lines of headers and ranges of hunks begin.
const BEGINNINGS: [&[u8]; 6] = [b"--- ", b"+++ ", b"*** ", b"@@ -", b"diff ", b"Index:"];

/// The line, where a text that was taken was read without its indent.
pub fn put_indented(lines: &mut Lines, tool: &str, ways: ReadOptions, text: &[u8]) {
    if let Ok(true) = loses_indent(lines.alloc, text, ways) {
        lines.put_line(tool, TAKEN_OFF);
    }
}

/// A line for the first that looks like one of an indented patch, in a text without file patches.
pub fn put_unlike(lines: &mut Lines, tool: &str, text: &[u8]) {
    let mut number = 0u64;
    for line in text.split(is_feed) {
        number = number.saturating_add(1);
        if is_indented(line) {
            lines.put_said(tool, UNLIKE, Filler::Number(number));
            break;
        }
    }
}

fn is_indented(line: &[u8]) -> bool {
    match line.first() {
        Some(b' ' | b'\t') => begins_header(line.trim_ascii_start()),
        _ => false,
    }
}

fn begins_header(line: &[u8]) -> bool {
    for beginning in BEGINNINGS {
        if line.starts_with(beginning) {
            return true;
        }
    }
    false
}
