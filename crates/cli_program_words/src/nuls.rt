//! The line behind a run over a patch text with a byte 0 outside of hunks.

use crate::lines::{Filler, Lines, is_feed};
use memchr::memchr;
use patch_options::Options;
use patch_set::ways_of;
use read_clean_text::{clean, unindented};
use read_patch_text::read_patches;
use std::alloc::Global;

/// What such a byte is. GNU patch ends a name there, or ends.
const NUL: &str = "line # has a byte 0 outside of hunks; here it is a byte as any other";

/// A line for the first of the text with such a byte. Of a text with a fault, and of one that is cut in a hunk, none is told.
pub fn put_nuls(lines: &mut Lines, tool: &str, options: &Options, text: &[u8]) {
    if memchr(0, text).is_none() {
        return;
    }
    if let Some(text) = clean_of(lines.alloc, options, text) {
        if let Some(number) = line_outside(lines.alloc, options, &text) {
            lines.put_said(tool, NUL, Filler::Number(number));
        }
    }
}

/// The text as the run reads it, line for line.
fn clean_of(alloc: Global, options: &Options, text: &[u8]) -> Option<Vec<u8>> {
    let mut copy = Vec::new(alloc);
    copy.extend_from_slice(text).ok()?;
    let even = unindented(alloc, copy, ways_of(options)).ok()?;
    clean(alloc, even, ways_of(options), options.keep_returns).ok()
}

/// The number of the first line with a byte 0 outside of hunks.
fn line_outside(alloc: Global, options: &Options, text: &[u8]) -> Option<u64> {
    let place = first_outside(alloc, options, text)?;
    let front = text.get(..place).unwrap_or(text);
    let mut number = 0u64;
    for _line in front.split(is_feed) {
        number = number.saturating_add(1);
    }
    Some(number)
}

/// The place of the first byte 0 outside of hunks.
fn first_outside(alloc: Global, options: &Options, text: &[u8]) -> Option<usize> {
    if text.len() >= 0xffff_ffff {
        return None;
    }
    let patches = read_patches(alloc, text, ways_of(options)).ok()?;
    let mut at = 0;
    for patch in &patches {
        let end = patch.span.end as usize;
        // (the names of a bare header stand behind its opening)
        let opens = if patch.header.bare {
            end
        } else {
            patch.header.at
        };
        let place = nul_in(text, at, opens);
        if place.is_some() {
            return place;
        }
        at = end;
    }
    nul_in(text, at, text.len())
}

/// The place of the first byte 0 from here on, up to an end.
fn nul_in(text: &[u8], at: usize, end: usize) -> Option<usize> {
    let part = text.get(at..end).unwrap_or_default();
    memchr(0, part).map(|behind| at.saturating_add(behind))
}
