//! What is wrong with the count of a stack's applied patches.

use crate::lines::{Filler, Lines, is_feed};

/// That the count is more than there are patches, or what the file should say.
pub fn put_count(lines: &mut Lines, tool: &str, applied: &[u8], series: &[u8]) {
    let said = number_of(applied);
    let listed = patches_in(series);
    let text = if said <= listed {
        "#: .pc/applied: must say how many of the patches are applied\n"
    } else {
        "#: .pc/applied says #, and patches/series lists #\n"
    };
    let parts = [
        Filler::Text(tool),
        Filler::Number(said),
        Filler::Number(listed),
    ];
    lines.put_parts(text, &parts);
}

/// The number that the text is, or 0.
fn number_of(text: &[u8]) -> u64 {
    let digits = text.strip_suffix(b"\n").unwrap_or(text);
    match std::str::from_utf8(digits) {
        Ok(digits) => digits.parse::<u64>().unwrap_or(0),
        Err(_) => 0,
    }
}

/// How many patches the list has.
fn patches_in(series: &[u8]) -> u64 {
    let mut count = 0u64;
    for line in series.split(is_feed) {
        if !line.is_empty() && !line.starts_with(b"#") {
            count = count.saturating_add(1);
        }
    }
    count
}
