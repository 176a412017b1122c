//! The line behind a run of `recountdiff` over a text in which an empty line ends a hunk that seems to go on.

use crate::lines::{Filler, Lines, is_feed};
use unified_form::at_opening;

/// What such a line does.
const EMPTY: &str =
    "line # is empty and ends its hunk, so what stands behind it isn't counted, nor applied; give it a space if it is context";

/// A line for the first empty line of the text that ends a hunk, and behind which more lines of a hunk stand. The first line of the text
/// opens none.
pub fn put_emptied(lines: &mut Lines, text: &[u8]) {
    let (mut number, mut is_hunk, mut is_over) = (0u64, false, false);
    for line in text.split(is_feed) {
        if is_over && is_of_hunk(line) {
            lines.put_said("recountdiff", EMPTY, Filler::Number(number));
            break;
        }
        is_over = is_hunk && line.is_empty();
        is_hunk = (is_hunk && is_marked(line)) || (number > 0 && at_opening(line, 0));
        number = number.saturating_add(1);
    }
}

fn is_marked(line: &[u8]) -> bool {
    matches!(line, [b' ' | b'+' | b'-' | b'\\', ..])
}

/// Whether a line is one of a hunk, and neither of a header nor the one above a mail's signature.
fn is_of_hunk(line: &[u8]) -> bool {
    is_marked(line)
        && !line.starts_with(b"--- ")
        && !line.starts_with(b"+++ ")
        && !line.starts_with(b"-- ")
}
