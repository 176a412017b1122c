//! Where a hunk opens.

ghost use Rattle.std.specs.Prelude.{◌≡◌, ◌≤◌, length, drop};
ghost use Rattle.line_list.specs.Lines.{lines};
ghost use Rattle.context_form.specs.Openings.{begins_old, begins_hunk};

use crate::numbers::skip_blanks;
use hunk_core::after_prefix;
use line_list::next_line;
use num_text::{Number, read_number};

/// Whether the line at `at` begins as that of an old range does.
fn at_old_range(text: &[u8], at: usize) -> bool
    requires { at ≤ length text.now }
    ensures { result ≡ begins_old (lines (drop at text.now)) }
{
    let Some(end) = next_line(text, at) else {
        return false;
    };
    match after_prefix(&text[at..end], b"*** ") {
        Some(rest) => read_number(skip_blanks(rest), 0) != Number::NoDigit,
        None => false,
    }
}

/// Whether a hunk opens at `at`: a line of asterisks, and the range of the old part behind it.
pub fn at_opening(text: &[u8], at: usize) -> bool
    requires { at ≤ length text.now }
    ensures { result ≡ begins_hunk (lines (drop at text.now)) }
{
    match next_line(text, at) {
        None => false,
        Some(end) => {
            after_prefix(&text[at..end], b"***************").is_some() && at_old_range(text, end)
        }
    }
}
