//! Numbers with blanks around them.

ghost use Rattle.std.specs.Prelude.{◌≡◌, ◌≤◌, length, drop, IfSome, true};
ghost use Rattle.num_text.specs.NumberRanges.{IsReadAs, HasSmallEnds};
ghost use Rattle.context_form.specs.Ranges.{is_blank, unblanked, spaced_at};

use hunk_core::after_prefix;
use num_text::{NumberRange, is_below, read_capped};

fn is_blank(byte: u8) -> bool
    ensures { result ≡ is_blank byte }
{
    byte == b' ' || byte == b'\t'
}

/// The place behind blanks at the front.
fn blanks_end(bytes: &[u8]) -> usize
    ensures high { result ≤ length bytes.now }
    ensures rest { drop result bytes.now ≡ unblanked bytes.now }
{
    let mut end = 0;
    while end < bytes.len() && is_blank(bytes[end]) {
        end += 1;
    }
    end
}

/// What stands behind blanks, of which there may be none.
pub fn skip_blanks(bytes: &[u8]) -> &[u8]
    ensures { result.now ≡ unblanked bytes.now }
{
    &bytes[blanks_end(bytes)..]
}

/// One number, or two with a comma, with blanks around each, and what stands after them.
#[tactic(auto, unfolding(crate::specs::Ranges::spaced_at))]
pub fn read_spaced(bytes: &[u8]) -> Option<(NumberRange, &[u8])>
    ensures exact { IsReadAs (λ x. (x.0, x.1.now)) result (spaced_at bytes.now) }
    ensures small { IfSome result (λ x. HasSmallEnds x.0) }
{
    let bytes = skip_blanks(bytes);
    let (first, rest) = read_capped(bytes)?;
    let rest = skip_blanks(rest);
    match after_prefix(rest, b",") {
        Some(more) => {
            let more = skip_blanks(more);
            let (last, rest) = read_capped(more)?;
            let range = NumberRange {
                first,
                last,
                is_single: false,
                is_turned: is_below(more, bytes),
            };
            Some((range, skip_blanks(rest)))
        }
        None => {
            let range = NumberRange {
                first,
                last: first,
                is_single: true,
                is_turned: false,
            };
            Some((range, rest))
        }
    }
}
