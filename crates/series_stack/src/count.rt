//! How many patches of a stack are applied: a number in digits without leading zeros, and a line feed.
ghost use Rattle.std.specs.Prelude.{◌≡◌, ◌∷◌, ◌&&◌, [], nat_le, bytes_eq, None, Some, IfOk, IfErr};
ghost use Rattle.series_stack.specs.Count.{count_of};
ghost use Rattle.series_stack.specs.declared.fault.StackFault.TheVariants.{BadState};
ghost use Rattle.series_stack.specs.declared.fault.StateFile.TheVariants.{Count};

use crate::fault::{StackFault, StateFile};
use crate::text::first_number;

/// The number that a text writes in digits without leading zeros and a line feed, at most `most`. Where the text is none
/// of that, or the number is larger, the answer is `BadState`, which is the only fault.
pub fn read_count(text: &[u8], most: u32) -> Result<u32, StackFault>
    ensures count { IfOk result (λ n. count_of most text.now ≡ Some n) }
    ensures cause { IfErr result (λ e. (e ≡ BadState Count) × (count_of most text.now ≡ None)) }
{
    match counted(text, most) {
        Some(count) => Ok(count),
        None => Err(StackFault::BadState {
            file: StateFile::Count,
        }),
    }
}

fn counted(text: &[u8], most: u32) -> Option<u32>
    ensures { result ≡ count_of most text.now }
{
    match first_number(text) {
        Some((count, rest)) => {
            if is_whole(rest, count, most) {
                Some(count)
            } else {
                None
            }
        }
        None => None,
    }
}

// Whether only a line feed stands behind a count that isn't too large.
fn is_whole(rest: &[u8], count: u32, most: u32) -> bool
    ensures { result ≡ (bytes_eq rest.now (10 ∷ []) && nat_le count most) }
{
    rest == b"\n".as_slice() && count <= most
}
