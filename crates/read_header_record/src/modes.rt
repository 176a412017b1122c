//! Modes, as git writes them.

ghost use Rattle.std.specs.Prelude.{◌≡◌};
ghost use Rattle.read_header_record.specs.Modes.{are_rights, is_executable};

use crate::quoted::is_octal;
use hunk_core::after_prefix;

/// Whether these are three octal digits.
fn are_rights(digits: &[u8]) -> bool
    ensures { result ≡ are_rights digits.now }
{
    digits.len() == 3 && is_octal(digits[0]) && is_octal(digits[1]) && is_octal(digits[2])
}

/// Whether the mode of a regular file lets its owner execute it; other modes don't tell.
#[tactic(auto, unfolding(crate::specs::Modes::is_executable))]
pub fn is_executable(mode: &[u8]) -> Option<bool>
    ensures { result ≡ is_executable mode.now }
{
    match after_prefix(mode, b"100") {
        None => None,
        Some(digits) => {
            if are_rights(digits) {
                Some(digits[0] % 2 == 1)
            } else {
                None
            }
        }
    }
}
