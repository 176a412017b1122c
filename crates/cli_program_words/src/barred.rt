//! Why nothing is left of the names of a file patch.

use crate::lines::Lines;
use crate::modes::left_of;
use crate::state::broken_by;

/// The name of a file that isn't there.
pub const NOTHING: &[u8] = b"/dev/null";

/// What is told where no name is left: the rule that the first of them breaks behind `-p`, if one does.
pub fn put_none(text: &mut Lines, strip: Option<u32>, old: Option<&[u8]>, new: Option<&[u8]>) {
    text.put("none that counts");
    let what = match broken_behind(text, strip, old) {
        Some(what) => Some(what),
        None => broken_behind(text, strip, new),
    };
    if let Some(what) = what {
        text.put(": what is left ");
        text.put(what);
    }
}

/// What is wrong with what is left of the name, where one is given.
fn broken_behind(
    text: &mut Lines,
    strip: Option<u32>,
    name: Option<&[u8]>,
) -> Option<&'static str> {
    match name {
        Some(name) if name != NOTHING => broken_by(text, left_of(strip, name)),
        _ => None,
    }
}
