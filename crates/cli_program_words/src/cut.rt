//! The line behind a run over a patch text that is cut in its last line.

use crate::lines::Lines;
use sys_devices::Passed;

const CUT: &str = "patch: the patch text ends in the middle of a line, which was taken as whole\n";

/// The line, where the last byte of the patch text is no line feed.
pub fn put_cut(lines: &mut Lines, passed: &Passed) {
    match passed.last() {
        Some(b'\n') | None => {}
        Some(_) => lines.put(CUT),
    }
}
