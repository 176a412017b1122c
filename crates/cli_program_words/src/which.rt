//! Which patch of a stack is meant, for the line behind its refusal.

use crate::lines::{Filler, Lines};
use cli_run_answers::Why;
use sys_devices::Passed;

/// The patch that a push was refused for. The other tools have one patch text alone.
pub fn put_patch(lines: &mut Lines, tool: &str, why: Why, passed: &Passed) {
    let file = passed.file();
    if matches!(tool, "patchstack") && !file.is_empty() && is_refused(why) {
        lines.put_said(tool, "that is #", Filler::Text(file));
    }
}

/// Whether it is a patch text that was refused.
fn is_refused(why: Why) -> bool {
    match why {
        Why::Malformed { .. }
        | Why::Garbage
        | Why::EdReverse { .. }
        | Why::Reserved { .. }
        | Why::TooLong
        | Why::StackName { .. } => true,
        _ => false,
    }
}
