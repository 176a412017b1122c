//! What the `index` line of a git header says of a mode that doesn't change, which no definition asks.

use apply_task::Task;

// How many lines of a header are looked at, from its last one back.
const MOST_LINES: usize = 12;

/// Whether a file patch whose modes aren't told is about the symbolic link that it finds: as the `index` line of its git header
/// says, or since it renames or copies whatever is there.
pub fn keeps_link(task: &Task<'_>) -> bool {
    task.patch.is_moved() || indexes_link(task.set.text(), task.patch.header.at)
}

/// Whether the header in front of a place has an `index` line with the mode of a link.
fn indexes_link(text: &[u8], at: usize) -> bool {
    let Some(front) = text.get(..at) else {
        return false;
    };
    let mut found = false;
    for line in front.rsplit(|byte| *byte == b'\n').take(MOST_LINES) {
        if line.starts_with(b"diff --git ") {
            return found;
        }
        found = found || is_link_line(line);
    }
    false
}

fn is_link_line(line: &[u8]) -> bool {
    line.starts_with(b"index ") && (line.ends_with(b" 120000") || line.ends_with(b" 120000\r"))
}
