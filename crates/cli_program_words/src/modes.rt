//! The lines behind a run over a patch text in which git gives files modes that aren't carried out.

use crate::lines::{Filler, Lines, bare, is_feed};
use crate::names::both_names;
use read_file_patch::{last_component, shortened};
use sys_devices::Passed;

/// The mode of a symbolic link.
const LINK: &[u8] = b"120000";

/// The mode of a submodule, which the run tells of.
const SUBMODULE: &[u8] = b"160000";

/// What becomes of a link in a stack.
const AS_FILE: &str = "# is a symbolic link in the patch: a regular file holds its text";

/// How a run takes names and lines.
#[derive(Clone, Copy)]
pub struct Taking {
    pub strip: Option<u32>,
    pub is_reversed: bool,
}

/// A line for each file to which git gives such a mode.
pub fn put_modes(lines: &mut Lines, tool: &str, taking: Taking, passed: &Passed) {
    let mut header = b"".as_slice();
    for line in passed.mode_lines().split(is_feed) {
        let line = bare(line);
        match line.strip_prefix(b"diff --git ") {
            Some(names) => header = names,
            None => put_mode(lines, tool, taking, header, line),
        }
    }
}

fn put_mode(lines: &mut Lines, tool: &str, taking: Taking, header: &[u8], line: &[u8]) {
    if let Some(mode) = mode_in(line, taking.is_reversed) {
        let name = Filler::Name(name_in(header, taking));
        if mode == LINK {
            put_link(lines, tool, name);
        } else if mode != SUBMODULE {
            let parts = [Filler::Text(tool), Filler::Bytes(mode), name];
            lines.put_parts("#: mode # of # isn't carried out\n", &parts);
        }
    }
}

/// A stack makes no links.
fn put_link(lines: &mut Lines, tool: &str, name: Filler<'_>) {
    if tool == "patchstack" {
        lines.put_said(tool, AS_FILE, name);
    }
}

/// The mode that the line gives the file, if it gives one.
fn mode_in(line: &[u8], is_reversed: bool) -> Option<&[u8]> {
    let made = if is_reversed {
        b"deleted file mode ".as_slice()
    } else {
        b"new file mode ".as_slice()
    };
    line.strip_prefix(made).or(line.strip_prefix(b"new mode "))
}

/// The name that the file then has, as `-p` leaves it.
fn name_in(header: &[u8], taking: Taking) -> &[u8] {
    let (old, new) = both_names(header);
    left_of(taking.strip, if taking.is_reversed { old } else { new })
}

/// What `-p` leaves of a name.
pub fn left_of(strip: Option<u32>, name: &[u8]) -> &[u8] {
    match strip {
        Some(count) => shortened(count, name),
        None => last_component(name),
    }
}
