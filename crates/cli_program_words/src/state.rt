//! What is wrong with a file of a stack, for the line behind a refusal.

use crate::count::put_count;
use crate::lines::{Filler, Lines, is_feed};
use outside::{Name, NameFault, NameRule};
use series_stack::StateFile;
use std::fs::File;
use std::rt::Files;
use sys_devices::Disk;

const SERIES: &str = "patches/series";

const APPLIED: &str = ".pc/applied";

/// The longest file that is looked at.
const LARGEST: u32 = 1_048_576;

/// The most patches that a stack may have.
const MOST: u64 = 9_999;

/// Which file of a stack isn't of its form, and what it should have; of the list of patches, which line is wrong.
pub fn put_state<R: Files<File = File>>(
    lines: &mut Lines,
    tool: &str,
    tree: &mut Disk<'_, R>,
    file: StateFile,
) {
    match file {
        StateFile::Series => {
            let series = text_at(lines, tree, SERIES, LARGEST);
            put_series(lines, tool, &series);
        }
        StateFile::Count => {
            let applied = text_at(lines, tree, APPLIED, LARGEST);
            let series = text_at(lines, tree, SERIES, LARGEST);
            put_count(lines, tool, &applied, &series);
        }
        StateFile::Save => { lines.put_line(tool, ".pc: a save is missing or isn't of its form") }
    }
}

fn put_series(lines: &mut Lines, tool: &str, series: &[u8]) {
    lines.put_parts("#: patches/series: ", &[Filler::Text(tool)]);
    put_fault(lines, series);
    lines.put("each line must be a name below patches/\n");
}

/// The text of a file of the stack of up to so many bytes, or nothing where it can't be read.
pub fn text_at<R: Files<File = File>>(
    lines: &mut Lines,
    tree: &mut Disk<'_, R>,
    name: &str,
    most: u32,
) -> Vec<u8> {
    match Name::new(lines.alloc, name.as_bytes()) {
        Ok(name) => tree
            .text(lines.alloc, &name, most)
            .unwrap_or(Vec::new(lines.alloc)),
        Err(_) => {
            lines.cut();
            Vec::new(lines.alloc)
        }
    }
}

/// The first line that isn't taken, and why. Empty lines and those that begin with `#` are passed over.
fn put_fault(lines: &mut Lines, text: &[u8]) {
    let (mut number, mut count) = (0u64, 0u64);
    for line in text.split(is_feed) {
        number = number.saturating_add(1);
        if !line.is_empty() && !line.starts_with(b"#") {
            count = count.saturating_add(1);
            if let Some(what) = fault_of(lines, line, count) {
                lines.put_parts("line # #; ", &[Filler::Number(number), Filler::Text(what)]);
                break;
            }
        }
    }
}

/// What is wrong with the line, which is that of the patch with this number.
fn fault_of(lines: &mut Lines, line: &[u8], count: u64) -> Option<&'static str> {
    if count > MOST {
        return Some("is one more than the 9999 that there may be");
    }
    broken_by(lines, line)
}

/// What breaks the rule of names, if it does.
pub fn broken_by(lines: &mut Lines, name: &[u8]) -> Option<&'static str> {
    match Name::new(lines.alloc, name).err() {
        None => None,
        Some(NameFault::Refused { rule }) => Some(broken(rule)),
        Some(NameFault::Memory) => {
            lines.cut();
            None
        }
    }
}

/// What breaks the rule, behind the name that does.
fn broken(rule: NameRule) -> &'static str {
    match rule {
        NameRule::Empty => "names no file",
        NameRule::Absolute => "begins with a slash",
        NameRule::Parent => "has a component '..'",
        NameRule::Control => "has a control byte, as a tab or a carriage return",
        NameRule::NotUtf8 => "isn't UTF-8",
    }
}
