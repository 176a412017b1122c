//! The names in the lines of a file patch for which no file was found.

use crate::barred::{NOTHING, put_none};
use crate::lines::{Filler, Lines, bare, is_feed};
use memchr::{memchr, memmem, memrchr};
use outside::Name;
use read_file_patch::{candidates, moved_names};
use read_header_record::quoted_length;
use std::alloc::{AllocError, Global};
use unified_form::at_opening;

/// Why a file isn't made.
const NO_SIGN: &str =
    "its hunk fills an empty file, but neither /dev/null, a stamp of 1970-01-01 00:00:00 UTC nor git says that the file is new";

const POSIX: &str = "with --posix only a file that the command line names is made";

/// Names as the lines have them.
#[derive(Clone, Copy)]
pub struct Given<'a> {
    old: Option<&'a [u8]>,
    new: Option<&'a [u8]>,
    /// Whether a rename or a copy without hunks gives them.
    is_moved: bool,
    /// Whether git says that the file patch copies a file.
    pub is_copy: bool,
    /// The line of the opening, where the text has it.
    opening: &'a [u8],
}

/// How a run reads names.
#[derive(Clone, Copy)]
pub struct Reading {
    /// What `-p` says.
    pub strip: Option<u32>,
    pub is_posix: bool,
    pub is_reversed: bool,
}

/// Which names a file patch gives, and what `-p` leaves of them. Nothing is said where its lines aren't in the front of the text.
pub fn put_names(lines: &mut Lines, tool: &str, reading: Reading, given: Given<'_>) {
    let written = written_names(lines.alloc, given);
    if !written.text().is_empty() {
        let left = left_names(lines.alloc, given, reading);
        put_both(lines, tool, reading.strip, &written, &left);
    }
    if given.opening.starts_with(b"@@ -0,0 +") && !reading.is_reversed {
        put_unmade(lines, tool, given, reading);
    }
}

/// Why the file of a hunk that fills an empty one isn't made, where a name counts.
fn put_unmade(lines: &mut Lines, tool: &str, given: Given<'_>, reading: Reading) {
    if let Ok(names) = looked_for(lines.alloc, given, reading) {
        if !names.is_empty() {
            lines.put_line(tool, if reading.is_posix { POSIX } else { NO_SIGN });
        }
    }
}

/// Whether the line can stand behind that of a copy, up to the first hunk.
fn goes_on(line: &[u8]) -> bool {
    is_of_header(line)
        || line.starts_with(b"index ")
        || line.starts_with(b"--- ")
        || line.starts_with(b"+++ ")
        || at_opening(line, 0)
}

/// Whether the opening is that of a hunk behind which no names are looked for, since none stand in front of it.
pub fn is_nameless(given: Given<'_>) -> bool {
    given.old.is_none()
        && given.new.is_none()
        && (given.opening.starts_with(b"@@ -") || given.opening.starts_with(b"***"))
}

/// What such a hunk is.
pub fn put_nameless(lines: &mut Lines, tool: &str, opening: u64) {
    lines.put_said(
        tool,
        "the hunk at input line # has no header lines right in front of it (an empty line or text ends the file patch above)",
        Filler::Number(opening),
    );
}

fn put_both(lines: &mut Lines, tool: &str, strip: Option<u32>, written: &Lines, left: &Lines) {
    lines.put_parts("#: the patch names ", &[Filler::Text(tool)]);
    lines.put_made(written);
    if !left.is_same(written) {
        match strip {
            Some(strip) => lines.put_parts(", with -p# ", &[Filler::Number(u64::from(strip))]),
            None => lines.put(", without -p "),
        }
        lines.put_made(left);
    }
    lines.put("\n");
}

/// The names of the file patch whose opening is this line of the text, where this front has its lines: those in the two lines in front
/// of the opening, or in it and behind it where it is that of a bare git header.
pub fn given_in(front: &[u8], opening: u64) -> Given<'_> {
    let mut given = Given {
        old: None,
        new: None,
        is_moved: false,
        is_copy: false,
        opening: &[],
    };
    let mut git = None;
    let mut number = 0u64;
    for line in front.split(is_feed) {
        let line = bare(line);
        number = number.saturating_add(1);
        if number > opening && !is_of_header(line) {
            break;
        }
        given = with_line(given, line, number, opening);
        given.is_copy = line.starts_with(b"copy from ") || (given.is_copy && goes_on(line));
        if number < opening {
            git = header_names(git, line);
        }
    }
    with_header(given, git)
}

/// The names of a git header that goes up to this line: its first line gives both, and lines of a rename or a copy one each.
fn header_names<'a>(
    git: Option<(&'a [u8], &'a [u8])>,
    line: &'a [u8],
) -> Option<(&'a [u8], &'a [u8])> {
    if let Some(names) = line.strip_prefix(b"diff --git ") {
        return Some(both_names(names));
    }
    if is_of_header(line) || is_of_made(line) {
        git
    } else {
        None
    }
}

/// The same where no header lines stand in front of the opening, and a git header does: its names are the file patch's.
fn with_header<'a>(given: Given<'a>, git: Option<(&'a [u8], &'a [u8])>) -> Given<'a> {
    match git {
        Some((old, new)) if given.old.is_none() && given.new.is_none() => Given {
            old: Some(old),
            new: Some(new),
            ..given
        },
        _ => given,
    }
}

/// Whether the line goes on with the git header of a file that is made, taken away or changed.
fn is_of_made(line: &[u8]) -> bool {
    line.starts_with(b"index ")
        || line.starts_with(b"new file mode ")
        || line.starts_with(b"deleted file mode ")
        || line.starts_with(b"dissimilarity index ")
}

/// Whether the line goes on with a git header.
fn is_of_header(line: &[u8]) -> bool {
    is_moving(line)
        || line.starts_with(b"old mode ")
        || line.starts_with(b"new mode ")
        || line.starts_with(b"similarity index ")
}

fn is_moving(line: &[u8]) -> bool {
    line.starts_with(b"rename ") || line.starts_with(b"copy ")
}

/// What the lines say up to this one.
fn with_line<'a>(given: Given<'a>, line: &'a [u8], number: u64, opening: u64) -> Given<'a> {
    let mut given = given;
    if number > opening {
        if is_moving(line) {
            given.is_moved = true;
            given.old = behind(line, b"rename from ", b"copy from ").or(given.old);
            given.new = behind(line, b"rename to ", b"copy to ").or(given.new);
        }
    } else if number == opening {
        given.opening = line;
        if let Some(names) = line.strip_prefix(b"diff --git ") {
            let (old, new) = both_names(names);
            given.old = Some(old);
            given.new = Some(new);
        }
    } else if number.saturating_add(2) == opening {
        given.old = name_of(line, b"--- ", b"*** ");
    } else if number.saturating_add(1) == opening {
        given.new = name_of(line, b"+++ ", b"--- ");
    }
    given
}

/// Both names of a git header's first line, behind its mark: where they are as long as each other the space between them is in
/// the middle, else it stands in front of `b/`, else it is the last one.
pub fn both_names(names: &[u8]) -> (&[u8], &[u8]) {
    let half = names.len() / 2;
    let space = if names.len() % 2 == 1 && matches!(names.get(half), Some(b' ')) {
        half
    } else {
        memmem::rfind(names, b" b/")
            .or(memrchr(b' ', names))
            .unwrap_or(0)
    };
    (
        names.get(..space).unwrap_or(names),
        names.get(space.saturating_add(1)..).unwrap_or(names),
    )
}

/// The name behind one of the marks at the line's front, or that of an index line: in quotes, or up to a tab, else up to a space.
fn name_of<'a>(line: &'a [u8], mark: &[u8], other: &[u8]) -> Option<&'a [u8]> {
    match behind(line, mark, other).or(line.strip_prefix(b"Index: ")) {
        Some(rest) => {
            let end = quoted_length(rest)
                .or(memchr(b'\t', rest))
                .or(memchr(b' ', rest))
                .unwrap_or(rest.len());
            rest.get(..end)
        }
        None => None,
    }
}

/// What stands behind one of the marks at the line's front.
fn behind<'a>(line: &'a [u8], mark: &[u8], other: &[u8]) -> Option<&'a [u8]> {
    line.strip_prefix(mark).or(line.strip_prefix(other))
}

fn written_names(alloc: Global, given: Given<'_>) -> Lines {
    let mut text = Lines::new(alloc);
    add_given(&mut text, given.old);
    add_given(&mut text, given.new);
    text
}

fn add_given(text: &mut Lines, name: Option<&[u8]>) {
    match name {
        Some(name) if name != NOTHING => add_name(text, name),
        _ => {}
    }
}

/// The names that are left of a file patch, as they are told.
fn left_names(alloc: Global, given: Given<'_>, reading: Reading) -> Lines {
    let mut text = Lines::new(alloc);
    match looked_for(alloc, given, reading) {
        Ok(names) => {
            if names.is_empty() {
                put_none(&mut text, reading.strip, given.old, given.new);
            } else {
                add_names(&mut text, &names);
            }
        }
        Err(_) => text.cut(),
    }
    text
}

/// The names that a run looks for.
pub fn looked_for(
    alloc: Global,
    given: Given<'_>,
    reading: Reading,
) -> Result<Vec<Name>, AllocError> {
    if given.is_moved {
        moved_names(alloc, reading.strip, given.old, given.new)
    } else {
        candidates(
            alloc,
            reading.strip,
            given.old,
            given.new,
            None,
            reading.is_posix,
        )
    }
}

fn add_names(text: &mut Lines, names: &[Name]) {
    for name in names {
        add_name(text, name.text().as_bytes());
    }
}

/// Adds a name in quotes, unless it is the one that is there.
fn add_name(text: &mut Lines, name: &[u8]) {
    let mut quoted = Lines::new(text.alloc);
    quoted.put_bytes_quoted(name);
    if !text.is_same(&quoted) {
        if !text.text().is_empty() {
            text.put(" and ");
        }
        text.put_made(&quoted);
    }
}
