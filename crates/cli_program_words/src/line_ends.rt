//! The line behind a run in which hunks failed, where the lines of the patch end otherwise than those of a file.

use crate::ended::Ended;
use crate::lines::{Filler, Lines, bare, is_feed};
use memchr::memrchr;

const RETURNED: &str =
    "the lines of # end in carriage return and line feed, those of the patch don't";

const PLAIN: &str = "the lines of the patch end in carriage return and line feed, those of # don't";

/// How the lines end that the hunks of a patch text show, up to a line of it.
#[derive(Clone, Copy)]
struct Shown {
    is_hunk: bool,
    /// Whether the line before has a carriage return.
    before: bool,
    /// Whether the lines of the hunks are read without theirs, as the last line of their header has one.
    are_stripped: bool,
    /// Whether the last of them has a carriage return. A backslash behind it says that it has no line feed.
    last: Option<bool>,
    has_returned: bool,
    has_plain: bool,
}

/// The line, where a hunk failed, and all lines that the hunks show end in carriage return and line feed and the first line of a file
/// doesn't, or none of them does and the first line of a file does. Those that are read without their carriage returns, unless these are
/// kept, have none.
pub fn put_line_ends(
    lines: &mut Lines,
    tool: &str,
    ended: Ended<'_>,
    front: &[u8],
    keeps_returns: bool,
) {
    let (said, name) = match shown_in(front, keeps_returns) {
        Some(false) => (RETURNED, ended.ends.returned()),
        Some(true) => (PLAIN, ended.ends.plain()),
        None => ("", ""),
    };
    if ended.heard.failed && !name.is_empty() {
        lines.put_said(tool, said, Filler::Quoted(name));
    }
}

/// Whether the lines that the hunks in this front of the text show end in carriage return and line feed. There is no answer where
/// some do and some don't.
fn shown_in(front: &[u8], keeps_returns: bool) -> Option<bool> {
    let mut shown = Shown {
        is_hunk: false,
        before: false,
        are_stripped: false,
        last: None,
        has_returned: false,
        has_plain: false,
    };
    let end = match memrchr(b'\n', front) {
        Some(end) => end,
        None => return None,
    };
    for line in front.get(..end).unwrap_or(front).split(is_feed) {
        shown = with_line(shown, line, keeps_returns);
    }
    let shown = with_last(shown);
    if shown.has_returned == shown.has_plain {
        None
    } else {
        Some(shown.has_returned)
    }
}

/// What is shown up to this line.
fn with_line(shown: Shown, line: &[u8], keeps_returns: bool) -> Shown {
    let mut shown = shown;
    if line.starts_with(b"\\") {
        shown.last = None;
        return shown;
    }
    shown = with_last(shown);
    let text = bare(line);
    let has_return = text.len() < line.len();
    if begins_hunk(text) {
        if !shown.is_hunk {
            let comes = if is_command(text) {
                has_return
            } else {
                shown.before
            };
            shown.are_stripped = comes && !keeps_returns;
        }
        shown.is_hunk = true;
    } else if is_of_hunk(text) {
        if shown.is_hunk {
            shown.last = Some(has_return && !shown.are_stripped);
        }
    } else if !text.is_empty() {
        shown.is_hunk = false;
    }
    shown.before = has_return;
    shown
}

/// What is shown, where the last line has its line feed.
fn with_last(shown: Shown) -> Shown {
    let mut shown = shown;
    match shown.last {
        Some(true) => shown.has_returned = true,
        Some(false) => shown.has_plain = true,
        None => {}
    }
    shown.last = None;
    shown
}

/// Whether lines of a hunk stand behind this one.
fn begins_hunk(text: &[u8]) -> bool {
    text.starts_with(b"@@ -")
        || (text.starts_with(b"*** ") && text.ends_with(b" ****"))
        || (text.starts_with(b"--- ") && text.ends_with(b" ----"))
        || is_command(text)
}

/// Whether it is a command of a normal patch. One of an ed script ends in a letter.
fn is_command(text: &[u8]) -> bool {
    let (mut has_letter, mut is_number) = (false, false);
    for byte in text {
        is_number = byte.is_ascii_digit();
        match *byte {
            b'a' | b'c' | b'd' => has_letter = true,
            b',' => {}
            _ if is_number => {}
            _ => return false,
        }
    }
    has_letter && is_number
}

/// Whether it may be a line of a hunk, and isn't more likely one of a header, one between the sides of a normal hunk, or that in front
/// of a mail's signature.
fn is_of_hunk(text: &[u8]) -> bool {
    match text.first() {
        Some(b' ' | b'-' | b'+' | b'!' | b'<' | b'>') => !is_mark(text),
        _ => false,
    }
}

fn is_mark(text: &[u8]) -> bool {
    match text {
        b"---" | b"-- " => true,
        _ => text.starts_with(b"--- "),
    }
}
