//! The lines of a patch text in which git gives files modes that aren't carried out.

use memchr::{memchr, memmem};
use std::alloc::Global;

/// How a git header begins, with the line feed in front of it.
const MARK: &[u8] = b"\ndiff --git ";

/// The end of a header with more bytes isn't waited for.
const LONGEST: usize = 8_192;

/// How a text is looked through.
#[derive(Clone, Copy)]
struct Look {
    /// Whether it is a patch of a stack, where a file that is there keeps its mode, and no link is made.
    is_stack: bool,
    /// Whether nothing follows.
    is_end: bool,
}

/// The first line of each such header, and directly behind it those of the modes.
#[derive(Drop)]
pub struct Modes {
    is_stack: bool,
    /// The lines that were found.
    pub lines: Vec<u8>,
    /// The end of what was looked through, in which a header may begin.
    open: Vec<u8>,
}

impl Modes {
    pub fn new(alloc: Global, is_stack: bool) -> Modes {
        Modes {
            is_stack,
            lines: Vec::new(alloc),
            open: Vec::new(alloc),
        }
    }

    /// Looks through a whole text. What was found before goes.
    pub fn whole(&mut self, text: &[u8]) {
        let look = self.look(true);
        self.lines.clear();
        if text.starts_with(b"diff --git ") {
            let _ = is_open(&mut self.lines, look, text, 0);
        }
        take_headers(&mut self.lines, look, text);
    }

    /// Looks through a piece of a text, the first one or one behind it; one without a byte ends the text. Without memory some is
    /// passed over.
    pub fn piece(&mut self, is_first: bool, piece: &[u8]) {
        if is_first {
            let _ = self.open.push(b'\n');
        }
        let _ = self.open.extend_from_slice(piece);
        let look = self.look(piece.is_empty());
        let taken = take_headers(&mut self.lines, look, &self.open);
        let length = self.open.len();
        if look.is_end {
            self.open.clear();
        } else if taken <= length {
            self.open.copy_within(taken.., 0);
            self.open.truncate(length - taken);
        }
    }

    fn look(&self, is_end: bool) -> Look {
        Look {
            is_stack: self.is_stack,
            is_end,
        }
    }
}

/// Keeps the lines of the headers that begin behind a line feed of the text, and answers from where on what follows may belong
/// to one.
fn take_headers(lines: &mut Vec<u8>, look: Look, text: &[u8]) -> usize {
    let mut taken = text.len().saturating_sub(MARK.len() - 1);
    for place in memmem::find_iter(text, MARK) {
        if is_open(lines, look, text, place.saturating_add(1)) {
            taken = place;
            break;
        }
    }
    taken
}

/// Keeps the lines of the header that begins here which say of a mode, and answers whether its end is waited for.
fn is_open(lines: &mut Vec<u8>, look: Look, text: &[u8], begin: usize) -> bool {
    let header = text.get(begin..).unwrap_or(&[]);
    match modes_end(look, header) {
        Some(end) => {
            let _ = lines.extend_from_slice(header.get(..end).unwrap_or(&[]));
            false
        }
        None => !look.is_end && header.len() < LONGEST,
    }
}

/// Where the lines of modes that aren't carried out end behind the first line of the header, or 0 where there are none. Where the
/// text ends first there is no answer.
fn modes_end(look: Look, header: &[u8]) -> Option<usize> {
    let first = line_end(header, 0)?;
    let second = line_end(header, first)?;
    let line = header.get(first..second).unwrap_or(&[]);
    if !line.starts_with(b"old mode ") {
        return Some(if look.is_stack && is_no_file(line) {
            second
        } else {
            0
        });
    }
    if !look.is_stack {
        return Some(0);
    }
    let third = line_end(header, second)?;
    let next = match line_end(header, third) {
        Some(fourth) => header.get(third..fourth).unwrap_or(&[]),
        None if look.is_end => header.get(third..).unwrap_or(&[]),
        None => return None,
    };
    Some(if is_left(next) { third } else { 0 })
}

/// Whether the line says that what is made or taken away is a link, or another thing that is no file.
fn is_no_file(line: &[u8]) -> bool {
    match line
        .strip_prefix(b"new file mode ")
        .or(line.strip_prefix(b"deleted file mode "))
    {
        Some(mode) => !mode.starts_with(b"100"),
        None => false,
    }
}

/// Whether a change of modes in a stack isn't carried out that this line follows, since the file is neither renamed nor copied.
fn is_left(next: &[u8]) -> bool {
    !(next.starts_with(b"similarity ")
        || next.starts_with(b"dissimilarity ")
        || next.starts_with(b"rename ")
        || next.starts_with(b"copy "))
}

/// Where the line ends that begins here.
fn line_end(text: &[u8], begin: usize) -> Option<usize> {
    match memchr(b'\n', text.get(begin..).unwrap_or(&[])) {
        Some(length) => Some(begin.saturating_add(length).saturating_add(1)),
        None => None,
    }
}
