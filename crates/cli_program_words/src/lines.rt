//! Lines for standard error, put together piece by piece.

use std::alloc::Global;
use std::fmt::Write;

/// What stands in a line in the place of a `#` of its text.
#[derive(Clone, Copy)]
pub enum Filler<'a> {
    Text(&'a str),
    Number(u64),
    /// A word in quotes.
    Quoted(&'a str),
    Bytes(&'a [u8]),
    /// Bytes in quotes.
    Name(&'a [u8]),
}

/// Where memory is missing once, none of the lines is told: so what is put behind that doesn't matter.
#[derive(Drop)]
pub struct Lines {
    pub alloc: Global,
    text: String,
    is_cut: bool,
}

impl Lines {
    pub fn new(alloc: Global) -> Lines {
        Lines {
            alloc,
            text: String::new(alloc),
            is_cut: false,
        }
    }

    /// The lines, if they are whole.
    pub fn text(&self) -> &str {
        if self.is_cut { "" } else { self.text.as_str() }
    }

    /// Whether the text is the same, and whole in both.
    pub fn is_same(&self, other: &Lines) -> bool {
        !self.is_cut && !other.is_cut && self.text.as_str() == other.text.as_str()
    }

    /// Memory is missing for what belongs here.
    pub fn cut(&mut self) {
        self.is_cut = true;
    }

    pub fn put(&mut self, piece: &str) {
        if self.text.push_str(piece).is_err() {
            self.is_cut = true;
        }
    }

    /// Puts a text that was made, if memory was there for it.
    pub fn put_made(&mut self, made: &Lines) {
        self.put(made.text.as_str());
        if made.is_cut {
            self.is_cut = true;
        }
    }

    /// Puts a word in quotes.
    pub fn put_quoted(&mut self, word: &str) {
        if write!(self.text, "{word:?}").is_err() {
            self.is_cut = true;
        }
    }

    pub fn put_number(&mut self, number: u64) {
        if write!(self.text, "{number}").is_err() {
            self.is_cut = true;
        }
    }

    /// Puts bytes as text.
    pub fn put_bytes(&mut self, bytes: &[u8]) {
        match String::from_utf8_lossy(self.alloc, bytes) {
            Ok(text) => self.put(text.as_str()),
            Err(_) => self.is_cut = true,
        }
    }

    /// Puts bytes as text in quotes.
    pub fn put_bytes_quoted(&mut self, bytes: &[u8]) {
        match String::from_utf8_lossy(self.alloc, bytes) {
            Ok(text) => self.put_quoted(text.as_str()),
            Err(_) => self.is_cut = true,
        }
    }

    /// Puts a text, with a part in the place of each `#`. A part behind those isn't put.
    pub fn put_parts(&mut self, said: &str, parts: &[Filler<'_>]) {
        let mut pieces = said.split('#');
        self.put(pieces.next().unwrap_or(""));
        for part in parts {
            if let Some(piece) = pieces.next() {
                self.put_part(*part);
                self.put(piece);
            }
        }
    }

    fn put_part(&mut self, part: Filler<'_>) {
        match part {
            Filler::Text(text) => self.put(text),
            Filler::Number(number) => self.put_number(number),
            Filler::Quoted(word) => self.put_quoted(word),
            Filler::Bytes(bytes) => self.put_bytes(bytes),
            Filler::Name(bytes) => self.put_bytes_quoted(bytes),
        }
    }

    /// Puts a line of the tool's, with a part in the place of its `#`.
    pub fn put_said(&mut self, tool: &str, said: &str, part: Filler<'_>) {
        self.put(tool);
        self.put(": ");
        self.put_parts(said, &[part]);
        self.put("\n");
    }

    /// Puts a line of the tool's.
    pub fn put_line(&mut self, tool: &str, said: &str) {
        self.put(tool);
        self.put(": ");
        self.put(said);
        self.put("\n");
    }
}

/// The line without the carriage return at its end, as a run reads the lines of headers.
pub fn bare(line: &[u8]) -> &[u8] {
    line.strip_suffix(b"\r").unwrap_or(line)
}

/// Whether a line ends with this byte.
pub fn is_feed(byte: &u8) -> bool {
    *byte == b'\n'
}
