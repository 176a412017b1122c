//! What is kept of a patch text that goes by, for the lines behind a run.

use crate::modes::Modes;
use std::alloc::Global;

/// How much of its front is kept.
const FRONT: usize = 1_048_576;

#[derive(Drop)]
pub struct Passed {
    file: String,
    last: Option<u8>,
    front: Vec<u8>,
    /// How much more of the front is kept.
    room: usize,
    modes: Modes,
}

impl Passed {
    /// A patch of a stack leaves more modes as they are.
    pub fn new(alloc: Global, is_stack: bool) -> Passed {
        Passed {
            file: String::new(alloc),
            last: None,
            front: Vec::new(alloc),
            room: FRONT,
            modes: Modes::new(alloc, is_stack),
        }
    }

    /// Whether nothing went by, not even the name of a file.
    pub fn is_empty(&self) -> bool {
        self.file.is_empty() && self.last.is_none()
    }

    /// The name of the file of the text, or nothing where it comes from no file or memory was missing.
    pub fn file(&self) -> &str {
        self.file.as_str()
    }

    /// The last byte, where there is one.
    pub fn last(&self) -> Option<u8> {
        self.last
    }

    /// The text up to 1 MiB, or less of it where memory was missing.
    pub fn front(&self) -> &[u8] {
        &self.front
    }

    /// The lines in which git headers say of a mode that isn't carried out: of each header the first line, and behind it
    /// `old mode` and `new mode`, `new file mode`, or `deleted file mode`.
    pub fn mode_lines(&self) -> &[u8] {
        &self.modes.lines
    }

    /// The text that goes by is in the file of this name.
    pub fn name(&mut self, file: &str) {
        self.file.clear();
        let _ = self.file.push_str(file);
    }

    /// Forgets the text that went by.
    pub fn forget(&mut self) {
        self.file.clear();
        self.whole(&[]);
    }

    /// A whole text goes by. What was kept of another one goes.
    pub fn whole(&mut self, text: &[u8]) {
        self.last = None;
        self.front.clear();
        self.room = FRONT;
        self.keep(text);
        self.modes.whole(text);
    }

    /// A piece goes by, behind those before it.
    pub fn piece(&mut self, piece: &[u8]) {
        let is_first = self.last.is_none();
        self.keep(piece);
        self.modes.piece(is_first, piece);
    }

    fn keep(&mut self, piece: &[u8]) {
        if let Some(last) = piece.last() {
            self.last = Some(*last);
        }
        let front = piece.get(..self.room).unwrap_or(piece);
        match self.front.extend_from_slice(front) {
            Ok(()) => self.room = self.room.saturating_sub(front.len()),
            Err(_) => self.room = 0,
        }
    }
}
