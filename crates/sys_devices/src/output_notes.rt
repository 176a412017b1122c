//! What was said that a line behind the answer tells more of. The texts are those of `say_text`, and each is written as one piece.

/// What stands around the number of a line, where no file was found for a file patch.
const NO_FILE: &[u8] = b"can't find file to patch at input line ";

const SKIPPED: &[u8] = b"\nSkipping patch.\n";

/// What stands in front of the name of a reject file.
const REJECTS: &[u8] = b" FAILED -- saving rejects to file ";

/// How a line ends that tells of failed hunks and of no reject file.
const FAILED: &[u8] = b" FAILED\n";

/// None of these pieces has more bytes.
const LONGEST: usize = 100;

#[derive(Clone, Copy)]
pub struct OutputNotes {
    /// The line at which the first file patch opens for which no file was found, from 1.
    pub no_file: Option<u64>,
    /// Whether a reject file was named.
    pub rejects: bool,
    /// Whether a hunk failed.
    pub failed: bool,
}

impl OutputNotes {
    pub fn nothing() -> OutputNotes {
        OutputNotes {
            no_file: None,
            rejects: false,
            failed: false,
        }
    }

    /// Hears what is written at once.
    pub fn hear(&mut self, piece: &[u8]) {
        if piece.len() > LONGEST {
            return;
        }
        if piece.ends_with(REJECTS) {
            self.rejects = true;
            self.failed = true;
        }
        if piece.ends_with(FAILED) {
            self.failed = true;
        }
        if self.no_file.is_none() {
            self.no_file = line_in(piece);
        }
    }
}

/// The line at which no file was found, where the piece says so. No name is taken for that, since none has a line feed.
fn line_in(piece: &[u8]) -> Option<u64> {
    let number = piece.strip_prefix(NO_FILE)?.strip_suffix(SKIPPED)?;
    match std::str::from_utf8(number) {
        Ok(number) => number.parse::<u64>().ok(),
        Err(_) => None,
    }
}
