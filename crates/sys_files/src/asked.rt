//! Whether a run can begin in the directory that the words give, and which of their files are written through.

use crate::files::OpenFiles;
use crate::found::{found_behind, found_itself};
use crate::paths::{Path, no_file, not_a_directory, or_out_of_reach};
use std::fs::File;
use std::io;
use std::rt::Files;

impl<'r, R: Files<File = File>> OpenFiles<'r, R> {
    /// Whether the directory is there that a run works in, if one is given.
    pub fn find_root(&self, root: &Option<String>) -> io::Result<()> {
        let Some(root) = root else {
            return Ok(());
        };
        let found = match found_behind(self.rt, root.as_str()) {
            Ok(found) => found,
            Err(error) => return Err(error),
        };
        if found.is_directory {
            return Ok(());
        }
        if found.is_there {
            Err(not_a_directory())
        } else {
            Err(no_file())
        }
    }

    /// A pipe or a device at the name of a file that is written, also behind a link, is written through from now on. All else that
    /// may stand there is looked at when that file's turn comes.
    pub fn find_output(&mut self, name: Path<'_>, is_standard: bool) -> io::Result<()> {
        let found = match found_behind(self.rt, name.text) {
            Ok(found) => found,
            Err(error) => or_out_of_reach(Err(error))?,
        };
        if is_standard || found.is_special() {
            self.outlets.note(name.text, is_standard)?;
        }
        Ok(())
    }

    /// The same of the reject file, but for a pipe that has the name itself: to open one waits for a reader, which may never come, in
    /// the middle of the run. A link to one, as `/dev/fd/3`, mostly leads to one that is open.
    pub fn find_rejects(&mut self, name: Path<'_>) -> io::Result<()> {
        match found_itself(self.rt, name.text) {
            Ok(found) if found.is_pipe => Ok(()),
            _ => self.find_output(name, false),
        }
    }
}
