//! The answer where nothing is done.
ghost use Rattle.std.specs.Prelude.{◌≡◌};

use cli_program_words::{Lines, put_usage};
use std::io::{ErrorKind, Write};

/// The status of every answer that is no application: a refusal, a fault or want of memory.
pub const REFUSED: u8 = 2;

/// The answer where the words can't be had, or memory runs out before the run: a word that isn't UTF-8 is no command.
pub fn refused(rt: &HostRuntime, tool: &str, kind: ErrorKind) -> u8
    ensures { result ≡ 2 }
{
    let mut err = rt.stderr();
    let _ = err.write_all(tool.as_bytes());
    if matches!(kind, ErrorKind::OutOfMemory) {
        let _ = err.write_all(b": **** out of memory\n");
        return REFUSED;
    }
    let _ = err.write_all(b": **** the words are not a command\n");
    let mut lines = Lines::new(rt.alloc());
    put_usage(&mut lines, tool, &[]);
    let _ = err.write_all(lines.text().as_bytes());
    REFUSED
}
