//! Standard output and standard error.
ghost use Rattle.std.specs.Prelude.{◌≡◌, ◌⊎◌};
ghost use Rattle.outside.specs.SinkView.{Rises};

use crate::refusing::REFUSED;
use crate::runner::Ending;
use cli_program_words::{Lines, put_detail};
use cli_run_answers::Why;
use outside::{Sink, put_all};
use std::alloc::Global;
use std::io;
use std::io::Write;
use std::rt::{Stderr, Stdout};
use sys_devices::{Output, Trouble};

/// Where what a run says goes.
#[derive(Drop)]
pub enum Says {
    Output(Stdout),
    /// Standard output has the file that the run makes.
    Error(Stderr),
}

impl Write for Says {
    fn write(&mut self, piece: &[u8]) -> io::Result<usize> {
        match self {
            Says::Output(stream) => stream.write(piece),
            Says::Error(stream) => stream.write(piece),
        }
    }

    fn flush(&mut self) -> io::Result<()> {
        Ok(())
    }
}

#[derive(Drop)]
pub struct Outputs {
    pub out: Output<Says>,
    pub err: Output<Stderr>,
}

impl Outputs {
    /// Nothing but memory can be missing.
    pub fn new(rt: &HostRuntime) -> io::Result<Outputs> {
        let alloc = rt.alloc();
        match Output::new(alloc, Says::Output(rt.stdout())) {
            Ok(out) => match Output::new(alloc, rt.stderr()) {
                Ok(err) => Ok(Outputs { out, err }),
                Err(error) => Err(error),
            },
            Err(error) => Err(error),
        }
    }

    /// Has what a run says go to standard error. Nothing was said yet.
    pub fn say_on_error(&mut self, rt: &HostRuntime) -> io::Result<()> {
        self.out = match Output::new(rt.alloc(), Says::Error(rt.stderr())) {
            Ok(out) => out,
            Err(error) => return Err(error),
        };
        Ok(())
    }

    /// Writes out what both have gathered, and answers the exit status. What was said last may not reach its reader, whatever the
    /// answer was.
    pub fn end(&mut self, alloc: Global, tool: &str, ending: Ending) -> u8
        ensures status { (result ≡ ending.status) ⊎ ((result ≡ 2) × Rises (⟦<Output<Says> as Sink>⟧.view self.old.out) (⟦<Output<Says> as Sink>⟧.view self.new.out)) }
    {
        let is_written = self.out.flush().is_ok();
        if !is_written && !matches!(ending.why, Why::WriteFault) {
            put_write_fault(alloc, &mut self.err, tool, self.out.trouble());
        }
        let _ = self.err.flush();
        if is_written { ending.status } else { REFUSED }
    }

    /// Lets both go, which is proved with less work where nothing else is at hand.
    pub fn let_go(self) {}
}

/// Writes that a write failed, and what helps, as far as memory and the device allow.
fn put_write_fault<E: Sink>(alloc: Global, err: &mut E, tool: &str, trouble: Option<&Trouble>) {
    let mut lines = Lines::new(alloc);
    put_detail(&mut lines, tool, Why::WriteFault, trouble);
    let _ = put_all(err, tool.as_bytes());
    let _ = put_all(err, b": **** write fault\n");
    let _ = put_all(err, lines.text().as_bytes());
}
