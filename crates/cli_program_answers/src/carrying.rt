//! A run over real files and the standard streams.
ghost use Rattle.std.specs.Prelude.{◌⊎◌, ◌≡◌, map, string_bytes, IfOk};
ghost use Rattle.cli_program_answers.specs.Ends.{IsRun};

use crate::helping::put_help;
use crate::outputs::{Outputs, Says};
use crate::runner::{Ending, Runner};
use cli_program_words::{Lines, places_of};
use outside::{Scratch, Sink, Source, Tree, put_all};
use std::env::VarError;
use std::rt::Stdin;
use std::{env, io};
use sys_devices::{Disk, Input, Output, Pages};

/// The tools that may read a patch text from standard input of which something is said behind the run.
const PATCH: &str = "patch";

const RECOUNT: &str = "recountdiff";

/// Where the scratch is made, if the environment names no directory for temporary files.
const TEMPORARY: &str = "/tmp";

/// The system takes no longer path with a name behind it.
const LONGEST_DIRECTORY: usize = 4_000;

/// The directory for temporary files.
fn directory_in(named: &Result<String, VarError>) -> &str {
    match named {
        Ok(directory) if (1..=LONGEST_DIRECTORY).contains(&directory.len()) => directory.as_str(),
        _ => TEMPORARY,
    }
}

/// The run over the real files and standard input, and the lines behind its answer's. All that the files want of memory is taken
/// before it begins.
pub fn run_over<X: Runner>(
    rt: &HostRuntime,
    runner: &X,
    tool: &str,
    words: &[String],
    outputs: &mut Outputs,
) -> io::Result<Ending>
    ensures ends { IfOk result (λ ending. IsRun (X.Runs ⟦<Disk<'static, HostRuntime> as Tree>⟧.view ⟦<Pages<'static, HostRuntime> as Scratch>⟧.view ⟦<Input<Stdin> as Source>⟧.view ⟦<Output<Says> as Sink>⟧.view) (map string_bytes words.now) ending.status) }
{
    let alloc = rt.alloc();
    let is_patch = matches!(tool, PATCH | RECOUNT);
    let named = env::var(rt, "TMPDIR");
    let places = places_of(alloc, tool, words);
    if places.is_standard {
        outputs.say_on_error(rt)?;
    }
    let mut tree = Disk::new(alloc, rt, places, directory_in(&named), rt.stdout())?;
    let pages = Pages::new(alloc, rt, directory_in(&named))?;
    let mut input = Input::new(alloc, rt.stdin(), is_patch);
    let (ending, pages) = runner.run(
        alloc,
        words,
        &mut tree,
        pages,
        &mut input,
        &mut outputs.out,
        &mut outputs.err,
    );
    tree.end();
    let mut lines = Lines::new(alloc);
    put_help(
        &mut lines,
        rt,
        tool,
        words,
        ending.why,
        &mut tree,
        &input,
        &pages,
        &outputs.out,
    );
    let _ = put_all(&mut outputs.err, lines.text().as_bytes());
    Ok(ending)
}
