//! What the words ask for.
ghost use Rattle.std.specs.Prelude.{◌≡◌, ◌⊎◌, map, string_bytes, IfOk, IfErr};
ghost use Rattle.cli_program_answers.specs.Ends.{Ends, IsRun};

use crate::carrying::run_over;
use crate::closed::Closed;
use crate::outputs::{Outputs, Says};
use crate::refusing::refused;
use crate::runner::{Ending, Runner};
use cli_program_words::{
    HelpRequest, Lines, called_tool, put_unbuilt, told, tool_of, version_of, why_unbuilt,
};
use cli_run_answers::Why;
use cli_tool_words::usage;
use outside::{Scratch, Sink, Source, Tree, put_all};
use patch_options::patch_usage;
use std::alloc::AllocError;
use std::io;
use std::io::ErrorKind;
use std::rt::Stdin;
use sys_devices::{Disk, Input, Output, Pages};

/// Tells what was asked, or has the words carried out, and answers the exit status. The words are those that the program was called
/// with, if they could be had. Where memory runs out before either begins, nothing is done.
pub fn answer<X: Runner>(rt: &HostRuntime, runner: &X, words: &io::Result<Vec<String>>) -> u8
    ensures ends { IfOk words.now (λ words. Ends (X.Runs ⟦<Disk<'static, HostRuntime> as Tree>⟧.view ⟦<Pages<'static, HostRuntime> as Scratch>⟧.view ⟦<Input<Stdin> as Source>⟧.view ⟦<Output<Says> as Sink>⟧.view) (map string_bytes words.items) result) }
    ensures refused { IfErr words.now (λ _. result ≡ 2) }
{
    let closed = Closed::new(rt);
    let status = answer_in_place(rt, runner, words);
    closed.end();
    status
}

/// Answers the exit status, where each standard stream is open or stands for one that is closed.
fn answer_in_place<X: Runner>(rt: &HostRuntime, runner: &X, words: &io::Result<Vec<String>>) -> u8
    ensures ends { IfOk words.now (λ words. Ends (X.Runs ⟦<Disk<'static, HostRuntime> as Tree>⟧.view ⟦<Pages<'static, HostRuntime> as Scratch>⟧.view ⟦<Input<Stdin> as Source>⟧.view ⟦<Output<Says> as Sink>⟧.view) (map string_bytes words.items) result) }
    ensures refused { IfErr words.now (λ _. result ≡ 2) }
{
    match words {
        Ok(words) => answer_to(rt, runner, words),
        Err(error) => refused(rt, called_tool(rt), error.kind()),
    }
}

fn answer_to<X: Runner>(rt: &HostRuntime, runner: &X, words: &[String]) -> u8
    ensures ends { Ends (X.Runs ⟦<Disk<'static, HostRuntime> as Tree>⟧.view ⟦<Pages<'static, HostRuntime> as Scratch>⟧.view ⟦<Input<Stdin> as Source>⟧.view ⟦<Output<Says> as Sink>⟧.view) (map string_bytes words.now) result }
{
    let tool = tool_of(words);
    let Ok(mut outputs) = Outputs::new(rt) else {
        return refused(rt, tool, ErrorKind::OutOfMemory);
    };
    let status = answer_by(rt, runner, tool, words, &mut outputs);
    outputs.let_go();
    status
}

fn answer_by<X: Runner>(
    rt: &HostRuntime,
    runner: &X,
    tool: &str,
    words: &[String],
    outputs: &mut Outputs,
) -> u8
    ensures ends { Ends (X.Runs ⟦<Disk<'static, HostRuntime> as Tree>⟧.view ⟦<Pages<'static, HostRuntime> as Scratch>⟧.view ⟦<Input<Stdin> as Source>⟧.view ⟦<Output<Says> as Sink>⟧.view) (map string_bytes words.now) result }
{
    match do_asked(rt, runner, tool, words, outputs) {
        Ok(ending) => outputs.end(rt.alloc(), tool, ending),
        Err(error) => refused(rt, tool, error.kind()),
    }
}

fn do_asked<X: Runner>(
    rt: &HostRuntime,
    runner: &X,
    tool: &str,
    words: &[String],
    outputs: &mut Outputs,
) -> io::Result<Ending>
    ensures ends { IfOk result (λ ending. Ends (X.Runs ⟦<Disk<'static, HostRuntime> as Tree>⟧.view ⟦<Pages<'static, HostRuntime> as Scratch>⟧.view ⟦<Input<Stdin> as Source>⟧.view ⟦<Output<Says> as Sink>⟧.view) (map string_bytes words.now) ending.status) }
{
    match told(rt.alloc(), words)? {
        Some(telling) => tell(rt, &mut outputs.out, telling),
        None => do_words(rt, runner, tool, words, outputs),
    }
}

/// Has the words carried out, unless they ask for what isn't built.
fn do_words<X: Runner>(
    rt: &HostRuntime,
    runner: &X,
    tool: &str,
    words: &[String],
    outputs: &mut Outputs,
) -> io::Result<Ending>
    ensures ends { IfOk result (λ ending. (ending.status ≡ 2) ⊎ IsRun (X.Runs ⟦<Disk<'static, HostRuntime> as Tree>⟧.view ⟦<Pages<'static, HostRuntime> as Scratch>⟧.view ⟦<Input<Stdin> as Source>⟧.view ⟦<Output<Says> as Sink>⟧.view) (map string_bytes words.now) ending.status) }
{
    match why_unbuilt(rt.alloc(), words) {
        Some(word) => {
            let mut lines = Lines::new(rt.alloc());
            put_unbuilt(&mut lines, tool, word);
            let _ = put_all(&mut outputs.err, lines.text().as_bytes());
            drop(lines);
            Ok(Ending::of(Why::Usage))
        }
        None => run_over(rt, runner, tool, words, outputs),
    }
}

/// Tells what was asked.
fn tell<O: Sink>(rt: &HostRuntime, out: &mut O, telling: HelpRequest) -> io::Result<Ending>
    ensures { IfOk result (λ ending. ending.status ≡ 0) }
{
    match telling {
        HelpRequest::Text(text) => {
            let _ = put_all(out, text.as_bytes());
            Ok(Ending::of(Why::Done))
        }
        HelpRequest::Version(of) => put_made(out, version_of(rt.alloc(), of)),
        HelpRequest::Patch => put_made(out, patch_usage(rt.alloc())),
        HelpRequest::Words(of) => put_made(out, usage(rt.alloc(), of)),
    }
}

/// Tells the words of a tool, made of its table, or its version.
fn put_made<O: Sink>(out: &mut O, made: Result<String, AllocError>) -> io::Result<Ending>
    ensures { IfOk result (λ ending. ending.status ≡ 0) }
{
    match made {
        Ok(text) => {
            let _ = put_all(out, text.as_bytes());
            Ok(Ending::of(Why::Done))
        }
        Err(error) => Err(error.into()),
    }
}
