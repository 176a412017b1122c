//! The lines behind the line of a run's answer, which help whoever called the program.

use cli_program_words::{
    Ended, Lines, put_before, put_detail, put_long, put_patch, put_pattern, put_state, put_texts,
    put_usage,
};
use cli_run_answers::Why;
use std::alloc::AllocError;
use std::fs::File;
use std::io::{Read, Write};
use std::rt::Files;
use sys_devices::{Disk, Input, Output, Pages, Passed};

/// What is said of a temporary of another run.
const TAKEN: &str =
    ": a temporary of a run that was stopped or isn't done yet; it stays as it is\n";

/// Puts them. The devices are those of the run.
pub fn put_help<R: Files<File = File>, I: Read + Drop, O: Write + Drop>(
    lines: &mut Lines,
    rt: &R,
    tool: &str,
    words: &[String],
    why: Why,
    tree: &mut Disk<'_, R>,
    input: &Input<I>,
    pages: &Pages<'_, R>,
    out: &Output<O>,
) {
    lines.put(tree.undated());
    put_taken(lines, tool, tree.taken());
    put_patch(lines, tool, why, tree.passed());
    let is_ended = matches!(why, Why::Done | Why::Rejected);
    if is_ended {
        put_before(lines, tree);
    }
    put_of_why(lines, rt, tool, words, why, tree, input, pages, out);
    if !is_ended {
        put_before(lines, tree);
    }
}

/// What helps with an answer.
fn put_of_why<R: Files<File = File>, I: Read + Drop, O: Write + Drop>(
    lines: &mut Lines,
    rt: &R,
    tool: &str,
    words: &[String],
    why: Why,
    tree: &mut Disk<'_, R>,
    input: &Input<I>,
    pages: &Pages<'_, R>,
    out: &Output<O>,
) {
    match why {
        Why::Done | Why::Rejected | Why::Garbage => {
            let ended = Ended {
                why,
                heard: out.heard(),
                ends: tree.ends(),
            };
            put_of_text(lines, rt, tool, words, ended, tree.passed(), input.passed());
        }
        Why::LongLine { length, .. } => put_long(lines, tool, tree.ends().last(), length),
        Why::Usage => put_usage(lines, tool, words),
        Why::NoPatchFile => put_missing(lines, tool, tree.missing(lines.alloc)),
        Why::BadPattern => put_pattern(lines, tool, words),
        Why::BadState { file } => put_state(lines, tool, tree, file),
        Why::TreeFault => put_detail(lines, tool, why, tree.trouble()),
        Why::ScratchFault => put_detail(lines, tool, why, pages.trouble()),
        Why::ReadFault => put_detail(lines, tool, why, input.trouble()),
        _ => put_detail(lines, tool, why, out.trouble()),
    }
}

/// The lines behind a run over a patch text that was taken, from a file or else from standard input.
fn put_of_text<R: Files>(
    lines: &mut Lines,
    rt: &R,
    tool: &str,
    words: &[String],
    ended: Ended<'_>,
    of_file: &Passed,
    of_input: &Passed,
) {
    if of_file.is_empty() {
        put_texts(lines, rt, tool, words, ended, of_input);
    } else {
        put_texts(lines, rt, tool, words, ended, of_file);
    }
}

/// Which temporary is there that this run hasn't made.
fn put_taken(lines: &mut Lines, tool: &str, name: &str) {
    if !name.is_empty() {
        lines.put(tool);
        lines.put(": ");
        lines.put(name);
        lines.put(TAKEN);
    }
}

/// Which file wasn't found that was to be read, and why.
fn put_missing(lines: &mut Lines, tool: &str, text: Result<Option<String>, AllocError>) {
    if let Ok(Some(text)) = text {
        lines.put_line(tool, text.as_str());
    }
}
