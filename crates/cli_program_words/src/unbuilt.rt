//! Words that are read, and that no run can carry out yet.

use crate::lines::{Filler, Lines};
use cli_tool_words::{FilterJob, GrepJob, SplitJob, ToolJob, calls_of, read_tool_words};
use patch_options::read_words;
use std::alloc::Global;

/// What is said of a tool and of its word.
const SAID: &str = "#: **** the words are not a command
#: \"#\" isn't carried out yet
Try '# --help' for more information.
";

/// The word that can't be carried out, if the words are a command with one.
pub fn why_unbuilt(alloc: Global, words: &[String]) -> Option<&'static str> {
    match read_words(alloc, words) {
        Ok(job) => {
            drop(job);
            None
        }
        Err(_) => unbuilt_call(alloc, words),
    }
}

/// What is said of it.
pub fn put_unbuilt(lines: &mut Lines, tool: &str, word: &str) {
    let tool = Filler::Text(tool);
    lines.put_parts(SAID, &[tool, tool, Filler::Text(word), tool]);
}

/// The same of the calls that the words of a filter are: what the first one asks for the others do too.
fn unbuilt_call(alloc: Global, words: &[String]) -> Option<&'static str> {
    let Ok(calls) = calls_of(alloc, words) else {
        return None;
    };
    let word = match calls.as_slice() {
        [call, ..] => unbuilt_job(alloc, call),
        [] => None,
    };
    drop(calls);
    word
}

fn unbuilt_job(alloc: Global, words: &[String]) -> Option<&'static str> {
    match read_tool_words(alloc, words) {
        Ok(job) => {
            let word = match &job {
                ToolJob::Filter(job) => of_filter(job),
                ToolJob::Grep(job) => of_grep(job),
                ToolJob::Split(job) => of_split(job),
                _ => None,
            };
            drop(job);
            word
        }
        Err(_) => None,
    }
}

/// The first word that goes with a row whose sign is set.
fn first_of(rows: &[(bool, &'static str)]) -> Option<&'static str> {
    for row in rows {
        if row.0 {
            return Some(row.1);
        }
    }
    None
}

fn of_filter(job: &FilterJob) -> Option<&'static str> {
    first_of(&[(job.verbose && job.format.is_some(), "-v")])
}

fn of_grep(job: &GrepJob) -> Option<&'static str> {
    first_of(&[(job.pattern_file.is_some(), "-f")])
}

/// Without `-a` a part begins where a name comes again, and names are compared as they are written.
fn of_split(job: &SplitJob) -> Option<&'static str> {
    first_of(&[
        (job.names.strip > 0 && !job.every, "-p"),
        (job.verbose, "-v"),
    ])
}
