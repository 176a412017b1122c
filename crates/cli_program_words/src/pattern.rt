//! Why a pattern isn't taken, for the line behind its refusal.

use crate::lines::{Filler, Lines};
use cli_tool_words::{ToolJob, calls_of, read_tool_words};
use regex_syntax::{Config, ErrorKind, parse};

/// The pattern of the words and what is wrong with it. It was refused: so one that can be read is too big. With several FILEs it is that
/// of each call.
pub fn put_pattern(lines: &mut Lines, tool: &str, words: &[String]) {
    if let Ok(calls) = calls_of(lines.alloc, words) {
        if let [call, ..] = calls.as_slice() {
            put_in(lines, tool, call);
        }
        drop(calls);
    }
}

fn put_in(lines: &mut Lines, tool: &str, words: &[String]) {
    if let Ok(job) = read_tool_words(lines.alloc, words) {
        put_of(lines, tool, &job);
        drop(job);
    }
}

fn put_of(lines: &mut Lines, tool: &str, job: &ToolJob) {
    if let ToolJob::Grep(job) = job {
        let pattern = job.pattern.as_str();
        let parts = [Filler::Text(tool), Filler::Text(pattern)];
        lines.put_parts("#: the pattern \"#\"", &parts);
        put_reading(lines, pattern);
    }
}

/// Reads the pattern as one that lines of any bytes are searched for.
fn put_reading(lines: &mut Lines, pattern: &str) {
    let config = Config {
        utf8: false,
        ..Config::default()
    };
    match parse(lines.alloc, pattern, &config).err() {
        None => lines.put(" takes more than 10 MiB once it is compiled\n"),
        Some(error) if matches!(error.kind, ErrorKind::OutOfMemory) => lines.cut(),
        Some(error) => {
            let place = error.span.start.saturating_add(1);
            let parts = [
                Filler::Number(place as u64),
                Filler::Text(error.kind.message()),
            ];
            lines.put_parts(", at byte #: #\n", &parts);
        }
    }
}
