//! A row has the words of a command, with a bar between each two, and behind ` =>` what they ask for.

use crate::words::ROWS;
use cli_tool_words::read_tool_words;
use patch_options::read_words;
use std::alloc::{AllocError, Global};

/// What `patch` alone gives.
const PLAIN: &str =
    "Ok(Patch(Options { only: None, strip: None, fuzz: 2, reverse: false, force: false, \
    batch: false, forward: false, loose: false, remove_empty: false, backup: false, \
    mismatch_backup: true, suffix: None, prefix: None, base_prefix: None, numbers: Never, dir: None, file: None, \
    input: Standard, output: None, reject: None, no_rejects: false, reject_form: None, \
    define: None, posix: false, keep_returns: false, skip_binary: false, dry_run: false, read_only: Told, times: Written, follow_links: false, silent: false, verbose: false, plan: Auto, buffer: 4294967295, sync: Each }))";

/// What the words of a row give.
fn answer(alloc: Global, row: &str) -> Result<String, AllocError> {
    let mut words = Vec::new(alloc);
    for word in row.split('|') {
        words.push(String::from_str(alloc, word)?)?;
    }
    if row == "patch" || row.starts_with("patch|") {
        format!(in alloc; "{:?}", read_words(alloc, &words))
    } else {
        format!(in alloc; "{:?}", read_tool_words(alloc, &words))
    }
}

/// Whether one of two texts has each of these fields.
fn are_among(fields: &str, first: &str, second: &str) -> bool {
    for field in fields.split(", ") {
        let field = field
            .trim_start_matches("Ok(Patch(Options { ")
            .trim_end_matches(" }))");
        if !first.contains(field) && !second.contains(field) {
            return false;
        }
    }
    true
}

/// Whether an answer is what a row says. One of `patch` has the row's fields, and otherwise the plain ones.
fn is_told(answer: &str, wanted: &str) -> bool {
    if answer == wanted {
        return true;
    }
    are_among(answer, PLAIN, wanted) && are_among(wanted, answer, answer)
}

/// Whether a row is so.
fn is_so(alloc: Global, row: &str) -> bool {
    let (words, wanted) = row.split_once(" =>").unwrap_or(("", ""));
    match answer(alloc, words) {
        Ok(answer) => is_told(answer.as_str(), wanted.trim()),
        Err(_) => false,
    }
}

#[test]
fn words_give_jobs(rt: HostRuntime) {
    for row in ROWS.trim().split('\n') {
        assert!(rt; is_so(rt.alloc(), row), "{row}");
    }
}
