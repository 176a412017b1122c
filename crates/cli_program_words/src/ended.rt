//! The lines behind a run over a patch text that was taken.

use crate::cut::put_cut;
use crate::emptied::put_emptied;
use crate::indents::{put_indented, put_unlike};
use crate::line_ends::put_line_ends;
use crate::lines::{Filler, Lines};
use crate::modes::{Taking, put_modes};
use crate::nuls::put_nuls;
use crate::ranges::{put_any_range, put_ranges};
use crate::skipped::{put_skipped, put_stack_skipped};
use crate::state::text_at;
use cli_run_answers::Why;
use patch_header::ReadOptions;
use patch_options::{Job, Options, read_words};
use patch_set::ways_of;
use std::fs::File;
use std::rt::Files;
use sys_devices::{Disk, LineEnds, OutputNotes, Passed};

/// No patch of a stack is longer.
const LARGEST_PATCH: u32 = u32::MAX;

/// How a patch of a stack is taken.
const PUSHED: Taking = Taking {
    strip: Some(1),
    is_reversed: false,
};

/// What a run came to, what it said, and how the lines of its files end.
#[derive(Clone, Copy)]
pub struct Ended<'a> {
    pub why: Why,
    pub heard: OutputNotes,
    pub ends: &'a LineEnds,
}

/// That the text is cut in its last line, that it was read without its indent, that a line of it opens no hunk though it looks so, and
/// which modes aren't carried out; of what was left out, that lines end otherwise than those of the patch, why no file was found, and
/// that a stack keeps no reject files; of `recountdiff`, that an empty line ends a hunk. Where the run was refused, something is said
/// only of a text without a file patch.
pub fn put_texts<R: Files>(
    lines: &mut Lines,
    rt: &R,
    tool: &str,
    words: &[String],
    ended: Ended<'_>,
    passed: &Passed,
) {
    match tool {
        "patch" => put_of_words(lines, rt, words, ended, passed),
        "patchstack" => put_of_stack(lines, rt, ended, passed),
        "recountdiff" => put_emptied(lines, passed.front()),
        _ => {}
    }
}

fn put_of_words<R: Files>(
    lines: &mut Lines,
    rt: &R,
    words: &[String],
    ended: Ended<'_>,
    passed: &Passed,
) {
    if let Ok(Job::Patch(options)) = read_words(lines.alloc, words) {
        put_of_patch(lines, rt, &options, ended, passed);
        drop(options);
    }
}

fn put_of_patch<R: Files>(
    lines: &mut Lines,
    rt: &R,
    options: &Options,
    ended: Ended<'_>,
    passed: &Passed,
) {
    let taking = Taking {
        strip: options.strip,
        is_reversed: options.reverse,
    };
    let ways = ways_of(options);
    match ended.why {
        Why::Done => {
            put_read(lines, options, passed);
            put_modes(lines, "patch", taking, passed);
        }
        Why::Rejected => {
            put_read(lines, options, passed);
            put_taken(lines, "patch", ways, taking, passed);
        }
        Why::Garbage => {
            put_garbage(lines, "patch", passed);
            put_modes(lines, "patch", taking, passed);
            put_nuls(lines, "patch", options, passed.front());
        }
        _ => {}
    }
    if let Why::Rejected = ended.why {
        put_line_ends(lines, "patch", ended, passed.front(), options.keep_returns);
        put_skipped(lines, rt, options, ended.heard, passed);
    }
}

/// What is said of how a text was read: that its last line is cut, that it had an indent, and that a line of it has a byte 0.
fn put_read(lines: &mut Lines, options: &Options, passed: &Passed) {
    put_cut(lines, passed);
    if !options.silent {
        put_indented(lines, "patch", ways_of(options), passed.front());
    }
    put_nuls(lines, "patch", options, passed.front());
}

/// What is said of the lines of a text.
fn put_taken(lines: &mut Lines, tool: &str, ways: ReadOptions, taking: Taking, passed: &Passed) {
    put_ranges(lines, tool, ways, passed.front());
    put_modes(lines, tool, taking, passed);
}

/// Why a text has no file patch: a damaged range, or else an indent that isn't the same in each line.
fn put_garbage(lines: &mut Lines, tool: &str, passed: &Passed) {
    if !put_any_range(lines, tool, passed.front()) {
        put_unlike(lines, tool, passed.front());
    }
}

fn put_of_stack<R: Files>(lines: &mut Lines, rt: &R, ended: Ended<'_>, passed: &Passed) {
    match ended.why {
        Why::Done => put_pushed(lines, passed),
        Why::Garbage => {
            put_garbage(lines, "patchstack", passed);
            put_modes(lines, "patchstack", PUSHED, passed);
        }
        Why::Rejected => {
            put_pushed(lines, passed);
            put_line_ends(lines, "patchstack", ended, passed.front(), false);
            put_stack_skipped(lines, rt, ended.heard, passed);
        }
        _ => {}
    }
}

/// What is said of a patch of a stack, which is taken as with `-p1`. Where it pops none goes by.
fn put_pushed(lines: &mut Lines, passed: &Passed) {
    let ways = ReadOptions {
        only: None,
        git: true,
        skip_binary: false,
    };
    put_indented(lines, "patchstack", ways, passed.front());
    put_taken(lines, "patchstack", ways, PUSHED, passed);
}

/// What is said of the patches that the commands of a stack before the last one took, each with the name of its file behind it.
pub fn put_before<R: Files<File = File>>(lines: &mut Lines, tree: &mut Disk<'_, R>) {
    let mut names = String::new(lines.alloc);
    if names.push_str(tree.taken_before()).is_err() {
        lines.cut();
    }
    for name in names.as_str().lines() {
        put_one_before(lines, tree, name);
    }
}

fn put_one_before<R: Files<File = File>>(lines: &mut Lines, tree: &mut Disk<'_, R>, name: &str) {
    let text = text_at(lines, tree, name, LARGEST_PATCH);
    let mut passed = Passed::new(lines.alloc, true);
    passed.whole(&text);
    let mut told = Lines::new(lines.alloc);
    put_pushed(&mut told, &passed);
    if !told.text().is_empty() {
        lines.put_made(&told);
        lines.put_said("patchstack", "that is #", Filler::Text(name));
    }
}
