//! The lines behind a run that left something out, where what was said leaves a question open.

use crate::lines::{Filler, Lines};
use crate::names::{Given, Reading, given_in, is_nameless, looked_for, put_nameless, put_names};
use crate::places::below;
use outside::Name;
use patch_options::Options;
use std::alloc::{AllocError, Global};
use std::rt::Files;
use sys_devices::{OutputNotes, Passed, missing_text, unreached_text};

/// Where the names stand for which no file was found, for a patch of a stack.
const NO_FILE: &str =
    "the file patch at input line # names no regular file here (a link doesn't count); names are taken as with -p1";

/// What becomes of its rejects.
const NO_REJECTS: &str =
    "nothing of the patch stays, not even its reject files; 'patch -p1 -i #' leaves them";

/// Why a copy isn't undone.
const NO_WAY_BACK: &str =
    "the file patch at input line # is a copy, and -R takes none back: what it made can't be told from a file that was there";

/// How many slashes are stripped at most where it is tried with which `-p` a file would be found.
const MOST_SLASHES: u32 = 16;

/// Why no file was found for a patch of a stack, and that it keeps no reject files.
pub fn put_stack_skipped<R: Files>(lines: &mut Lines, rt: &R, heard: OutputNotes, passed: &Passed) {
    if let Some(line) = heard.no_file {
        put_stack_unfound(lines, rt, passed.front(), line);
    }
    if heard.rejects {
        lines.put_said("patchstack", NO_REJECTS, Filler::Text(passed.file()));
    }
}

fn put_stack_unfound<R: Files>(lines: &mut Lines, rt: &R, front: &[u8], line: u64) {
    let given = given_in(front, line);
    if is_nameless(given) {
        put_nameless(lines, "patchstack", line);
    } else {
        let reading = Reading {
            strip: Some(1),
            is_posix: false,
            is_reversed: false,
        };
        let is_unreached = put_unreached(lines, rt, "patchstack", &None, reading, given);
        put_names(lines, "patchstack", reading, given);
        if !is_unreached {
            lines.put_said("patchstack", NO_FILE, Filler::Number(line));
        }
    }
}

/// Why no file was found: the one that the words name isn't there, a copy is to be taken back, or no file has a name that the patch
/// gives.
pub fn put_skipped<R: Files>(
    lines: &mut Lines,
    rt: &R,
    options: &Options,
    heard: OutputNotes,
    passed: &Passed,
) {
    if let Some(file) = &options.file {
        put_operand(lines, rt, options, file);
    } else if let Some(line) = heard.no_file {
        put_unfound(lines, rt, options, passed.front(), line);
    }
}

/// Why none was found for the file patch whose opening is this line.
fn put_unfound<R: Files>(lines: &mut Lines, rt: &R, options: &Options, front: &[u8], line: u64) {
    let given = given_in(front, line);
    if is_nameless(given) {
        put_nameless(lines, "patch", line);
    } else if options.reverse && given.is_copy {
        lines.put_said("patch", NO_WAY_BACK, Filler::Number(line));
    } else {
        let reading = Reading {
            strip: options.strip,
            is_posix: options.posix,
            is_reversed: options.reverse,
        };
        let is_unreached = put_unreached(lines, rt, "patch", &options.dir, reading, given);
        put_names(lines, "patch", reading, given);
        if !is_unreached {
            let fitting = fitting_strip(lines.alloc, rt, &options.dir, reading, given);
            put_unnamed(lines, options, line, fitting);
        }
    }
}

/// Which names that were looked for the system doesn't let be looked at, and why. It answers whether there is one.
fn put_unreached<R: Files>(
    lines: &mut Lines,
    rt: &R,
    tool: &str,
    dir: &Option<Name>,
    reading: Reading,
    given: Given<'_>,
) -> bool {
    let mut told = Lines::new(lines.alloc);
    if let Ok(names) = looked_for(lines.alloc, given, reading) {
        for name in &names {
            if let Some(text) = unreached_below(lines.alloc, rt, dir, name) {
                let mut line = Lines::new(lines.alloc);
                line.put_line(tool, text.as_str());
                if !told.is_same(&line) {
                    told.put_made(&line);
                }
            }
        }
    }
    lines.put_made(&told);
    !told.text().is_empty()
}

/// Why the system doesn't let the name below the directory be looked at. Without memory that is nothing.
fn unreached_below<R: Files>(
    alloc: Global,
    rt: &R,
    dir: &Option<Name>,
    name: &Name,
) -> Option<String> {
    match in_directory(alloc, dir, name) {
        Ok(name) => unreached_text(alloc, rt, &name).unwrap_or(None),
        Err(_) => None,
    }
}

fn in_directory(alloc: Global, dir: &Option<Name>, name: &Name) -> Result<Name, AllocError> {
    match dir {
        Some(dir) => name.below(alloc, dir),
        None => name.copy(alloc),
    }
}

/// How many slashes are to be stripped so that one of the names is a file's, if any number does.
fn fitting_strip<R: Files>(
    alloc: Global,
    rt: &R,
    dir: &Option<Name>,
    reading: Reading,
    given: Given<'_>,
) -> Option<u32> {
    for slashes in 0..MOST_SLASHES {
        let tried = Reading {
            strip: Some(slashes),
            ..reading
        };
        if let Ok(names) = looked_for(alloc, given, tried) {
            if is_one_there(alloc, rt, dir, &names) {
                return Some(slashes);
            }
        }
    }
    None
}

/// Whether a file has one of the names below the directory.
fn is_one_there<R: Files>(alloc: Global, rt: &R, dir: &Option<Name>, names: &[Name]) -> bool {
    for name in names {
        if let Ok(name) = in_directory(alloc, dir, name) {
            if let Ok(None) = missing_text(alloc, rt, &name) {
                return true;
            }
        }
    }
    false
}

fn put_operand<R: Files>(lines: &mut Lines, rt: &R, options: &Options, file: &Name) {
    match below(lines.alloc, options, file) {
        Ok(name) => put_missing(lines, rt, &name),
        Err(_) => lines.cut(),
    }
}

fn put_missing<R: Files>(lines: &mut Lines, rt: &R, name: &Name) {
    match missing_text(lines.alloc, rt, name) {
        Ok(Some(text)) => lines.put_line("patch", text.as_str()),
        Ok(None) => {}
        Err(_) => lines.cut(),
    }
}

/// Where the files are in which none was found, and with which `-p` there is one, or else what may be wrong with the words.
fn put_unnamed(lines: &mut Lines, options: &Options, line: u64, fitting: Option<u32>) {
    let (before, place) = match &options.dir {
        Some(dir) => ("in ", dir.text()),
        None => ("", "here"),
    };
    lines.put_parts(
        "patch: the file patch at input line # names no file ## (a link on the way isn't followed); ",
        &[
            Filler::Number(line),
            Filler::Text(before),
            Filler::Text(place),
        ],
    );
    match (fitting, options.strip) {
        (Some(strip), _) => {
            lines.put_parts(
                "with -p# there is one\n",
                &[Filler::Number(u64::from(strip))],
            )
        }
        (None, Some(strip)) => {
            lines.put_parts("is -p# right?\n", &[Filler::Number(u64::from(strip))])
        }
        (None, None) => lines.put("is -p1 missing, or the file's name?\n"),
    }
}
