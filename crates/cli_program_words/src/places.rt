//! What the words say of the tree that a run works on.

use cli_tool_words::{ToolJob, read_tool_words};
use outside::Name;
use patch_options::{Input, Job, Options, SyncKind, read_words};
use std::alloc::{AllocError, Global};
use sys_devices::{Kind, Syncs, TreeWords};

/// The tool of which the tree keeps saves.
const STACK: &str = "patchstack";

/// The tool that reads no file but its patch text, of which something is said behind its run.
const RECOUNT: &str = "recountdiff";

/// The filters that only write to standard output. `splitdiff` puts its parts beside its file.
const FILTERS: [&str; 5] = [
    "lsdiff",
    "filterdiff",
    "grepdiff",
    "recountdiff",
    "reversediff",
];

/// What the words say, where they are a command. Without memory they say nothing: the run will say so.
pub fn places_of(alloc: Global, tool: &str, words: &[String]) -> TreeWords {
    match read_words(alloc, words) {
        Ok(Job::Patch(options)) => {
            let places = places_in(alloc, &options);
            drop(options);
            places
        }
        Err(_) => TreeWords {
            kind: if matches!(tool, STACK) {
                Kind::Stack
            } else {
                Kind::Other
            },
            is_text: matches!(tool, RECOUNT),
            root: None,
            patch: None,
            output: None,
            rejects: None,
            is_standard: false,
            follows: false,
            syncs: syncs_of_tool(alloc, words),
            is_filter: FILTERS.contains(&tool),
        },
    }
}

fn places_in(alloc: Global, options: &Options) -> TreeWords {
    TreeWords {
        kind: Kind::Patch,
        is_text: false,
        root: text_of(alloc, &options.dir),
        patch: patch_file(alloc, options),
        output: named(alloc, options, &options.output),
        rejects: named(alloc, options, &options.reject),
        is_standard: matches!(&options.output, Some(output) if is_standard(output.text())),
        follows: options.follow_links,
        syncs: syncs_of(options.sync),
        is_filter: false,
    }
}

/// Whether a name stands for standard output.
fn is_standard(name: &str) -> bool {
    matches!(name, "-" | "/dev/stdout" | "/dev/fd/1")
}

/// Whether files and directories are synced.
fn syncs_of(sync: SyncKind) -> Syncs {
    match sync {
        SyncKind::Each => Syncs::Each,
        SyncKind::Never => Syncs::None,
    }
}

/// Whether a tool beside `patch` syncs files and directories. The filters but `splitdiff` write no files.
fn syncs_of_tool(alloc: Global, words: &[String]) -> Syncs {
    match read_tool_words(alloc, words) {
        Ok(job) => {
            let sync = match &job {
                ToolJob::Split(job) => job.sync,
                ToolJob::Gen(job) => job.sync,
                ToolJob::Stack(job) => job.sync,
                _ => SyncKind::Each,
            };
            drop(job);
            syncs_of(sync)
        }
        Err(_) => Syncs::Each,
    }
}

fn text_of(alloc: Global, dir: &Option<Name>) -> Option<String> {
    match dir {
        Some(dir) => String::from_str(alloc, dir.text()).ok(),
        None => None,
    }
}

/// The file of the patch text, below the directory.
fn patch_file(alloc: Global, options: &Options) -> Option<Name> {
    match &options.input {
        Input::File(file) => below(alloc, options, file).ok(),
        Input::Standard => None,
    }
}

/// A file that the words may name, below the directory.
fn named(alloc: Global, options: &Options, name: &Option<Name>) -> Option<Name> {
    match name {
        Some(name) => below(alloc, options, name).ok(),
        None => None,
    }
}

/// A name below the directory of the words.
pub fn below(alloc: Global, options: &Options, name: &Name) -> Result<Name, AllocError> {
    match &options.dir {
        Some(dir) => name.below(alloc, dir),
        None => name.copy(alloc),
    }
}
