//! A set, and the file patches of a git header.

ghost use Rattle.patch_options.specs.PlainJob.{plain_options, IsLawful};

use crate::names::has_target;
use filter_choice::{FilePatchList, read_outline};
use patch_header::ReadOptions;
use patch_options::{BackupNumbers, FileTimes, Input, Options, PlanKind, ReadOnlyFiles, SyncKind};
use patch_set::{PatchSet, read_set};
use read_patch_text::read_patches;
use std::alloc::{AllocError, Global};

/// Whether a text was made, and is the wanted one.
pub fn is_told(text: Result<String, AllocError>, wanted: &str) -> bool {
    match text {
        Ok(text) => text.as_str() == wanted,
        Err(_) => false,
    }
}

const RENAMED: &str =
    "Ok([FilePatch { header: Header { form: Unified, at: 0, opening: 1, names_line: 1, old_name: None, new_name: None, index: None, prereq: None, old_stamp: Unknown, new_stamp: Unknown, action: Rename, bare: true, from: Some(Span { start: 53, end: 54 }), to: Some(Span { start: 65, end: 66 }), old_mode: None, new_mode: None }, span: Span { start: 0, end: 67 }, hunk_spans: [], change: Hunks([]), old_absent: false, new_absent: false, targets: [], first_verdict: 0 }])";

fn renamed_told(alloc: Global) -> Result<String, AllocError> {
    let ways = ReadOptions {
        only: None,
        git: true,
        skip_binary: false,
    };
    let text = b"diff --git a/x b/y\nsimilarity index 100%\nrename from x\nrename to y\n";
    format!(in alloc; "{:?}", read_patches(alloc, text, ways))
}

/// Two file patches, of which the second one's file is the first one's second target.
const TEXT: &str = "--- f\n+++ g\n@@ -1 +1 @@\n-a\n+b\n--- g\n+++ g\n@@ -1 +1 @@\n-a\n+b\n";

const SET: &str =
    "Span { start: 0, end: 30 } [Span { start: 12, end: 30 }] Span { start: 30, end: 60 } [Span { start: 42, end: 60 }] [Untried, Untried]";

fn set_told(alloc: Global, set: &PatchSet) -> Result<String, AllocError> {
    match set.patches() {
        [first, second] => format!(in alloc;
            "{:?} {:?} {:?} {:?} {:?}",
            first.span,
            first.hunk_spans,
            second.span,
            second.hunk_spans,
            set.verdicts()
        ),
        _ => Err(AllocError),
    }
}

/// Whether the set of the text is as it should be.
fn has_set(alloc: Global, options: &Options) -> bool
    requires { IsLawful (plain_options options.now) }
{
    match Vec::from_slice(alloc, TEXT.as_bytes()) {
        Ok(text) => match read_set(alloc, text, options) {
            Ok(set) => is_told(set_told(alloc, &set), SET),
            Err(_) => false,
        },
        Err(_) => false,
    }
}

/// One file patch, of two hunks.
const TWO_HUNKS: &str = "--- f\n+++ g\n@@ -1 +1 @@\n-a\n+b\n@@ -9 +9 @@\n-a\n+b\n";

const OUTLINE: &str = "Span { start: 0, end: 48 } Hunks([])";

fn outline_told(alloc: Global, outline: &FilePatchList) -> Result<String, AllocError> {
    match outline.patches() {
        [only] => format!(in alloc; "{:?} {:?}", only.span, only.change),
        _ => Err(AllocError),
    }
}

/// Whether the outline of the text is as it should be.
fn has_outline(alloc: Global, options: &Options) -> bool
    requires { IsLawful (plain_options options.now) }
{
    match Vec::from_slice(alloc, TWO_HUNKS.as_bytes()) {
        Ok(text) => match read_outline(alloc, text, options) {
            Ok(outline) => is_told(outline_told(alloc, &outline), OUTLINE),
            Err(_) => false,
        },
        Err(_) => false,
    }
}

/// What `patch` alone asks for.
pub fn plain() -> Options
    ensures { IsLawful (plain_options result) }
{
    Options {
        only: None,
        strip: None,
        fuzz: 2,
        reverse: false,
        force: false,
        batch: false,
        forward: false,
        loose: false,
        remove_empty: false,
        backup: false,
        mismatch_backup: true,
        suffix: None,
        prefix: None,
        base_prefix: None,
        numbers: BackupNumbers::Never,
        dir: None,
        file: None,
        input: Input::Standard,
        output: None,
        reject: None,
        no_rejects: false,
        reject_form: None,
        define: None,
        posix: false,
        keep_returns: false,
        skip_binary: false,
        dry_run: false,
        read_only: ReadOnlyFiles::Told,
        times: FileTimes::Written,
        follow_links: false,
        silent: false,
        verbose: false,
        plan: PlanKind::Auto,
        buffer: 65_536,
        sync: SyncKind::Each,
    }
}

/// Whether all is as it should be that goes by options.
fn goes_by_options(alloc: Global) -> bool {
    let options = plain();
    has_target(alloc, &options) && has_set(alloc, &options) && has_outline(alloc, &options)
}

#[test]
fn sets_are_read(rt: HostRuntime) {
    assert!(rt; is_told(renamed_told(rt.alloc()), RENAMED));
    assert!(rt; goes_by_options(rt.alloc()));
}
