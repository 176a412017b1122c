//! What is written of a text in some styles.

use crate::{is_plain, restyle};
use cli_tool_words::Style;
use std::alloc::{AllocError, Global};

/// A text with a git block, text, a range line with words behind it, and a line of a hunk that looks like a header line.
const TEXT: &str =
    "mail\ndiff -u --git a/x/y b/x/y\nindex 1..2\n--- a/x/y\t2020\n+++ b/x/y\t2021\n@@ -1,2 +1,2 @@ fn\n c\n--- a/q\n+++ b/q\n\
    Index: z\n*** /dev/null\n--- \"b/z\"\n***************\n*** 0 ****\n--- 1 ----\n+ d\n";

/// What is written of `TEXT` without all text, and with other names.
const CLEAN: &str =
    "diff -u --git x/y x/y\nindex 1..2\n--- P/x/y\n+++ P/x/y\n@@ -1,2 +1,2 @@\n c\n--- a/q\n+++ b/q\n\
    *** /dev/null\n--- \"P/z\"\n***************\n*** 0 ****\n--- 1 ----\n+ d\n";

/// What is written of `TEXT` with prefixes for each side, and last components.
const SIDES: &str =
    "mail\ndiff -u --git o/y n/y\nindex 1..2\n--- o/y\t2020\n+++ n/y\t2021\n@@ -1,2 +1,2 @@ fn\n c\n--- a/q\n+++ b/q\n\
    Index: z\n*** /dev/null\n--- \"n/z\"\n***************\n*** 0 ****\n--- 1 ----\n+ d\n";

fn plain(alloc: Global) -> Style {
    Style {
        strip: 0,
        prefix: None,
        old_prefix: Vec::new(alloc),
        new_prefix: Vec::new(alloc),
        no_stamps: false,
        clean: false,
    }
}

/// Whether the text is written so.
fn is_written(alloc: Global, style: &Style, wanted: &str) -> Result<bool, AllocError> {
    let text = TEXT.as_bytes().to_vec(alloc)?;
    let written = restyle(alloc, style, text)?;
    Ok(written.as_slice() == wanted.as_bytes())
}

fn are_so(alloc: Global) -> Result<bool, AllocError> {
    let mut style = plain(alloc);
    if !is_plain(&style) || !is_written(alloc, &style, TEXT)? {
        return Ok(false);
    }
    style.strip = 9;
    style.old_prefix = b"o/".to_vec(alloc)?;
    style.new_prefix = b"n/".to_vec(alloc)?;
    if !is_written(alloc, &style, SIDES)? {
        return Ok(false);
    }
    let mut other = plain(alloc);
    other.strip = 1;
    other.prefix = Some(b"P/".to_vec(alloc)?);
    other.no_stamps = true;
    other.clean = true;
    is_written(alloc, &other, CLEAN)
}

#[test]
fn texts_are_restyled(rt: HostRuntime) {
    assert!(rt;
        are_so(rt.alloc()).unwrap_or(false),
        "a text is written otherwise"
    );
}
