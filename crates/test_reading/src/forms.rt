//! A hunk of each form, and a script, as they are read of a text. What is written of longer ones are cases of tests/cases.

use crate::headers::is_told;
use std::alloc::{AllocError, Global};

fn unified(alloc: Global, text: &[u8]) -> Result<String, AllocError> {
    if text.len() > 4096 || !unified_form::at_opening(text, 0) {
        return Err(AllocError);
    }
    format!(in alloc; "{:?}", unified_form::read_hunks(alloc, text, 0, 1))
}

fn context(alloc: Global, text: &[u8]) -> Result<String, AllocError> {
    if text.len() > 4096 || !context_form::at_opening(text, 0) {
        return Err(AllocError);
    }
    format!(in alloc; "{:?}", context_form::read_hunks(alloc, text, 0, 1))
}

fn normal(alloc: Global, text: &[u8]) -> Result<String, AllocError> {
    if text.len() > 4096 || !normal_form::at_opening(text, 0) {
        return Err(AllocError);
    }
    format!(in alloc; "{:?}", normal_form::read_hunks(alloc, text, 0, 1))
}

fn script(alloc: Global, text: &[u8]) -> Result<String, AllocError> {
    if text.len() > 4096 || !ed_form::at_command(text, 0) {
        return Err(AllocError);
    }
    format!(in alloc; "{:?}", ed_form::read_script(alloc, text, 0, 1))
}

const UNIFIED: &str =
    "Ok(Hunks { items: [Hunk { old_start: 3, new_start: 4, body: [HunkLine { mark: Keep, span: Span { start: 15, end: 17 } }, HunkLine { mark: Drop, span: Span { start: 18, end: 20 } }] }], spans: [Span { start: 0, end: 20 }], end: 20, next: 4 })";

// Its numbers have blanks around them.
const CONTEXT: &str =
    "Ok(Hunks { items: [Hunk { old_start: 3, new_start: 4, body: [HunkLine { mark: Drop, span: Span { start: 30, end: 32 } }, HunkLine { mark: Add, span: Span { start: 46, end: 48 } }] }], spans: [Span { start: 0, end: 48 }], end: 48, next: 6 })";

const NORMAL: &str =
    "Ok(Hunks { items: [Hunk { old_start: 3, new_start: 4, body: [HunkLine { mark: Drop, span: Span { start: 6, end: 8 } }, HunkLine { mark: Add, span: Span { start: 14, end: 16 } }] }], spans: [Span { start: 0, end: 16 }], end: 16, next: 5 })";

// A lone dot as `diff -e` writes it, a command, and a line behind the script.
const SCRIPT: &str =
    "Ok(EdScript { edits: [EdEdit { first: 4, last: 4, added: [Span { start: 4, end: 6 }, Span { start: 16, end: 18 }] }, EdEdit { first: 1, last: 2, added: [] }], span: Span { start: 0, end: 25 }, next: 9 })";

#[test]
fn forms_are_read(rt: HostRuntime) {
    let alloc = rt.alloc();
    assert!(rt; is_told(unified(alloc, b"@@ -3,2 +4 @@\n a\n-b\nx\n"), UNIFIED));
    assert!(rt;
        is_told(
            context(
                alloc,
                b"***************\n***  3 ****\n! a\n--- 4\t ----\n! b\nx\n"
            ),
            CONTEXT
        )
    );
    assert!(rt; is_told(normal(alloc, b"3c4\n< a\n---\n> b\nx\n"), NORMAL));
    assert!(rt;
        is_told(
            script(alloc, b"4c\n..\n.\ns/.//\na\nx\n.\n1,2d\nend\n"),
            SCRIPT
        )
    );
}
