//! Patch texts without the carriage returns that mail put in.

use patch_header::plainly;
use patch_set::SetFault;
use read_clean_text::clean;
use std::alloc::{AllocError, Global};

/// A text, whether returns are kept, and what is read; `$` stands for a carriage return and a line feed, and `|` for a line feed.
const ROWS: &str = "\
--- f$+++ f$@@ -1 +1 @@$-a$+b$ = --- f|+++ f|@@ -1 +1 @@|-a|+b|
--- f|+++ f|@@ -1 +1 @@|-a$+b$ = --- f|+++ f|@@ -1 +1 @@|-a$+b$
--- f|+++ f|@@ -1 +1 @@ g$-a$+b$ = --- f|+++ f|@@ -1 +1 @@ g|-a$+b$
--- f$+++ f|@@ -1 +1 @@|-a$+b$ = --- f|+++ f|@@ -1 +1 @@|-a$+b$
+--- f$+++ f$@@ -1 +1 @@$-a$+b$ = --- f|+++ f|@@ -1 +1 @@|-a$+b$
*** f$--- f$***************$*** 1 ****$! a$--- 1 ----$! b$ = *** f|--- f|***************|*** 1 ****|! a|--- 1 ----|! b|
+*** f$--- f$***************$*** 1 ****$! a$--- 1 ----$! b$ = *** f|--- f|***************|*** 1 ****|! a$--- 1 ----|! b$
1c1$< a$---$> b$ = 1c1|< a|---|> b|
+1c1$< a$---$> b$ = 1c1|< a$---|> b$
1c1|< a$---|> b$ = 1c1|< a$---|> b$
1c$b$.$ = 1c|b|.|
1c|b$.| = 1c|b$.|
x$ = x$
--- f$+++ f$@@ -1 +1 @@$-a$x$ = --- f|+++ f|@@ -1 +1 @@|-a|x|
--- f$+++ f$@@ -1 +1 @@$-a$+b$-- $ = --- f|+++ f|@@ -1 +1 @@|-a|+b|-- $
--- f|+++ f|@@ -1 +1 @@|-a|+b|--- g$+++ g$@@ -1 +1 @@$-a$+b$ = --- f|+++ f|@@ -1 +1 @@|-a|+b|--- g|+++ g|@@ -1 +1 @@|-a|+b|";

/// The text that a row spells.
fn spelled(alloc: Global, row: &str) -> Result<Vec<u8>, AllocError> {
    let mut text = Vec::new(alloc);
    for &byte in row.as_bytes() {
        match byte {
            b'|' => text.push(b'\n')?,
            b'$' => text.extend_from_slice(b"\r\n")?,
            _ => text.push(byte)?,
        }
    }
    Ok(text)
}

/// Whether the text that a row spells is cleaned to the wanted one. A `+` in front of it says that returns are kept.
fn is_cleaned(alloc: Global, row: &str, wanted: &str) -> Result<bool, SetFault> {
    let keeps = row.starts_with('+');
    let given = spelled(alloc, row.trim_start_matches('+'))?;
    let wanted = spelled(alloc, wanted)?;
    let new = clean(alloc, given, plainly(None), keeps)?;
    Ok(new.as_slice() == wanted.as_slice())
}

fn is_so(alloc: Global, row: &str) -> bool {
    let (given, wanted) = row.split_once(" = ").unwrap_or(("", ""));
    match is_cleaned(alloc, given, wanted) {
        Ok(is) => is,
        Err(_) => false,
    }
}

#[test]
fn texts_are_cleaned(rt: HostRuntime) {
    for row in ROWS.split('\n') {
        assert!(rt; is_so(rt.alloc(), row), "{row}");
    }
}
