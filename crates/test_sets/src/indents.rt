//! Patch texts with blanks or tabs in front of each line.

use patch_header::plainly;
use patch_set::SetFault;
use read_clean_text::unindented;
use std::alloc::{AllocError, Global};

/// A text and what is read; `$` stands for a carriage return and a line feed, `|` for a line feed, and `~` for a tab.
const ROWS: &str = "\
--- f|+++ f|@@ -1 +1 @@|-a|+b| = --- f|+++ f|@@ -1 +1 @@|-a|+b|
  --- f|  +++ f|  @@ -1 +1 @@|  -a|  +b| = --- f|+++ f|@@ -1 +1 @@|-a|+b|
~--- f|~+++ f|~@@ -1 +1 @@|~-~a|~+b| = --- f|+++ f|@@ -1 +1 @@|-~a|+b|
  --- f$  +++ f$  @@ -1 +1 @@$  -a$  +b$ = --- f$+++ f$@@ -1 +1 @@$-a$+b$
hi|| --- f| +++ f| @@ -1 +1 @@| -a| +b||so| long|  x| = hi||--- f|+++ f|@@ -1 +1 @@|-a|+b||so|long| x|
  --- f|  +++ f|  @@ -1,3 +1,3 @@|   a||  -b|  +B| = --- f|+++ f|@@ -1,3 +1,3 @@| a||-b|+B|
 --- f| +++ f| @@ -1 +1 @@| -a| +b|and| --- g| +++ g| @@ -1 +1 @@| -a| +b| = --- f|+++ f|@@ -1 +1 @@|-a|+b|and|--- g|+++ g|@@ -1 +1 @@|-a|+b|
 Index: f| 1c1| < a| ---| > b| = Index: f|1c1|< a|---|> b|
  --- f|  +++ f|  @@ -1 +1 @@|-a|  +b| =   --- f|  +++ f|  @@ -1 +1 @@|-a|  +b|
  --- f|+++ f|  @@ -1 +1 @@|  -a|  +b| =   --- f|+++ f|  @@ -1 +1 @@|  -a|  +b|
  --- f| ~+++ f|  @@ -1 +1 @@|  -a|  +b| =   --- f| ~+++ f|  @@ -1 +1 @@|  -a|  +b|
  --- f|  +++ f|  @@ -1 +1 @@|a|  +b| = --- f|+++ f|@@ -1 +1 @@|a|+b|
 --- f| +++ f| @@ -1 +1 @@| -a| +b|   --- g|   +++ g|   @@ -1 +1 @@|   -a|   +b| =  --- f| +++ f| @@ -1 +1 @@| -a| +b|   --- g|   +++ g|   @@ -1 +1 @@|   -a|   +b|
 --- f| +++ f| @@ -1 +1 @@| -a| +b|--- g|+++ g|@@ -1 +1 @@|-a|+b| =  --- f| +++ f| @@ -1 +1 @@| -a| +b|--- g|+++ g|@@ -1 +1 @@|-a|+b|
  x|y| =   x|y|";

/// The text that a row spells.
fn spelled(alloc: Global, row: &str) -> Result<Vec<u8>, AllocError> {
    let mut text = Vec::new(alloc);
    for &byte in row.as_bytes() {
        match byte {
            b'|' => text.push(b'\n')?,
            b'$' => text.extend_from_slice(b"\r\n")?,
            b'~' => text.push(b'\t')?,
            _ => text.push(byte)?,
        }
    }
    Ok(text)
}

fn is_unindented(alloc: Global, row: &str, wanted: &str) -> Result<bool, SetFault> {
    let given = spelled(alloc, row)?;
    let wanted = spelled(alloc, wanted)?;
    let new = unindented(alloc, given, plainly(None))?;
    Ok(new.as_slice() == wanted.as_slice())
}

fn is_so(alloc: Global, row: &str) -> bool {
    let (given, wanted) = row.split_once(" = ").unwrap_or(("", ""));
    match is_unindented(alloc, given, wanted) {
        Ok(is) => is,
        Err(_) => false,
    }
}

#[test]
fn indents_are_taken_off(rt: HostRuntime) {
    for row in ROWS.split('\n') {
        assert!(rt; is_so(rt.alloc(), row), "{row}");
    }
}
