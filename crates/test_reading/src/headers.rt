//! What the lines in front of a file patch say, row by row; git headers are read in rows of `git`.

use crate::stamps::words;
use hunk_core::Form;
use line_list::Span;
use patch_header::{HeaderStep, next_header};
use read_header_record::{Header, is_executable};
use std::alloc::{AllocError, Global};

/// The form that is asked for, `-` or `git`; a text; and the form of the opening, its line and the line of the names; the old and
/// the new name, `Index:` and `Prereq:`; the stamps; what git says of the file, whether the header is bare, and the names that
/// the file goes from and to; and the modes, where git tells one. Seconds are those of `date -u +%s`.
const ROWS: &[&str] = &[
    // A tab ends a name that holds a space.
    "-=diff --git a/my file b/my file\nindex 1f2..3e4 100644\n--- a/my file\t2002-02-21 23:30:39.942229878 -0800\n+++ b/my file\t2002-02-21 23:30:50 -0800\n@@ -1 +1 @@\n-a\n+b\n=Unified 5 3; [a/my file] [b/my file] [] []; 1014363039 and 942229878, 1014363050; Plain false [] []",
    // The last line of each kind counts.
    "-=--- first\n+++ first\nIndex: first\nPrereq: first\n--- f Thu Feb 21 23:30:39 2002\nPrereq:\t 1.2\rx\nIndex:g\n+++  \t h\nIndex: i j\n@@ -1,2 +1 @@ x\n=Unified 10 5; [f] [h] [i j] [1.2]; 1014334239 local, Unknown; Plain false [] []",
    // A name in quotes ends with them, and a stamp may follow; one whose quotes end nowhere is none.
    "-=Index: \"i \\\" j\" k\n--- \"a\\303\\266 b\"\t1970-01-01 00:00:00 +0000\n+++ \"g\\n\n@@ -1 +1 @@\n=Unified 4 2; [\"a\\303\\266 b\"] [] [\"i \\\" j\"] []; 0, Unknown; Plain false [] []",
    // A last line with an empty name tells none.
    "-=--- f\n--- \t\nIndex: f\nIndex:\nPrereq: \r\n@@ -1 +1 @@\n=Unified 6 6; [] [] [] []; Unknown, Unknown; Plain false [] []",
    "-=+++ u\n*** old\tThu Feb 21 23:30:39 2002\n--- new\t1970-01-01 00:00:00 +0000\n***************\n*** 1,3 ****\n  a\n=Context 4 2; [old] [new] [] []; 1014334239 local, 0; Plain false [] []",
    "-=*** x\n--- y\n+++ z\nIndex: f\n1d0\n< a\n=Normal 5 5; [] [] [f] []; Unknown, Unknown; Plain false [] []",
    // A command that text follows opens a script only before a dot, unless scripts alone are asked for.
    "-=Index: f\n3a\nx\n.\n=Ed 2 2; [] [] [f] []; Unknown, Unknown; Plain false [] []",
    "-=3a\nx\n1,2d\n=Ed 3 3; [] [] [] []; Unknown, Unknown; Plain false [] []",
    "Ed=3a\nx\n1,2d\n=Ed 1 1; [] [] [] []; Unknown, Unknown; Plain false [] []",
    // The openings of forms that aren't asked for are as any other line.
    "Normal=--- f\n@@ -1 +1 @@\n3d\n1c1\n< a\n---\n> b\n=Normal 4 4; [] [] [] []; Unknown, Unknown; Plain false [] []",
    // A line of asterisks alone opens nothing, nor does a command alone.
    "-=***************\n1c1\nx\n@@ -a\n@@ -1\n=Unified 5 5; [] [] [] []; Unknown, Unknown; Plain false [] []",
    // The last line may lack its line feed.
    "-=--- f\n+++ g\n@@ -1=Unified 3 1; [f] [g] [] []; Unknown, Unknown; Plain false [] []",
    // What is known of dots holds from the opening on.
    "-=1a\nx\n@@ -1 +1 @@\n=Unified 3 3; [] [] [] []; Unknown, Unknown; Plain false [] []",
    "-=--- f\nGIT binary patch\n@@ -1 +1 @@\n=Binary { line: 2 }",
    "Context=x\ny\nBinary files a/f and b/f differ\n=Binary { line: 3 }",
    "-=Binary files a/f and b/f differ.\n=End",
    "-=GIT binary patches\n=End",
    "-=--- f\n+++ f\n1a\nx\n..\n=End",
    "Context=@@ -1 +1 @@\n-a\n+b\n=End",
    "-==End",
    // An empty file that is new has no hunk; its names stand in its git line.
    "git=diff --git a/e b/e\nnew file mode 100644\nindex 0000000..e69de29\n=Unified 1 1; [a/e] [b/e] [] []; Unknown, Unknown; New true [] []; [] [100644]",
    "git=diff --git f f\nnew file mode 100644\n=Unified 1 1; [f] [f] [] []; Unknown, Unknown; New true [] []; [] [100644]",
    "git=diff --git a/x \"b/e f\" \ndeleted file mode 100644\n=Unified 1 1; [a/x] [\"b/e f\"] [] []; Unknown, Unknown; Deleted true [] []; [100644] []",
    // Halves that differ behind their first slash are no names.
    "git=x\ndiff --git a/x b/y\nsimilarity index 100%\nrename from x\nrename to y\n=Unified 2 2; [] [] [] []; Unknown, Unknown; Rename true [x] [y]",
    "git=diff --git a/x b/y\nsimilarity index 90%\nrename from x\nrename to y\n--- a/x\n+++ b/y\n@@ -1 +1 @@\n-a\n+b\n=Unified 7 5; [a/x] [b/y] [] []; Unknown, Unknown; Rename false [x] [y]",
    // Where git headers aren't read their lines say nothing.
    "-=diff --git a/x b/y\nsimilarity index 90%\nrename from x\nrename to y\n--- a/x\n+++ b/y\n@@ -1 +1 @@\n-a\n+b\n=Unified 7 5; [a/x] [b/y] [] []; Unknown, Unknown; Plain false [] []",
    // The last of equal lines counts, and a name goes up to the end of its line.
    "git=diff --git a/f b/f\ncopy from a\ncopy from b \tc\ncopy to d\n=Unified 1 1; [a/f] [b/f] [] []; Unknown, Unknown; Copy true [b \tc] [d]",
    // A file that is new isn't renamed.
    "git=diff --git a/f b/f\nrename from a\nrename to b\ndeleted file mode 100644\nnew file mode 100644\n=Unified 1 1; [a/f] [b/f] [] []; Unknown, Unknown; New true [] []; [100644] [100644]",
    // The last line that tells a mode counts, in front of hunks too.
    "git=diff --git a/f b/f\nold mode 100755\nnew mode \nnew file mode 120000\nold mode 100644\nnew mode 100711\n--- a/f\n+++ b/f\n@@ -1 +1 @@\n-a\n+b\n=Unified 9 7; [a/f] [b/f] [] []; Unknown, Unknown; New false [] []; [100644] [100711]",
    // A git header directly in front of hunks names the file, and no line in front of it does.
    "git=Index: x\n--- x\n+++ x\ndiff --git a/f b/f\nold mode 100644\nnew mode 100755\n@@ -1 +1 @@\n-a\n+b\n=Unified 7 7; [] [] [b/f] []; Unknown, Unknown; Plain false [] []; [100644] [100755]",
    "git=diff --git a/my f b/my f\nindex 1..2 100644\n@@ -1 +1 @@\n-a\n+b\n=Unified 3 3; [] [] [b/my f] []; Unknown, Unknown; Plain false [] []",
    "-=--- x\ndiff --git a/f b/f\nindex 1..2 100644\n@@ -1 +1 @@\n-a\n+b\n=Unified 4 1; [x] [] [] []; Unknown, Unknown; Plain false [] []",
    "git=diff --git a/f b/f\nnew file mode 100644\n@@ -0,0 +1 @@\n+a\n=Unified 3 3; [] [] [b/f] []; Unknown, Unknown; New false [] []; [] [100644]",
    "git=diff --git a/x b/y\nsimilarity index 90%\nrename from x\nrename to y\n@@ -1 +1 @@\n-a\n+b\n=Unified 5 5; [] [] [] []; Unknown, Unknown; Rename false [x] [y]",
    // Lines of other names than a rename or a copy has begin a file patch of their own; another git header leads any.
    "git=diff --git a/x b/y\nsimilarity index 90%\nrename from x\nrename to y\n--- a/x\n+++ b/z\n@@ -1 +1 @@\n-a\n+b\n=Unified 1 1; [] [] [] []; Unknown, Unknown; Rename true [x] [y]",
    "git=diff --git a/f b/f\nold mode 100644\nnew mode 100755\n--- a/g\n+++ b/f\n@@ -1 +1 @@\n-a\n+b\n=Unified 6 4; [a/g] [b/f] [] []; Unknown, Unknown; Plain false [] []; [100644] [100755]",
    "git=diff --git a/f b/f\nindex 1..2\n--- a/g\n+++ b/g\n@@ -1 +1 @@\n-a\n+b\n=Unified 5 3; [a/g] [b/g] [] []; Unknown, Unknown; Plain false [] []",
    // A name may be without its prefix or up to a tab, and `/dev/null` is any name.
    "git=diff --git x y\nrename from d/x\nrename to d/y\n--- my/d/x\n+++ d/y\t\n@@ -1 +1 @@\n-a\n+b\n=Unified 6 4; [my/d/x] [d/y] [] []; Unknown, Unknown; Rename false [d/x] [d/y]",
    "git=diff --git \"a/x\\ty\" \"b/x\\tz\"\nrename from \"x\\ty\"\nrename to \"x\\tz\"\n--- \"c/x\\ty\"\n+++ \"b/x\\tz\"\n@@ -1 +1 @@\n-a\n+b\n=Unified 6 4; [\"c/x\\ty\"] [\"b/x\\tz\"] [] []; Unknown, Unknown; Rename false [\"x\\ty\"] [\"x\\tz\"]",
    "git=diff --git a/f b/f\nnew file mode 100644\n--- /dev/null\n+++ b/f\n@@ -0,0 +1 @@\n+a\n=Unified 5 3; [/dev/null] [b/f] [] []; Unknown, Unknown; New false [] []; [] [100644]",
    "git=diff --git f\nnew file mode 100644\n--- a/f\n+++ b/g\n@@ -0,0 +1 @@\n+a\n=Unified 5 3; [a/f] [b/g] [] []; Unknown, Unknown; New false [] []; [] [100644]",
    // Without a hunk directly behind them the lines of both names lead nothing.
    "git=diff --git a/f b/f\nnew mode 100755\n--- a/f\n+++ b/f\n\n@@ -1 +1 @@\n=Unified 6 3; [a/f] [b/f] [] []; Unknown, Unknown; Plain false [] []",
    // A header directly before a damaged hunk is text, with the lines of names between; the next opening is read without it.
    "git=diff --git a/f b/f\nnew file mode 100644\n--- /dev/null\n+++ b/f\n@@ -x\n+line\n=End",
    "git=diff --git a/x b/y\nrename from x\nrename to y\n--- a/x\n+++ b/y\n@@ -=End",
    "git=diff --git a/f b/f\nold mode 100644\nnew mode 100755\n@@ -,1 +1 @@\n-a\n+b\n=End",
    "git=diff --git a/f b/f\nnew file mode 100644\n--- /dev/null\n+++ b/f\n@@ -x\n+line\n@@ -0,0 +1 @@\n+a\n=Unified 7 3; [/dev/null] [b/f] [] []; Unknown, Unknown; Plain false [] []",
    "git=diff --git a/e b/e\nnew file mode 100644\n@@ -x\ndiff --git a/f b/f\ndeleted file mode 100644\n=Unified 4 4; [a/f] [b/f] [] []; Unknown, Unknown; Deleted true [] []; [100644] []",
    // It stays one behind lines of other names, or another line, or before one that begins otherwise.
    "git=diff --git a/x b/y\nrename from x\nrename to y\n--- a/x\n+++ b/z\n@@ -x\n=Unified 1 1; [] [] [] []; Unknown, Unknown; Rename true [x] [y]",
    "git=diff --git a/f b/f\nnew file mode 100644\n\n@@ -x\n=Unified 1 1; [a/f] [b/f] [] []; Unknown, Unknown; New true [] []; [] [100644]",
    "git=diff --git a/f b/f\nnew file mode 100644\n@@ x\n=Unified 1 1; [a/f] [b/f] [] []; Unknown, Unknown; New true [] []; [] [100644]",
    // Both modes alone are a file patch, one of them is ordinary text.
    "git=diff --git a/f b/f\nold mode 100644\nnew mode 100755\n=Unified 1 1; [a/f] [b/f] [] []; Unknown, Unknown; Plain true [] []; [100644] [100755]",
    "git=diff --git a/f b/f\nold mode 100644\nindex 1..2\n=End",
    "git=diff --git a/f b/f\n\nnew file mode 100644\n=End",
    "-=diff --git a/e b/e\nnew file mode 100644\n=End",
];

fn only(word: &str) -> Option<Form> {
    match word {
        "Context" => Some(Form::Context),
        "Normal" => Some(Form::Normal),
        "Ed" => Some(Form::Ed),
        _ => None,
    }
}

fn piece(text: &str, span: Option<Span>) -> &str {
    match span {
        Some(span) => text
            .get(span.start as usize..span.end as usize)
            .unwrap_or("?"),
        None => "",
    }
}

fn lines(alloc: Global, header: Header) -> Result<String, AllocError> {
    let (form, opening, names_line) = (header.form, header.opening, header.names_line);
    format!(in alloc; "{form:?} {opening} {names_line}")
}

fn names(alloc: Global, text: &str, header: Header) -> Result<String, AllocError> {
    let old = piece(text, header.old_name);
    let new = piece(text, header.new_name);
    let index = piece(text, header.index);
    let prereq = piece(text, header.prereq);
    format!(in alloc; " [{old}] [{new}] [{index}] [{prereq}]")
}

fn stamps(alloc: Global, header: Header) -> Result<String, AllocError> {
    let old = words(alloc, header.old_stamp)?;
    let new = words(alloc, header.new_stamp)?;
    format!(in alloc; " {old}, {new}")
}

fn git(alloc: Global, text: &str, header: Header) -> Result<String, AllocError> {
    let from = piece(text, header.from);
    let to = piece(text, header.to);
    format!(in alloc; " {:?} {} [{from}] [{to}]", header.action, header.bare)
}

fn modes(alloc: Global, text: &str, header: Header) -> Result<String, AllocError> {
    let old = piece(text, header.old_mode);
    let new = piece(text, header.new_mode);
    format!(in alloc; " [{old}] [{new}]")
}

/// Whether a text was made, and is the wanted one.
pub fn is_told(text: Result<String, AllocError>, wanted: &str) -> bool {
    match text {
        Ok(text) => text.as_str() == wanted,
        Err(_) => false,
    }
}

/// Whether this is found in a text.
fn says(alloc: Global, text: &str, step: HeaderStep, wanted: &str) -> bool {
    match step {
        HeaderStep::Found(header) => {
            let mut wanted = wanted.split(';');
            is_told(lines(alloc, header), wanted.next().unwrap_or(""))
                && is_told(names(alloc, text, header), wanted.next().unwrap_or(""))
                && is_told(stamps(alloc, header), wanted.next().unwrap_or(""))
                && is_told(git(alloc, text, header), wanted.next().unwrap_or(""))
                && is_told(
                    modes(alloc, text, header),
                    wanted.next().unwrap_or(" [] []"),
                )
        }
        other => is_told(format!(in alloc; "{other:?}"), wanted),
    }
}

/// Whether this is found in the text of a row.
fn is_found(alloc: Global, word: &str, text: &str, wanted: &str) -> bool {
    let bytes = text.as_bytes();
    if bytes.len() > 4096 {
        return false;
    }
    let step = next_header(bytes, 0, 1, only(word), word == "git");
    says(alloc, text, step, wanted)
}

/// Whether a row is so.
fn is_so(alloc: Global, row: &str) -> bool {
    match row.split_once('=') {
        Some((word, rest)) => match rest.split_once('=') {
            Some((text, wanted)) => is_found(alloc, word, text, wanted),
            None => false,
        },
        None => false,
    }
}

#[test]
fn headers_are_found(rt: HostRuntime) {
    for row in ROWS {
        assert!(rt; is_so(rt.alloc(), row), "{row}");
    }
}

/// A mode, and whether its owner may execute the file.
const MODES: &[&str] = &[
    "100644=Some(false)",
    "100755=Some(true)",
    "100500=Some(true)",
    "100611=Some(false)",
    "120777=None",
    "160000=None",
    "040755=None",
    "100758=None",
    "10075=None",
    "1007550=None",
];

fn is_mode(alloc: Global, row: &str) -> bool {
    match row.split_once('=') {
        Some((mode, wanted)) => {
            is_told(
                format!(in alloc; "{:?}", is_executable(mode.as_bytes())),
                wanted,
            )
        }
        None => false,
    }
}

#[test]
fn modes_are_read(rt: HostRuntime) {
    for row in MODES {
        assert!(rt; is_mode(rt.alloc(), row), "{row}");
    }
}
