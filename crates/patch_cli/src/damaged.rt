//! Lines that look like the range of a hunk and open none.

ghost use Rattle.std.specs.Prelude.{◌≡◌, slice_range};
ghost use Rattle.line_list.specs.Lines.{IsLineAt};
ghost use Rattle.patch_cli.specs.Damaged.{is_damaged, tells_damaged, has_damaged};

use hunk_core::after_prefix;
use line_list::next_line;
use patch_set::PatchSet;
use unified_form::at_opening;

/// Whether such a line stands outside of the file patches of a set. Their hunks aren't looked at.
pub fn has_damaged(set: &PatchSet) -> bool
    ensures { result ≡ has_damaged set.now.ways set.now.text }
{
    let text = set.text();
    let patches = set.patches();
    let mut at = 0;
    for k in 0..patches.len() {
        let patch = &patches[k];
        if tells_damaged(&text[at..patch.header.at]) {
            return true;
        }
        at = patch.span.end as usize;
    }
    tells_damaged(&text[at..])
}

/// Whether such a line stands in this part of a text.
fn tells_damaged(part: &[u8]) -> bool
    ensures { result ≡ tells_damaged part.now }
{
    let mut at = 0;
    'lines: while let Some(end) = next_line(part, at) {
        if is_damaged(part, at, end) {
            return true;
        }
        at = end;
    }
    false
}

/// Whether the line from `at` to `end` is so.
fn is_damaged(part: &[u8], at: usize, end: usize) -> bool
    requires { IsLineAt part.now at end }
    ensures { result ≡ is_damaged (slice_range part.now at end) }
{
    after_prefix(&part[at..end], b"@@ -").is_some() && !at_opening(part, at)
}
