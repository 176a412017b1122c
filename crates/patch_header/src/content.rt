//! A line without its line feed, and the lines that are told by all of it.

ghost use Rattle.std.specs.Prelude.{◌≡◌, ◌≤◌, length, drop};
ghost use Rattle.line_list.specs.Lines.{lines};
ghost use Rattle.patch_header.specs.Content.{content, is_binary, is_dot, has_dot};

use crate::git_lines::starts;
use hunk_core::has_feed;
use line_list::next_line;

/// The line without its line feed.
pub fn content(line: &[u8]) -> &[u8]
    ensures { result.now ≡ content line.now }
{
    if has_feed(line) {
        &line[..line.len() - 1]
    } else {
        line
    }
}

/// Whether a line says that files differ which are no text.
pub fn is_binary(line: &[u8]) -> bool
    ensures { result ≡ is_binary line.now }
{
    let bytes = content(line);
    bytes == b"GIT binary patch".as_slice()
        || (starts(line, b"Binary files ") && bytes.ends_with(b" differ"))
}

/// Whether a line ends the text of an ed command.
fn is_dot(line: &[u8]) -> bool
    ensures { result ≡ is_dot line.now }
{
    content(line) == b".".as_slice()
}

/// Whether a line from `at` on is a dot.
pub fn has_dot(text: &[u8], at: usize) -> bool
    requires { at ≤ length text.now }
    ensures { result ≡ has_dot (lines (drop at text.now)) }
{
    let mut place = at;
    'lines: while let Some(end) = next_line(text, place) {
        if is_dot(&text[place..end]) {
            return true;
        }
        place = end;
    }
    false
}
