//! The names of a header, and the lines that they stand in.

ghost use Rattle.std.specs.Prelude.{◌≡◌, is_some};
ghost use Rattle.std.specs.Option.{option_copied};
ghost use Rattle.read_file_patch.specs.PlainPatch.{header_of};
ghost use Rattle.patch_set.specs.PlainName.{file_name};
ghost use Rattle.flip_patch.specs.HeaderText.{names_file, needs_index, rest_of_line, span_on};

use crate::marks::shows_names;
use hunk_core::{Form, Side};
use line_list::{Span, next_line};
use patch_set::bytes_in;
use read_header_record::Header;

/// Whether there is a name, and it isn't `/dev/null`.
fn is_file(name: Option<&[u8]>) -> bool
    ensures { result ≡ is_some (file_name (option_copied name.entry)) }
{
    match name {
        Some(name) => name != b"/dev/null".as_slice(),
        None => false,
    }
}

fn names_file(text: &[u8], header: &Header) -> bool
    ensures { result ≡ names_file (header_of text.now header.now) }
{
    is_file(bytes_in(text, header.old_name)) || is_file(bytes_in(text, header.new_name))
}

/// Whether no line of a name would say which file is meant.
pub fn needs_index(text: &[u8], form: Form, header: &Header) -> bool
    ensures { result ≡ needs_index form (header_of text.now header.now) }
{
    if !shows_names(form) {
        return true;
    }
    !names_file(text, header)
}

/// The name of the side that is taken as old.
pub fn span_on(header: &Header, side: Side) -> Option<Span>
    ensures { result ≡ span_on side header.now }
{
    match side {
        Side::Forward => header.old_name,
        Side::Reversed => header.new_name,
    }
}

/// A line of the text from the first byte of a name on.
pub fn rest_of_line(text: &[u8], name: Span) -> &[u8]
    ensures { result.now ≡ rest_of_line text.now name }
{
    let start = usize::min(name.start as usize, text.len());
    match next_line(text, start) {
        Some(end) => &text[start..end],
        None => &[],
    }
}
