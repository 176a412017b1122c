//! The header lines of a file patch, written.

ghost use Rattle.std.specs.Prelude.{◌≡◌, ◌<◌, ◌++◌, length};
ghost use Rattle.std.specs.Option.{ForSome};
ghost use Rattle.outside.specs.Puts.{Puts};
ghost use Rattle.read_file_patch.specs.PlainPatch.{header_of};
ghost use Rattle.patch_set.specs.PlainName.{plain_name};
ghost use Rattle.patch_set.specs.SetView.{patch_at};
ghost use Rattle.flip_patch.specs.HeaderText.{header_text, index_if, named_line};

use crate::marks::{name_end, new_mark, old_mark, shows_names};
use crate::names::{needs_index, rest_of_line, span_on};
use hunk_core::{Form, Side};
use line_list::Span;
use outside::{Failed, Sink, put_all};
use patch_set::PatchSet;
use read_header_record::Header;

fn put_piece<O: Sink>(out: &mut O, piece: &[u8]) -> Result<(), Failed>
    ensures { Puts O.view O.same_rest out.old out.new result piece.now }
{
    put_all(out, piece)
}

fn put_both<O: Sink>(out: &mut O, first: &[u8], second: &[u8]) -> Result<(), Failed>
    ensures { Puts O.view O.same_rest out.old out.new result (first.now ++ second.now) }
{
    put_piece(out, first)?;
    put_piece(out, second)
}

/// The line that says which file is meant, where no other one does; `name` is the name of the file patch for the filters.
fn put_index_if<O: Sink>(
    text: &[u8],
    header: &Header,
    form: Form,
    name: &[u8],
    out: &mut O,
) -> Result<(), Failed>
    requires { name.now ≡ plain_name (header_of text.now header.now) }
    ensures { Puts O.view O.same_rest out.old out.new result (index_if form (header_of text.now header.now)) }
{
    if !needs_index(text, form, header) {
        return Ok(());
    }
    put_piece(out, b"Index: ")?;
    put_both(out, name, name_end(name))
}

fn put_named_line<O: Sink>(
    text: &[u8],
    mark: &[u8],
    name: Option<Span>,
    out: &mut O,
) -> Result<(), Failed>
    ensures { Puts O.view O.same_rest out.old out.new result (named_line text.now mark.now name) }
{
    match name {
        Some(name) => put_both(out, mark, rest_of_line(text, name)),
        None => Ok(()),
    }
}

fn put_lines<O: Sink>(
    text: &[u8],
    header: &Header,
    form: Form,
    side: Side,
    name: &[u8],
    out: &mut O,
) -> Result<(), Failed>
    requires { name.now ≡ plain_name (header_of text.now header.now) }
    ensures { Puts O.view O.same_rest out.old out.new result (header_text text.now form side header.now) }
{
    put_index_if(text, header, form, name, out)?;
    if !shows_names(form) {
        return Ok(());
    }
    put_named_line(text, old_mark(form), span_on(header, side), out)?;
    put_named_line(text, new_mark(form), span_on(header, side.other()), out)
}

/// Writes the header lines of a file patch, counted from 0, as it is taken from a side. A form with lines of names has the
/// names that are there, each with what follows it in its line; Reversed exchanges the two. Where no line says which file
/// is meant, an `Index:` line with the name for the filters stands in front.
pub fn put_header_lines<O: Sink>(
    set: &PatchSet,
    patch: u32,
    form: Form,
    side: Side,
    out: &mut O,
) -> Result<(), Failed>
    requires { patch < length set.now.patches }
    ensures { ForSome (patch_at set.now patch) (λ p. Puts O.view O.same_rest out.old out.new result (header_text set.now.text form side p.header)) }
{
    let header = &set.patches()[patch as usize].header;
    put_lines(set.text(), header, form, side, set.plain_name(patch), out)
}
