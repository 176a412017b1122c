//! Pieces of a text, lent and written.

ghost use Rattle.std.specs.Prelude.{◌≡◌, ◌<◌, ◌≤◌, [], length, slice_index_or};
ghost use Rattle.hunk_core.specs.PlainHunk.{bytes_at};
ghost use Rattle.outside.specs.Puts.{Puts};
ghost use Rattle.read_file_patch.specs.PlainPatch.{row_count};
ghost use Rattle.patch_set.specs.Spans.{IsPlaced};
ghost use Rattle.patch_filters.specs.Filtered.{pieces, region};

use line_list::Span;
use outside::{Failed, Sink, put_all};
use read_file_patch::FilePatch;

pub fn bytes_at(text: &[u8], span: Span) -> &[u8]
    requires order { span.start ≤ span.end }
    requires within { span.end ≤ length text.now }
    ensures { result.now ≡ bytes_at text.now span }
{
    &text[span.start as usize..span.end as usize]
}

pub fn put_piece<O: Sink>(out: &mut O, piece: &[u8]) -> Result<(), Failed>
    ensures { Puts O.view O.same_rest out.old out.new result piece.now }
{
    put_all(out, piece)
}

/// The lines in front of the first hunk.
pub fn region<'a>(text: &'a [u8], patch: &FilePatch) -> &'a [u8]
    requires { IsPlaced text.now patch.now.span.start patch.now.first_verdict patch.now }
    ensures { result.now ≡ region text.now patch.now }
{
    &text[patch.span.start as usize..patch.header.at]
}

/// Writes the lines in front of the first hunk.
pub fn put_region<O: Sink>(text: &[u8], patch: &FilePatch, out: &mut O) -> Result<(), Failed>
    requires { IsPlaced text.now patch.now.span.start patch.now.first_verdict patch.now }
    ensures { Puts O.view O.same_rest out.old out.new result (region text.now patch.now) }
{
    put_piece(out, &text[patch.span.start as usize..patch.header.at])
}

/// Writes a hunk, counted from 0.
pub fn put_hunk<O: Sink>(
    text: &[u8],
    patch: &FilePatch,
    hunk: u32,
    out: &mut O,
) -> Result<(), Failed>
    requires placed { IsPlaced text.now patch.now.span.start patch.now.first_verdict patch.now }
    requires within { hunk < row_count patch.now.change }
    ensures { Puts O.view O.same_rest out.old out.new result (slice_index_or (pieces text.now patch.now) hunk []) }
{
    let span = patch.hunk_spans[hunk as usize];
    put_piece(out, bytes_at(text, span))
}
