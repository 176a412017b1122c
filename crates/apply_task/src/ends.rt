//! How lines end.

ghost use Rattle.std.specs.Prelude.{◌≡◌, [], slice_index_or};
ghost use Rattle.apply_task.specs.LineEnds.{is_returned, first_line, ends_otherwise};
ghost use Rattle.hunk_core.specs.PlainHunk.{hunk_of, old_lines};
ghost use Rattle.hunk_core.specs.Turned.{turned, IsLawful};

use hunk_core::{Hunk, Side};

/// Whether a line ends in a carriage return and a line feed.
pub fn is_returned(line: &[u8]) -> bool
    ensures { result ≡ is_returned line.now }
{
    line.ends_with(b"\r\n")
}

/// Whether the first line of a hunk taken from a side ends otherwise than the first line of a file, of which this is known.
pub fn ends_otherwise(end: Option<bool>, text: &[u8], hunk: &Hunk, side: Side) -> bool
    requires lawful { IsLawful text.now hunk.now }
    ensures { result ≡ ends_otherwise end (turned side (hunk_of text.now hunk.now)) }
{
    match end {
        Some(true) => !is_returned(first_line(text, hunk, side)),
        Some(false) => is_returned(first_line(text, hunk, side)),
        None => false,
    }
}

/// The first line of the side that is taken as old, or of the other one where that has none.
fn first_line<'t>(text: &'t [u8], hunk: &Hunk, side: Side) -> &'t [u8]
    requires lawful { IsLawful text.now hunk.now }
    ensures { result.now ≡ first_line (turned side (hunk_of text.now hunk.now)) }
{
    if hunk.count(side) == 0 {
        return first_on(text, hunk, side.other());
    }
    hunk.pattern(text, side, 0)
}

/// The first line of a side, or nothing where it has none.
fn first_on<'t>(text: &'t [u8], hunk: &Hunk, side: Side) -> &'t [u8]
    requires lawful { IsLawful text.now hunk.now }
    ensures { result.now ≡ slice_index_or (old_lines (turned side (hunk_of text.now hunk.now)).body) 0 [] }
{
    if hunk.count(side) == 0 {
        return &[];
    }
    hunk.pattern(text, side, 0)
}
