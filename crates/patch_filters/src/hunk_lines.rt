//! The lines that a list has for hunks.

ghost use Rattle.std.specs.Prelude.{◌≡◌, ◌+◌, ◌-◌, ◌^◌, ◌<◌, ◌≤◌, ◌++◌, [], length, slice_index_or};
ghost use Rattle.std.specs.List.{flat_map};
ghost use Rattle.num_text.specs.Numbers.{decimal};
ghost use Rattle.outside.specs.Puts.{Puts};
ghost use Rattle.read_file_patch.specs.PlainPatch.{IsLawfulChange, row_count};
ghost use Rattle.patch_set.specs.Spans.{IsPlaced};
ghost use Rattle.patch_filters.specs.Filtered.{pieces};
ghost use Rattle.patch_filters.specs.HunkLines.{feeds, first_line, hunk_line, hunk_lines};

use crate::pieces::{bytes_at, put_piece};
use arrayvec::ArrayVec;
use cli_tool_words::Shown;
use hunk_core::{Form, add_piece};
use num_text::put_number;
use outside::{Failed, Sink};
use read_file_patch::FilePatch;

/// Two numbers of 20 digits at most, two tabs, a word and a line feed.
pub type Line = ArrayVec<u8, 64>;

pub fn add_decimal(line: &mut Line, number: u64)
    requires { length line.old.items ≤ 40 }
    ensures text { line.new.items ≡ line.old.items ++ decimal number }
    ensures few { length line.new.items ≤ length line.old.items + 20 }
{
    let mut digits = [0; 20];
    let count = put_number(number, &mut digits);
    add_piece(line, &digits[..count]);
}

/// The line of a hunk with this number, which begins at this line.
pub fn hunk_line(line: u64, number: u64) -> Line
    ensures { result.items ≡ hunk_line line number }
{
    let mut text = ArrayVec::new();
    add_piece(&mut text, b"\t");
    add_decimal(&mut text, line);
    add_piece(&mut text, b"\tHunk #");
    add_decimal(&mut text, number);
    add_piece(&mut text, b"\n");
    text
}

/// The number of the line at which the first hunk begins.
pub fn first_line(patch: &FilePatch) -> u64
    requires { patch.now.header.opening < 2 ^ 64 - 1 }
    ensures { result ≡ first_line patch.now.header.form patch.now.header.opening }
{
    match patch.header.form {
        Form::Unified => patch.header.opening,
        Form::Context => patch.header.opening + 1,
        Form::Normal => patch.header.opening,
        Form::Ed => patch.header.opening,
    }
}

/// How many line feeds a text has.
fn count_feeds(text: &[u8]) -> u64
    ensures { result ≡ feeds text.now }
{
    text.iter().filter(|byte| **byte == b'\n').count() as u64
}

/// How many line feeds the text of a hunk, counted from 0, has.
pub fn hunk_feeds(text: &[u8], patch: &FilePatch, hunk: u32) -> u64
    requires placed { IsPlaced text.now patch.now.span.start patch.now.first_verdict patch.now }
    requires within { hunk < row_count patch.now.change }
    ensures { result ≡ feeds (slice_index_or (pieces text.now patch.now) hunk []) }
{
    let span = patch.hunk_spans[hunk as usize];
    count_feeds(bytes_at(text, span))
}

/// Writes the line of a hunk behind the name of its text, where that is shown.
pub fn put_labelled<O: Sink>(shown: &Shown, line: &[u8], out: &mut O) -> Result<(), Failed>
    ensures { Puts O.view O.same_rest out.old out.new result (shown.now.hunk_label.items ++ line.now) }
{
    put_piece(out, &shown.hunk_label)?;
    put_piece(out, line)
}

/// Writes the lines of all hunks.
pub fn put_hunk_lines<O: Sink>(
    shown: &Shown,
    text: &[u8],
    patch: &FilePatch,
    out: &mut O,
) -> Result<(), Failed>
    requires lawful { IsLawfulChange text.now patch.now.change }
    requires placed { IsPlaced text.now patch.now.span.start patch.now.first_verdict patch.now }
    ensures { Puts O.view O.same_rest out.old out.new result (flat_map (λ line. line) (hunk_lines shown.now.hunk_label.items text.now patch.now)) }
{
    let mut line = first_line(patch);
    for hunk in 0..patch.hunks() {
        let own = hunk_line(line, u64::from(hunk) + 1);
        put_labelled(shown, own.as_slice(), out)?;
        line += hunk_feeds(text, patch, hunk);
    }
    Ok(())
}
