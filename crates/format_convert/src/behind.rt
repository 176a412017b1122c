//! The text behind the ranges of a hunk.

ghost use Rattle.std.specs.Prelude.{◌≡◌, ◌≤◌, ◌<◌, ◌==◌, ℕ, List, drop, length, IfSome};
ghost use Rattle.std.specs.List.{position};
ghost use Rattle.format_convert.specs.Behind.{behind_in, behind_old, behind_ranges, behind_stars, line_rest, next_lines, past, place_of, unless_empty};

use hunk_core::Form;

const STARS: &[u8] = b"***************";

fn is_same(byte: u8, other: u8) -> bool
    ensures { result ≡ (byte == other) }
{
    byte == other
}

fn found_at(bytes: &[u8], byte: u8) -> Option<usize>
    ensures place { result ≡ position (λ b. b == byte) bytes.now }
    ensures bound { IfSome result (λ n. n < length bytes.now) }
{
    bytes.iter().position(|each| is_same(*each, byte))
}

/// Where a byte stands first, or the end.
fn place_of(bytes: &[u8], byte: u8) -> usize
    ensures is { result ≡ place_of byte bytes.now }
    ensures within { result ≤ length bytes.now }
{
    match found_at(bytes, byte) {
        Some(place) => place,
        None => bytes.len(),
    }
}

/// The bytes from a place on; none behind the end.
fn cut(bytes: &[u8], count: usize) -> &[u8]
    ensures { result.now ≡ drop count bytes.now }
{
    if count > bytes.len() {
        return &bytes[bytes.len()..];
    }
    &bytes[count..]
}

fn line_rest(bytes: &[u8]) -> &[u8]
    ensures { result.now ≡ line_rest bytes.now }
{
    &bytes[..place_of(bytes, b'\n')]
}

fn past(bytes: &[u8], byte: u8, count: usize) -> &[u8]
    ensures { result.now ≡ past byte count bytes.now }
{
    cut(cut(bytes, place_of(bytes, byte)), count)
}

fn behind_ranges(piece: &[u8]) -> &[u8]
    ensures { result.now ≡ behind_ranges piece.now }
{
    line_rest(past(cut(piece, 2), b'@', 2))
}

fn behind_old(line: &[u8]) -> &[u8]
    ensures { result.now ≡ behind_old line.now }
{
    line_rest(past(cut(line, 4), b'*', 4))
}

fn unless_empty<'a>(own: &'a [u8], other: &'a [u8]) -> &'a [u8]
    ensures { result.now ≡ unless_empty own.now other.now }
{
    if own.is_empty() { other } else { own }
}

fn behind_stars(piece: &[u8]) -> &[u8]
    ensures { result.now ≡ behind_stars piece.now }
{
    if piece.starts_with(STARS) {
        let own = line_rest(cut(piece, 15));
        return unless_empty(own, behind_old(past(piece, b'\n', 1)));
    }
    behind_old(piece)
}

/// What stands behind the ranges of a hunk of this form, up to the end of the line.
pub fn behind_in(form: Form, piece: &[u8]) -> &[u8]
    ensures { result.now ≡ behind_in form piece.now }
{
    match form {
        Form::Unified => behind_ranges(piece),
        Form::Context => behind_stars(piece),
        Form::Normal | Form::Ed => &piece[piece.len()..],
    }
}
