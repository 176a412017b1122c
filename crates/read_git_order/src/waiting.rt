//! Which file patches wait for which others.

ghost use Rattle.std.specs.Prelude.{◌≡◌, ◌≤◌, [], codes, length, unwrap_or};
ghost use Rattle.hunk_core.specs.LineTests.{after};
ghost use Rattle.read_git_order.specs.Batches.{makes_same};
ghost use Rattle.read_git_order.specs.Waiting.{changes, changes_source, digits, hash_front, index_at, index_of, is_digit, is_file, is_made_for, is_same_hash, new_hash, of_two, old_hash, reads_later, second_hash, waits};

use crate::pieces::{Piece, own};
use hunk_core::after_prefix;

/// Whether this number is that of the file, if there is one.
pub fn is_file(own: Option<usize>, file: usize) -> bool
    ensures { result ≡ is_file own file }
{
    match own {
        Some(own) => own == file,
        None => false,
    }
}

fn is_number(own: Option<u32>, file: u32) -> bool
    ensures { result ≡ is_file own file }
{
    match own {
        Some(own) => own == file,
        None => false,
    }
}

/// Whether a file patch makes, changes or takes away the file.
pub fn changes(piece: &Piece, file: u32) -> bool
    ensures { result ≡ changes piece.now file }
{
    if is_number(piece.made, file) {
        return true;
    }
    piece.takes && is_number(piece.source, file)
}

/// Whether one changes the file that the other renames or copies.
fn changes_source(one: &Piece, other: &Piece) -> bool
    ensures { result ≡ changes_source one.now other.now }
{
    match other.source {
        Some(file) => changes(one, file),
        None => false,
    }
}

/// Whether both make the same file.
pub fn makes_same(one: &Piece, other: &Piece) -> bool
    ensures { result ≡ makes_same one.now other.now }
{
    match other.made {
        Some(file) => is_number(one.made, file),
        None => false,
    }
}

fn is_digit(byte: u8) -> bool
    ensures { result ≡ is_digit byte }
{
    (byte >= 48 && byte < 58) || (byte >= 97 && byte < 103)
}

/// How many digits of a hash stand in front.
fn digits(bytes: &[u8]) -> usize
    ensures is { result ≡ digits bytes.now }
    ensures within { result ≤ length bytes.now }
{
    let mut count = 0;
    'digits: while count < bytes.len() {
        if !is_digit(bytes[count]) {
            return count;
        }
        count += 1;
    }
    count
}

fn hash_front(bytes: &[u8]) -> &[u8]
    ensures { result.now ≡ hash_front bytes.now }
{
    &bytes[..digits(bytes)]
}

/// The hash behind the first one and two dots.
fn second_hash(bytes: &[u8]) -> &[u8]
    ensures { result.now ≡ second_hash bytes.now }
{
    match after_prefix(&bytes[digits(bytes)..], b"..") {
        Some(rest) => hash_front(rest),
        None => b"",
    }
}

/// What stands in an index line behind its mark.
fn index_at(bytes: &[u8], at: Option<usize>) -> &[u8]
    ensures { result.now ≡ index_at bytes.now at }
{
    match at {
        Some(at) => behind_mark(&bytes[usize::min(at, bytes.len())..]),
        None => b"",
    }
}

fn behind_mark(line: &[u8]) -> &[u8]
    ensures { result.now ≡ unwrap_or (after (codes "index ") line.now) [] }
{
    match after_prefix(line, b"index ") {
        Some(rest) => rest,
        None => b"",
    }
}

fn index_of<'t>(text: &'t [u8], piece: &Piece) -> &'t [u8]
    ensures { result.now ≡ index_of text.now piece.now }
{
    index_at(own(text, piece), piece.places.index)
}

fn old_hash(reverse: bool, index: &[u8]) -> &[u8]
    ensures { result.now ≡ old_hash reverse index.now }
{
    if reverse {
        second_hash(index)
    } else {
        hash_front(index)
    }
}

fn new_hash(reverse: bool, index: &[u8]) -> &[u8]
    ensures { result.now ≡ new_hash reverse index.now }
{
    if reverse {
        hash_front(index)
    } else {
        second_hash(index)
    }
}

/// Whether two hashes are equal as far as both are written.
fn is_same_hash(one: &[u8], other: &[u8]) -> bool
    ensures { result ≡ is_same_hash one.now other.now }
{
    if one.is_empty() || other.is_empty() {
        return false;
    }
    one.starts_with(other) || other.starts_with(one)
}

/// Whether the second, behind the first in the text, is made for what the first makes of its source.
fn is_made_for(text: &[u8], reverse: bool, one: &Piece, other: &Piece) -> bool
    ensures { result ≡ is_made_for text.now reverse one.now other.now }
{
    if one.start >= other.start || !changes_source(one, other) {
        return false;
    }
    let made = new_hash(reverse, index_of(text, one));
    is_same_hash(made, old_hash(reverse, index_of(text, other)))
}

/// Whether the second of two, given by their places, is made for what the first makes of its source.
fn are_made_for(text: &[u8], reverse: bool, pieces: &[Piece], one: usize, other: usize) -> bool
    ensures { result ≡ of_two (is_made_for text.now reverse) pieces.now one other }
{
    let Some(first) = pieces.get(one) else {
        return false;
    };
    let Some(second) = pieces.get(other) else {
        return false;
    };
    is_made_for(text, reverse, first, second)
}

/// Whether one changes the source of the other, by their places.
fn change_source(pieces: &[Piece], one: usize, other: usize) -> bool
    ensures { result ≡ of_two changes_source pieces.now one other }
{
    let Some(first) = pieces.get(one) else {
        return false;
    };
    let Some(second) = pieces.get(other) else {
        return false;
    };
    changes_source(first, second)
}

/// Whether one of these makes what this one is made for.
fn reads_later(text: &[u8], reverse: bool, pieces: &[Piece], batch: &[usize], other: usize) -> bool
    ensures { result ≡ reads_later text.now reverse pieces.now batch.now other }
{
    batch
        .iter()
        .any(|one| are_made_for(text, reverse, pieces, *one, other))
}

/// Whether a file patch of a batch waits for another one.
pub fn waits(
    text: &[u8],
    reverse: bool,
    pieces: &[Piece],
    batch: &[usize],
    one: usize,
    other: usize,
) -> bool
    ensures { result ≡ waits text.now reverse pieces.now batch.now one other }
{
    if one == other || !change_source(pieces, one, other) {
        return false;
    }
    !reads_later(text, reverse, pieces, batch, other)
}
