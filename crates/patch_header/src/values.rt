//! Names, words and stamps in header lines.

ghost use Rattle.std.specs.Prelude.{◌≡◌, ◌<◌, ◌≤◌, ◌+◌, ◌^◌, ◌==◌, length, IfSome};
ghost use Rattle.patch_header.specs.Region.{LiesIn};
ghost use Rattle.patch_header.specs.GitRows.{whole_in};
ghost use Rattle.patch_header.specs.Values.{first, blanks, unblanked, bare_length, length_or, name_length, index_length, word_length, behind_name, span_at, name_in, index_in, word_in, stamp_in, bytes_of, IsPieceOf};

use crate::region::Tail;
use bstr::ByteSlice;
use line_list::Span;
use read_header_record::{begins_quoted, quoted_length};
use stamp::{Stamp, read_stamp};

/// How many blanks stand in front.
pub fn blanks(bytes: &[u8]) -> usize
    ensures is { result ≡ blanks bytes.now }
    ensures within { result ≤ length bytes.now }
{
    match bytes.find_not_byteset(b" \t") {
        Some(count) => count,
        None => bytes.len(),
    }
}

/// How long the name in front is, where it has no quotes.
fn bare_length(bytes: &[u8]) -> usize
    ensures is { result ≡ bare_length bytes.now }
    ensures within { result ≤ length bytes.now }
{
    if let Some(tab) = bytes.find_byte(b'\t') {
        return tab;
    }
    match bytes.find_byte(b' ') {
        Some(space) => space,
        None => bytes.len(),
    }
}

/// How long the name in quotes in front is, or else another one.
pub fn length_or(bare: usize, bytes: &[u8]) -> usize
    requires { bare ≤ length bytes.now }
    ensures is { result ≡ length_or bare bytes.now }
    ensures within { result ≤ length bytes.now }
{
    if !begins_quoted(bytes) {
        return bare;
    }
    match quoted_length(bytes) {
        Some(count) => count,
        None => 0,
    }
}

/// How long the name in front is.
pub fn name_length(bytes: &[u8]) -> usize
    ensures is { result ≡ name_length bytes.now }
    ensures within { result ≤ length bytes.now }
{
    length_or(bare_length(bytes), bytes)
}

/// How many bytes stand in front of the first tab.
fn before_tab(bytes: &[u8]) -> usize
    ensures is { result ≡ first (λ b. b == 9) bytes.now }
    ensures within { result ≤ length bytes.now }
{
    match bytes.find_byte(b'\t') {
        Some(tab) => tab,
        None => bytes.len(),
    }
}

/// How long the name of an `Index:` line is that stands in front.
pub fn index_length(bytes: &[u8]) -> usize
    ensures is { result ≡ index_length bytes.now }
    ensures within { result ≤ length bytes.now }
{
    length_or(before_tab(bytes), bytes)
}

/// How long the word in front is.
pub fn word_length(bytes: &[u8]) -> usize
    ensures is { result ≡ word_length bytes.now }
    ensures within { result ≤ length bytes.now }
{
    match bytes.find_byteset(b" \t\n\x0b\x0c\r") {
        Some(end) => end,
        None => bytes.len(),
    }
}

/// A piece of a text of less than 4 GiB, if it has a byte.
pub fn span_at(start: usize, len: usize) -> Option<Span>
    requires { start + len < 2 ^ 32 }
    ensures { result ≡ span_at start len }
{
    if len == 0 {
        return None;
    }
    Some(Span {
        start: start as u32,
        end: (start + len) as u32,
    })
}

/// The name of the line.
pub fn name_in(text: &[u8], tail: Option<Tail>) -> Option<Span>
    requires short { length text.now < 2 ^ 32 }
    requires lies { IfSome tail (LiesIn text.now) }
    ensures is { result ≡ name_in text.now tail }
    ensures piece { IfSome result (IsPieceOf text.now) }
{
    match tail {
        None => None,
        Some(tail) => {
            let bytes = &text[tail.start..tail.end];
            let skipped = blanks(bytes);
            span_at(tail.start + skipped, name_length(&bytes[skipped..]))
        }
    }
}

/// The name of an `Index:` line.
pub fn index_in(text: &[u8], tail: Option<Tail>) -> Option<Span>
    requires short { length text.now < 2 ^ 32 }
    requires lies { IfSome tail (LiesIn text.now) }
    ensures is { result ≡ index_in text.now tail }
    ensures piece { IfSome result (IsPieceOf text.now) }
{
    match tail {
        None => None,
        Some(tail) => {
            let bytes = &text[tail.start..tail.end];
            let skipped = blanks(bytes);
            span_at(tail.start + skipped, index_length(&bytes[skipped..]))
        }
    }
}

/// A name that goes up to the end of the line.
pub fn whole_in(text: &[u8], tail: Option<Tail>) -> Option<Span>
    requires short { length text.now < 2 ^ 32 }
    requires lies { IfSome tail (LiesIn text.now) }
    ensures is { result ≡ whole_in tail }
    ensures piece { IfSome result (IsPieceOf text.now) }
{
    match tail {
        None => None,
        Some(tail) => span_at(tail.start, text[tail.start..tail.end].len()),
    }
}

/// The word of the line.
pub fn word_in(text: &[u8], tail: Option<Tail>) -> Option<Span>
    requires short { length text.now < 2 ^ 32 }
    requires lies { IfSome tail (LiesIn text.now) }
    ensures is { result ≡ word_in text.now tail }
    ensures piece { IfSome result (IsPieceOf text.now) }
{
    match tail {
        None => None,
        Some(tail) => {
            let bytes = &text[tail.start..tail.end];
            let skipped = blanks(bytes);
            span_at(tail.start + skipped, word_length(&bytes[skipped..]))
        }
    }
}

/// What follows the name and the blanks behind it.
fn behind_name(bytes: &[u8]) -> &[u8]
    ensures { result.now ≡ behind_name bytes.now }
{
    let rest = &bytes[name_length(bytes)..];
    &rest[blanks(rest)..]
}

/// What the stamp of the line says.
pub fn stamp_in(text: &[u8], tail: Option<Tail>) -> Stamp
    requires { IfSome tail (LiesIn text.now) }
    ensures { result ≡ stamp_in text.now tail }
{
    match tail {
        None => Stamp::Unknown,
        Some(tail) => {
            let bytes = &text[tail.start..tail.end];
            read_stamp(behind_name(&bytes[blanks(bytes)..]))
        }
    }
}
