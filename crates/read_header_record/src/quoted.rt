//! Names in quotes, as git and diff write those whose bytes would mislead a reader.

ghost use Rattle.std.specs.Prelude.{◌≡◌, ◌<◌, ◌≤◌, ◌++◌, ℕ, List, Some, length, take, slice_index, IfOk, IfSome, option_map};
ghost use Rattle.std.specs.List.{AllByRecursion};
ghost use Rattle.read_header_record.specs.Quoted.{letter_byte, is_octal, octal_byte, escaped, spelling, quoted_length, unquoted, begins_quoted, name_of, quoted, IsNameByte};

use std::alloc::{AllocError, Global};

/// A byte of a name, and how many bytes spell it.
#[derive(Clone, Copy)]
pub struct SpelledByte {
    pub byte: u8,
    pub size: usize,
}

/// The byte at a place; past the end stands 0.
fn byte_at(bytes: &[u8], at: usize) -> u8
    ensures { result ≡ slice_index bytes.now at }
{
    if at < bytes.len() { bytes[at] } else { 0 }
}

fn letter_byte(letter: u8) -> Option<u8>
    ensures { result ≡ letter_byte letter }
{
    match letter {
        b'a' => Some(7),
        b'b' => Some(8),
        b't' => Some(9),
        b'n' => Some(10),
        b'v' => Some(11),
        b'f' => Some(12),
        b'r' => Some(13),
        b'"' => Some(34),
        b'\\' => Some(92),
        _ => None,
    }
}

/// Whether a byte is `0` to `7`.
pub fn is_octal(byte: u8) -> bool
    ensures { result ≡ is_octal byte }
{
    b'0' <= byte && byte <= b'7'
}

fn octal_byte(a: u8, b: u8, c: u8) -> Option<u8>
    ensures { result ≡ octal_byte a b c }
{
    if !(is_octal(a) && is_octal(b) && is_octal(c)) {
        return None;
    }
    let value = u32::from(a - b'0') * 64 + u32::from(b - b'0') * 8 + u32::from(c - b'0');
    if 0 < value && value < 256 {
        Some(value as u8)
    } else {
        None
    }
}

/// What a backslash in front begins.
fn escaped(bytes: &[u8]) -> Option<SpelledByte>
    ensures is { result ≡ escaped bytes.now }
    ensures within { IfSome result (λ s. (0 < s.size) × (s.size ≤ length bytes.now)) }
{
    if let Some(byte) = letter_byte(byte_at(bytes, 1)) {
        return Some(SpelledByte { byte, size: 2 });
    }
    match octal_byte(byte_at(bytes, 1), byte_at(bytes, 2), byte_at(bytes, 3)) {
        Some(byte) => Some(SpelledByte { byte, size: 4 }),
        None => None,
    }
}

#[tactic(auto, unfolding(crate::specs::Quoted::spelling))]
fn spelling(bytes: &[u8]) -> Option<SpelledByte>
    requires { 0 < length bytes.now }
    ensures is { result ≡ spelling bytes.now }
    ensures within { IfSome result (λ s. (0 < s.size) × (s.size ≤ length bytes.now)) }
{
    if byte_at(bytes, 0) == b'\\' {
        return escaped(bytes);
    }
    Some(SpelledByte {
        byte: byte_at(bytes, 0),
        size: 1,
    })
}

/// Whether a text begins with a quote.
pub fn begins_quoted(text: &[u8]) -> bool
    ensures { result ≡ begins_quoted text.now }
{
    match text.first() {
        Some(byte) => *byte == b'"',
        None => false,
    }
}

/// How long the name in quotes is that stands in front, both quotes with it.
pub fn quoted_length(bytes: &[u8]) -> Option<usize>
    ensures is { result ≡ quoted_length bytes.now }
    ensures within { IfSome result (λ n. (0 < n) × (n ≤ length bytes.now)) }
{
    if !begins_quoted(bytes) {
        return None;
    }
    let mut at = 1;
    while at < bytes.len() && bytes[at] != b'"' {
        match spelling(&bytes[at..]) {
            None => return None,
            Some(one) => at += one.size,
        }
    }
    if at < bytes.len() { Some(at + 1) } else { None }
}

/// The name that is spelled by all of a text in quotes.
pub fn unquoted(alloc: Global, text: &[u8]) -> Result<Option<Vec<u8>>, AllocError>
    ensures { IfOk result (λ name. option_map (λ n. n.items) name ≡ unquoted text.now) }
{
    let mut name = Vec::new(alloc);
    if !begins_quoted(text) {
        return Ok(None);
    }
    let mut at = 1;
    while at < text.len() && text[at] != b'"' {
        match spelling(&text[at..]) {
            None => return Ok(None),
            Some(one) => {
                name.push(one.byte)?;
                at += one.size;
            }
        }
    }
    if at + 1 == text.len() {
        Ok(Some(name))
    } else {
        Ok(None)
    }
}

/// A name in quotes, as git writes it, is read as that name, and a name in quotes ends with its own last quote, whatever
/// follows.
pub fn quotes_are_read_back()
    ensures name { (name : List ℕ) → AllByRecursion IsNameByte name → name_of (quoted name) ≡ Some name }
    ensures ends { (bytes rest : List ℕ) (n : ℕ) → quoted_length bytes ≡ Some n → quoted_length (take n bytes ++ rest) ≡ Some n }
{}
