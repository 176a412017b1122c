//! The two names of a git line.

ghost use Rattle.std.specs.Prelude.{◌≡◌, ◌<◌, ◌≤◌, ◌+◌, ◌^◌, ◌&&◌, ◌==◌, get_or, length, take, drop, None, IfSome};
ghost use Rattle.std.specs.List.{position};
ghost use Rattle.patch_header.specs.GitRows.{has_halves, half, halves, quoted_or_word, second, two_words, both_names, are_alike, old_half, new_half, git_name, FitsIn};
ghost use Rattle.patch_header.specs.Region.{LiesIn};
ghost use Rattle.patch_header.specs.Values.{IsPieceOf};

use crate::region::Tail;
use crate::values::{blanks, length_or, span_at, word_length};
use bstr::ByteSlice;
use line_list::Span;
use read_header_record::begins_quoted;

/// Where two names of a git line stand: how long the old one in front is, where the new one begins, and how long it is.
#[derive(Clone, Copy)]
pub struct Pair {
    pub old: usize,
    pub start: usize,
    pub new: usize,
}

/// Whether a name without a slash is equal to another one.
fn equals_without(old: &[u8], new: &[u8]) -> bool
    requires { position (λ b. b == 47) old.now ≡ None }
    ensures { result ≡ are_alike old.now new.now }
{
    match new.find_byte(b'/') {
        None => old == new,
        Some(_) => false,
    }
}

/// Whether both are equal behind their first slash, or without one.
fn are_alike(old: &[u8], new: &[u8]) -> bool
    ensures { result ≡ are_alike old.now new.now }
{
    match old.find_byte(b'/') {
        None => equals_without(old, new),
        Some(k) => match new.find_byte(b'/') {
            None => false,
            Some(l) => {
                let old_rest = &old[k + 1..];
                let new_rest = &new[l + 1..];
                old_rest == new_rest
            }
        },
    }
}

/// Whether two names stand beside a space at this place.
fn is_split(bytes: &[u8], middle: usize) -> bool
    requires { middle < length bytes.now }
    ensures { result ≡ (get_or bytes.now middle 0 == 32 && are_alike (take middle bytes.now) (drop (middle + 1) bytes.now)) }
{
    bytes[middle] == b' ' && are_alike(&bytes[..middle], &bytes[middle + 1..])
}

/// Whether two names stand beside a space in the middle.
#[tactic(auto, unfolding(crate::specs::GitRows::has_halves))]
fn has_halves(bytes: &[u8]) -> bool
    ensures { result ≡ has_halves bytes.now }
{
    bytes.len() % 2 == 1 && is_split(bytes, half(bytes))
}

/// How long each half is, beside the middle byte.
fn half(bytes: &[u8]) -> usize
    ensures is { result ≡ half bytes.now }
    ensures within { result + result ≤ length bytes.now }
{
    bytes.len() / 2
}

/// The names beside the space in the middle.
fn halves(bytes: &[u8]) -> Option<Pair>
    ensures is { result ≡ halves bytes.now }
    ensures within { IfSome result (FitsIn bytes.now) }
{
    let middle = half(bytes);
    if !has_halves(bytes) {
        return None;
    }
    Some(Pair {
        old: middle,
        start: middle + 1,
        new: middle,
    })
}

/// How long the name in quotes in front is, or the word.
fn quoted_or_word(bytes: &[u8]) -> usize
    ensures is { result ≡ quoted_or_word bytes.now }
    ensures within { result ≤ length bytes.now }
{
    length_or(word_length(bytes), bytes)
}

/// Where the second of two words begins.
fn second(bytes: &[u8]) -> usize
    ensures is { result ≡ second bytes.now }
    ensures within { result ≤ length bytes.now }
{
    let word = quoted_or_word(bytes);
    word + blanks(&bytes[word..])
}

/// Two words with blanks between them, the second from this place on, and nothing else behind it.
fn two_words(bytes: &[u8], start: usize) -> Option<Pair>
    requires { start ≤ length bytes.now }
    ensures is { result ≡ two_words bytes.now start }
    ensures within { IfSome result (FitsIn bytes.now) }
{
    let old = quoted_or_word(bytes);
    let new = quoted_or_word(&bytes[start..]);
    if old < start && start + new + blanks(&bytes[start + new..]) == bytes.len() {
        Some(Pair { old, start, new })
    } else {
        None
    }
}

/// Both names of what stands in a git line behind its beginning.
fn both_names(bytes: &[u8]) -> Option<Pair>
    ensures is { result ≡ both_names bytes.now }
    ensures within { IfSome result (FitsIn bytes.now) }
{
    let start = second(bytes);
    if begins_quoted(bytes) || begins_quoted(&bytes[start..]) {
        two_words(bytes, start)
    } else {
        halves(bytes)
    }
}

/// The old name of a git line.
pub fn old_half(text: &[u8], tail: Option<Tail>) -> Option<Span>
    requires short { length text.now < 2 ^ 32 }
    requires lies { IfSome tail (LiesIn text.now) }
    ensures is { result ≡ old_half text.now tail }
    ensures piece { IfSome result (IsPieceOf text.now) }
{
    match tail {
        None => None,
        Some(tail) => match both_names(&text[tail.start..tail.end]) {
            None => None,
            Some(pair) => span_at(tail.start, pair.old),
        },
    }
}

/// The new name of a git line.
pub fn new_half(text: &[u8], tail: Option<Tail>) -> Option<Span>
    requires short { length text.now < 2 ^ 32 }
    requires lies { IfSome tail (LiesIn text.now) }
    ensures is { result ≡ new_half text.now tail }
    ensures piece { IfSome result (IsPieceOf text.now) }
{
    match tail {
        None => None,
        Some(tail) => match both_names(&text[tail.start..tail.end]) {
            None => None,
            Some(pair) => span_at(tail.start + pair.start, pair.new),
        },
    }
}

/// The new name of a git line, as what stands in a line of its own.
pub fn git_name(text: &[u8], rest: Option<Tail>) -> Option<Tail>
    requires { IfSome rest (LiesIn text.now) }
    ensures is { result ≡ git_name text.now rest }
    ensures lies { IfSome result (LiesIn text.now) }
{
    match rest {
        None => None,
        Some(rest) => match both_names(&text[rest.start..rest.end]) {
            None => None,
            Some(pair) => Some(Tail {
                number: rest.number,
                start: rest.start + pair.start,
                end: rest.start + pair.start + pair.new,
            }),
        },
    }
}
