//! Patterns of names: `*`, `?`, sets in brackets and a backslash, as in a shell, but that `*` takes slashes too. Stands on `memchr`
//! alone. Begin with `specs/Matching.antt`.
#![tactic(auto)]

ghost use Rattle.std.specs.Prelude.{◌≡◌, ◌↔◌, ◌+◌, ◌<◌, ◌≤◌, ◌∷◌, IsTrue, ℕ, List, true, length, drop, slice_index, slice_range, MatchOption};
ghost use Rattle.glob_match.specs.Pattern.{members_of, is_sign, set_front, after_open, elements, Run as RunElement};
ghost use Rattle.glob_match.specs.Matching.{is_member as member_test, takes as takes_byte, does_match, Match, Matches};
ghost use Rattle.glob_match.specs.Walking.{plain, LiesIn, IsFront, IsRead, IsWalk};

use memchr::memchr;

/// What stands at a place of a pattern, its set as places of the pattern.
#[derive(Clone, Copy)]
enum Piece {
    Run,
    Any,
    Byte(u8),
    OneOf {
        is_opposite: bool,
        start: usize,
        end: usize,
    },
}

/// An element, and the place after it.
#[derive(Clone, Copy)]
struct Read {
    piece: Piece,
    next: usize,
}

/// Where the elements up to the next run lead: nowhere, to the ends of pattern and name, or to a run.
#[derive(Drop)]
enum Reach {
    Mismatch,
    Whole,
    Run { next: usize, place: usize },
}

fn is_member(members: &[u8], byte: u8) -> bool
    ensures { result ≡ member_test members.now byte }
{
    let mut at = 0;
    while at < members.len() {
        if members.len() - at > 2 && members[at + 1] == b'-' {
            if members[at] <= byte && byte <= members[at + 2] {
                return true;
            }
            at += 3;
        } else {
            if members[at] == byte {
                return true;
            }
            at += 1;
        }
    }
    false
}

// The place of the bracket that ends a set whose members begin at `start`.
fn set_end(pattern: &[u8], start: usize) -> Option<usize>
    requires { start ≤ length pattern.now }
    ensures { MatchOption result (members_of (drop start pattern.now) ≡ None) (λ end. (start < end) × (end < length pattern.now) × (members_of (drop start pattern.now) ≡ Some (slice_range pattern.now start end))) }
{
    if start >= pattern.len() {
        return None;
    }
    let further = memchr(b']', &pattern[start + 1..])?;
    Some(start + 1 + further)
}

fn has_sign(pattern: &[u8], at: usize) -> bool
    requires { at ≤ length pattern.now }
    ensures { result ≡ is_sign (drop at pattern.now) }
{
    at < pattern.len() && (pattern[at] == b'!' || pattern[at] == b'^')
}

// The set that opens at `at` and whose members begin `sign + 1` bytes further.
fn set_from(pattern: &[u8], at: usize, sign: usize, is_opposite: bool) -> Read
    requires place { at + sign + 1 ≤ length pattern.now }
    requires signs { sign ≤ 1 }
    ensures { IsFront pattern.now at (set_front is_opposite sign (members_of (drop (at + sign + 1) pattern.now))) result }
{
    let start = at + sign + 1;
    match set_end(pattern, start) {
        Some(end) => Read {
            piece: Piece::OneOf {
                is_opposite,
                start,
                end,
            },
            next: end + 1,
        },
        None => Read {
            piece: Piece::Byte(b'['),
            next: at + 1,
        },
    }
}

fn set_at(pattern: &[u8], at: usize) -> Read
    requires { at < length pattern.now }
    ensures { IsFront pattern.now at (after_open (drop (at + 1) pattern.now)) result }
{
    if has_sign(pattern, at + 1) {
        set_from(pattern, at, 1, true)
    } else {
        set_from(pattern, at, 0, false)
    }
}

#[tactic(auto, unfolding(crate::specs::Pattern::front_of))]
fn read_at(pattern: &[u8], at: usize) -> Read
    requires { at < length pattern.now }
    ensures { IsRead pattern.now at result }
{
    let next = at + 1;
    match pattern[at] {
        b'*' => Read {
            piece: Piece::Run,
            next,
        },
        b'?' => Read {
            piece: Piece::Any,
            next,
        },
        b'\\' if next < pattern.len() => Read {
            piece: Piece::Byte(pattern[next]),
            next: next + 1,
        },
        b'[' => set_at(pattern, at),
        byte => Read {
            piece: Piece::Byte(byte),
            next,
        },
    }
}

fn takes(pattern: &[u8], piece: Piece, byte: u8) -> bool
    requires { LiesIn pattern.now piece }
    ensures { result ≡ takes_byte (plain pattern.now piece) byte }
{
    match piece {
        Piece::Run => false,
        Piece::Any => true,
        Piece::Byte(own) => own == byte,
        Piece::OneOf {
            is_opposite,
            start,
            end,
        } => is_member(&pattern[start..end], byte) != is_opposite,
    }
}

fn is_run(piece: Piece) -> bool
    ensures { IsTrue result ↔ (piece ≡ Piece.Run) }
{
    match piece {
        Piece::Run => true,
        _ => false,
    }
}

// Takes the name from `from` on by the elements from `start` on, up to a run or the pattern's end.
fn walk(pattern: &[u8], start: usize, name: &[u8], from: usize) -> Reach
    requires starts { start ≤ length pattern.now }
    requires froms { from ≤ length name.now }
    ensures { IsWalk pattern.now start name.now from result }
{
    let mut at = start;
    let mut place = from;
    while at < pattern.len() {
        let read = read_at(pattern, at);
        if is_run(read.piece) {
            return Reach::Run {
                next: read.next,
                place,
            };
        }
        if place == name.len() {
            return Reach::Mismatch;
        }
        if !takes(pattern, read.piece, name[place]) {
            return Reach::Mismatch;
        }
        at = read.next;
        place += 1;
    }
    if place == name.len() {
        Reach::Whole
    } else {
        Reach::Mismatch
    }
}

// Whether the pattern from `start` on matches an end of the name from `from` on. Only the last run is taken up again,
// since what an earlier one would leave for the rest is no more.
fn matches_after_run(pattern: &[u8], start: usize, name: &[u8], from: usize) -> bool
    requires starts { start ≤ length pattern.now }
    requires froms { from ≤ length name.now }
    ensures { IsTrue result ↔ Match (RunElement ∷ elements (drop start pattern.now)) (drop from name.now) }
{
    let mut at = start;
    let mut place = from;
    loop {
        match walk(pattern, at, name, place) {
            Reach::Whole => return true,
            Reach::Run {
                next,
                place: further,
            } => {
                at = next;
                place = further;
            }
            Reach::Mismatch => {
                if place == name.len() {
                    return false;
                }
                place += 1;
            }
        }
    }
}

/// Whether the pattern matches the whole name, byte by byte: `*` any run of bytes, slashes too; `?` one byte; `[..]` one byte
/// of a set with ranges, `!` or `^` in front for the opposite, a first `]` being a member; a backslash the next byte itself. A
/// `[` without an end, and a backslash at the end, stand for themselves. Of the `*` that were passed the last alone is kept: an
/// earlier one never helps what stands behind.
pub fn matches(pattern: &[u8], name: &[u8]) -> bool
    ensures relation { IsTrue result ↔ Matches pattern.now name.now }
    ensures test { result ≡ does_match pattern.now name.now }
{
    fits(pattern, name)
}

fn fits(pattern: &[u8], name: &[u8]) -> bool
    ensures { IsTrue result ↔ Matches pattern.now name.now }
{
    match walk(pattern, 0, name, 0) {
        Reach::Mismatch => false,
        Reach::Whole => true,
        Reach::Run { next, place } => matches_after_run(pattern, next, name, place),
    }
}

/// The test of a match says what the relation says.
pub fn matches_are_decided()
    ensures { (pattern name : List ℕ) → (does_match pattern name ≡ true) ↔ Matches pattern name }
{}
