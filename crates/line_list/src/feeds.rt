//! The ends of lines that stand near each other: one look at 512 bytes finds those of many short lines, and waits for memory once.

ghost use Rattle.std.specs.Prelude.{◌≡◌, ◌+◌, ◌*◌, ◌<◌, ◌≤◌, ℕ, List, None, length, IfSome};
ghost use Rattle.std.specs.Int.{bit_at};
ghost use Rattle.line_list.specs.Lines.{EndsLine, IsLineAt};
ghost use Rattle.line_list.specs.Feeds.{AreFeeds, AreMarks, NoFeed};

use crate::next_line;
use std::simd::prelude::*;

/// How many bytes one word of marks tells of.
const WIDTH: usize = 64;

/// How many words are made at a time.
const WORDS: usize = 8;

/// Which bytes of a part of a text are line feeds.
#[derive(Clone, Copy)]
pub struct LineFeeds {
    /// Where the part begins.
    pub at: usize,
    /// How many words of marks it has, at most eight; with none nothing is known.
    pub count: usize,
    /// Bit `k` of word `w` is set where the byte at `at + 64 * w + k` is a line feed.
    pub marks: [u64; 8],
}

impl LineFeeds {
    /// Nothing is known yet.
    pub fn unknown() -> LineFeeds
        ensures { (text : List ℕ) → AreFeeds text result }
    {
        LineFeeds {
            at: 0,
            count: 0,
            marks: [0; WORDS],
        }
    }
}

/// The place after the line that begins at `at`, or `None` at the end of the text, as `next_line` gives it. Who goes from line to line with the
/// same feeds finds the ends of short lines in half the time.
#[inline(always)]
pub fn next_line_by(text: &[u8], at: usize, feeds: &mut LineFeeds) -> Option<usize>
    requires within { at ≤ length text.now }
    requires feeds { AreFeeds text.now feeds.old }
    ensures end { EndsLine text.now at result }
    ensures feeds { AreFeeds text.now feeds.new }
{
    if let Some(end) = known_end(text, at, feeds) {
        return Some(end);
    }
    look_on(text, at, feeds);
    match known_end(text, at, feeds) {
        Some(end) => Some(end),
        None => next_line(text, at),
    }
}

/// The place after the line that begins at `at`, where the feeds tell it: its line feed is in the word of `at` or in the next one.
#[inline(always)]
fn known_end(text: &[u8], at: usize, feeds: &LineFeeds) -> Option<usize>
    requires within { at ≤ length text.now }
    requires feeds { AreFeeds text.now feeds.now }
    ensures { IfSome result (IsLineAt text.now at) }
{
    if at < feeds.at {
        return None;
    }
    let passed = at - feeds.at;
    let word = passed / WIDTH;
    if word >= feeds.count {
        return None;
    }
    match first_mark(feeds.marks[word], passed % WIDTH) {
        Some(k) => Some(at + k + 1),
        None => end_in(text, at, feeds, word + 1),
    }
}

/// The place after the line that begins at `at`, where it goes on to this word and ends in it.
#[inline(always)]
fn end_in(text: &[u8], at: usize, feeds: &LineFeeds, word: usize) -> Option<usize>
    requires feeds { AreFeeds text.now feeds.now }
    requires order { at ≤ feeds.now.at + 64 * word }
    requires before { NoFeed text.now at (feeds.now.at + 64 * word) }
    ensures { IfSome result (IsLineAt text.now at) }
{
    if word >= feeds.count {
        return None;
    }
    match first_mark(feeds.marks[word], 0) {
        Some(k) => Some(feeds.at + WIDTH * word + k + 1),
        None => None,
    }
}

/// How far behind `passed` the first bit is set that isn't below it.
#[inline(always)]
fn first_mark(marks: u64, passed: usize) -> Option<usize>
    requires { passed < 64 }
    ensures within { IfSome result (λ k. passed + k < 64) }
    ensures set { IfSome result (λ k. bit_at marks (passed + k) ≡ 1) }
    ensures below { IfSome result (λ k. (j : ℕ) → j < k → bit_at marks (passed + j) ≡ 0) }
    ensures none { result ≡ None → (j : ℕ) → bit_at marks (passed + j) ≡ 0 }
{
    let left = marks >> passed;
    if left == 0 {
        return None;
    }
    Some(left.trailing_zeros() as usize)
}

/// Looks at the bytes from `at` on.
fn look_on(text: &[u8], at: usize, feeds: &mut LineFeeds)
    requires { at ≤ length text.now }
    ensures { AreFeeds text.now feeds.new }
{
    let count = WORDS.min((text.len() - at) / WIDTH);
    let mut marks = [0; WORDS];
    for word in 0..count {
        marks[word] = marks_at(text, at + WIDTH * word);
    }
    *feeds = LineFeeds { at, count, marks };
}

/// A bit for each of 64 bytes, which is set where it is a line feed.
#[inline(always)]
fn marks_at(text: &[u8], at: usize) -> u64
    requires { at + 64 ≤ length text.now }
    ensures { AreMarks text.now at result }
{
    let bytes = u8x64::from_slice(&text[at..]);
    bytes.simd_eq(u8x64::splat(b'\n')).to_bitmask()
}
