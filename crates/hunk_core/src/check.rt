//! The rules that a hunk of any form keeps.

ghost use Rattle.std.specs.Prelude.{◌≡◌, IfOk, IfErr, None, Some, not, ◌==◌, ◌&&◌, ◌+◌, ◌<◌, ◌^◌, nat_lt, length};
ghost use Rattle.hunk_core.specs.PlainHunk.{hunk_of, lines_on};
ghost use Rattle.hunk_core.specs.Turned.{IsLawful};
ghost use Rattle.hunk_core.specs.LineTests.{ends_line};
ghost use Rattle.hunk_core.specs.Rules.{IsSameHunk, breaks, first_broken, lacks_inner_end};

use crate::{Hunk, Side, has_feed, is_taken};

/// The first rule that a hunk breaks.
#[derive(Clone, Copy)]
pub enum BadHunk {
    /// The body is empty.
    NoLines,
    /// A side that has lines starts at 0.
    Start,
    /// A start plus its count is above 4,294,967,295.
    Sum,
    /// A line that isn't the last of its side has no line feed at its end.
    InnerEnd,
}

fn is_zero_start(start: u32, count: u32) -> bool
    ensures { result ≡ (start == 0 && not (count == 0)) }
{
    start == 0 && count != 0
}

fn is_over(start: u32, count: u32) -> bool
    ensures { result ≡ nat_lt 4294967295 (start + count) }
{
    u64::from(start) + u64::from(count) > 4_294_967_295
}

impl Hunk {
    /// Hands the hunk back, with the first rule that it breaks where it breaks one.
    pub fn check(self, text: &[u8]) -> Result<Hunk, (Hunk, BadHunk)>
        requires { IsLawful text.now self }
        ensures taken { IfOk result (λ h. IsSameHunk self h) }
        ensures back { IfErr result (λ x. IsSameHunk self x.0) }
        ensures unbroken { IfOk result (λ h. first_broken (hunk_of text.now self) ≡ None) }
        ensures broken { IfErr result (λ x. first_broken (hunk_of text.now self) ≡ Some x.1) }
    {
        match self.broken_rule(text) {
            None => Ok(self),
            Some(rule) => Err((self, rule)),
        }
    }

    fn broken_rule(&self, text: &[u8]) -> Option<BadHunk>
        requires { IsLawful text.now self.now }
        ensures { result ≡ first_broken (hunk_of text.now self.now) }
    {
        if self.body.is_empty() {
            Some(BadHunk::NoLines)
        } else if self.has_zero_start(text) {
            Some(BadHunk::Start)
        } else if self.has_large_sum(text) {
            Some(BadHunk::Sum)
        } else if self.has_open_line(text) {
            Some(BadHunk::InnerEnd)
        } else {
            None
        }
    }

    fn side_length(&self, text: &[u8], side: Side) -> u32
        requires { IsLawful text.now self.now }
        ensures { result ≡ length (lines_on side (hunk_of text.now self.now).body) }
    {
        let _text = text;
        self.count(side)
    }

    fn has_zero_start(&self, text: &[u8]) -> bool
        requires { IsLawful text.now self.now }
        ensures { result ≡ breaks (hunk_of text.now self.now) BadHunk.Start }
    {
        is_zero_start(self.old_start, self.side_length(text, Side::Forward))
            || is_zero_start(self.new_start, self.side_length(text, Side::Reversed))
    }

    fn has_large_sum(&self, text: &[u8]) -> bool
        requires { IsLawful text.now self.now }
        ensures { result ≡ breaks (hunk_of text.now self.now) BadHunk.Sum }
    {
        is_over(self.old_start, self.side_length(text, Side::Forward))
            || is_over(self.new_start, self.side_length(text, Side::Reversed))
    }

    fn has_open_line(&self, text: &[u8]) -> bool
        requires { IsLawful text.now self.now }
        ensures { result ≡ breaks (hunk_of text.now self.now) BadHunk.InnerEnd }
    {
        self.has_inner_end(text, Side::Forward) || self.has_inner_end(text, Side::Reversed)
    }

    /// Whether a line of the side, which isn't its last, has no line feed at its end.
    fn has_inner_end(&self, text: &[u8], side: Side) -> bool
        requires { IsLawful text.now self.now }
        ensures { result ≡ lacks_inner_end (lines_on side (hunk_of text.now self.now).body) }
    {
        let mut ended = true;
        for i in 0..self.body.len() {
            let line = self.body[i];
            if is_taken(line.mark, side) {
                if !ended {
                    return true;
                }
                ended = has_feed(&text[line.span.start as usize..line.span.end as usize]);
            }
        }
        false
    }
}
