//! The two parts of a hunk as one body.

ghost use Rattle.std.specs.Prelude.{◌≡◌, ◌≤◌, ◌<◌, ◌+◌, ◌^◌, ℕ, List, Some, length, vec_len, drop, IfOk, IfSome, All, ◌++◌, count_by};
ghost use Rattle.hunk_core.specs.PlainHunk.{Marked, body_of, marked_of, bytes_at};
ghost use Rattle.hunk_core.specs.Turned.{LiesIn, is_keep};
ghost use Rattle.line_list.specs.Reader.{Reads};
ghost use Rattle.context_form.specs.Parts.{plain_of};
ghost use Rattle.context_form.specs.Merging.{agrees, before_kept, from_kept, merge, alone, joined, kept_count, size_beside};

use crate::part::Body;
use hunk_core::{HunkLine, Mark};
use line_list::Span;
use std::alloc::{AllocError, Global};

pub fn keeps(mark: Mark) -> bool
    ensures { result ≡ is_keep mark }
{
    match mark {
        Mark::Keep => true,
        Mark::Drop | Mark::Add => false,
    }
}

/// How many lines are kept.
pub fn kept_lines(lines: &[HunkLine]) -> usize
    ensures few { result ≤ length lines.now }
    ensures is { result ≡ count_by (λ l. is_keep l.mark) lines.now }
{
    let mut count = 0;
    for line in lines {
        if keeps(line.mark) {
            count += 1;
        }
    }
    count
}

/// Adds the lines from a place on, up to the first kept one, to the body, and hands out its place.
fn take_changes(
    body: &mut Vec<HunkLine>,
    part: &[HunkLine],
    from: usize,
) -> Result<usize, AllocError>
    requires { from ≤ length part.now }
    ensures low { IfOk result (λ place. from ≤ place) }
    ensures high { IfOk result (λ place. place ≤ length part.now) }
    ensures few { IfOk result (λ place. length body.new.items + from ≤ length body.old.items + place) }
    ensures lies { (text : List ℕ) → IfOk result (λ place. All (λ l. LiesIn text l.span) body.old.items → All (λ l. LiesIn text l.span) part.now → All (λ l. LiesIn text l.span) body.new.items) }
    ensures taken { IfOk result (λ place. (text : List ℕ) → body_of text body.new.items ≡ body_of text body.old.items ++ before_kept (body_of text (drop from part.now))) }
    ensures rest { IfOk result (λ place. (text : List ℕ) → body_of text (drop place part.now) ≡ from_kept (body_of text (drop from part.now))) }
{
    let mut place = from;
    while place < part.len() {
        let line = part[place];
        if keeps(line.mark) {
            break;
        }
        body.push(line)?;
        place += 1;
    }
    Ok(place)
}

fn bytes_of(text: &[u8], span: Span) -> &[u8]
    requires { LiesIn text.now span }
    ensures { result.now ≡ bytes_at text.now span }
{
    &text[span.start as usize..span.end as usize]
}

/// Whether a part goes on with this line at a place.
fn agrees_at(text: &[u8], line: HunkLine, part: &[HunkLine], place: usize) -> bool
    requires line_within { LiesIn text.now line.span }
    requires part_within { All (λ l. LiesIn text.now l.span) part.now }
    ensures { result ≡ agrees (marked_of text.now line) (body_of text.now (drop place part.now)) }
{
    if place >= part.len() {
        return false;
    }
    bytes_of(text, line.span) == bytes_of(text, part[place].span)
}

/// One body of the two parts, if they keep the same lines.
fn merge_parts(
    alloc: Global,
    text: &[u8],
    olds: &[HunkLine],
    news: &[HunkLine],
) -> Result<Option<Vec<HunkLine>>, AllocError>
    requires olds_within { All (λ l. LiesIn text.now l.span) olds.now }
    requires news_within { All (λ l. LiesIn text.now l.span) news.now }
    requires few { length olds.now + length news.now < 2 ^ 32 }
    ensures exact { IfOk result (λ r. Reads (λ v. body_of text.now v.items) r (merge (body_of text.now olds.now) (body_of text.now news.now))) }
    ensures few { IfOk result (λ r. IfSome r (λ v. vec_len v ≤ length olds.now + length news.now)) }
    ensures lies { IfOk result (λ r. IfSome r (λ v. All (λ l. LiesIn text.now l.span) v.items)) }
{
    let mut body = Vec::with_capacity(alloc, olds.len() + (news.len() - kept_lines(news)))?;
    let mut place = 0;
    for old in olds {
        if keeps(old.mark) {
            let kept = take_changes(&mut body, news, place)?;
            if !agrees_at(text, *old, news, kept) {
                return Ok(None);
            }
            place = kept + 1;
        }
        body.push(*old)?;
    }
    let end = take_changes(&mut body, news, place)?;
    if end == news.len() {
        Ok(Some(body))
    } else {
        Ok(None)
    }
}

/// A part whose partner is left out, unless it has a line with `! `.
fn alone(part: Body) -> Option<Vec<HunkLine>>
    ensures exact { (text : List ℕ) → Reads (λ v. body_of text v.items) result (alone (plain_of text part)) }
    ensures same { IfSome result (λ v. v.items ≡ part.lines.items) }
{
    if part.changed { None } else { Some(part.lines) }
}

/// The body of the two parts, of which one may be left out, if they agree.
pub fn joined(
    alloc: Global,
    text: &[u8],
    old: Body,
    new: Body,
) -> Result<Option<Vec<HunkLine>>, AllocError>
    requires olds_within { All (λ l. LiesIn text.now l.span) old.lines.items }
    requires news_within { All (λ l. LiesIn text.now l.span) new.lines.items }
    requires few { vec_len old.lines + vec_len new.lines < 2 ^ 32 }
    ensures exact { IfOk result (λ r. Reads (λ v. body_of text.now v.items) r (joined (plain_of text.now old) (plain_of text.now new))) }
    ensures few { IfOk result (λ r. IfSome r (λ v. vec_len v ≤ vec_len old.lines + vec_len new.lines)) }
    ensures lies { IfOk result (λ r. IfSome r (λ v. All (λ l. LiesIn text.now l.span) v.items)) }
{
    if old.lines.is_empty() && new.lines.is_empty() {
        return Ok(None);
    }
    if old.lines.is_empty() {
        return Ok(alone(new));
    }
    if new.lines.is_empty() {
        return Ok(alone(old));
    }
    merge_parts(alloc, text, &old.lines, &new.lines)
}
