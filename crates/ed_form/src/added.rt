//! The text of a command.

ghost use Rattle.std.specs.Prelude.{◌≡◌, ◌+◌, ◌<◌, ◌≤◌, ◌^◌, [], true, false, length, vec_len, drop, slice_range, IfOk, IfErr, MatchOption, All};
ghost use Rattle.line_list.specs.Lines.{lines, IsLineAt};
ghost use Rattle.hunk_core.specs.PlainHunk.{bytes_at};
ghost use Rattle.hunk_core.specs.Reading.{Gives, IsPlace, ahead_of};
ghost use Rattle.hunk_core.specs.Turned.{LiesIn};
ghost use Rattle.ed_form.specs.PlainEdit.{lines_of};
ghost use Rattle.ed_form.specs.Texts.{is_word, is_substitution, ends_double, undoubled, is_taken, step, is_open, goes_on, text_at};
ghost use Rattle.ed_form.specs.Scripts.{added_at};

use hunk_core::{Action, BadKind, FormFault, Place, after_prefix, bad, ends_here};
use line_list::{Span, next_line};
use std::alloc::Global;

/// Where the lines of a text have led.
#[derive(Clone, Copy)]
pub enum TextState {
    /// No `.` has ended it yet.
    Text,
    /// Its last line was `.`.
    Ended,
    /// Its last line was `s/.//`.
    Corrected,
}

/// Whether no `.` has ended a text.
fn lacks_end(part: TextState) -> bool
    ensures { result ≡ is_open part }
{
    match part {
        TextState::Text => true,
        TextState::Ended | TextState::Corrected => false,
    }
}

/// Whether a line is this word.
fn is_line(line: &[u8], word: &[u8]) -> bool
    ensures { result ≡ is_word word.now line.now }
{
    match after_prefix(line, word) {
        Some(rest) => ends_here(rest),
        None => false,
    }
}

/// Whether a line begins with `s/`.
pub fn substitutes(line: &[u8]) -> bool
    ensures { result ≡ is_substitution line.now }
{
    after_prefix(line, b"s/").is_some()
}

/// Whether the last line so far is `..`.
fn has_double(text: &[u8], added: &[Span]) -> bool
    requires { All (LiesIn text.now) added.now }
    ensures { result ≡ ends_double (lines_of text.now added.now) }
{
    if added.is_empty() {
        return false;
    }
    let last = added[added.len() - 1];
    is_line(&text[last.start as usize..last.end as usize], b"..")
}

/// The last line `..` becomes `.`.
fn correct(text: &[u8], added: &mut Vec<Span>) -> Result<(), FormFault>
    requires short { length text.now < 2 ^ 32 }
    requires lies { All (LiesIn text.now) added.now.items }
    requires double { ends_double (lines_of text.now added.now.items) ≡ true }
    ensures lies { IfOk result (λ _. All (LiesIn text.now) added.new.items) }
    ensures len { IfOk result (λ _. vec_len added.new ≡ vec_len added.old) }
    ensures memory { IfErr result (λ e. e ≡ FormFault.Memory) }
    ensures exact { IfOk result (λ _. lines_of text.now added.new.items ≡ undoubled (lines_of text.now added.old.items)) }
{
    if let Some(last) = added.pop() {
        added.push(Span {
            start: last.start + 1,
            end: last.end,
        })?;
    }
    Ok(())
}

/// Whether a line goes on with a text.
fn takes(text: &[u8], part: TextState, added: &[Span], line: &[u8]) -> bool
    requires { All (LiesIn text.now) added.now }
    ensures { result ≡ is_taken part (lines_of text.now added.now) line.now }
{
    match part {
        TextState::Text => true,
        TextState::Ended => has_double(text, added) && is_line(line, b"s/.//"),
        TextState::Corrected => is_line(line, b"a"),
    }
}

/// Takes a line, and tells where it leads.
fn take_line(
    text: &[u8],
    part: TextState,
    added: &mut Vec<Span>,
    span: Span,
) -> Result<TextState, FormFault>
    requires short { length text.now < 2 ^ 32 }
    requires lies { All (LiesIn text.now) added.now.items }
    requires span { LiesIn text.now span }
    requires taken { is_taken part (lines_of text.now added.now.items) (bytes_at text.now span) ≡ true }
    ensures lies { IfOk result (λ _. All (LiesIn text.now) added.new.items) }
    ensures few { IfOk result (λ _. vec_len added.new ≤ vec_len added.old + 1) }
    ensures memory { IfErr result (λ e. e ≡ FormFault.Memory) }
    ensures exact { IfOk result (λ next. step part (lines_of text.now added.old.items) (bytes_at text.now span) ≡ (next, lines_of text.now added.new.items)) }
{
    match part {
        TextState::Text => {
            if is_line(&text[span.start as usize..span.end as usize], b".") {
                return Ok(TextState::Ended);
            }
            added.push(span)?;
            Ok(TextState::Text)
        }
        TextState::Ended => {
            correct(text, added)?;
            Ok(TextState::Corrected)
        }
        TextState::Corrected => Ok(TextState::Text),
    }
}

/// The place after the line at `at`, if that goes on with a text.
fn end_of_next(text: &[u8], part: TextState, added: &[Span], at: usize) -> Option<usize>
    requires within { at ≤ length text.now }
    requires lies { All (LiesIn text.now) added.now }
    ensures { MatchOption result (goes_on part (lines_of text.now added.now) (lines (drop at text.now)) ≡ false) (λ end. IsLineAt text.now at end × (is_taken part (lines_of text.now added.now) (slice_range text.now at end) ≡ true)) }
{
    let end = next_line(text, at)?;
    if takes(text, part, added, &text[at..end]) {
        Some(end)
    } else {
        None
    }
}

/// A text whose command stands at the line `opened`, and the place after it.
fn read_text(
    alloc: Global,
    text: &[u8],
    opened: u64,
    place: Place,
) -> Result<(Vec<Span>, Place), FormFault>
    requires { IsPlace text.now place }
    ensures place { IfOk result (λ x. IsPlace text.now x.1 × (place.at ≤ x.1.at)) }
    ensures few { IfOk result (λ x. place.at + vec_len x.0 ≤ x.1.at) }
    ensures lies { IfOk result (λ x. All (LiesIn text.now) x.0.items) }
    ensures exact { Gives (λ x. (lines_of text.now x.0.items, ahead_of text.now x.1)) result (text_at opened TextState.Text [] place.number (lines (drop place.at text.now))) }
{
    let mut added = Vec::new(alloc);
    let mut part = TextState::Text;
    let mut place = place;
    'lines: while let Some(end) = end_of_next(text, part, &added, place.at) {
        let span = Span {
            start: place.at as u32,
            end: end as u32,
        };
        part = take_line(text, part, &mut added, span)?;
        place = Place {
            at: end,
            number: place.number + 1,
        };
    }
    if lacks_end(part) {
        return Err(bad(opened, BadKind::EdNoDot));
    }
    Ok((added, place))
}

/// The lines that a command of the line `opened` adds, and the place after them.
pub fn read_added(
    alloc: Global,
    text: &[u8],
    opened: u64,
    action: Action,
    place: Place,
) -> Result<(Vec<Span>, Place), FormFault>
    requires { IsPlace text.now place }
    ensures place { IfOk result (λ x. IsPlace text.now x.1 × (place.at ≤ x.1.at)) }
    ensures few { IfOk result (λ x. place.at + vec_len x.0 ≤ x.1.at) }
    ensures lies { IfOk result (λ x. All (LiesIn text.now) x.0.items) }
    ensures exact { Gives (λ x. (lines_of text.now x.0.items, ahead_of text.now x.1)) result (added_at opened action (ahead_of text.now place)) }
{
    match action {
        Action::Add | Action::Change => read_text(alloc, text, opened, place),
        Action::Delete => Ok((Vec::new(alloc), place)),
    }
}
