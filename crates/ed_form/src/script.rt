//! Edits that follow each other.

ghost use Rattle.std.specs.Prelude.{◌≡◌, ◌≢◌, ◌↔◌, ◌⊎◌, ℕ, List, [], ◌∷◌, ◌++◌, Err, true, false, ◌+◌, ◌<◌, ◌≤◌, ◌^◌, length, vec_len, sum_by, drop, IfOk, All};
ghost use Rattle.line_list.specs.Lines.{lines};
ghost use Rattle.hunk_core.specs.PlainHunk.{bytes_at};
ghost use Rattle.hunk_core.specs.Reading.{Fault, Gives, IsPlace, ahead_of};
ghost use Rattle.hunk_core.specs.Turned.{LiesIn};
ghost use Rattle.ed_form.specs.Commands.{is_command, begins_script};
ghost use Rattle.ed_form.specs.PlainEdit.{PlainEdit, edit_of, edits_of, IsLawfulScript};
ghost use Rattle.ed_form.specs.Texts.{is_dot, is_word, is_substitution};
ghost use Rattle.ed_form.specs.Scripts.{edit_at, begins_substitution, reading, read_of, these};
ghost use Rattle.ed_form.specs.Grammar.{IsCommand, HaveNoDot, SpellsEdits, IsPiece, StandsBehind};
ghost use Rattle.hunk_core.specs.FirstFault.{AgreeTo};

use crate::added::{read_added, substitutes};
use crate::command::{is_command_line, opening_of};
use hunk_core::{BadKind, FormFault, Place, bad};
use line_list::{Span, next_line};
use std::alloc::Global;

/// The lines `first` to `last` of a file, counted from 1, are replaced by the added lines, each with
/// its line feed. An insertion behind line N takes none away: `first` is N + 1, and `last` is N.
#[derive(Debug, Drop)]
pub struct EdEdit {
    pub first: u32,
    pub last: u32,
    pub added: Vec<Span>,
}

/// The edits of a script from the last in the file to the first, as they stand in the text.
#[derive(Debug, Drop)]
pub struct EdScript {
    pub edits: Vec<EdEdit>,
    /// The piece of the text that the script stands in.
    pub span: Span,
    /// The number of the line after it.
    pub next: u64,
}

/// Whether a command stands at `at`.
pub fn at_command(text: &[u8], at: usize) -> bool
    requires { at ≤ length text.now }
    ensures { result ≡ begins_script (lines (drop at text.now)) }
{
    match next_line(text, at) {
        None => false,
        Some(end) => is_command_line(&text[at..end]),
    }
}

/// Whether a substitution stands at `at`.
fn at_substitution(text: &[u8], at: usize) -> bool
    requires { at ≤ length text.now }
    ensures { result ≡ begins_substitution (lines (drop at text.now)) }
{
    match next_line(text, at) {
        None => false,
        Some(end) => substitutes(&text[at..end]),
    }
}

/// An edit whose last address is below `below`, with the place after it.
#[tactic(auto, unfolding(crate::specs::Scripts::first_edit))]
fn read_edit(
    alloc: Global,
    text: &[u8],
    below: u64,
    place: Place,
) -> Result<(EdEdit, Place), FormFault>
    requires { IsPlace text.now place }
    ensures place { IfOk result (λ x. IsPlace text.now x.1 × (place.at < x.1.at)) }
    ensures few { IfOk result (λ x. place.at + vec_len x.0.added < x.1.at) }
    ensures lies { IfOk result (λ x. All (LiesIn text.now) x.0.added.items) }
    ensures exact { Gives (λ x. (edit_of text.now x.0, ahead_of text.now x.1)) result (edit_at below (ahead_of text.now place)) }
{
    let number = place.number;
    let Some(end) = next_line(text, place.at) else {
        return Err(bad(number, BadKind::Range));
    };
    let heading = match opening_of(&text[place.at..end], below) {
        Ok(heading) => heading,
        Err(kind) => return Err(bad(number, kind)),
    };
    let (added, next) = read_added(
        alloc,
        text,
        number,
        heading.action,
        Place {
            at: end,
            number: number + 1,
        },
    )?;
    let edit = EdEdit {
        first: heading.first as u32,
        last: heading.last as u32,
        added,
    };
    Ok((edit, next))
}

/// The edits that follow each other, by reading on.
fn read_all(alloc: Global, text: &[u8], at: usize, line: u64) -> Result<EdScript, FormFault>
    requires short { length text.now < 2 ^ 32 }
    requires within { at ≤ length text.now }
    requires small { line < 2 ^ 32 }
    ensures start { IfOk result (λ s. s.span.start ≡ at) }
    ensures within { IfOk result (λ s. (at ≤ s.span.end) × (s.span.end ≤ length text.now)) }
    ensures few { IfOk result (λ s. length s.edits.items + sum_by (λ e. length e.added.items) s.edits.items ≤ length text.now) }
    ensures lies { IfOk result (λ s. All (λ e. All (LiesIn text.now) e.added.items) s.edits.items) }
    ensures exact { Gives (read_of text.now) result (reading line (lines (drop at text.now))) }
{
    let mut edits = Vec::new(alloc);
    let mut place = Place { at, number: line };
    let mut below: u64 = 1 << 32;
    'edits: while at_command(text, place.at) {
        let (edit, next) = read_edit(alloc, text, below, place)?;
        below = u64::from(u32::min(edit.first, edit.last));
        edits.push(edit)?;
        place = next;
    }
    if at_substitution(text, place.at) {
        return Err(bad(place.number, BadKind::EdCommand));
    }
    Ok(EdScript {
        edits,
        span: Span {
            start: at as u32,
            end: place.at as u32,
        },
        next: place.number,
    })
}

/// The ed script at `at`, where the line has this number. It is read alone, and no editor is started.
/// Another substitution than the `s/.//` of `diff -e` is refused; any other line that is no command ends it.
pub fn read_script(alloc: Global, text: &[u8], at: usize, line: u64) -> Result<EdScript, FormFault>
    requires short { length text.now < 2 ^ 32 }
    requires within { at ≤ length text.now }
    requires opens { begins_script (lines (drop at text.now)) ≡ true }
    requires small { line < 2 ^ 32 }
    // The span is the piece of the text that spells the edits.
    ensures start { IfOk result (λ s. s.span.start ≡ at) }
    ensures within { IfOk result (λ s. (at < s.span.end) × (s.span.end ≤ length text.now)) }
    ensures piece { IfOk result (λ s. SpellsEdits (2 ^ 32) (lines (bytes_at text.now s.span)) (edits_of text.now s.edits.items) (lines (drop s.span.end text.now))) }
    // There is an edit, each keeps the rules on addresses and order, and each added line is a line of
    // the text, with its line feed. Edits and lines can be counted together.
    ensures lawful { IfOk result (IsLawfulScript text.now) }
    // What is read is spelled so, by the lines up to the end, and neither a command nor a substitution stands there.
    ensures found { IfOk result (λ s. IsPiece line (lines (drop at text.now)) (edits_of text.now s.edits.items) s.next (lines (drop s.span.end text.now))) }
    // What is spelled so is read, unless memory runs out.
    ensures only { (es : List PlainEdit) (next : ℕ) (rest : List (List ℕ)) → IsPiece line (lines (drop at text.now)) es next rest
        → Gives (read_of text.now) result (these es next rest) }
    // Where nothing is spelled, which fault is the first.
    ensures exact { Gives (read_of text.now) result (reading line (lines (drop at text.now))) }
{
    read_all(alloc, text, at, line)
}

/// What makes a fault the first one. A fault is fixed by the lines up to its own, but for a text without
/// its `.`, which is a fault of the line of its command and depends on all that follows.
pub fn first_faults()
    // Before its line stand whole edits.
    ensures behind { (number : ℕ) (lines : List (List ℕ)) (e : Fault) → reading number lines ≡ Err e → StandsBehind (2 ^ 32) number lines e.line }
    // It stays whatever lines come later.
    ensures stays { (number : ℕ) (lines others : List (List ℕ)) (e : Fault) → reading number lines ≡ Err e → e.kind ≢ BadKind.EdNoDot
        → AgreeTo e.line number lines others → reading number others ≡ Err e }
    // No lines that are the same up to there are spelled.
    ensures unspelled { (number : ℕ) (lines others : List (List ℕ)) (e : Fault) (es : List PlainEdit) (next : ℕ) (rest : List (List ℕ))
        → reading number lines ≡ Err e → e.kind ≢ BadKind.EdNoDot → AgreeTo e.line number lines others → IsPiece number others es next rest → ⊥ }
    // No such fault comes before the last of lines that a script begins with.
    ensures late { (number : ℕ) (front behind others : List (List ℕ)) (e : Fault) (es : List PlainEdit) (next : ℕ) (rest : List (List ℕ))
        → IsPiece number (front ++ others) es next rest → reading number (front ++ behind) ≡ Err e → e.kind ≢ BadKind.EdNoDot → number + length front ≤ e.line }
    // A text without its end stays so, whatever lines but a `.` come behind it.
    ensures endless { (number : ℕ) (lines others : List (List ℕ)) (e : Fault) → reading number lines ≡ Err e → e.kind ≡ BadKind.EdNoDot
        → HaveNoDot others → reading number (lines ++ others) ≡ Err e }
    // A `.` behind which no substitution stands ends it: the fault is gone.
    ensures ended { (number : ℕ) (lines others : List (List ℕ)) (dot : List ℕ) (e : Fault) → reading number lines ≡ Err e → e.kind ≡ BadKind.EdNoDot
        → is_dot dot ≡ true → begins_substitution others ≡ false → reading number (lines ++ dot ∷ others) ≢ Err e }
{}

/// The tests on lines, in the words of the diffutils manual.
pub fn lines_laws()
    // A command is one number, or two with a comma, a letter, and nothing more.
    ensures command { (line : List ℕ) → is_command line ≡ true ↔ IsCommand line }
    // A line is a word where it is that, with a line feed or without.
    ensures word { (word line : List ℕ) → is_word word line ≡ true ↔ ((line ≡ word) ⊎ (line ≡ word ++ 10 ∷ [])) }
    // A substitution begins with 's/'.
    ensures substitution { (line : List ℕ) → is_substitution line ≡ true ↔ ((rest : List ℕ) × (line ≡ 115 ∷ 47 ∷ rest)) }
{}
