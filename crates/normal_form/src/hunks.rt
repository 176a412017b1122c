//! Hunks that follow each other.

ghost use Rattle.std.specs.Prelude.{◌≡◌, ◌≢◌, ◌↔◌, ◌⊎◌, ℕ, List, [], ◌∷◌, ◌++◌, Err, true, None, ◌+◌, ◌<◌, ◌≤◌, ◌^◌, ◌-◌, length, vec_len, take, drop, slice_range, IfOk, All};
ghost use Rattle.line_list.specs.Lines.{lines};
ghost use Rattle.hunk_core.specs.PlainHunk.{PlainHunk, hunk_of, hunks_of, body_of};
ghost use Rattle.hunk_core.specs.Reading.{Fault, Gives, IsPlace, ahead_of};
ghost use Rattle.hunk_core.specs.Turned.{IsLawful, LiesIn};
ghost use Rattle.hunk_core.specs.Rules.{first_broken};
ghost use Rattle.hunk_core.specs.Pieces.{read_of, these, AreInTurn, AreWhole, SpellInTurn, AreSound};
ghost use Rattle.hunk_core.specs.declared.Side.{Side};
ghost use Rattle.normal_form.specs.Commands.{is_command};
ghost use Rattle.normal_form.specs.Stretches.{marks, is_divider};
ghost use Rattle.normal_form.specs.FirstFault.{CanGoOn};
ghost use Rattle.hunk_core.specs.FirstFault.{AgreeTo};
ghost use Rattle.normal_form.specs.Grammar.{IsCommand, IsPiece, SpellsHunk};
ghost use Rattle.normal_form.specs.Hunks.{body_at, hunk_at, is_marked, begins_marked, begins_hunk, reading};

use crate::command::{Command, is_command_line, opening_of};
use crate::stretch::{after_divider, has_mark, lines_ahead, read_stretch};
use hunk_core::{
    BadKind, FormFault, Hunk, HunkForm, HunkLine, Hunks, Place, Side, backslash_end, bad,
    read_whole,
};
use line_list::next_line;
use std::alloc::Global;

/// Whether a line with a mark stands at `at`.
fn at_marked(text: &[u8], at: usize) -> bool
    requires { at ≤ length text.now }
    ensures { result ≡ begins_marked (lines (drop at text.now)) }
{
    match next_line(text, at) {
        None => false,
        Some(end) => {
            has_mark(&text[at..end], Side::Forward) || has_mark(&text[at..end], Side::Reversed)
        }
    }
}

/// Whether a hunk opens at `at`: a command, and a line with a mark behind it.
pub fn at_opening(text: &[u8], at: usize) -> bool
    requires { at ≤ length text.now }
    ensures { result ≡ begins_hunk (lines (drop at text.now)) }
{
    match next_line(text, at) {
        None => false,
        Some(end) => is_command_line(&text[at..end]) && at_marked(text, end),
    }
}

/// The lines of a hunk, and the place after them.
#[tactic(auto, unfolding(crate::specs::Hunks::body_at))]
fn read_body(
    alloc: Global,
    text: &[u8],
    command: Command,
    place: Place,
) -> Result<(Vec<HunkLine>, Place), FormFault>
    requires { IsPlace text.now place }
    ensures place { IfOk result (λ x. IsPlace text.now x.1 × (place.at ≤ x.1.at)) }
    ensures few { IfOk result (λ x. place.at + vec_len x.0 ≤ x.1.at) }
    ensures lies { IfOk result (λ x. All (λ l. LiesIn text.now l.span) x.0.items) }
    ensures exact { Gives (λ x. (body_of text.now x.0.items, ahead_of text.now x.1)) result (body_at command (ahead_of text.now place)) }
{
    let most = command.old_count.saturating_add(command.new_count);
    let none = Vec::with_capacity(alloc, lines_ahead(text, most, place.at))?;
    let (old, behind) = read_stretch(text, Side::Forward, command.old_count, none, place)?;
    let middle = after_divider(text, command.action, behind)?;
    read_stretch(text, Side::Reversed, command.new_count, old, middle)
}

/// A hunk whose old start is at least `least`, with the place after it.
#[tactic(auto, unfolding(crate::specs::Hunks::first_hunk))]
fn take_hunk(
    alloc: Global,
    text: &[u8],
    least: u64,
    place: Place,
) -> Result<(Hunk, Place), FormFault>
    requires { IsPlace text.now place }
    ensures place { IfOk result (λ x. IsPlace text.now x.1 × (place.at < x.1.at)) }
    ensures few { IfOk result (λ x. place.at + vec_len x.0.body ≤ x.1.at) }
    ensures lawful { IfOk result (λ x. IsLawful text.now x.0) }
    ensures exact { Gives (λ x. (hunk_of text.now x.0, ahead_of text.now x.1)) result (hunk_at least (ahead_of text.now place)) }
{
    let number = place.number;
    let Some(end) = next_line(text, place.at) else {
        return Err(bad(number, BadKind::ShortEnd));
    };
    let command = match opening_of(&text[place.at..end], least) {
        Ok(command) => command,
        Err(kind) => return Err(bad(number, kind)),
    };
    let (body, next) = read_body(
        alloc,
        text,
        command,
        Place {
            at: end,
            number: number + 1,
        },
    )?;
    if backslash_end(text, next.at).is_some() {
        return Err(bad(next.number, BadKind::MisplacedBackslash));
    }
    let hunk = Hunk {
        old_start: command.old_start as u32,
        new_start: command.new_start as u32,
        body,
    };
    Ok((hunk, next))
}

/// The normal form, whose reading keeps nothing from hunk to hunk.
#[derive(Drop)]
struct Normal {}

impl HunkForm for Normal {
    ghost begins = { begins_hunk };

    ghost hunk_at = { hunk_at };

    ghost Spells = { SpellsHunk };

    ghost IsReady = { λ text n. Unit {0} };

    fn opens(&mut self, text: &[u8], at: usize) -> bool {
        at_opening(text, at)
    }

    fn read_hunk(
        &mut self,
        alloc: Global,
        text: &[u8],
        least: u64,
        place: Place,
    ) -> Result<(Hunk, Place), FormFault> {
        take_hunk(alloc, text, least, place)
    }
}

/// The hunks that follow each other from `at` on, where the line has this number.
pub fn read_hunks(alloc: Global, text: &[u8], at: usize, line: u64) -> Result<Hunks, FormFault>
    requires short { length text.now < 2 ^ 32 }
    requires within { at ≤ length text.now }
    requires opens { begins_hunk (lines (drop at text.now)) ≡ true }
    requires small { line < 2 ^ 32 }
    ensures within { IfOk result (λ h. h.end ≤ length text.now) }
    // The spans are the pieces of the hunks, one behind the other from `at` up to the end.
    ensures turn { IfOk result (λ h. AreInTurn at h.spans.items h.end) }
    ensures whole { IfOk result (λ h. AreWhole text.now h.spans.items) }
    ensures pieces { IfOk result (λ h. SpellInTurn SpellsHunk text.now 0 h.spans.items (hunks_of text.now h.items.items)) }
    // Each hunk is lawful over the text, and breaks none of the rules of `Hunk::check`.
    ensures sound { IfOk result (λ h. AreSound text.now h) }
    // What is read is spelled so, by the lines up to the end, and no hunk nor backslash line stands there.
    ensures found { IfOk result (λ h. IsPiece line (lines (drop at text.now)) (hunks_of text.now h.items.items) h.next (lines (drop h.end text.now))) }
    // What is spelled so is read, unless memory runs out.
    ensures only { (hs : List PlainHunk) (next : ℕ) (rest : List (List ℕ)) → IsPiece line (lines (drop at text.now)) hs next rest
        → Gives (read_of text.now) result (these hs next rest) }
    // Where nothing is spelled, which fault is the first.
    ensures exact { Gives (read_of text.now) result
        (reading line (lines (drop at text.now))) }
{
    read_whole(Normal {}, alloc, text, at, line)
}

/// What makes a fault the first one. Whether a line is a command of a hunk is told by the line behind
/// it too, so a fault is fixed by the lines up to the one behind its own.
pub fn first_faults()
    // It stays whatever lines come later, unless the text ends too early.
    ensures stays { (number : ℕ) (lines others : List (List ℕ)) (e : Fault) → reading number lines ≡ Err e → e.kind ≢ BadKind.ShortEnd
        → AgreeTo (e.line + 1) number lines others → reading number others ≡ Err e }
    // No lines that are the same up to there are spelled.
    ensures unspelled { (number : ℕ) (lines others : List (List ℕ)) (e : Fault) (hs : List PlainHunk) (next : ℕ) (rest : List (List ℕ))
        → reading number lines ≡ Err e → e.kind ≢ BadKind.ShortEnd → AgreeTo (e.line + 1) number lines others → IsPiece number others hs next rest → ⊥ }
    // A text that ends too early is at fault one line after its last.
    ensures short { (number : ℕ) (lines : List (List ℕ)) (e : Fault) → reading number lines ≡ Err e → e.kind ≡ BadKind.ShortEnd → e.line ≡ number + length lines }
    // No fault comes before the last of lines that hunks begin with.
    ensures late { (number : ℕ) (front behind others : List (List ℕ)) (e : Fault) (hs : List PlainHunk) (next : ℕ) (rest : List (List ℕ))
        → IsPiece number (front ++ others) hs next rest → reading number (front ++ behind) ≡ Err e → number + length front ≤ e.line + 1 }
    // The lines in front of a fault can go on to a piece, so no earlier line is at fault.
    ensures goes_on { (number : ℕ) (lines : List (List ℕ)) (e : Fault) → reading number lines ≡ Err e → CanGoOn number (take (e.line - number) lines) }
    // No fault comes in lines that can go on to a piece.
    ensures not_sooner { (number : ℕ) (front behind : List (List ℕ)) (e : Fault) → CanGoOn number front → reading number (front ++ behind) ≡ Err e → number + length front ≤ e.line }
    // A text ends too early exactly where all its lines can go on to a piece.
    ensures short_end { (number : ℕ) (lines : List (List ℕ)) (e : Fault) → reading number lines ≡ Err e → e.kind ≡ BadKind.ShortEnd ↔ CanGoOn number lines }
{}

/// The tests of the grammar, in the words of the diffutils manual.
pub fn grammar_laws()
    // A number, perhaps a comma and a number; one of 'a', 'c' and 'd'; a number, perhaps a comma and a number; nothing more.
    ensures command { (line : List ℕ) → is_command line ≡ true ↔ IsCommand line }
    // '< ' or '> '.
    ensures marked { (line : List ℕ) → is_marked line ≡ true ↔ ((side : Side) × (bytes : List ℕ) × (line ≡ marks side ++ bytes)) }
    // '---', and nothing more.
    ensures divider { (line : List ℕ) → is_divider line ≡ true ↔ ((line ≡ 45 ∷ 45 ∷ 45 ∷ []) ⊎ (line ≡ 45 ∷ 45 ∷ 45 ∷ 10 ∷ [])) }
{}
