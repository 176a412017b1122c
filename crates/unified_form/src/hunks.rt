//! Hunks that follow each other.

ghost use Rattle.std.specs.Prelude.{◌≡◌, ◌≢◌, ◌↔◌, ℕ, List, [], ◌∷◌, ◌++◌, Err, true, None, ◌+◌, ◌<◌, ◌≤◌, ◌^◌, ◌-◌, length, vec_len, take, drop, slice_range, IfOk};
ghost use Rattle.line_list.specs.Feeds.{AreFeeds};
ghost use Rattle.line_list.specs.Lines.{lines};
ghost use Rattle.hunk_core.specs.PlainHunk.{Marked, PlainHunk, hunk_of, hunks_of, lines_on, old_lines, new_lines};
ghost use Rattle.hunk_core.specs.declared.Mark.{Mark};
ghost use Rattle.hunk_core.specs.declared.Side.{Side};
ghost use Rattle.hunk_core.specs.Sides.{is_on_side};
ghost use Rattle.num_text.specs.Numbers.{is_digit};
ghost use Rattle.unified_form.specs.Ranges.{is_opening};
ghost use Rattle.unified_form.specs.Bodies.{is_last_line};
ghost use Rattle.hunk_core.specs.Reading.{Fault, Gives, IsPlace, ahead_of};
ghost use Rattle.unified_form.specs.FirstFault.{CanGoOn};
ghost use Rattle.hunk_core.specs.FirstFault.{AgreeTo};
ghost use Rattle.hunk_core.specs.Turned.{IsLawful};
ghost use Rattle.hunk_core.specs.Rules.{first_broken};
ghost use Rattle.unified_form.specs.Grammar.{counts_of, IsPiece, SpellsHunk};
ghost use Rattle.hunk_core.specs.Pieces.{read_of, these, AreInTurn, AreWhole, SpellInTurn, AreSound};
ghost use Rattle.unified_form.specs.Hunks.{hunk_at, begins_hunk, reading};

use crate::body::{Left, read_body};
use crate::range::{opening_of, opens_hunk};
use hunk_core::{
    BadKind, FormFault, Hunk, HunkForm, HunkLine, Hunks, Place, backslash_end, bad, read_whole,
};
use line_list::{LineFeeds, next_line, next_line_by};
use std::alloc::Global;

/// Whether a hunk opens at `at`.
pub fn at_opening(text: &[u8], at: usize) -> bool
    requires { at ≤ length text.now }
    ensures { result ≡ begins_hunk (lines (drop at text.now)) }
{
    match next_line(text, at) {
        None => false,
        Some(end) => opens_hunk(&text[at..end]),
    }
}

/// Whether a hunk opens at `at`, with the feeds at hand.
pub fn opens_by(text: &[u8], at: usize, feeds: &mut LineFeeds) -> bool
    requires within { at ≤ length text.now }
    requires feeds { AreFeeds text.now feeds.old }
    ensures feeds { AreFeeds text.now feeds.new }
    ensures opens { result ≡ begins_hunk (lines (drop at text.now)) }
    ensures some { result ≡ true → 0 < length (lines (drop at text.now)) }
{
    match next_line_by(text, at, feeds) {
        None => false,
        Some(end) => opens_hunk(&text[at..end]),
    }
}

/// A hunk whose old start is at least `least`, with the place after it.
#[tactic(auto, unfolding(crate::specs::Hunks::first_hunk))]
fn take_hunk(
    alloc: Global,
    text: &[u8],
    least: u64,
    place: Place,
    spare: &mut Vec<HunkLine>,
    feeds: &mut LineFeeds,
) -> Result<(Hunk, Place), FormFault>
    requires place { IsPlace text.now place }
    requires feeds { AreFeeds text.now feeds.old }
    ensures feeds { AreFeeds text.now feeds.new }
    ensures place { IfOk result (λ x. IsPlace text.now x.1 × (place.at < x.1.at)) }
    ensures few { IfOk result (λ x. place.at + vec_len x.0.body ≤ x.1.at) }
    ensures lawful { IfOk result (λ x. IsLawful text.now x.0) }
    ensures exact { Gives (λ x. (hunk_of text.now x.0, ahead_of text.now x.1)) result (hunk_at least (ahead_of text.now place)) }
{
    let number = place.number;
    let Some(end) = next_line_by(text, place.at, feeds) else {
        return Err(bad(number, BadKind::ShortEnd));
    };
    let ranges = match opening_of(&text[place.at..end], least) {
        Ok(ranges) => ranges,
        Err(kind) => return Err(bad(number, kind)),
    };
    let left = Left {
        old: ranges.old_count as u32,
        new: ranges.new_count as u32,
    };
    let (body, next) = read_body(
        alloc,
        text,
        left,
        Place {
            at: end,
            number: number + 1,
        },
        spare,
        feeds,
    )?;
    if backslash_end(text, next.at).is_some() {
        return Err(bad(next.number, BadKind::MisplacedBackslash));
    }
    let hunk = Hunk {
        old_start: ranges.old_start as u32,
        new_start: ranges.new_start as u32,
        body,
    };
    Ok((hunk, next))
}

/// The unified form, with what its reading uses again: room for the lines of a body, and where the next lines end.
#[derive(Drop)]
pub struct Unified {
    pub spare: Vec<HunkLine>,
    pub feeds: LineFeeds,
}

impl HunkForm for Unified {
    ghost begins = { begins_hunk };

    ghost hunk_at = { hunk_at };

    ghost Spells = { SpellsHunk };

    ghost IsReady = { λ text u. AreFeeds text u.feeds };

    fn opens(&mut self, text: &[u8], at: usize) -> bool {
        opens_by(text, at, &mut self.feeds)
    }

    fn read_hunk(
        &mut self,
        alloc: Global,
        text: &[u8],
        least: u64,
        place: Place,
    ) -> Result<(Hunk, Place), FormFault> {
        take_hunk(alloc, text, least, place, &mut self.spare, &mut self.feeds)
    }
}

/// The hunks that follow each other from `at` on, where the line has this number.
pub fn read_hunks(alloc: Global, text: &[u8], at: usize, line: u64) -> Result<Hunks, FormFault>
    requires short { length text.now < 2 ^ 32 }
    requires within { at ≤ length text.now }
    requires opens { begins_hunk (lines (drop at text.now)) ≡ true }
    requires small { line < 2 ^ 32 }
    ensures within { IfOk result (λ h. h.end ≤ length text.now) }
    // The spans are the pieces of the hunks, one behind the other from `at` up to the end.
    ensures turn { IfOk result (λ h. AreInTurn at h.spans.items h.end) }
    ensures whole { IfOk result (λ h. AreWhole text.now h.spans.items) }
    ensures pieces { IfOk result (λ h. SpellInTurn SpellsHunk text.now 0 h.spans.items (hunks_of text.now h.items.items)) }
    // Each hunk is lawful over the text, and breaks none of the rules of `Hunk::check`.
    ensures sound { IfOk result (λ h. AreSound text.now h) }
    // What is read is spelled so, by the lines up to the end, and no hunk nor backslash line stands there.
    ensures found { IfOk result (λ h. IsPiece line (lines (drop at text.now)) (hunks_of text.now h.items.items) h.next (lines (drop h.end text.now))) }
    // What is spelled so is read, unless memory runs out.
    ensures only { (hs : List PlainHunk) (next : ℕ) (rest : List (List ℕ)) → IsPiece line (lines (drop at text.now)) hs next rest
        → Gives (read_of text.now) result (these hs next rest) }
    // Where nothing is spelled, which fault is the first.
    ensures exact { Gives (read_of text.now) result
        (reading line (lines (drop at text.now))) }
{
    let unified = Unified {
        spare: Vec::new(alloc),
        feeds: LineFeeds::unknown(),
    };
    read_whole(unified, alloc, text, at, line)
}

/// What makes a fault the first one.
pub fn first_faults()
    // It stays whatever lines come after its own, unless the text ends too early.
    ensures stays { (number : ℕ) (lines others : List (List ℕ)) (e : Fault) → reading number lines ≡ Err e → e.kind ≢ BadKind.ShortEnd
        → AgreeTo e.line number lines others → reading number others ≡ Err e }
    // No lines that are the same up to the fault are spelled.
    ensures unspelled { (number : ℕ) (lines others : List (List ℕ)) (e : Fault) (hs : List PlainHunk) (next : ℕ) (rest : List (List ℕ))
        → reading number lines ≡ Err e → e.kind ≢ BadKind.ShortEnd → AgreeTo e.line number lines others → IsPiece number others hs next rest → ⊥ }
    // A text that ends too early is at fault one line after its last.
    ensures short { (number : ℕ) (lines : List (List ℕ)) (e : Fault) → reading number lines ≡ Err e → e.kind ≡ BadKind.ShortEnd → e.line ≡ number + length lines }
    // No fault comes before a line that hunks begin with.
    ensures late { (number : ℕ) (front behind others : List (List ℕ)) (e : Fault) (hs : List PlainHunk) (next : ℕ) (rest : List (List ℕ))
        → IsPiece number (front ++ others) hs next rest → reading number (front ++ behind) ≡ Err e → number + length front ≤ e.line }
    // The lines in front of a fault can go on to a piece, so no earlier line is at fault.
    ensures goes_on { (number : ℕ) (lines : List (List ℕ)) (e : Fault) → reading number lines ≡ Err e → CanGoOn number (take (e.line - number) lines) }
    // A text ends too early exactly where all its lines can go on to a piece.
    ensures short_end { (number : ℕ) (lines : List (List ℕ)) (e : Fault) → reading number lines ≡ Err e → e.kind ≡ BadKind.ShortEnd ↔ CanGoOn number lines }
{}

/// The tests of the grammar, in the words of the diffutils manual.
pub fn grammar_laws()
    // '@@ -' and a digit.
    ensures opening { (line : List ℕ) → is_opening line ≡ true ↔ ((d : ℕ) × (rest : List ℕ) × (line ≡ 64 ∷ 64 ∷ 32 ∷ 45 ∷ d ∷ rest) × (is_digit d ≡ true)) }
    // A line is the last of each side that it belongs to.
    ensures last { (mark : Mark) (body : List Marked) → is_last_line mark (counts_of body) ≡ true ↔ ((side : Side) → is_on_side side mark ≡ true → lines_on side body ≡ []) }
    // The counts are those of the lines.
    ensures old { (body : List Marked) → (counts_of body).old ≡ length (old_lines body) }
    ensures new { (body : List Marked) → (counts_of body).new ≡ length (new_lines body) }
{}
