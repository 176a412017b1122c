//! Hunks that follow each other.

ghost use Rattle.std.specs.Prelude.{◌≡◌, ℕ, List, ◌++◌, true, None, ◌+◌, ◌<◌, ◌≤◌, ◌^◌, length, vec_len, if◌then◌else◌, drop, slice_range, IfOk, All};
ghost use Rattle.line_list.specs.Lines.{lines};
ghost use Rattle.hunk_core.specs.PlainHunk.{PlainHunk, hunk_of, hunks_of, body_of};
ghost use Rattle.hunk_core.specs.Reading.{Gives, IsPlace, ahead_of};
ghost use Rattle.hunk_core.specs.Turned.{IsLawful, LiesIn};
ghost use Rattle.hunk_core.specs.Rules.{first_broken};
ghost use Rattle.hunk_core.specs.Pieces.{read_of, these, AreInTurn, AreWhole, SpellInTurn, AreSound};
ghost use Rattle.context_form.specs.Openings.{begins_hunk};
ghost use Rattle.context_form.specs.Ranges.{most, Fits};
ghost use Rattle.context_form.specs.Parts.{plain_of};
ghost use Rattle.context_form.specs.Merging.{joined, size_beside};
ghost use Rattle.context_form.specs.Grammar.{IsPiece, SpellsPiece};
ghost use Rattle.context_form.specs.Hunks.{fitting, part_over, range_here, old_part, enough, new_part, sized, whole, parts_at, hunk_at, reading};
ghost use Rattle.context_form.specs.Presence.{begins_part, drops_alone, is_there, begins_shown, is_needed, is_new, begins_old_part};

use crate::merging::{joined, kept_lines};
use crate::opening::at_opening;
use crate::part::{Body, can_show, mark_of, read_body};
use crate::range::{Stated, stated_of};
use hunk_core::{
    BadKind, FormFault, Hunk, HunkForm, HunkLine, Hunks, Mark, Place, Side, backslash_end, bad,
    read_whole,
};
use line_list::next_line;
use std::alloc::Global;

/// A part with its range line, which has this number.
#[derive(Drop)]
pub struct Part {
    pub number: u64,
    pub stated: Stated,
    pub body: Body,
}

/// What the range line of a part states, and the place after it.
#[tactic(auto, unfolding(crate::specs::Hunks::first_range))]
fn read_range_line(
    text: &[u8],
    side: Side,
    least: u64,
    place: Place,
) -> Result<(Stated, Place), FormFault>
    requires { IsPlace text.now place }
    ensures place { IfOk result (λ x. IsPlace text.now x.1 × (place.at < x.1.at)) }
    ensures fits { IfOk result (λ x. Fits x.0) }
    ensures exact { Gives (λ x. (x.0, ahead_of text.now x.1)) result (range_here side least (ahead_of text.now place)) }
{
    let number = place.number;
    let Some(end) = next_line(text, place.at) else {
        return Err(bad(number, BadKind::ShortEnd));
    };
    match stated_of(&text[place.at..end], side, least) {
        Ok(stated) => Ok((
            stated,
            Place {
                at: end,
                number: number + 1,
            },
        )),
        Err(kind) => Err(bad(number, kind)),
    }
}

/// Whether a line with a mark of the old part stands at `at`.
fn at_old_part(text: &[u8], at: usize) -> bool
    requires { at ≤ length text.now }
    ensures { result ≡ begins_old_part (lines (drop at text.now)) }
{
    match next_line(text, at) {
        None => false,
        Some(end) => mark_of(&text[at..end], Side::Forward).is_some(),
    }
}

/// Behind one number, the first line of a part makes its count 1: then the sum isn't above the greatest number.
fn fits_part(stated: Stated, is_there: bool, number: u64) -> Result<(), FormFault>
    requires { Fits stated }
    ensures { Gives (λ x. tt) result (fitting number stated is_there) }
{
    if is_there && stated.start + stated.most() > 4_294_967_295 {
        return Err(bad(number, BadKind::NumberTooLarge));
    }
    Ok(())
}

/// The old part, which starts at `least` or later, and the place after it.
#[tactic(auto, unfolding(crate::specs::Hunks::old_part))]
fn read_old(
    alloc: Global,
    text: &[u8],
    least: u64,
    place: Place,
) -> Result<(Part, Place), FormFault>
    requires { IsPlace text.now place }
    ensures place { IfOk result (λ x. IsPlace text.now x.1 × (place.at < x.1.at)) }
    ensures few { IfOk result (λ x. place.at + vec_len x.0.body.lines ≤ x.1.at) }
    ensures lies { IfOk result (λ x. All (λ l. LiesIn text.now l.span) x.0.body.lines.items) }
    ensures fits { IfOk result (λ x. Fits x.0.stated) }
    ensures exact { Gives (λ x. (part_over text.now x.0, ahead_of text.now x.1)) result (old_part least (ahead_of text.now place)) }
{
    let number = place.number;
    let (stated, place) = read_range_line(text, Side::Forward, least, place)?;
    fits_part(stated, at_old_part(text, place.at), number)?;
    let (body, place) = read_body(alloc, text, Side::Forward, stated.most(), place)?;
    let part = Part {
        number,
        stated,
        body,
    };
    Ok((part, place))
}

/// An old part that isn't left out has all its lines, where the line behind it has this number.
fn has_enough(old: &Part, number: u64) -> Result<(), FormFault>
    ensures { (text : List ℕ) → Gives (λ x. tt) result (enough number (part_over text old.now)) }
{
    let lines = old.body.lines.len();
    if lines > 0 && !old.stated.is_count(lines as u64) {
        return Err(bad(number, BadKind::Count));
    }
    Ok(())
}

/// Whether a line with a mark of the new part stands at `at`, or one with two spaces where it may.
fn at_part(text: &[u8], may_keep: bool, at: usize) -> bool
    requires { at ≤ length text.now }
    ensures { result ≡ begins_part may_keep (lines (drop at text.now)) }
{
    let Some(end) = next_line(text, at) else {
        return false;
    };
    match mark_of(&text[at..end], Side::Reversed) {
        None => false,
        Some((Mark::Keep, _)) => may_keep,
        Some(_) => true,
    }
}

/// Whether the old part is there, and no line of it is kept.
fn keeps_none(olds: &[HunkLine]) -> bool
    ensures { (text : List ℕ) → result ≡ drops_alone (body_of text olds.now) }
{
    !olds.is_empty() && kept_lines(olds) == 0
}

/// Whether the new part is there by a line that lost no blank.
fn is_told(text: &[u8], stated: Stated, olds: &[HunkLine], at: usize) -> bool
    requires { at ≤ length text.now }
    ensures { result ≡ is_there stated (body_of text.now olds.now) (lines (drop at text.now)) }
{
    match stated.count {
        Some(_) => at_part(text, true, at),
        None if stated.start == 0 => false,
        None => at_part(text, !keeps_none(olds), at),
    }
}

/// Whether the new part has lines and can't be left out.
fn is_needed(stated: Stated, olds: &[HunkLine], changed: bool) -> bool
    ensures { (text : List ℕ) → result ≡ is_needed stated (record { lines = body_of text olds.now; changed = changed }) }
{
    if stated.most() == 0 {
        return false;
    }
    changed || olds.is_empty() || !stated.is_count(kept_lines(olds) as u64)
}

/// Whether a line of the new part stands at `at`, also one that lost its blank.
fn at_shown(text: &[u8], at: usize) -> bool
    requires { at ≤ length text.now }
    ensures { result ≡ begins_shown (lines (drop at text.now)) }
{
    match next_line(text, at) {
        None => false,
        Some(end) => can_show(&text[at..end], Side::Reversed),
    }
}

/// Whether the new part is there.
fn has_new(text: &[u8], stated: Stated, old: &Body, at: usize) -> bool
    requires { at ≤ length text.now }
    ensures { result ≡ is_new stated (plain_of text.now old.now) (lines (drop at text.now)) }
{
    if is_told(text, stated, &old.lines, at) {
        return true;
    }
    is_needed(stated, &old.lines, old.changed) && at_shown(text, at)
}

/// How many lines are read of a part that is there or left out.
fn lines_of(stated: Stated, is_there: bool) -> u64
    ensures { result ≡ (if is_there then most stated else 0) }
{
    if is_there { stated.most() } else { 0 }
}

/// The new part behind this old part, and the place after it.
#[tactic(auto, unfolding(crate::specs::Hunks::new_part))]
fn read_new(
    alloc: Global,
    text: &[u8],
    old: &Part,
    place: Place,
) -> Result<(Part, Place), FormFault>
    requires { IsPlace text.now place }
    ensures place { IfOk result (λ x. IsPlace text.now x.1 × (place.at < x.1.at)) }
    ensures few { IfOk result (λ x. place.at + vec_len x.0.body.lines ≤ x.1.at) }
    ensures lies { IfOk result (λ x. All (λ l. LiesIn text.now l.span) x.0.body.lines.items) }
    ensures fits { IfOk result (λ x. Fits x.0.stated) }
    ensures exact { Gives (λ x. (part_over text.now x.0, ahead_of text.now x.1)) result (new_part (part_over text.now old.now) (ahead_of text.now place)) }
{
    let number = place.number;
    let (stated, place) = read_range_line(text, Side::Reversed, 0, place)?;
    let is_there = has_new(text, stated, &old.body, place.at);
    fits_part(stated, is_there, number)?;
    has_enough(old, number)?;
    let most = lines_of(stated, is_there);
    let (body, place) = read_body(alloc, text, Side::Reversed, most, place)?;
    let part = Part {
        number,
        stated,
        body,
    };
    Ok((part, place))
}

/// How many lines a part with this partner has: where it is left out, the kept lines of the partner.
fn size_beside(part: &Body, partner: &Body) -> usize
    ensures { (text : List ℕ) → result ≡ size_beside (plain_of text part.now) (plain_of text partner.now) }
{
    if part.lines.is_empty() {
        kept_lines(&partner.lines)
    } else {
        part.lines.len()
    }
}

/// Whether a part with this partner has the stated number of lines, and none above the greatest number.
fn has_size(part: &Part, partner: &Part) -> Result<(), FormFault>
    requires { Fits part.now.stated }
    ensures { (text : List ℕ) → Gives (λ x. tt) result (sized (part_over text part.now) (part_over text partner.now)) }
{
    let size = size_beside(&part.body, &partner.body) as u64;
    if !part.stated.is_count(size) {
        return Err(bad(part.number, BadKind::Count));
    }
    if part.stated.start + size > 4_294_967_295 {
        return Err(bad(part.number, BadKind::NumberTooLarge));
    }
    Ok(())
}

/// The hunk of two whole parts, where they agree.
#[tactic(auto, unfolding(crate::specs::Hunks::whole))]
fn hunk_from(alloc: Global, text: &[u8], old: Part, new: Part) -> Result<Hunk, FormFault>
    requires old_within { All (λ l. LiesIn text.now l.span) old.body.lines.items }
    requires new_within { All (λ l. LiesIn text.now l.span) new.body.lines.items }
    requires few { vec_len old.body.lines + vec_len new.body.lines < 2 ^ 32 }
    requires old_fits { Fits old.stated }
    requires new_fits { Fits new.stated }
    ensures few { IfOk result (λ x. vec_len x.body ≤ vec_len old.body.lines + vec_len new.body.lines) }
    ensures lawful { IfOk result (IsLawful text.now) }
    ensures exact { Gives (hunk_of text.now) result (whole (part_over text.now old) (part_over text.now new)) }
{
    has_size(&old, &new)?;
    has_size(&new, &old)?;
    let number = new.number;
    let old_start = old.stated.start as u32;
    let new_start = new.stated.start as u32;
    match joined(alloc, text, old.body, new.body)? {
        None => Err(bad(number, BadKind::SidesDiffer)),
        Some(body) => Ok(Hunk {
            old_start,
            new_start,
            body,
        }),
    }
}

/// Both parts, with the place after them.
#[tactic(auto, unfolding(crate::specs::Hunks::parts_at))]
fn read_parts(
    alloc: Global,
    text: &[u8],
    least: u64,
    place: Place,
) -> Result<((Part, Part), Place), FormFault>
    requires { IsPlace text.now place }
    ensures place { IfOk result (λ x. IsPlace text.now x.1 × (place.at < x.1.at)) }
    ensures few { IfOk result (λ x. place.at + vec_len x.0.0.body.lines + vec_len x.0.1.body.lines ≤ x.1.at) }
    ensures old_lies { IfOk result (λ x. All (λ l. LiesIn text.now l.span) x.0.0.body.lines.items) }
    ensures new_lies { IfOk result (λ x. All (λ l. LiesIn text.now l.span) x.0.1.body.lines.items) }
    ensures old_fits { IfOk result (λ x. Fits x.0.0.stated) }
    ensures new_fits { IfOk result (λ x. Fits x.0.1.stated) }
    ensures exact { Gives (λ x. ((part_over text.now x.0.0, part_over text.now x.0.1), ahead_of text.now x.1)) result (parts_at least (ahead_of text.now place)) }
{
    let (old, place) = read_old(alloc, text, least, place)?;
    let (new, place) = read_new(alloc, text, &old, place)?;
    Ok(((old, new), place))
}

/// A hunk whose old start is at least `least`, with the place after it.
#[tactic(auto, unfolding(crate::specs::Hunks::first_hunk))]
fn take_hunk(
    alloc: Global,
    text: &[u8],
    least: u64,
    place: Place,
) -> Result<(Hunk, Place), FormFault>
    requires { IsPlace text.now place }
    ensures place { IfOk result (λ x. IsPlace text.now x.1 × (place.at < x.1.at)) }
    ensures few { IfOk result (λ x. place.at + vec_len x.0.body ≤ x.1.at) }
    ensures lawful { IfOk result (λ x. IsLawful text.now x.0) }
    ensures exact { Gives (λ x. (hunk_of text.now x.0, ahead_of text.now x.1)) result (hunk_at least (ahead_of text.now place)) }
{
    let number = place.number;
    let Some(end) = next_line(text, place.at) else {
        return Err(bad(number, BadKind::ShortEnd));
    };
    let ((old, new), next) = read_parts(
        alloc,
        text,
        least,
        Place {
            at: end,
            number: number + 1,
        },
    )?;
    let hunk = hunk_from(alloc, text, old, new)?;
    if backslash_end(text, next.at).is_some() {
        return Err(bad(next.number, BadKind::MisplacedBackslash));
    }
    Ok((hunk, next))
}

/// The context form, whose reading keeps nothing from hunk to hunk.
#[derive(Drop)]
struct Context {}

impl HunkForm for Context {
    ghost begins = { begins_hunk };

    ghost hunk_at = { hunk_at };

    ghost Spells = { SpellsPiece };

    ghost IsReady = { λ text c. Unit {0} };

    fn opens(&mut self, text: &[u8], at: usize) -> bool {
        at_opening(text, at)
    }

    fn read_hunk(
        &mut self,
        alloc: Global,
        text: &[u8],
        least: u64,
        place: Place,
    ) -> Result<(Hunk, Place), FormFault> {
        take_hunk(alloc, text, least, place)
    }
}

/// The hunks that follow each other from `at` on, where the line has this number.
pub fn read_hunks(alloc: Global, text: &[u8], at: usize, line: u64) -> Result<Hunks, FormFault>
    requires short { length text.now < 2 ^ 32 }
    requires within { at ≤ length text.now }
    requires opens { begins_hunk (lines (drop at text.now)) ≡ true }
    requires small { line < 2 ^ 32 }
    ensures within { IfOk result (λ h. h.end ≤ length text.now) }
    // The spans are the pieces of the hunks, one behind the other from `at` up to the end.
    ensures turn { IfOk result (λ h. AreInTurn at h.spans.items h.end) }
    ensures whole { IfOk result (λ h. AreWhole text.now h.spans.items) }
    ensures pieces { IfOk result (λ h. SpellInTurn SpellsPiece text.now 0 h.spans.items (hunks_of text.now h.items.items)) }
    // Each hunk is lawful over the text, and breaks none of the rules of `Hunk::check`.
    ensures sound { IfOk result (λ h. AreSound text.now h) }
    // What is read is spelled so, by the lines up to the end, and no hunk nor backslash line stands there.
    ensures found { IfOk result (λ h. IsPiece line (lines (drop at text.now)) (hunks_of text.now h.items.items) h.next (lines (drop h.end text.now))) }
    // What is spelled so is read, unless memory runs out.
    ensures only { (hs : List PlainHunk) (next : ℕ) (rest : List (List ℕ)) → IsPiece line (lines (drop at text.now)) hs next rest
        → Gives (read_of text.now) result (these hs next rest) }
    // Where nothing is spelled, which fault is the first.
    ensures exact { Gives (read_of text.now) result
        (reading line (lines (drop at text.now))) }
{
    read_whole(Context {}, alloc, text, at, line)
}
