//! The list of file patches.

ghost use Rattle.std.specs.Prelude.{◌≡◌, ◌+◌, ◌<◌, ◌≤◌, ◌^◌, ◌++◌, ℕ, List, codes, length, slice_get, suc};
ghost use Rattle.std.specs.List.{list_any};
ghost use Rattle.std.specs.Option.{ForSome};
ghost use Rattle.hunk_core.specs.PlainHunk.{hunks_of};
ghost use Rattle.hunk_core.specs.Sides.{is_on_side};
ghost use Rattle.outside.specs.SinkView.{Writes};
ghost use Rattle.outside.specs.Puts.{Puts};
ghost use Rattle.read_file_patch.specs.PlainPatch.{change_of, header_of, hunks, patch_of};
ghost use Rattle.read_file_patch.specs.Absent.{IsLawfulPatch, is_absent};
ghost use Rattle.filter_choice.specs.Outlined.{outlined};
ghost use Rattle.patch_set.specs.PlainName.{plain_name};
ghost use Rattle.patch_set.specs.SetView.{patch_at};
ghost use Rattle.cli_tool_words.specs.PlainJobs.{plain_list_job, plain_shown};
ghost use Rattle.patch_filters.specs.Listed.{asks_hunks, blanks, file_line, file_number, file_text, front, has_no_line, is_gone, line_if_selected, lines_if_selected, listed, listed_whole, name_line, number_text, own_line, sign, sign_text};

use crate::hunk_lines::{Line, add_decimal, put_hunk_lines};
use crate::pieces::put_piece;
use arrayvec::ArrayVec;
use cli_tool_words::{ListJob, Shown};
use filter_choice::{FilePatchList, is_selected, patch_at};
use hunk_core::{Hunk, Side, add_piece, is_taken};
use num_text::put_number;
use outside::{Failed, Sink};
use patch_set::PatchSet;
use read_file_patch::{Change, FilePatch, shortened};

fn has_line(hunk: &Hunk, side: Side) -> bool
    ensures { result ≡ list_any (λ l. is_on_side side l.mark) hunk.now.body.items }
{
    hunk.body.iter().any(|line| is_taken(line.mark, side))
}

fn is_one_with_line(all: &[Hunk], side: Side) -> bool
    ensures { result ≡ list_any (λ h. list_any (λ l. is_on_side side l.mark) h.body.items) all.now }
{
    all.iter().any(|hunk| has_line(hunk, side))
}

/// Whether these are hunks, and none has a line on this side.
fn is_none_with_line(all: &[Hunk], side: Side) -> bool
    ensures { (text : List ℕ) → result ≡ has_no_line side (hunks (hunks_of text all.now)) }
{
    if all.is_empty() {
        return false;
    }
    !is_one_with_line(all, side)
}

/// Whether there are hunks, and none has a line on this side.
fn has_no_line(change: &Change, side: Side) -> bool
    ensures { (text : List ℕ) → result ≡ has_no_line side (change_of text change.now) }
{
    match change {
        Change::Hunks(hunks) => is_none_with_line(hunks, side),
        Change::Script(_) => false,
    }
}

/// Whether the side is no file or, where that counts, has no line.
fn is_gone(patch: &FilePatch, empty: bool, side: Side) -> bool
    ensures { (text : List ℕ) → IsLawfulPatch text patch.now → result ≡ is_gone empty side (patch_of text patch.now) }
{
    patch.creates(side) || empty && has_no_line(&patch.change, side)
}

fn sign(patch: &FilePatch, empty: bool) -> &'static [u8]
    ensures sign { (text : List ℕ) → IsLawfulPatch text patch.now → result.now ≡ sign empty (patch_of text patch.now) }
    ensures few { length result.now ≡ 2 }
{
    if patch.is_moved() {
        b"! "
    } else if is_gone(patch, empty, Side::Forward) {
        b"+ "
    } else if is_gone(patch, empty, Side::Reversed) {
        b"- "
    } else {
        b"! "
    }
}

fn add_number(front: &mut Line, is_asked: bool, number: u64)
    requires { length front.old.items ≡ 0 }
    ensures text { front.new.items ≡ number_text is_asked number }
    ensures few { length front.new.items ≤ 21 }
{
    if is_asked {
        let mut digits = [0; 20];
        let count = put_number(number, &mut digits);
        add_piece(front, &digits[..count]);
        add_piece(front, b"\t");
    }
}

/// Blanks behind a number that has less than three digits.
fn blanks(number: u64) -> &'static [u8]
    ensures blanks { result.now ≡ blanks number }
    ensures few { length result.now ≤ 2 }
{
    if number < 10 {
        b"  "
    } else if number < 100 {
        b" "
    } else {
        b""
    }
}

/// The number of a file patch, and a tab.
fn file_line(number: u64) -> Line
    ensures text { result.items ≡ file_line number }
    ensures few { length result.items ≤ 29 }
{
    let mut text = ArrayVec::new();
    add_piece(&mut text, b"File #");
    add_decimal(&mut text, number);
    add_piece(&mut text, blanks(number));
    add_piece(&mut text, b"\t");
    text
}

fn add_file(front: &mut Line, number: Option<u64>)
    requires { length front.old.items ≤ 21 }
    ensures text { front.new.items ≡ front.old.items ++ file_text number }
    ensures few { length front.new.items ≤ 50 }
{
    if let Some(number) = number {
        add_piece(front, file_line(number).as_slice());
    }
}

fn add_sign(front: &mut Line, shown: &Shown, patch: &FilePatch)
    requires { length front.old.items ≤ 50 }
    ensures { (text : List ℕ) → IsLawfulPatch text patch.now → front.new.items ≡ front.old.items ++ sign_text (plain_shown shown.now) (patch_of text patch.now) }
{
    if shown.status {
        add_piece(front, sign(patch, shown.empty_absent));
    }
}

/// What stands in front of the name.
fn front(shown: &Shown, number: Option<u64>, patch: &FilePatch) -> Line
    ensures { (text : List ℕ) → IsLawfulPatch text patch.now → result.items ≡ front (plain_shown shown.now) number (patch_of text patch.now) }
{
    let mut front = ArrayVec::new();
    add_number(&mut front, shown.numbers, patch.header.names_line);
    add_file(&mut front, number);
    add_sign(&mut front, shown, patch);
    front
}

/// Writes a name, and a line feed.
fn put_line<O: Sink>(out: &mut O, name: &[u8]) -> Result<(), Failed>
    ensures { Puts O.view O.same_rest out.old out.new result (name.now ++ codes "\n") }
{
    put_piece(out, name)?;
    put_piece(out, b"\n")
}

/// Writes the line of a file patch with this name, and with this number, if it is shown.
pub fn put_name_line<O: Sink>(
    shown: &Shown,
    number: Option<u64>,
    patch: &FilePatch,
    name: &[u8],
    out: &mut O,
) -> Result<(), Failed>
    ensures { (text : List ℕ) → IsLawfulPatch text patch.now → name.now ≡ plain_name (header_of text patch.now.header) → Puts O.view O.same_rest out.old out.new result (name_line (plain_shown shown.now) number (patch_of text patch.now)) }
{
    put_piece(out, &shown.label)?;
    put_own_line(shown, number, patch, name, out)
}

/// Writes the line of a file patch without the name of its text.
fn put_own_line<O: Sink>(
    shown: &Shown,
    number: Option<u64>,
    patch: &FilePatch,
    name: &[u8],
    out: &mut O,
) -> Result<(), Failed>
    ensures { (text : List ℕ) → IsLawfulPatch text patch.now → name.now ≡ plain_name (header_of text patch.now.header) → Puts O.view O.same_rest out.old out.new result (own_line (plain_shown shown.now) number (patch_of text patch.now)) }
{
    let front = front(shown, number, patch);
    put_piece(out, front.as_slice())?;
    put_piece(out, &shown.prefix)?;
    put_line(out, shortened(shown.strip, name))
}

/// The number of a file patch, counted from 0, where it is to be shown.
fn file_number(job: &ListJob, patch: usize) -> Option<u64>
    requires { patch + 1 < 2 ^ 64 }
    ensures { result ≡ file_number (plain_list_job job.now) (suc patch) }
{
    if job.number_files {
        Some(patch as u64 + 1)
    } else {
        None
    }
}

/// Writes the line of a file patch, counted from 0, if it is selected.
fn put_if_selected<O: Sink>(
    outline: &FilePatchList,
    job: &ListJob,
    patch: usize,
    out: &mut O,
) -> Result<(), Failed>
    requires within { patch < length outline.now.patches }
    requires few { patch + 1 < 2 ^ 64 }
    ensures { ForSome (slice_get outline.now.patches patch) (λ p. Puts O.view O.same_rest out.old out.new result (line_if_selected (plain_list_job job.now) (suc patch, patch_of outline.now.text p))) }
{
    let name = outline.plain_name(patch);
    if !is_selected(&job.select, name) {
        return Ok(());
    }
    let number = file_number(job, patch);
    put_name_line(&job.shown, number, &outline.patches()[patch], name, out)
}

/// Writes a line for each file patch whose name is selected: the name of the text, if that is shown; the number of the line of its names, if it is asked for, and
/// a tab; the number of the file patch, if it is asked for; a sign that says which side is no file, if that is asked for, and a space; and its name, as it is shown.
pub fn list_patches<O: Sink>(
    outline: &FilePatchList,
    job: &ListJob,
    out: &mut O,
) -> Result<(), Failed>
    ensures writes { Writes (O.view out.old) (O.view out.new) result (listed (plain_list_job job.now) (outlined outline.now)) }
    ensures rest { O.same_rest out.old out.new }
{
    for patch in 0..outline.patches().len() {
        put_if_selected(outline, job, patch, out)?;
    }
    Ok(())
}

/// Whether the hunks are asked for: their lines, or whether one has a line on a side.
pub fn asks_hunks(shown: &Shown) -> bool
    ensures { result ≡ asks_hunks (plain_shown shown.now) }
{
    shown.hunks || shown.empty_absent
}

/// Writes the lines of a file patch of a set, counted from 0, if it is selected.
fn put_whole_if_selected<O: Sink>(
    set: &PatchSet,
    job: &ListJob,
    patch: u32,
    out: &mut O,
) -> Result<(), Failed>
    requires { patch < length set.now.patches }
    ensures { ForSome (patch_at set.now patch) (λ p. Puts O.view O.same_rest out.old out.new result (lines_if_selected (plain_list_job job.now) set.now.text (suc patch, p))) }
{
    let name = set.plain_name(patch);
    if !is_selected(&job.select, name) {
        return Ok(());
    }
    let found = patch_at(set, patch);
    put_name_line(
        &job.shown,
        file_number(job, patch as usize),
        found,
        name,
        out,
    )?;
    if !job.shown.hunks {
        return Ok(());
    }
    put_hunk_lines(&job.shown, set.text(), found, out)
}

/// Writes for each file patch whose name is selected the same line, and one for each of its hunks, if these are asked for: behind
/// a tab the number of the line at which it begins, and behind another its own number.
pub fn list_whole<O: Sink>(set: &PatchSet, job: &ListJob, out: &mut O) -> Result<(), Failed>
    ensures writes { Writes (O.view out.old) (O.view out.new) result (listed_whole (plain_list_job job.now) set.now) }
    ensures rest { O.same_rest out.old out.new }
{
    for patch in 0..set.patches().len() {
        put_whole_if_selected(set, job, patch as u32, out)?;
    }
    Ok(())
}
