//! Where a finder has hits.

ghost use Rattle.std.specs.Prelude.{◌≡◌, ◌<◌, ◌^◌, ◌&&◌, [], filter, if◌then◌else◌, IsSome, IfOk, OnOk, IfErr, All, Some, false, length, map, slice_index_or, string_bytes};
ghost use Rattle.std.specs.List.{flat_map, list_any};
ghost use Rattle.outside.specs.FinderView.{FinderPasses};
ghost use Rattle.hunk_core.specs.PlainHunk.{bytes_at, hunk_of};
ghost use Rattle.hunk_core.specs.Turned.{IsLawful, LiesIn};
ghost use Rattle.ed_form.specs.PlainEdit.{edits_of, lines_of};
ghost use Rattle.read_file_patch.specs.PlainPatch.{IsLawfulChange, change_of, row_count};
ghost use Rattle.patch_filters.specs.Grepped.{IsAsked, IsFirst, IsPatternFault, hits_of, is_searched, test_of};
ghost use Rattle.patch_header.specs.Content.{content};

use crate::GrepFault;
use crate::pieces::bytes_at;
use cli_tool_words::Searched;
use ed_form::{EdEdit, EdScript};
use hunk_core::{Hunk, HunkLine, Mark, has_feed};
use line_list::Span;
use outside::{FindFault, Finder};
use read_file_patch::{Change, FilePatch};
use std::alloc::{AllocError, Global};

/// Hands the finder the pattern.
pub fn keep_pattern<F: Finder>(
    alloc: Global,
    pattern: &str,
    finder: &mut F,
) -> Result<(), GrepFault>
    ensures passes { FinderPasses (F.view finder.old) (F.view finder.new) }
    ensures kept { OnOk result ((F.view finder.new).kept ≡ Some pattern.now) }
    ensures cause { IfErr result (λ e. IsPatternFault e (F.view finder.old) pattern.now) }
{
    match finder.set(alloc, pattern) {
        Ok(()) => Ok(()),
        Err(FindFault::Refused) => Err(GrepFault::Pattern),
        Err(FindFault::Memory) => Err(GrepFault::Memory),
    }
}

/// A line without the line feed at its end.
pub fn content(line: &[u8]) -> &[u8]
    ensures { result.now ≡ content line.now }
{
    if has_feed(line) {
        &line[..line.len() - 1]
    } else {
        line
    }
}

fn has_hit<F: Finder>(alloc: Global, line: &[u8], finder: &mut F) -> Result<bool, AllocError>
    requires { IsSome (F.view finder.old).kept }
    ensures asked { IsAsked (F.view finder.old) (F.view finder.new) }
    ensures hit { IfOk result (λ b. b ≡ test_of (F.view finder.old) (content line.now)) }
{
    finder.hits(alloc, content(line))
}

/// Whether lines with this mark are searched.
fn is_searched(searched: Searched, mark: Mark) -> bool
    ensures { result ≡ is_searched searched mark }
{
    match (searched, mark) {
        (Searched::All, _)
        | (Searched::Removed | Searched::Changed, Mark::Drop)
        | (Searched::Added | Searched::Changed, Mark::Add) => true,
        (Searched::Removed | Searched::Added | Searched::Changed, Mark::Keep)
        | (Searched::Removed, Mark::Add)
        | (Searched::Added, Mark::Drop) => false,
    }
}

/// Whether a line of a hunk is searched and has a hit.
fn line_has_hit<F: Finder>(
    alloc: Global,
    text: &[u8],
    searched: Searched,
    line: HunkLine,
    finder: &mut F,
) -> Result<bool, AllocError>
    requires kept { IsSome (F.view finder.old).kept }
    requires within { LiesIn text.now line.span }
    ensures asked { IsAsked (F.view finder.old) (F.view finder.new) }
    ensures hit { IfOk result (λ b. b ≡ (is_searched searched line.mark && test_of (F.view finder.old) (content (bytes_at text.now line.span)))) }
{
    if !is_searched(searched, line.mark) {
        return Ok(false);
    }
    has_hit(alloc, bytes_at(text, line.span), finder)
}

/// Whether a line of the hunk that is searched has a hit.
fn hunk_has_hit<F: Finder>(
    alloc: Global,
    text: &[u8],
    searched: Searched,
    hunk: &Hunk,
    finder: &mut F,
) -> Result<bool, AllocError>
    requires kept { IsSome (F.view finder.old).kept }
    requires lawful { IsLawful text.now hunk.now }
    ensures asked { IsAsked (F.view finder.old) (F.view finder.new) }
    ensures hit { IfOk result (λ b. b ≡ list_any (test_of (F.view finder.old)) (map (λ m. content m.line) (filter (λ m. is_searched searched m.mark) (hunk_of text.now hunk.now).body))) }
{
    for i in 0..hunk.body.len() {
        let line = hunk.body[i];
        if line_has_hit(alloc, text, searched, line, finder)? {
            return Ok(true);
        }
    }
    Ok(false)
}

/// Whether a line that the edit inserts has a hit.
fn edit_has_hit<F: Finder>(
    alloc: Global,
    text: &[u8],
    edit: &EdEdit,
    finder: &mut F,
) -> Result<bool, AllocError>
    requires kept { IsSome (F.view finder.old).kept }
    requires within { All (LiesIn text.now) edit.now.added.items }
    ensures asked { IsAsked (F.view finder.old) (F.view finder.new) }
    ensures hit { IfOk result (λ b. b ≡ list_any (test_of (F.view finder.old)) (map content (lines_of text.now edit.now.added.items))) }
{
    for i in 0..edit.added.len() {
        let span = edit.added[i];
        if has_hit(alloc, bytes_at(text, span), finder)? {
            return Ok(true);
        }
    }
    Ok(false)
}

/// Whether a line that an edit inserts has a hit, where such lines are searched.
fn script_has_hit<F: Finder>(
    alloc: Global,
    text: &[u8],
    searched: Searched,
    script: &EdScript,
    finder: &mut F,
) -> Result<bool, AllocError>
    requires kept { IsSome (F.view finder.old).kept }
    requires within { All (λ e. All (LiesIn text.now) e.added.items) script.now.edits.items }
    ensures asked { IsAsked (F.view finder.old) (F.view finder.new) }
    ensures hit { IfOk result (λ b. b ≡ list_any (test_of (F.view finder.old)) (if is_searched searched Mark.Add then flat_map (λ e. map content e.added) (edits_of text.now script.now.edits.items) else [])) }
{
    if !is_searched(searched, Mark::Add) {
        return Ok(false);
    }
    edits_have_hit(alloc, text, script, finder)
}

fn edits_have_hit<F: Finder>(
    alloc: Global,
    text: &[u8],
    script: &EdScript,
    finder: &mut F,
) -> Result<bool, AllocError>
    requires kept { IsSome (F.view finder.old).kept }
    requires within { All (λ e. All (LiesIn text.now) e.added.items) script.now.edits.items }
    ensures asked { IsAsked (F.view finder.old) (F.view finder.new) }
    ensures hit { IfOk result (λ b. b ≡ list_any (test_of (F.view finder.old)) (flat_map (λ e. map content e.added) (edits_of text.now script.now.edits.items))) }
{
    for i in 0..script.edits.len() {
        let edit = &script.edits[i];
        if edit_has_hit(alloc, text, edit, finder)? {
            return Ok(true);
        }
    }
    Ok(false)
}

/// Whether a hunk, counted from 0, has a hit; an ed script is one hunk.
pub fn is_hit<F: Finder>(
    alloc: Global,
    text: &[u8],
    searched: Searched,
    change: &Change,
    hunk: u32,
    finder: &mut F,
) -> Result<bool, AllocError>
    requires kept { IsSome (F.view finder.old).kept }
    requires lawful { IsLawfulChange text.now change.now }
    requires within { hunk < row_count change.now }
    ensures asked { IsAsked (F.view finder.old) (F.view finder.new) }
    ensures hit { IfOk result (λ b. b ≡ slice_index_or (hits_of searched (test_of (F.view finder.old)) (change_of text.now change.now)) hunk false) }
{
    match change {
        Change::Hunks(hunks) => hunk_has_hit(alloc, text, searched, &hunks[hunk as usize], finder),
        Change::Script(script) => script_has_hit(alloc, text, searched, script, finder),
    }
}

/// The first hunk, counted from 0, that has a hit. Those behind it aren't searched.
pub fn first_hit<F: Finder>(
    alloc: Global,
    text: &[u8],
    searched: Searched,
    patch: &FilePatch,
    finder: &mut F,
) -> Result<Option<u32>, AllocError>
    requires kept { IsSome (F.view finder.old).kept }
    requires lawful { IsLawfulChange text.now patch.now.change }
    requires few { row_count patch.now.change < 2 ^ 32 }
    ensures asked { IsAsked (F.view finder.old) (F.view finder.new) }
    ensures first { IfOk result (IsFirst (hits_of searched (test_of (F.view finder.old)) (change_of text.now patch.now.change))) }
{
    for hunk in 0..patch.hunks() {
        if is_hit(alloc, text, searched, &patch.change, hunk, finder)? {
            return Ok(Some(hunk));
        }
    }
    Ok(None)
}

/// Whether a hunk, counted from 0, has a hit, where this is the first one that has.
pub fn is_hit_behind<F: Finder>(
    alloc: Global,
    text: &[u8],
    searched: Searched,
    patch: &FilePatch,
    first: u32,
    hunk: u32,
    finder: &mut F,
) -> Result<bool, AllocError>
    requires kept { IsSome (F.view finder.old).kept }
    requires lawful { IsLawfulChange text.now patch.now.change }
    requires within { hunk < row_count patch.now.change }
    requires first { IsFirst (hits_of searched (test_of (F.view finder.old)) (change_of text.now patch.now.change)) (Some first) }
    ensures asked { IsAsked (F.view finder.old) (F.view finder.new) }
    ensures hit { IfOk result (λ b. b ≡ slice_index_or (hits_of searched (test_of (F.view finder.old)) (change_of text.now patch.now.change)) hunk false) }
{
    if hunk < first {
        return Ok(false);
    }
    if hunk == first {
        return Ok(true);
    }
    is_hit(alloc, text, searched, &patch.change, hunk, finder)
}
