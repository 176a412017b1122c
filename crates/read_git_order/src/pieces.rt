//! The file patches of a text as pieces that can change places.

ghost use Rattle.std.specs.Prelude.{◌≡◌, ◌≤◌, IfOk, drop, length, slice_range, take, unwrap_or};
ghost use Rattle.std.specs.Option.{option_or};
ghost use Rattle.read_patch_text.specs.Regions.{region_of};
ghost use Rattle.read_git_order.specs.Moving.{pieces_in};
ghost use Rattle.read_git_order.specs.Pieces.{begins, body, found_in, front, made_by, number_at, own, piece_of, place_if, source_of, takes_source, top, with_line};

use hunk_core::after_prefix;
use line_list::next_line;
use read_file_patch::{FilePatch, Target};
use read_header_record::Action;
use std::alloc::{AllocError, Global};

/// Where the first git line and the last index line stand in the lines of a file patch that are in front of its hunks.
#[derive(Clone, Copy)]
pub struct GitLinePlaces {
    pub git: Option<usize>,
    pub index: Option<usize>,
}

/// A file patch as the order sees it. Files have the numbers of their targets.
#[derive(Clone, Copy)]
pub struct Piece {
    /// The place of its first line in the text.
    pub start: usize,
    /// The place behind its last line.
    pub end: usize,
    /// Counted from its first line.
    pub places: GitLinePlaces,
    /// The file that it renames or copies.
    pub source: Option<u32>,
    /// The file that it makes or changes.
    pub made: Option<u32>,
    /// Whether it takes its source away.
    pub takes: bool,
}

/// The pieces of a text, taken forwards or reversed.
pub fn pieces_of(
    alloc: Global,
    text: &[u8],
    reverse: bool,
    patches: &[FilePatch],
) -> Result<Vec<Piece>, AllocError>
    ensures { IfOk result (λ pieces. pieces.items ≡ pieces_in text.now reverse patches.now) }
{
    let mut pieces = Vec::with_capacity(alloc, patches.len())?;
    for patch in patches {
        pieces.push(piece_of(text, reverse, patch))?;
    }
    Ok(pieces)
}

fn piece_of(text: &[u8], reverse: bool, patch: &FilePatch) -> Piece
    ensures { result ≡ piece_of text.now reverse (region_of patch.now) patch.now.targets.items }
{
    let start = patch.span.start as usize;
    Piece {
        start,
        end: patch.span.end as usize,
        places: found_in(slice_of(text, start, top(patch))),
        source: source_of(reverse, patch),
        made: made_by(reverse, patch),
        takes: takes_source(patch.header.action),
    }
}

/// Where the lines end that stand in front of the hunks.
fn top(patch: &FilePatch) -> usize
    ensures { result ≡ top (region_of patch.now) }
{
    if patch.header.bare {
        patch.span.end as usize
    } else {
        patch.header.at
    }
}

/// The bytes between two places, as far as they lie in the text.
pub fn slice_of(text: &[u8], start: usize, end: usize) -> &[u8]
    ensures { result.now ≡ slice_range text.now start end }
{
    let end = usize::min(end, text.len());
    let start = usize::min(start, end);
    &text[start..end]
}

fn found_in(bytes: &[u8]) -> GitLinePlaces
    ensures { result ≡ found_in bytes.now }
{
    let mut found = GitLinePlaces {
        git: None,
        index: None,
    };
    let mut at = 0;
    'lines: while let Some(end) = next_line(bytes, at) {
        found = with_line(found, at, &bytes[at..end]);
        at = end;
    }
    found
}

fn with_line(found: GitLinePlaces, at: usize, line: &[u8]) -> GitLinePlaces
    ensures { result ≡ with_line found at line.now }
{
    GitLinePlaces {
        git: first_of(found.git, place_if(begins(line, b"diff --git "), at)),
        index: first_of(place_if(begins(line, b"index "), at), found.index),
    }
}

fn first_of(one: Option<usize>, other: Option<usize>) -> Option<usize>
    ensures { result ≡ option_or one other }
{
    match one {
        Some(_) => one,
        None => other,
    }
}

/// Whether a line begins so.
pub fn begins(line: &[u8], mark: &[u8]) -> bool
    ensures { result ≡ begins mark.now line.now }
{
    after_prefix(line, mark).is_some()
}

fn place_if(is_there: bool, at: usize) -> Option<usize>
    ensures { result ≡ place_if is_there at }
{
    if is_there { Some(at) } else { None }
}

fn number_at(targets: &[Target], place: usize) -> Option<u32>
    ensures { result ≡ number_at targets.now place }
{
    match targets.get(place) {
        Some(target) => Some(target.number),
        None => None,
    }
}

fn source_of(reverse: bool, patch: &FilePatch) -> Option<u32>
    ensures { result ≡ source_of reverse patch.now.header.action patch.now.targets.items }
{
    if !patch.is_moved() {
        return None;
    }
    number_at(&patch.targets, if reverse { 1 } else { 0 })
}

fn made_by(reverse: bool, patch: &FilePatch) -> Option<u32>
    ensures { result ≡ made_by reverse patch.now.header.action patch.now.targets.items }
{
    if patch.is_moved() && !reverse {
        return number_at(&patch.targets, 1);
    }
    number_at(&patch.targets, 0)
}

fn takes_source(action: Action) -> bool
    ensures { result ≡ takes_source action }
{
    match action {
        Action::Plain | Action::New | Action::Deleted | Action::Copy => false,
        Action::Rename => true,
    }
}

/// The lines of a piece.
pub fn own<'t>(text: &'t [u8], piece: &Piece) -> &'t [u8]
    ensures { result.now ≡ own text.now piece.now }
{
    slice_of(text, piece.start, piece.end)
}

/// Those in front of its git line.
pub fn front<'t>(text: &'t [u8], piece: &Piece) -> &'t [u8]
    ensures { result.now ≡ front text.now piece.now }
{
    let own = own(text, piece);
    &own[..git_place(own, piece)]
}

/// Its lines from the git line on.
pub fn body<'t>(text: &'t [u8], piece: &Piece) -> &'t [u8]
    ensures { result.now ≡ body text.now piece.now }
{
    let own = own(text, piece);
    &own[git_place(own, piece)..]
}

/// How many bytes stand in front of the git line, if there is one.
fn git_place(own: &[u8], piece: &Piece) -> usize
    ensures within { result ≤ length own.now }
    ensures front { take result own.now ≡ take (unwrap_or piece.now.places.git 0) own.now }
    ensures body { drop result own.now ≡ drop (unwrap_or piece.now.places.git 0) own.now }
{
    usize::min(piece.places.git.unwrap_or(0), own.len())
}
