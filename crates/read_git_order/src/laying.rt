//! A text with its file patches in another order.

ghost use Rattle.std.specs.Prelude.{◌≡◌, ◌-◌, drop, length, IfOk};
ghost use Rattle.read_git_order.specs.Batches.{end_at};
ghost use Rattle.read_git_order.specs.Ordered.{body_at, front_at, laid};

use crate::batches::end_at;
use crate::pieces::{Piece, body, front};
use std::alloc::{AllocError, Global};

/// The file patches in this order, each place with the lines that stand in front of it, and the lines behind the last.
pub fn laid(
    alloc: Global,
    text: &[u8],
    pieces: &[Piece],
    order: &[usize],
) -> Result<Vec<u8>, AllocError>
    ensures { IfOk result (λ new. new.items ≡ laid text.now pieces.now order.now) }
{
    let mut out = Vec::with_capacity(alloc, text.len())?;
    let mut at = 0;
    'places: while at < order.len() {
        out.extend_from_slice(front_at(text, pieces, at))?;
        out.extend_from_slice(body_at(text, pieces, order[at]))?;
        at += 1;
    }
    out.extend_from_slice(behind_all(text, pieces))?;
    Ok(out)
}

fn front_at<'t>(text: &'t [u8], pieces: &[Piece], k: usize) -> &'t [u8]
    ensures { result.now ≡ front_at text.now pieces.now k }
{
    match pieces.get(k) {
        Some(piece) => front(text, piece),
        None => b"",
    }
}

fn body_at<'t>(text: &'t [u8], pieces: &[Piece], k: usize) -> &'t [u8]
    ensures { result.now ≡ body_at text.now pieces.now k }
{
    match pieces.get(k) {
        Some(piece) => body(text, piece),
        None => b"",
    }
}

fn behind_all<'t>(text: &'t [u8], pieces: &[Piece]) -> &'t [u8]
    ensures { result.now ≡ drop (end_at pieces.now (length pieces.now - 1)) text.now }
{
    let end = end_at(pieces, pieces.len().saturating_sub(1));
    &text[usize::min(end, text.len())..]
}
