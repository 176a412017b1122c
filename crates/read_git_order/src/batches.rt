//! Batches, and the order within them.

ghost use Rattle.std.specs.Prelude.{◌≡◌, ◌<◌, ◌++◌, ◌&&◌, Some, length, drop, nat_lt, IfOk, IfSome, OnOk};
ghost use Rattle.std.specs.Option.{option_copied};
ghost use Rattle.std.specs.List.{list_any, position};
ghost use Rattle.read_git_order.specs.Waiting.{changes_one, of_two, waits};
ghost use Rattle.read_git_order.specs.Batches.{begins_with_git, begun, end_at, ended, goes_on, has_git, has_late, in_batch, in_order, is_late, is_led, last_of, makes_same, next_of, taken};

use crate::pieces::{Piece, begins};
use crate::waiting::{changes, is_file, makes_same, waits};
use std::alloc::{AllocError, Global};

/// Whether a file patch stands behind one that changes its source.
pub fn has_late(pieces: &[Piece]) -> bool
    ensures { result ≡ has_late pieces.now }
{
    pieces.iter().any(|piece| is_late(pieces, piece))
}

fn is_late(pieces: &[Piece], piece: &Piece) -> bool
    ensures { result ≡ is_late pieces.now piece.now }
{
    match piece.source {
        Some(file) => is_changed_before(pieces, piece.start, file),
        None => false,
    }
}

fn is_changed_before(pieces: &[Piece], start: usize, file: u32) -> bool
    ensures { result ≡ list_any (λ p. nat_lt p.start start && changes_one p (Some file)) pieces.now }
{
    pieces
        .iter()
        .any(|piece| piece.start < start && changes(piece, file))
}

/// The order of all file patches, by their places in the text.
pub fn in_order(
    alloc: Global,
    text: &[u8],
    reverse: bool,
    pieces: &[Piece],
) -> Result<Vec<usize>, AllocError>
    ensures { IfOk result (λ order. order.items ≡ in_order text.now reverse pieces.now) }
{
    let mut order = Vec::with_capacity(alloc, pieces.len())?;
    let mut batch: Vec<usize> = Vec::new(alloc);
    let mut k = 0;
    'pieces: while k < pieces.len() {
        take_up(alloc, text, reverse, pieces, k, &mut batch, &mut order)?;
        k += 1;
    }
    put_batch(alloc, text, reverse, pieces, &batch, &mut order)?;
    Ok(order)
}

/// Lets a file patch go on with a batch that was begun, or begin the next one.
fn take_up(
    alloc: Global,
    text: &[u8],
    reverse: bool,
    pieces: &[Piece],
    k: usize,
    batch: &mut Vec<usize>,
    order: &mut Vec<usize>,
) -> Result<(), AllocError>
    ensures batch { OnOk result (batch.new.items ≡ begun pieces.now batch.old.items k) }
    ensures order { OnOk result (order.new.items ≡ order.old.items ++ ended text.now reverse pieces.now batch.old.items k) }
{
    if goes_on(pieces, batch, k) {
        batch.push(k)?;
        return Ok(());
    }
    put_batch(alloc, text, reverse, pieces, batch, order)?;
    batch.clear();
    batch.push(k)?;
    Ok(())
}

/// Whether a file patch goes on with the batch in front of it.
fn goes_on(pieces: &[Piece], batch: &[usize], k: usize) -> bool
    ensures { result ≡ goes_on pieces.now batch.now k }
{
    if !begins_with_git(pieces.get(k)) || !has_git(pieces.get(k.saturating_sub(1))) {
        return false;
    }
    !is_made_again(pieces, batch, k)
}

fn begins_with_git(piece: Option<&Piece>) -> bool
    ensures { result ≡ begins_with_git (option_copied piece.entry) }
{
    match piece {
        Some(piece) => is_file(piece.places.git, 0),
        None => false,
    }
}

fn has_git(piece: Option<&Piece>) -> bool
    ensures { result ≡ has_git (option_copied piece.entry) }
{
    match piece {
        Some(piece) => piece.places.git.is_some(),
        None => false,
    }
}

/// Whether one of these makes the file that this one makes.
fn is_made_again(pieces: &[Piece], batch: &[usize], k: usize) -> bool
    ensures { result ≡ list_any (λ i. of_two makes_same pieces.now i k) batch.now }
{
    batch.iter().any(|one| make_same(pieces, *one, k))
}

fn make_same(pieces: &[Piece], one: usize, other: usize) -> bool
    ensures { result ≡ of_two makes_same pieces.now one other }
{
    let Some(first) = pieces.get(one) else {
        return false;
    };
    let Some(second) = pieces.get(other) else {
        return false;
    };
    makes_same(first, second)
}

/// Puts the file patches of a batch behind the order of those in front.
fn put_batch(
    alloc: Global,
    text: &[u8],
    reverse: bool,
    pieces: &[Piece],
    batch: &[usize],
    order: &mut Vec<usize>,
) -> Result<(), AllocError>
    ensures { OnOk result (order.new.items ≡ order.old.items ++ in_batch text.now reverse pieces.now batch.now) }
{
    if is_led_behind(text, pieces, batch) {
        order.extend_from_slice(batch)?;
        return Ok(());
    }
    put_taken(alloc, text, reverse, pieces, batch, order)
}

/// Whether a line stands directly behind the last of them that a git header in front of it would lead.
fn is_led_behind(text: &[u8], pieces: &[Piece], batch: &[usize]) -> bool
    ensures { result ≡ is_led (drop (end_at pieces.now (last_of batch.now)) text.now) }
{
    let end = usize::min(end_at(pieces, last_of(batch)), text.len());
    is_led(&text[end..])
}

fn is_led(bytes: &[u8]) -> bool
    ensures { result ≡ is_led bytes.now }
{
    begins(bytes, b"--- ") || begins(bytes, b"@@ ")
}

/// The place behind a file patch.
pub fn end_at(pieces: &[Piece], k: usize) -> usize
    ensures { result ≡ end_at pieces.now k }
{
    match pieces.get(k) {
        Some(piece) => piece.end,
        None => 0,
    }
}

fn last_of(batch: &[usize]) -> usize
    ensures { result ≡ last_of batch.now }
{
    match batch.last() {
        Some(last) => *last,
        None => 0,
    }
}

/// Takes the file patches of a batch one after another.
fn put_taken(
    alloc: Global,
    text: &[u8],
    reverse: bool,
    pieces: &[Piece],
    batch: &[usize],
    order: &mut Vec<usize>,
) -> Result<(), AllocError>
    ensures { OnOk result (order.new.items ≡ order.old.items ++ taken (length batch.now) (waits text.now reverse pieces.now batch.now) batch.now) }
{
    let mut left = Vec::from_slice(alloc, batch)?;
    'left: while !left.is_empty() {
        let next = next_of(text, reverse, pieces, batch, &left);
        order.push(left.remove(next))?;
    }
    Ok(())
}

/// The place among those that are left of the next one: of the first, or whom it waits for.
fn next_of(text: &[u8], reverse: bool, pieces: &[Piece], batch: &[usize], left: &[usize]) -> usize
    requires { 0 < length left.now }
    ensures is { result ≡ next_of (waits text.now reverse pieces.now batch.now) left.now }
    ensures within { result < length left.now }
{
    let mut place = 0;
    let mut most = left.len();
    'steps: while most > 0 {
        let Some(next) = first_waited_for(text, reverse, pieces, batch, left, left[place]) else {
            return place;
        };
        place = next;
        most -= 1;
    }
    0
}

/// The place of the first of those that are left for which a file patch waits.
fn first_waited_for(
    text: &[u8],
    reverse: bool,
    pieces: &[Piece],
    batch: &[usize],
    left: &[usize],
    one: usize,
) -> Option<usize>
    ensures is { result ≡ position (waits text.now reverse pieces.now batch.now one) left.now }
    ensures within { IfSome result (λ n. n < length left.now) }
{
    left.iter()
        .position(|other| waits(text, reverse, pieces, batch, one, *other))
}
