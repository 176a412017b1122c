//! What is left of the source, read to its end.
ghost use Rattle.std.specs.Prelude.{◌≡◌, ◌<◌, ◌≤◌, [], length, take, true, false, IfOk, IfErr, OnOk, OnErr, vec_len};
ghost use Rattle.outside.specs.Faults.{HasRisen};
ghost use Rattle.outside.specs.SourceView.{SourceView, SourcePasses};
ghost use Rattle.cli_run_answers.specs.Input.{Takes, TakesAtMost, IsAtEnd, HasSourceCause};

use crate::fault::InputFault;
use crate::input::LONGEST;
use outside::{Failed, Source};
use std::alloc::{AllocError, Global};

/// How many bytes are read at once.
const PIECE: usize = 65_536;

/// All that is left.
pub fn read_source<I: Source>(alloc: Global, source: &mut I) -> Result<Vec<u8>, InputFault>
    ensures passes { SourcePasses (I.view source.old) (I.view source.new) }
    ensures short { IfOk result (λ text. length text.items ≤ 268435456) }
    ensures text { IfOk result (λ text. Takes (I.view source.old) (I.view source.new) text.items) }
    ensures end { OnOk result (IsAtEnd (I.view source.new)) }
    ensures taken { TakesAtMost 268435457 (I.view source.old) (I.view source.new) }
    ensures cause { IfErr result (λ e. HasSourceCause e (I.view source.old) (I.view source.new)) }
{
    let mut piece = room_for_piece(alloc)?;
    let mut text = Vec::new(alloc);
    'pieces: loop {
        let more = read_on(source, &mut piece, &mut text)?;
        if !more {
            return Ok(text);
        }
    }
}

fn room_for_piece(alloc: Global) -> Result<Vec<u8>, AllocError>
    ensures { IfOk result (λ piece. 0 < length piece.items) }
{
    vec![in alloc; 0u8; PIECE]
}

/// Reads the next piece behind the text, and answers whether there was one.
fn read_on<I: Source>(
    source: &mut I,
    piece: &mut [u8],
    text: &mut Vec<u8>,
) -> Result<bool, InputFault>
    requires some { 0 < length piece.old }
    requires room { length text.old.items ≤ 268435456 }
    ensures passes { SourcePasses (I.view source.old) (I.view source.new) }
    ensures short { OnOk result (length text.new.items ≤ 268435456) }
    ensures grows { IfOk result (λ more. more ≡ true → length text.old.items < length text.new.items) }
    ensures text { OnOk result ((s : SourceView) → Takes s (I.view source.old) text.old.items → Takes s (I.view source.new) text.new.items) }
    ensures end { IfOk result (λ more. more ≡ false → IsAtEnd (I.view source.new)) }
    ensures taken { (s : SourceView) → Takes s (I.view source.old) text.old.items → TakesAtMost 268435457 s (I.view source.new) }
    ensures cause { IfErr result (λ e. (s : SourceView) → Takes s (I.view source.old) text.old.items → HasSourceCause e s (I.view source.new)) }
{
    // One byte more than there may be shows that there are too many.
    let most = LONGEST as usize - text.len() + 1;
    let count = match read_piece(source, piece, most) {
        Ok(count) => count,
        Err(_) => return Err(InputFault::Source),
    };
    if text.len() + count > LONGEST as usize {
        return Err(InputFault::TooLong);
    }
    text.extend_from_slice(&piece[..count])?;
    Ok(count > 0)
}

/// Reads at most so many bytes, and answers how many.
fn read_piece<I: Source>(source: &mut I, piece: &mut [u8], most: usize) -> Result<usize, Failed>
    requires some { 0 < length piece.old }
    requires more { 0 < most }
    ensures passes { SourcePasses (I.view source.old) (I.view source.new) }
    ensures within { IfOk result (λ n. n ≤ length piece.old) }
    ensures few { IfOk result (λ n. n ≤ most) }
    ensures bytes { IfOk result (λ n. Takes (I.view source.old) (I.view source.new) (take n piece.new)) }
    ensures end { IfOk result (λ n. n ≡ 0 → IsAtEnd (I.view source.new)) }
    ensures none { OnErr result (Takes (I.view source.old) (I.view source.new) []) }
    ensures cause { OnErr result (HasRisen (I.view source.old).faults (I.view source.new).faults) }
{
    let room = most.min(piece.len());
    let count = source.read(&mut piece[..room])?;
    Ok(count)
}
