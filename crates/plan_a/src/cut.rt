//! Where the lines of a text end.

ghost use Rattle.std.specs.Prelude.{◌≡◌, ◌<◌, ◌^◌, [], length, None, IfOk, IfErr};
ghost use Rattle.line_list.specs.Lines.{lines};
ghost use Rattle.line_store.specs.Taking.{first_long};
ghost use Rattle.plan_a.specs.Cut.{IsCut};
ghost use Rattle.plan_a.specs.Places.{places_of, Takes};
ghost use Rattle.plan_a.specs.Taken.{IsCutFault};

use crate::places::Places;
use line_list::{LineFeeds, next_line_by};
use line_store::OpenFault;
use memchr::memchr_iter;
use std::alloc::{AllocError, Global};

/// The place after each line, unless a buffer of this size can't hold one of them.
pub fn ends_of(alloc: Global, text: &[u8], size: u32) -> Result<Places, OpenFault>
    requires { length text.now < 2 ^ 40 }
    ensures cut { IfOk result (λ ends. IsCut text.now (places_of ends)) }
    ensures short { IfOk result (λ ends. first_long size (lines text.now) ≡ None) }
    ensures cause { IfErr result (IsCutFault size text.now) }
{
    let most = size.saturating_sub(4) as u64;
    let mut ends = room_for_ends(alloc, text)?;
    let mut at = 0;
    let mut feeds = LineFeeds::unknown();
    while let Some(end) = next_line_by(text, at, &mut feeds) {
        let length = (end - at) as u64;
        if length > most {
            let line = ends.len() as u64 + 1;
            return Err(OpenFault::LongLine { line, length });
        }
        ends.push(end)?;
        at = end;
    }
    Ok(ends)
}

/// Room for as many places as the text has lines: one for each line feed, and one for a last line without.
fn room_for_ends(alloc: Global, text: &[u8]) -> Result<Places, AllocError>
    ensures none { IfOk result (λ ends. places_of ends ≡ []) }
    ensures takes { IfOk result (λ ends. Takes ends (length text.now)) }
{
    let feeds = memchr_iter(b'\n', text).count();
    Places::with_room(alloc, feeds + 1, text.len() as u64)
}
