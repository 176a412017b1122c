//! One block: the lines that hunks drop and add without a kept line between.

ghost use Rattle.std.specs.Prelude.{◌≡◌, ◌≤◌, ◌<◌, ◌+◌, ◌^◌, ℕ, List, [], false, length, MatchOption, if◌then◌else◌};
ghost use Rattle.format_convert.specs.Blocks.{behind};
ghost use Rattle.format_convert.specs.Fronts.{begins_at, front};
ghost use Rattle.format_convert.specs.Walk.{IsFoundIn, IsKept, IsNextBlock, edit_at, edits_left};

use crate::edits::next_edit;
use crate::kept::Kept;
use crate::place::{EditCursor, FoundEdit, LineEdit};

/// How large a block is, and what stands behind it.
#[derive(Clone, Copy)]
pub struct Block {
    pub first: u64,
    /// How many lines it drops, and adds.
    pub drops: u64,
    pub adds: u64,
    pub behind: EditCursor,
}

/// The gap behind an edit.
pub fn gap_behind(edit: LineEdit) -> u64
    requires { edit.at ≤ 2 ^ 43 }
    ensures { (text : List ℕ) → result ≡ behind (edit_at text edit) }
{
    if edit.adds { edit.at } else { edit.at + 1 }
}

/// The next edit, if it stands in this gap or is of the line behind it.
pub fn edit_in(kept: Kept, place: EditCursor, gap: u64) -> Option<FoundEdit>
    requires { IsKept kept }
    ensures { MatchOption result (begins_at gap (edits_left kept.entry place) ≡ false) (IsFoundIn kept.entry place gap) }
{
    let found = next_edit(kept, place)?;
    if found.edit.at == gap {
        Some(found)
    } else {
        None
    }
}

fn with_edit(block: Block, found: FoundEdit) -> Block
    requires drops { block.drops < 2 ^ 40 }
    requires adds { block.adds < 2 ^ 40 }
    ensures first { result.first ≡ block.first }
    ensures drops { result.drops ≡ block.drops + (if found.edit.adds then 0 else 1) }
    ensures adds { result.adds ≡ block.adds + (if found.edit.adds then 1 else 0) }
    ensures behind { result.behind ≡ found.behind }
{
    if found.edit.adds {
        Block {
            first: block.first,
            drops: block.drops,
            adds: block.adds + 1,
            behind: found.behind,
        }
    } else {
        Block {
            first: block.first,
            drops: block.drops + 1,
            adds: block.adds,
            behind: found.behind,
        }
    }
}

/// The next block, unless no edit is left.
pub fn next_block(kept: Kept, place: EditCursor) -> Option<Block>
    requires { IsKept kept }
    ensures { MatchOption result (edits_left kept.entry place ≡ []) (IsNextBlock kept.entry place) }
{
    let next = next_edit(kept, place)?;
    let mut block = Block {
        first: next.edit.at,
        drops: 0,
        adds: 0,
        behind: place,
    };
    while let Some(found) = edit_in(kept, block.behind, block.first + block.drops) {
        block = with_edit(block, found);
    }
    Some(block)
}
