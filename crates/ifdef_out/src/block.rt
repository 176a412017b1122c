//! One block: the lines that a change drops and adds without a kept line between.

ghost use Rattle.std.specs.Prelude.{◌≡◌, ◌≤◌, ◌<◌, ◌^◌, ◌||◌, ℕ, List, is_some, option_map};
ghost use Rattle.hunk_core.specs.PlainHunk.{bytes_at};
ghost use Rattle.ifdef_out.specs.Chain.{next_gap};
ghost use Rattle.ifdef_out.specs.Places.{AreEdits, IsBlock};

use crate::edits::Edits;
use crate::found::next_edit;
use crate::place::{ChangeCursor, LineEdit};

/// Where a block ends, and whether it adds a line.
#[derive(Clone, Copy)]
pub struct Block {
    /// The first line of the file behind it.
    pub end: u64,
    pub is_adding: bool,
    pub behind: ChangeCursor,
}

/// The block that begins at line `first`.
pub fn block_at(edits: Edits, place: ChangeCursor, first: u64) -> Block
    requires { AreEdits edits }
    ensures { IsBlock edits.entry place first result }
{
    let mut block = Block {
        end: first,
        is_adding: false,
        behind: place,
    };
    while let Some(found) = next_edit(edits, block.behind) {
        if found.edit.at != block.end {
            return block;
        }
        block = Block {
            end: gap_behind(found.edit, block.end),
            is_adding: adds_by(found.edit, block.is_adding),
            behind: found.behind,
        };
    }
    block
}

/// The gap behind an edit in a gap or of a line.
pub fn gap_behind(edit: LineEdit, at: u64) -> u64
    requires { at ≤ 2 ^ 43 }
    ensures { (text : List ℕ) → result ≡ next_gap at (option_map (bytes_at text) edit.added) }
{
    match edit.added {
        Some(_) => at,
        None => at + 1,
    }
}

fn adds_by(edit: LineEdit, was: bool) -> bool
    ensures { result ≡ (was || is_some edit.added) }
{
    match edit.added {
        Some(_) => true,
        None => was,
    }
}
