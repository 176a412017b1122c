//! Blocks as commands of the normal form.

ghost use Rattle.std.specs.Prelude.{◌≡◌, ◌+◌, ◌≤◌, ◌^◌, ◌++◌, ◌∷◌, []};
ghost use Rattle.outside.specs.Puts.{Puts};
ghost use Rattle.hunk_core.specs.Letters.{letter};
ghost use Rattle.normal_form.specs.Canonical.{action_for, command_text, divider_text};
ghost use Rattle.hunk_core.specs.Spans.{span_text};
ghost use Rattle.format_convert.specs.Blocks.{blocks_of, hunk_edits};
ghost use Rattle.format_convert.specs.Commands.{normal_command, normal_text, range_start};
ghost use Rattle.format_convert.specs.Fronts.{front_block};
ghost use Rattle.format_convert.specs.Walk.{IsBlock, IsKept, IsSmall, edits_left, left_hunks, new_start};

use crate::block::{Block, next_block};
use crate::edits::hunk_start;
use crate::kept::Kept;
use crate::lines::{put_both, put_piece, put_side};
use crate::numbers::{Command, action_for, add_letter, add_span, range_start};
use crate::place::EditCursor;
use arrayvec::ArrayVec;
use hunk_core::{Action, Side};
use outside::{Failed, Sink};

/// How many lines the blocks so far add and drop.
#[derive(Clone, Copy)]
pub struct Net {
    pub adds: u64,
    pub drops: u64,
}

/// The net of no block.
pub fn no_net() -> Net
    ensures adds { result.adds ≡ 0 }
    ensures drops { result.drops ≡ 0 }
{
    Net { adds: 0, drops: 0 }
}

/// The net of one block more.
pub fn net_behind(net: Net, block: Block) -> Net
    requires net { net.adds + net.drops ≤ 2 ^ 40 }
    requires block { block.adds + block.drops ≤ 2 ^ 40 }
    ensures adds { result.adds ≡ net.adds + block.adds }
    ensures drops { result.drops ≡ net.drops + block.drops }
{
    Net {
        adds: net.adds + block.adds,
        drops: net.drops + block.drops,
    }
}

/// Where the new lines of a block begin.
pub fn new_first(net: Net, block: Block) -> u64
    requires { IsSmall net block }
    ensures { result ≡ new_start net block }
{
    (block.first + net.adds).saturating_sub(net.drops)
}

/// The numbers and the letter of a block's command.
fn command_of(net: Net, block: Block) -> Command
    requires { IsSmall net block }
    ensures { result.items ≡ (span_text (range_start block.first block.drops) block.drops ++ letter (action_for block.drops block.adds) ∷ []) ++ span_text (range_start (new_start net block) block.adds) block.adds }
{
    let mut command = ArrayVec::new();
    add_span(
        &mut command,
        range_start(block.first, block.drops),
        block.drops,
    );
    add_letter(&mut command, action_for(block.drops, block.adds));
    add_span(
        &mut command,
        range_start(new_first(net, block), block.adds),
        block.adds,
    );
    command
}

/// The line between the sides, which a change has.
fn divider(block: Block) -> &'static [u8]
    ensures { result.now ≡ divider_text (action_for block.drops block.adds) }
{
    match action_for(block.drops, block.adds) {
        Action::Change => b"---\n",
        Action::Add | Action::Delete => b"",
    }
}

fn put_head<O: Sink>(net: Net, block: Block, out: &mut O) -> Result<(), Failed>
    requires { IsSmall net block }
    ensures { Puts O.view O.same_rest out.old out.new result (command_text (range_start block.first block.drops) block.drops (range_start (new_start net block) block.adds) block.adds) }
{
    put_both(out, command_of(net, block).as_slice(), b"\n")
}

/// The command of a block with its lines.
fn put_block<O: Sink>(
    kept: Kept,
    place: EditCursor,
    net: Net,
    block: Block,
    out: &mut O,
) -> Result<(), Failed>
    requires kept { IsKept kept }
    requires small { IsSmall net block }
    requires block { IsBlock kept place block.first block }
    ensures { Puts O.view O.same_rest out.old out.new result (normal_command net.adds net.drops (front_block block.first (edits_left kept.entry place))) }
{
    put_head(net, block, out)?;
    put_side(kept, place, block.first, Side::Forward, out)?;
    put_piece(out, divider(block))?;
    put_side(kept, place, block.first, Side::Reversed, out)
}

/// A command for each block of the kept hunks.
pub fn put_normal<O: Sink>(kept: Kept, out: &mut O) -> Result<(), Failed>
    requires { IsKept kept }
    ensures { Puts O.view O.same_rest out.old out.new result (normal_text (blocks_of (hunk_edits (left_hunks kept.entry)))) }
{
    let mut net = no_net();
    let mut place = hunk_start(kept, 0);
    while let Some(block) = next_block(kept, place) {
        put_block(kept, place, net, block, out)?;
        net = net_behind(net, block);
        place = block.behind;
    }
    Ok(())
}
