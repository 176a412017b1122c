//! A block written with its conditions.

ghost use Rattle.std.specs.Prelude.{◌+◌, ◌≤◌, length, option_map, IfOk, OnErr, IfErr};
ghost use Rattle.line_store.specs.Store.{Keeps};
ghost use Rattle.outside.specs.SinkView.{IsSinkCall, SinkPasses};
ghost use Rattle.hunk_core.specs.PlainHunk.{bytes_at};
ghost use Rattle.hunk_apply.specs.Faults.{HasApplyCause};
ghost use Rattle.hunk_apply.specs.Splice.{added_line};
ghost use Rattle.hunk_apply.specs.Written.{WhereTold, WroteFront, BrokeOff};
ghost use Rattle.ifdef_out.specs.Chain.{block_added};
ghost use Rattle.ifdef_out.specs.Places.{AreEdits, IsBlock, Lies, WhereDropped, WhereHad, edits_left};
ghost use Rattle.ifdef_out.specs.Tagged.{block_lines, opening, texts};

use crate::block::{Block, gap_behind};
use crate::edits::Edits;
use crate::found::next_edit;
use crate::marking::put_condition;
use crate::place::{ChangeCursor, LineEdit};
use hunk_apply::{ApplyFault, Tail, copy_lines, put_line};
use line_store::LineStore;
use outside::{Failed, Sink};

/// Writes the block that begins at line `first`.
pub fn put_block<S: LineStore, O: Sink>(
    store: &mut S,
    out: &mut O,
    tail: Tail,
    edits: Edits,
    place: ChangeCursor,
    first: u64,
    block: Block,
    define: &str,
) -> Result<Tail, ApplyFault>
    requires edits { AreEdits edits }
    requires block { IsBlock edits place first block }
    ensures written { IfOk result (λ now. WhereTold (S.seen store.old) (λ lines. 1 ≤ first → block.end ≤ length lines + 1 → WroteFront (O.view out.old) (O.view out.new) tail now (block_lines define.now lines first block.end (block_added first (edits_left edits.entry place))))) }
    ensures part { OnErr result (WhereTold (S.seen store.old) (λ lines. 1 ≤ first → block.end ≤ length lines + 1 → BrokeOff (O.view out.old) (O.view out.new) tail (block_lines define.now lines first block.end (block_added first (edits_left edits.entry place))))) }
    ensures keeps { Keeps (S.seen store.old) (S.seen store.new) }
    ensures sink { SinkPasses (O.view out.old) (O.view out.new) }
    ensures rest { O.same_rest out.old out.new }
    ensures cause { IfErr result (λ e. HasApplyCause e (S.seen store.old) (S.seen store.new) (O.view out.old) (O.view out.new)) }
{
    let opened = put_opening(store, out, tail, first, block, define)?;
    let added = put_added(out, opened, edits, place, first)?;
    let end = put_line(out, added, b"#endif\n")?;
    Ok(end)
}

/// Writes what stands in front of a block's added lines: a condition, and behind it the lines that the block drops, if it
/// drops any, and what parts them from the added ones.
fn put_opening<S: LineStore, O: Sink>(
    store: &mut S,
    out: &mut O,
    tail: Tail,
    first: u64,
    block: Block,
    define: &str,
) -> Result<Tail, ApplyFault>
    ensures written { IfOk result (λ now. WhereDropped (S.seen store.old) first block (λ dropped added. WroteFront (O.view out.old) (O.view out.new) tail now (texts (opening define.now dropped added)))) }
    ensures part { OnErr result (WhereDropped (S.seen store.old) first block (λ dropped added. BrokeOff (O.view out.old) (O.view out.new) tail (texts (opening define.now dropped added)))) }
    ensures keeps { Keeps (S.seen store.old) (S.seen store.new) }
    ensures sink { SinkPasses (O.view out.old) (O.view out.new) }
    ensures rest { O.same_rest out.old out.new }
    ensures cause { IfErr result (λ e. HasApplyCause e (S.seen store.old) (S.seen store.new) (O.view out.old) (O.view out.new)) }
{
    if block.end <= first {
        let end = put_condition(out, tail, b"#ifdef ", define)?;
        return Ok(end);
    }
    let opened = put_condition(out, tail, b"#ifndef ", define)?;
    let dropped = copy_within(store, out, opened, first, block.end)?;
    if block.is_adding {
        let end = put_line(out, dropped, b"#else\n")?;
        return Ok(end);
    }
    Ok(dropped)
}

/// Writes the lines that a block adds.
fn put_added<O: Sink>(
    out: &mut O,
    tail: Tail,
    edits: Edits,
    place: ChangeCursor,
    first: u64,
) -> Result<Tail, Failed>
    requires { AreEdits edits }
    ensures call { IsSinkCall (O.view out.old) (O.view out.new) result }
    ensures rest { O.same_rest out.old out.new }
    ensures written { IfOk result (λ now. WroteFront (O.view out.old) (O.view out.new) tail now (block_added first (edits_left edits.entry place))) }
    ensures part { OnErr result (BrokeOff (O.view out.old) (O.view out.new) tail (block_added first (edits_left edits.entry place))) }
{
    let mut now = tail;
    let mut at = place;
    let mut next = first;
    while let Some(found) = next_edit(edits, at) {
        if found.edit.at != next {
            return Ok(now);
        }
        now = put_edit(out, now, edits.text, found.edit)?;
        next = gap_behind(found.edit, next);
        at = found.behind;
    }
    Ok(now)
}

/// Writes the line that an edit adds, if it adds one.
fn put_edit<O: Sink>(out: &mut O, tail: Tail, text: &[u8], edit: LineEdit) -> Result<Tail, Failed>
    requires { Lies text.now edit }
    ensures call { IsSinkCall (O.view out.old) (O.view out.new) result }
    ensures rest { O.same_rest out.old out.new }
    ensures written { IfOk result (λ now. WroteFront (O.view out.old) (O.view out.new) tail now (added_line (option_map (bytes_at text.now) edit.added))) }
    ensures part { OnErr result (BrokeOff (O.view out.old) (O.view out.new) tail (added_line (option_map (bytes_at text.now) edit.added))) }
{
    if let Some(span) = edit.added {
        let now = put_line(out, tail, &text[span.start as usize..span.end as usize])?;
        return Ok(now);
    }
    Ok(tail)
}

/// Writes the store's lines from `from` up to, not including, `to`, where the store has them.
pub fn copy_within<S: LineStore, O: Sink>(
    store: &mut S,
    out: &mut O,
    tail: Tail,
    from: u64,
    to: u64,
) -> Result<Tail, ApplyFault>
    ensures written { IfOk result (λ now. WhereHad (S.seen store.old) from to (λ these. WroteFront (O.view out.old) (O.view out.new) tail now these)) }
    ensures part { OnErr result (WhereHad (S.seen store.old) from to (λ these. BrokeOff (O.view out.old) (O.view out.new) tail these)) }
    ensures keeps { Keeps (S.seen store.old) (S.seen store.new) }
    ensures sink { SinkPasses (O.view out.old) (O.view out.new) }
    ensures rest { O.same_rest out.old out.new }
    ensures cause { IfErr result (λ e. HasApplyCause e (S.seen store.old) (S.seen store.new) (O.view out.old) (O.view out.new)) }
{
    let count = store.count();
    if from < 1 || from > to || to > count + 1 {
        return Ok(tail);
    }
    copy_lines(store, out, tail, from, to)
}
