//! All blocks of a change, and the lines between them.

ghost use Rattle.std.specs.Prelude.{length, IfOk, OnErr, IfErr};
ghost use Rattle.line_store.specs.Store.{Keeps};
ghost use Rattle.outside.specs.SinkView.{SinkPasses, Receives, ReceivesPart};
ghost use Rattle.hunk_apply.specs.Faults.{HasApplyCause};
ghost use Rattle.hunk_apply.specs.Written.{WhereTold};
ghost use Rattle.ifdef_out.specs.Chain.{AreInOrder};
ghost use Rattle.ifdef_out.specs.Places.{AreEdits, all_of};
ghost use Rattle.ifdef_out.specs.Tagged.{ifdef_text};

use crate::block::block_at;
use crate::edits::{Edits, start};
use crate::found::next_edit;
use crate::writing::{copy_within, put_block};
use hunk_apply::{ApplyFault, Tail};
use line_store::LineStore;
use outside::Sink;

/// Writes the store's lines with the edits, parted by conditions.
pub fn put_blocks<S: LineStore, O: Sink>(
    store: &mut S,
    out: &mut O,
    edits: Edits,
    define: &str,
) -> Result<Tail, ApplyFault>
    requires { AreEdits edits }
    ensures received { IfOk result (λ _. WhereTold (S.seen store.old) (λ lines. AreInOrder (length lines) 1 (all_of edits.entry) → Receives (O.view out.old) (O.view out.new) (ifdef_text define.now lines (all_of edits.entry)))) }
    ensures part { OnErr result (WhereTold (S.seen store.old) (λ lines. AreInOrder (length lines) 1 (all_of edits.entry) → ReceivesPart (O.view out.old) (O.view out.new) (ifdef_text define.now lines (all_of edits.entry)))) }
    ensures keeps { Keeps (S.seen store.old) (S.seen store.new) }
    ensures sink { SinkPasses (O.view out.old) (O.view out.new) }
    ensures rest { O.same_rest out.old out.new }
    ensures cause { IfErr result (λ e. HasApplyCause e (S.seen store.old) (S.seen store.new) (O.view out.old) (O.view out.new)) }
{
    let count = store.count();
    let mut now = Tail {
        is_open: false,
        is_empty: true,
    };
    let mut place = start(edits);
    let mut next = 1;
    while let Some(found) = next_edit(edits, place) {
        let first = found.edit.at;
        let block = block_at(edits, place, first);
        let copied = copy_within(store, out, now, next, first)?;
        now = put_block(store, out, copied, edits, place, first, block, define)?;
        next = block.end;
        place = block.behind;
    }
    copy_within(store, out, now, next, count + 1)
}
