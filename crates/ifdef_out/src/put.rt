//! The output for a file patch.

ghost use Rattle.std.specs.Prelude.{◌≡◌, ℕ, List, length, true, Some, OnOk, OnErr, IfErr};
ghost use Rattle.std.specs.List.{All};
ghost use Rattle.line_store.specs.Store.{Keeps};
ghost use Rattle.outside.specs.SinkView.{SinkPasses, Receives, ReceivesPart};
ghost use Rattle.read_file_patch.specs.PlainPatch.{IsLawfulChange, change_of, row_count};
ghost use Rattle.hunk_apply.specs.Session.{IsTried};
ghost use Rattle.ifdef_out.specs.Faults.{HasIfdefCause};
ghost use Rattle.ifdef_out.specs.Placed.{ArePlaced, change_edits};
ghost use Rattle.ifdef_out.specs.Tagged.{ifdef_text};
ghost use Rattle.patch_options.specs.Forms.{is_macro_name};

use crate::IfdefFault;
use crate::blocks::put_blocks;
use crate::edits::Edits;
use hunk_apply::ApplyFault;
use hunk_core::{Side, Verdict};
use line_store::LineStore;
use outside::Sink;
use read_file_patch::FilePatch;

/// Writes the store's lines and those that a file patch adds where its hunks were placed, parted by conditions on the name
/// `define`. The verdicts are those of applying the file patch to this store. The store's lines are lent to the sink one by
/// one. Over a store that tells nothing lines that it doesn't count are left out, so that the call is safe whatever the
/// verdicts say.
pub fn put_ifdef<S: LineStore, O: Sink>(
    store: &mut S,
    text: &[u8],
    patch: &FilePatch,
    side: Side,
    verdicts: &[Verdict],
    define: &str,
    out: &mut O,
) -> Result<(), IfdefFault>
    requires lawful { IsLawfulChange text.now patch.now.change }
    requires rows { length verdicts.now ≡ row_count patch.now.change }
    requires tried { All IsTried verdicts.now }
    requires placed { (lines : List (List ℕ)) → (S.seen store.old).told ≡ Some lines → ArePlaced lines verdicts.now side (change_of text.now patch.now.change) }
    requires name { is_macro_name define.now ≡ true }
    ensures received { OnOk result ((lines : List (List ℕ)) → (S.seen store.old).told ≡ Some lines → Receives (O.view out.old) (O.view out.new) (ifdef_text define.now lines (change_edits verdicts.now side (change_of text.now patch.now.change)))) }
    ensures part { OnErr result ((lines : List (List ℕ)) → (S.seen store.old).told ≡ Some lines → ReceivesPart (O.view out.old) (O.view out.new) (ifdef_text define.now lines (change_edits verdicts.now side (change_of text.now patch.now.change)))) }
    ensures keeps { Keeps (S.seen store.old) (S.seen store.new) }
    ensures sink { SinkPasses (O.view out.old) (O.view out.new) }
    ensures rest { O.same_rest out.old out.new }
    ensures cause { IfErr result (λ e. HasIfdefCause e (S.seen store.old) (S.seen store.new) (O.view out.old) (O.view out.new)) }
{
    let edits = Edits {
        text,
        change: &patch.change,
        side,
        verdicts,
    };
    match put_blocks(store, out, edits, define) {
        Ok(_) => Ok(()),
        Err(ApplyFault::Line(e)) => Err(IfdefFault::Line(e)),
        Err(ApplyFault::Write) => Err(IfdefFault::Write),
    }
}
