//! The change of a file patch, whichever it is.

ghost use Rattle.std.specs.Prelude.{◌≡◌, ℕ, List, length, count_by, Some, IfOk, OnOk, OnErr, IfErr};
ghost use Rattle.std.specs.List.{All, list_any};
ghost use Rattle.line_store.specs.Store.{Keeps};
ghost use Rattle.outside.specs.SinkView.{SinkPasses, Receives, ReceivesPart};
ghost use Rattle.read_file_patch.specs.PlainPatch.{IsLawfulChange, change_of, row_count};
ghost use Rattle.hunk_apply.specs.Change.{change_output, change_verdicts};
ghost use Rattle.hunk_apply.specs.Written.{is_nothing};
ghost use Rattle.hunk_apply.specs.Session.{is_placed, is_failed, is_inexact, IsTried, FillsFirst};
ghost use Rattle.hunk_apply.specs.Faults.{HasApplyCause};

use crate::hunks::apply_each;
use crate::script::apply_script;
use crate::{ApplyFault, Session};
use hunk_core::{Side, Verdict};
use line_store::LineStore;
use outside::Sink;
use read_file_patch::{Change, FilePatch};

/// Writes the store's lines with the change of a file patch applied, and says in a row for each hunk where it was
/// placed. A script has one row; fuzz, side and loose comparing have no meaning for it. The store's lines are lent to
/// the sink one by one.
pub fn apply_hunks<S: LineStore, O: Sink>(
    store: &mut S,
    text: &[u8],
    patch: &FilePatch,
    side: Side,
    fuzz: u32,
    loose: bool,
    verdicts: &mut [Verdict],
    out: &mut O,
) -> Result<Session, ApplyFault>
    requires lawful { IsLawfulChange text.now patch.now.change }
    requires rows { length verdicts.old ≡ row_count patch.now.change }
    ensures placed { OnOk result ((lines : List (List ℕ)) → (S.seen store.old).told ≡ Some lines → verdicts.new ≡ change_verdicts lines fuzz loose side (change_of text.now patch.now.change)) }
    ensures tried { OnOk result (All IsTried verdicts.new) }
    ensures received { OnOk result ((lines : List (List ℕ)) → (S.seen store.old).told ≡ Some lines → Receives (O.view out.old) (O.view out.new) (change_output lines fuzz loose side (change_of text.now patch.now.change))) }
    ensures applied { IfOk result (λ session. session.applied ≡ count_by is_placed verdicts.new) }
    ensures failed { IfOk result (λ session. session.failed ≡ count_by is_failed verdicts.new) }
    ensures inexact { IfOk result (λ session. session.inexact ≡ list_any is_inexact verdicts.new) }
    ensures output_empty { IfOk result (λ session. (lines : List (List ℕ)) → (S.seen store.old).told ≡ Some lines → session.output_empty ≡ is_nothing (change_output lines fuzz loose side (change_of text.now patch.now.change))) }
    ensures part { OnErr result ((lines : List (List ℕ)) → (S.seen store.old).told ≡ Some lines → ReceivesPart (O.view out.old) (O.view out.new) (change_output lines fuzz loose side (change_of text.now patch.now.change))) }
    ensures filled { OnErr result (FillsFirst verdicts.old verdicts.new) }
    ensures keeps { Keeps (S.seen store.old) (S.seen store.new) }
    ensures sink { SinkPasses (O.view out.old) (O.view out.new) }
    ensures rest { O.same_rest out.old out.new }
    ensures cause { IfErr result (λ e. HasApplyCause e (S.seen store.old) (S.seen store.new) (O.view out.old) (O.view out.new)) }
{
    match &patch.change {
        Change::Hunks(hunks) => { apply_each(store, text, hunks, side, fuzz, loose, verdicts, out) }
        Change::Script(script) => apply_script(store, text, script, verdicts, out),
    }
}
