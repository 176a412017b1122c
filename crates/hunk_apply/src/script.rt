//! An ed script carried out over the lines of a file.

ghost use Rattle.std.specs.Prelude.{◌≡◌, ◌+◌, ◌≤◌, ◌<◌, ◌++◌, ℕ, List, [], ◌∷◌, length, count_by, false, nat_lt, Some, IfOk, OnOk, OnErr, IfErr};
ghost use Rattle.std.specs.List.{All, list_any};
ghost use Rattle.line_list.specs.Join.{join};
ghost use Rattle.line_store.specs.Store.{Keeps};
ghost use Rattle.outside.specs.SinkView.{IsSinkCall, SinkPasses, Receives, ReceivesPart};
ghost use Rattle.hunk_core.specs.Turned.{LiesIn};
ghost use Rattle.ed_form.specs.PlainEdit.{edits_of, lines_of, IsLawfulScript};
ghost use Rattle.hunk_apply.specs.Script.{reaches_behind, scripted, script_lines, script_verdict};
ghost use Rattle.hunk_apply.specs.Written.{WhereTold, Wrote, WroteFront, BrokeOff, lines_between, is_nothing, join_behind};
ghost use Rattle.hunk_apply.specs.Session.{is_placed, is_failed, is_inexact, IsTried, FillsFirst};
ghost use Rattle.hunk_apply.specs.Faults.{HasApplyCause, IsCounted};

use crate::copy::copy_lines;
use crate::put::{Tail, put_line};
use crate::tally::session_of;
use crate::{ApplyFault, Session};
use ed_form::{EdEdit, EdScript};
use hunk_core::Verdict;
use line_store::LineStore;
use outside::{Failed, Sink};

/// Writes the store's lines with the script carried out, or as they are where it reaches behind them.
pub fn apply_script<S: LineStore, O: Sink>(
    store: &mut S,
    text: &[u8],
    script: &EdScript,
    verdicts: &mut [Verdict],
    out: &mut O,
) -> Result<Session, ApplyFault>
    requires lawful { IsLawfulScript text.now script.now }
    requires rows { length verdicts.old ≡ 1 }
    ensures placed { OnOk result ((lines : List (List ℕ)) → (S.seen store.old).told ≡ Some lines → verdicts.new ≡ script_verdict (length lines) (edits_of text.now script.now.edits.items) ∷ []) }
    ensures tried { OnOk result (All IsTried verdicts.new) }
    ensures received { OnOk result ((lines : List (List ℕ)) → (S.seen store.old).told ≡ Some lines → Receives (O.view out.old) (O.view out.new) (join (script_lines lines (edits_of text.now script.now.edits.items)))) }
    ensures applied { IfOk result (λ session. session.applied ≡ count_by is_placed verdicts.new) }
    ensures failed { IfOk result (λ session. session.failed ≡ count_by is_failed verdicts.new) }
    ensures inexact { IfOk result (λ session. session.inexact ≡ list_any is_inexact verdicts.new) }
    ensures output_empty { IfOk result (λ session. (lines : List (List ℕ)) → (S.seen store.old).told ≡ Some lines → session.output_empty ≡ is_nothing (join (script_lines lines (edits_of text.now script.now.edits.items)))) }
    ensures part { OnErr result ((lines : List (List ℕ)) → (S.seen store.old).told ≡ Some lines → ReceivesPart (O.view out.old) (O.view out.new) (join (script_lines lines (edits_of text.now script.now.edits.items)))) }
    ensures filled { OnErr result (FillsFirst verdicts.old verdicts.new) }
    ensures keeps { Keeps (S.seen store.old) (S.seen store.new) }
    ensures sink { SinkPasses (O.view out.old) (O.view out.new) }
    ensures rest { O.same_rest out.old out.new }
    ensures cause { IfErr result (λ e. HasApplyCause e (S.seen store.old) (S.seen store.new) (O.view out.old) (O.view out.new)) }
{
    let count = store.count();
    let fails = is_behind(script, count);
    let tail = Tail {
        is_open: false,
        is_empty: true,
    };
    let end = put_script(store, out, tail, text, script, fails)?;
    verdicts[0] = verdict_of(script, fails);
    Ok(session_of(verdicts, end.is_empty))
}

/// Whether an address is greater than the number of lines.
fn is_behind(script: &EdScript, count: u64) -> bool
    ensures { result ≡ list_any (λ e. nat_lt count e.last) script.now.edits.items }
{
    script.edits.iter().any(|edit| edit.last as u64 > count)
}

/// What is said of a script that fails, or doesn't.
fn verdict_of(script: &EdScript, fails: bool) -> Verdict
    requires some { 0 < length script.now.edits.items }
    ensures tried { IsTried result }
    ensures is { (text : List ℕ) → (count : ℕ) → fails ≡ reaches_behind count (edits_of text script.now.edits.items) → result ≡ script_verdict count (edits_of text script.now.edits.items) }
{
    if fails {
        return Verdict::Nowhere;
    }
    let first = &script.edits[0];
    Verdict::At {
        line: first.first.min(first.last) as u64,
        fuzz: 0,
        offset: 0,
    }
}

/// Writes what becomes of the store's lines.
fn put_script<S: LineStore, O: Sink>(
    store: &mut S,
    out: &mut O,
    tail: Tail,
    text: &[u8],
    script: &EdScript,
    fails: bool,
) -> Result<Tail, ApplyFault>
    requires lawful { IsLawfulScript text.now script.now }
    requires counted { IsCounted (S.seen store.old) }
    requires fails { fails ≡ reaches_behind (S.seen store.old).count (edits_of text.now script.now.edits.items) }
    ensures written { IfOk result (λ end. WhereTold (S.seen store.old) (λ lines. Wrote (O.view out.old) (O.view out.new) tail end (script_lines lines (edits_of text.now script.now.edits.items)) [])) }
    ensures part { OnErr result (WhereTold (S.seen store.old) (λ lines. ReceivesPart (O.view out.old) (O.view out.new) (join_behind tail.is_open (script_lines lines (edits_of text.now script.now.edits.items))))) }
    ensures keeps { Keeps (S.seen store.old) (S.seen store.new) }
    ensures sink { SinkPasses (O.view out.old) (O.view out.new) }
    ensures rest { O.same_rest out.old out.new }
    ensures cause { IfErr result (λ e. HasApplyCause e (S.seen store.old) (S.seen store.new) (O.view out.old) (O.view out.new)) }
{
    if fails {
        let count = store.count();
        let end = copy_lines(store, out, tail, 1, count + 1)?;
        return Ok(end);
    }
    carry_out(store, out, tail, text, script)
}

/// Writes the store's lines with each command carried out. The commands stand from the last in the file to the first,
/// so the walk takes them from the end.
fn carry_out<S: LineStore, O: Sink>(
    store: &mut S,
    out: &mut O,
    tail: Tail,
    text: &[u8],
    script: &EdScript,
) -> Result<Tail, ApplyFault>
    requires lawful { IsLawfulScript text.now script.now }
    requires counted { IsCounted (S.seen store.old) }
    requires within { reaches_behind (S.seen store.old).count (edits_of text.now script.now.edits.items) ≡ false }
    ensures written { IfOk result (λ end. WhereTold (S.seen store.old) (λ lines. Wrote (O.view out.old) (O.view out.new) tail end (scripted lines (edits_of text.now script.now.edits.items)) [])) }
    ensures part { OnErr result (WhereTold (S.seen store.old) (λ lines. ReceivesPart (O.view out.old) (O.view out.new) (join_behind tail.is_open (scripted lines (edits_of text.now script.now.edits.items))))) }
    ensures keeps { Keeps (S.seen store.old) (S.seen store.new) }
    ensures sink { SinkPasses (O.view out.old) (O.view out.new) }
    ensures rest { O.same_rest out.old out.new }
    ensures cause { IfErr result (λ e. HasApplyCause e (S.seen store.old) (S.seen store.new) (O.view out.old) (O.view out.new)) }
{
    let count = store.count();
    let mut now = tail;
    let mut next = 1;
    for k in (0..script.edits.len()).rev() {
        let edit = &script.edits[k];
        now = put_edit(store, out, now, text, edit, next)?;
        next = edit.last as u64 + 1;
    }
    let end = copy_lines(store, out, now, next, count + 1)?;
    Ok(end)
}

/// Writes the store's lines from line `from` up to an edit, and the lines that it adds.
fn put_edit<S: LineStore, O: Sink>(
    store: &mut S,
    out: &mut O,
    tail: Tail,
    text: &[u8],
    edit: &EdEdit,
    from: u64,
) -> Result<Tail, ApplyFault>
    requires counted { IsCounted (S.seen store.old) }
    requires lies { All (LiesIn text.now) edit.now.added.items }
    requires low { 1 ≤ from }
    requires order { from ≤ edit.now.first }
    requires high { edit.now.first ≤ (S.seen store.old).count + 1 }
    ensures written { IfOk result (λ now. WhereTold (S.seen store.old) (λ lines. (more : List (List ℕ)) → Wrote (O.view out.old) (O.view out.new) tail now (lines_between lines from edit.now.first ++ (lines_of text.now edit.now.added.items ++ more)) more)) }
    ensures part { OnErr result (WhereTold (S.seen store.old) (λ lines. (more : List (List ℕ)) → ReceivesPart (O.view out.old) (O.view out.new) (join_behind tail.is_open (lines_between lines from edit.now.first ++ (lines_of text.now edit.now.added.items ++ more))))) }
    ensures keeps { Keeps (S.seen store.old) (S.seen store.new) }
    ensures sink { SinkPasses (O.view out.old) (O.view out.new) }
    ensures rest { O.same_rest out.old out.new }
    ensures cause { IfErr result (λ e. HasApplyCause e (S.seen store.old) (S.seen store.new) (O.view out.old) (O.view out.new)) }
{
    let copied = copy_lines(store, out, tail, from, edit.first as u64)?;
    let now = put_added(out, copied, text, edit)?;
    Ok(now)
}

/// Writes the lines that an edit adds.
fn put_added<O: Sink>(out: &mut O, tail: Tail, text: &[u8], edit: &EdEdit) -> Result<Tail, Failed>
    requires lies { All (LiesIn text.now) edit.now.added.items }
    ensures call { IsSinkCall (O.view out.old) (O.view out.new) result }
    ensures rest { O.same_rest out.old out.new }
    ensures written { IfOk result (λ now. WroteFront (O.view out.old) (O.view out.new) tail now (lines_of text.now edit.now.added.items)) }
    ensures part { OnErr result (BrokeOff (O.view out.old) (O.view out.new) tail (lines_of text.now edit.now.added.items)) }
{
    let mut now = tail;
    for k in 0..edit.added.len() {
        let span = edit.added[k];
        let line = &text[span.start as usize..span.end as usize];
        now = put_line(out, now, line)?;
    }
    Ok(now)
}
