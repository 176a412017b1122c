//! An ed script written again, a command for each of its blocks: commands that stand side by side in the file are one.

ghost use Rattle.std.specs.Prelude.{◌≡◌, ◌+◌, ◌-◌, ◌*◌, ◌≤◌, ◌<◌, ◌^◌, ℕ, List, not, nat_lt, ◌==◌, ◌||◌, length, IfOk, All};
ghost use Rattle.hunk_core.specs.Turned.{LiesIn};
ghost use Rattle.outside.specs.Puts.{Puts};
ghost use Rattle.ed_form.specs.PlainEdit.{IsLawfulScript, edit_of, edits_of, lines_of};
ghost use Rattle.format_convert.specs.Backward.{first_text};
ghost use Rattle.format_convert.specs.Blocks.{blocks_of, drop_count, is_change, script_edits};
ghost use Rattle.format_convert.specs.Commands.{ed_lines, ed_text};
ghost use Rattle.format_convert.specs.Runs.{IsRun, edits_before, grown_at, run_adds, text_lines};

use crate::ed::{put_head, put_text_line};
use crate::lines::line_at;
use ed_form::{EdEdit, EdScript};
use outside::{Failed, Sink};

/// Commands of a script that stand side by side in the file, from one on up to where a walk over the script has come. Without
/// commands that change something all is 0.
#[derive(Clone, Copy)]
pub struct Run {
    /// The first of them in the script, counted from 0; it stands last in the file.
    pub from: usize,
    /// The first line that they drop, or the line in front of which they add.
    pub first: u64,
    /// The line behind those that they drop.
    pub end: u64,
    /// How many lines they add.
    pub adds: u64,
}

fn no_run() -> Run
    ensures from { result.from ≡ 0 }
    ensures first { result.first ≡ 0 }
    ensures end { result.end ≡ 0 }
    ensures adds { result.adds ≡ 0 }
{
    Run {
        from: 0,
        first: 0,
        end: 0,
        adds: 0,
    }
}

/// A run of one command, the one with this number.
fn run_of(edit: &EdEdit, from: usize) -> Run
    ensures from { result.from ≡ from }
    ensures first { result.first ≡ edit.now.first }
    ensures end { result.end ≡ edit.now.last + 1 }
    ensures adds { result.adds ≡ length edit.now.added.items }
    ensures near { result.end ≤ 2 ^ 32 }
{
    Run {
        from,
        first: u64::from(edit.first),
        end: u64::from(edit.last) + 1,
        adds: edit.added.len() as u64,
    }
}

/// A run with a command more, which stands in front of it in the file.
fn run_with(run: Run, edit: &EdEdit) -> Run
    requires adds { run.adds + length edit.now.added.items < 2 ^ 64 }
    ensures from { result.from ≡ run.from }
    ensures first { result.first ≡ edit.now.first }
    ensures end { result.end ≡ run.end }
    ensures adds { result.adds ≡ run.adds + length edit.now.added.items }
{
    Run {
        from: run.from,
        first: u64::from(edit.first),
        end: run.end,
        adds: run.adds + edit.added.len() as u64,
    }
}

/// How many lines an edit drops.
fn drop_count(edit: &EdEdit) -> u64
    ensures { (text : List ℕ) → result ≡ drop_count (edit_of text edit.now) }
{
    (u64::from(edit.last) + 1).saturating_sub(u64::from(edit.first))
}

fn is_some(drops: u64, adds: u64) -> bool
    ensures { result ≡ (not (drops == 0) || not (adds == 0)) }
{
    drops != 0 || adds != 0
}

/// Whether an edit drops or adds a line.
fn is_change(edit: &EdEdit) -> bool
    ensures { (text : List ℕ) → result ≡ is_change (edit_of text edit.now) }
{
    is_some(drop_count(edit), edit.added.len() as u64)
}

/// Whether a command ends where a run begins.
fn is_beside(edit: &EdEdit, run: Run) -> bool
    ensures { result ≡ (run.first == edit.now.last + 1) }
{
    run.first == u64::from(edit.last) + 1
}

/// Whether a line is left of `count`, or of those behind them.
fn goes_on(next: usize, count: usize, behind: u64) -> bool
    ensures { result ≡ (nat_lt next count || not (behind == 0)) }
{
    next < count || behind != 0
}

/// The lines of an edit, with so many lines of the same text behind them.
fn put_lines<O: Sink>(text: &[u8], edit: &EdEdit, behind: u64, out: &mut O) -> Result<(), Failed>
    requires { All (LiesIn text.now) edit.now.added.items }
    ensures { Puts O.view O.same_rest out.old out.new result (text_lines behind (lines_of text.now edit.now.added.items)) }
{
    let count = edit.added.len();
    for i in 0..count {
        put_text_line(
            line_at(text, edit.added[i]),
            goes_on(i + 1, count, behind),
            out,
        )?;
    }
    Ok(())
}

/// The lines of a run up to a command of the script, in the order of the file.
fn put_run_lines<O: Sink>(
    text: &[u8],
    script: &EdScript,
    run: Run,
    end: usize,
    out: &mut O,
) -> Result<(), Failed>
    requires lawful { IsLawfulScript text.now script.now }
    requires within { end ≤ length script.now.edits.items }
    requires from { run.from ≤ end }
    requires adds { run.adds ≡ length (run_adds (edits_of text.now script.now.edits.items) run.from end) }
    ensures { Puts O.view O.same_rest out.old out.new result (ed_lines (run_adds (edits_of text.now script.now.edits.items) run.from end)) }
{
    let mut left = run.adds;
    for i in (run.from..end).rev() {
        let edit = &script.edits[i];
        left -= edit.added.len() as u64;
        put_lines(text, edit, left, out)?;
    }
    Ok(())
}

/// The command of a run, unless that changes nothing.
fn put_run<O: Sink>(
    text: &[u8],
    script: &EdScript,
    run: Run,
    end: usize,
    out: &mut O,
) -> Result<(), Failed>
    requires lawful { IsLawfulScript text.now script.now }
    requires within { end ≤ length script.now.edits.items }
    requires run { IsRun (edits_of text.now script.now.edits.items) end run }
    ensures { Puts O.view O.same_rest out.old out.new result (first_text (blocks_of (edits_before (edits_of text.now script.now.edits.items) end))) }
{
    if !is_some(run.end - run.first, run.adds) {
        return Ok(());
    }
    put_head(run.first, run.end - run.first, run.adds, out)?;
    put_run_lines(text, script, run, end, out)
}

/// Goes on over a command of the script: a run is written once none that comes later can belong to it.
fn put_behind<O: Sink>(
    text: &[u8],
    script: &EdScript,
    run: Run,
    at: usize,
    out: &mut O,
) -> Result<Run, Failed>
    requires lawful { IsLawfulScript text.now script.now }
    requires within { at < length script.now.edits.items }
    requires run { IsRun (edits_of text.now script.now.edits.items) at run }
    ensures put { Puts O.view O.same_rest out.old out.new result (grown_at (edits_of text.now script.now.edits.items) at) }
    ensures run { IfOk result (IsRun (edits_of text.now script.now.edits.items) (at + 1)) }
{
    let edit = &script.edits[at];
    if !is_change(edit) {
        return Ok(run);
    }
    if is_beside(edit, run) {
        return Ok(run_with(run, edit));
    }
    put_run(text, script, run, at, out)?;
    Ok(run_of(edit, at))
}

/// A command for each block of a script, the last one first.
pub fn put_script<O: Sink>(text: &[u8], script: &EdScript, out: &mut O) -> Result<(), Failed>
    requires { IsLawfulScript text.now script.now }
    ensures { Puts O.view O.same_rest out.old out.new result (ed_text (blocks_of (script_edits (edits_of text.now script.now.edits.items)))) }
{
    let mut run = no_run();
    for at in 0..script.edits.len() {
        run = put_behind(text, script, run, at, out)?;
    }
    put_run(text, script, run, script.edits.len(), out)
}

/// Whether a script drops or adds a line.
pub fn changes(script: &EdScript) -> bool
    ensures { (text : List ℕ) → result ≡ not (length (blocks_of (script_edits (edits_of text script.now.edits.items))) == 0) }
{
    for i in 0..script.edits.len() {
        if is_change(&script.edits[i]) {
            return true;
        }
    }
    false
}
