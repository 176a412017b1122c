//! What a header opens: the hunks or the script of one file patch, or nothing behind a bare git header.

ghost use Rattle.std.specs.Prelude.{◌≡◌, ◌<◌, ◌≤◌, ◌^◌, true, false, length, drop, IfOk};
ghost use Rattle.line_list.specs.Lines.{lines};
ghost use Rattle.hunk_core.specs.declared.Form.{Form};
ghost use Rattle.hunk_core.specs.Reading.{Gives};
ghost use Rattle.read_patch_text.specs.Patches.{bare_change, begins_change, change_at, change_behind};
ghost use Rattle.read_patch_text.specs.Changes.{IsBareChange, IsBehind, IsChange, hunks_read, read_of};

use hunk_core::{Form, FormFault, Hunks};
use line_list::Span;
use patch_header::bare_end;
use read_file_patch::Change;
use read_header_record::Header;
use std::alloc::Global;

/// A change that was read, with the piece of the text that each hunk stands in.
#[derive(Drop)]
pub struct ReadChange {
    pub change: Change,
    pub spans: Vec<Span>,
    /// The place after it, and the number of the line there.
    pub end: usize,
    pub next: u64,
}

fn of_hunks(hunks: Hunks) -> ReadChange
    ensures { result ≡ hunks_read hunks }
{
    ReadChange {
        change: Change::Hunks(hunks.items),
        spans: hunks.spans,
        end: hunks.end,
        next: hunks.next,
    }
}

#[tactic(auto, unfolding(crate::specs::Patches::change_at))]
fn unified_at(alloc: Global, text: &[u8], at: usize, line: u64) -> Result<ReadChange, FormFault>
    requires short { length text.now < 2 ^ 32 }
    requires within { at ≤ length text.now }
    requires small { line < 2 ^ 32 }
    requires opens { begins_change Form.Unified (lines (drop at text.now)) ≡ true }
    ensures is { IfOk result (IsChange text.now Form.Unified at line) }
    ensures exact { Gives (read_of text.now) result (change_at Form.Unified line (lines (drop at text.now))) }
{
    let hunks = unified_form::read_hunks(alloc, text, at, line)?;
    Ok(of_hunks(hunks))
}

#[tactic(auto, unfolding(crate::specs::Patches::change_at))]
fn context_at(alloc: Global, text: &[u8], at: usize, line: u64) -> Result<ReadChange, FormFault>
    requires short { length text.now < 2 ^ 32 }
    requires within { at ≤ length text.now }
    requires small { line < 2 ^ 32 }
    requires opens { begins_change Form.Context (lines (drop at text.now)) ≡ true }
    ensures is { IfOk result (IsChange text.now Form.Context at line) }
    ensures exact { Gives (read_of text.now) result (change_at Form.Context line (lines (drop at text.now))) }
{
    let hunks = context_form::read_hunks(alloc, text, at, line)?;
    Ok(of_hunks(hunks))
}

#[tactic(auto, unfolding(crate::specs::Patches::change_at))]
fn normal_at(alloc: Global, text: &[u8], at: usize, line: u64) -> Result<ReadChange, FormFault>
    requires short { length text.now < 2 ^ 32 }
    requires within { at ≤ length text.now }
    requires small { line < 2 ^ 32 }
    requires opens { begins_change Form.Normal (lines (drop at text.now)) ≡ true }
    ensures is { IfOk result (IsChange text.now Form.Normal at line) }
    ensures exact { Gives (read_of text.now) result (change_at Form.Normal line (lines (drop at text.now))) }
{
    let hunks = normal_form::read_hunks(alloc, text, at, line)?;
    Ok(of_hunks(hunks))
}

#[tactic(auto, unfolding(crate::specs::Patches::change_at))]
fn script_at(alloc: Global, text: &[u8], at: usize, line: u64) -> Result<ReadChange, FormFault>
    requires short { length text.now < 2 ^ 32 }
    requires within { at ≤ length text.now }
    requires small { line < 2 ^ 32 }
    requires opens { begins_change Form.Ed (lines (drop at text.now)) ≡ true }
    ensures is { IfOk result (IsChange text.now Form.Ed at line) }
    ensures exact { Gives (read_of text.now) result (change_at Form.Ed line (lines (drop at text.now))) }
{
    let script = ed_form::read_script(alloc, text, at, line)?;
    let mut spans = Vec::new(alloc);
    spans.push(script.span)?;
    Ok(ReadChange {
        spans,
        end: script.span.end as usize,
        next: script.next,
        change: Change::Script(script),
    })
}

/// The hunks of this form, or the script, that open at `at`, where the line has this number.
fn read_change(
    alloc: Global,
    text: &[u8],
    form: Form,
    at: usize,
    line: u64,
) -> Result<ReadChange, FormFault>
    requires short { length text.now < 2 ^ 32 }
    requires within { at ≤ length text.now }
    requires small { line < 2 ^ 32 }
    requires opens { begins_change form (lines (drop at text.now)) ≡ true }
    ensures is { IfOk result (IsChange text.now form at line) }
    ensures exact { Gives (read_of text.now) result (change_at form line (lines (drop at text.now))) }
{
    match form {
        Form::Unified => unified_at(alloc, text, at, line),
        Form::Context => context_at(alloc, text, at, line),
        Form::Normal => normal_at(alloc, text, at, line),
        Form::Ed => script_at(alloc, text, at, line),
    }
}

/// No hunk, up to the end of the bare git header that begins at `at`, where the line has this number.
fn bare_at(alloc: Global, text: &[u8], at: usize, line: u64) -> ReadChange
    requires short { length text.now < 2 ^ 32 }
    requires within { at < length text.now }
    requires small { line < 2 ^ 32 }
    ensures is { IsBareChange text.now at line result }
    ensures exact { read_of text.now result ≡ bare_change text.now at line }
{
    let (end, next) = bare_end(text, at, line);
    let items = Vec::new(alloc);
    let spans = Vec::new(alloc);
    ReadChange {
        change: Change::Hunks(items),
        spans,
        end,
        next,
    }
}

/// What a header opens: its hunks, its script, or nothing behind a bare git header.
pub fn read_behind(alloc: Global, text: &[u8], header: Header) -> Result<ReadChange, FormFault>
    requires short { length text.now < 2 ^ 32 }
    requires within { header.at < length text.now }
    requires small { header.opening < 2 ^ 32 }
    requires opens { header.bare ≡ false → begins_change header.form (lines (drop header.at text.now)) ≡ true }
    ensures is { IfOk result (IsBehind text.now header) }
    ensures exact { Gives (read_of text.now) result (change_behind text.now header) }
{
    if header.bare {
        return Ok(bare_at(alloc, text, header.at, header.opening));
    }
    read_change(alloc, text, header.form, header.at, header.opening)
}
