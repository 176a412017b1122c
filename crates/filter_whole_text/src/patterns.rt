//! Patterns that stand in files, a line for each.
ghost use Rattle.std.specs.Prelude.{◌≡◌, ◌++◌, Some, Ok, map, IfErr, OnOk};
ghost use Rattle.std.specs.Option.{option_copied};
ghost use Rattle.outside.specs.Files.{Files};
ghost use Rattle.outside.specs.Calls.{IsUntouched};
ghost use Rattle.cli_tool_words.specs.PlainJobs.{plain_select};
ghost use Rattle.patch_header.specs.Content.{content};
ghost use Rattle.filter_whole_text.specs.Outcomes.{pattern_of, patterns_in, selection};
ghost use Rattle.filter_whole_text.specs.Sifting.{NamesPatterns};
ghost use Rattle.filter_whole_text.specs.Patterns.{Adds, HasPatternCause, HasSelectionCause};

use cli_run_answers::{InputFault, read_file};
use cli_tool_words::Select;
use line_list::lines_of;
use outside::{Name, Tree};
use std::alloc::{AllocError, Global};

/// Adds the patterns of the files that the selection names, those to be included first.
pub fn add_patterns<T: Tree>(
    alloc: Global,
    select: &mut Select,
    tree: &mut T,
) -> Result<(), InputFault>
    ensures untouched { IsUntouched (T.view tree.old) (T.view tree.new) }
    ensures selection { OnOk result ((f : Files) → (NamesPatterns (plain_select select.old) → (T.view tree.old).told ≡ Some f) → selection (plain_select select.old) f ≡ Ok (plain_select select.new)) }
    ensures cause { IfErr result (λ e. HasSelectionCause e (plain_select select.old) (T.view tree.old) (T.view tree.new)) }
    ensures skips { select.new.skip_binary ≡ select.old.skip_binary }
{
    add_from(
        alloc,
        select.include_file.as_ref(),
        &mut select.include,
        tree,
    )?;
    add_from(
        alloc,
        select.exclude_file.as_ref(),
        &mut select.exclude,
        tree,
    )
}

/// Adds the patterns of a file, where one is named.
fn add_from<T: Tree>(
    alloc: Global,
    name: Option<&Name>,
    patterns: &mut Vec<Vec<u8>>,
    tree: &mut T,
) -> Result<(), InputFault>
    ensures untouched { IsUntouched (T.view tree.old) (T.view tree.new) }
    ensures added { OnOk result (Adds (option_copied name.entry) (T.view tree.old) (map (λ p. p.items) patterns.old.items) (map (λ p. p.items) patterns.new.items)) }
    ensures cause { IfErr result (λ e. HasPatternCause e (option_copied name.entry) (T.view tree.old) (T.view tree.new)) }
{
    match name {
        Some(name) => add_file(alloc, name, patterns, tree),
        None => Ok(()),
    }
}

/// Adds the patterns of a file.
fn add_file<T: Tree>(
    alloc: Global,
    name: &Name,
    patterns: &mut Vec<Vec<u8>>,
    tree: &mut T,
) -> Result<(), InputFault>
    ensures untouched { IsUntouched (T.view tree.old) (T.view tree.new) }
    ensures added { OnOk result (Adds (Some name.now) (T.view tree.old) (map (λ p. p.items) patterns.old.items) (map (λ p. p.items) patterns.new.items)) }
    ensures cause { IfErr result (λ e. HasPatternCause e (Some name.now) (T.view tree.old) (T.view tree.new)) }
{
    let text = read_file(alloc, name, tree)?;
    add_lines(alloc, &text, patterns)?;
    Ok(())
}

/// Adds the lines of a text, without their line feeds; an empty line is no pattern. A carriage return at the end of a line is
/// part of its pattern.
fn add_lines(alloc: Global, text: &[u8], patterns: &mut Vec<Vec<u8>>) -> Result<(), AllocError>
    ensures { OnOk result (map (λ p. p.items) patterns.new.items ≡ map (λ p. p.items) patterns.old.items ++ patterns_in text.now) }
{
    for (start, end) in lines_of(text) {
        add_line(alloc, &text[start..end], patterns)?;
    }
    Ok(())
}

/// Adds a line without its line feed, if it isn't empty.
fn add_line(alloc: Global, line: &[u8], patterns: &mut Vec<Vec<u8>>) -> Result<(), AllocError>
    ensures { OnOk result (map (λ p. p.items) patterns.new.items ≡ map (λ p. p.items) patterns.old.items ++ pattern_of line.now) }
{
    let pattern = content(line);
    if pattern.is_empty() {
        return Ok(());
    }
    patterns.push(Vec::from_slice(alloc, pattern)?)?;
    Ok(())
}

/// A line without the line feed at its end.
fn content(line: &[u8]) -> &[u8]
    ensures { result.now ≡ content line.now }
{
    line.strip_suffix(b"\n").unwrap_or(line)
}
