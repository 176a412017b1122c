//! A file split into parts, which are put beside it or into a directory.
ghost use Rattle.std.specs.Prelude.{◌≡◌, ◌≤◌, All, ◌++◌, codes, false, length, true, IfErr, IfOk, Ok, Err, Some};
ghost use Rattle.hunk_core.specs.PlainHunk.{bytes_at};
ghost use Rattle.hunk_core.specs.Pieces.{AreInTurn};
ghost use Rattle.outside.specs.Puts.{Puts};
ghost use Rattle.outside.specs.Files.{Files, is_temp};
ghost use Rattle.outside.specs.Calls.{IsUntouched};
ghost use Rattle.outside.specs.Quiet.{IsQuiet};
ghost use Rattle.cli_tool_words.specs.PlainJobs.{plain_split_job};
ghost use Rattle.patch_set.specs.SetView.{IsWhole};
ghost use Rattle.split_recount.specs.Parts.{parts, rows_of};
ghost use Rattle.filter_whole_text.specs.Sifting.{is_refusal};
ghost use Rattle.filter_whole_text.specs.PartNames.{part_names};
ghost use Rattle.filter_whole_text.specs.Parting.{PutsPart, PutsParts, named_parts};
ghost use Rattle.filter_whole_text.specs.Splits.{IsSplit, HasEarlyCause, Splits};

use crate::defaults::read_plain;
use crate::fault::FilterFault;
use crate::naming::part_names;
use cli_run_answers::read_file;
use cli_tool_words::SplitJob;
use line_list::Span;
use outside::{Failed, Name, Sink, Tree, put_all};
use patch_set::PatchSet;
use replace_file::put_whole;
use split_recount::split_parts;
use std::alloc::Global;

/// Carries out a command of `splitdiff`: puts the parts of the file, each with a name of its own, and writes their names. A text
/// without file patches is refused, unless it is empty.
pub fn run_split<T: Tree, O: Sink>(
    alloc: Global,
    job: &SplitJob,
    tree: &mut T,
    out: &mut O,
) -> Result<(), FilterFault>
    requires quiet { IsQuiet (T.view tree.old) }
    ensures splits { Splits (plain_split_job job.now) (T.view tree.old) (T.view tree.new) (O.view out.old) (O.view out.new) result }
    ensures rest { O.same_rest out.old out.new }
{
    match read_split(alloc, job, tree) {
        Ok(set) => {
            let answer = put_set(alloc, job, &set, tree, out);
            drop(set);
            answer
        }
        Err(fault) => Err(fault),
    }
}

/// The set of which the parts are put.
fn read_split<T: Tree>(alloc: Global, job: &SplitJob, tree: &mut T) -> Result<PatchSet, FilterFault>
    ensures untouched { IsUntouched (T.view tree.old) (T.view tree.new) }
    ensures whole { IfOk result IsWhole }
    ensures set { IfOk result (λ v. (f : Files) → (T.view tree.old).told ≡ Some f → IsSplit (plain_split_job job.now) f (Ok v)) }
    ensures refused { IfErr result (λ e. is_refusal e ≡ true → (f : Files) → (T.view tree.old).told ≡ Some f → IsSplit (plain_split_job job.now) f (Err e)) }
    ensures cause { IfErr result (λ e. HasEarlyCause job.now.skip_binary e (T.view tree.old) (T.view tree.new)) }
{
    let text = read_file(alloc, &job.input, tree)?;
    let set = read_plain(alloc, text, job.skip_binary)?;
    Ok(set)
}

/// Puts the parts of a set.
fn put_set<T: Tree, O: Sink>(
    alloc: Global,
    job: &SplitJob,
    set: &PatchSet,
    tree: &mut T,
    out: &mut O,
) -> Result<(), FilterFault>
    requires quiet { IsQuiet (T.view tree.old) }
    requires whole { IsWhole set.now }
    ensures puts { PutsParts (named_parts set.now.text (part_names (plain_split_job job.now) (rows_of set.now) (parts job.now.every set.now)) (parts job.now.every set.now)) (T.view tree.old) (T.view tree.new) (O.view out.old) (O.view out.new) result }
    ensures rest { O.same_rest out.old out.new }
{
    match split_parts(alloc, set, job.every) {
        Ok(parts) => put_named(alloc, job, set, &parts, tree, out),
        Err(_) => Err(FilterFault::Memory),
    }
}

/// Puts these parts of a set.
fn put_named<T: Tree, O: Sink>(
    alloc: Global,
    job: &SplitJob,
    set: &PatchSet,
    parts: &[Span],
    tree: &mut T,
    out: &mut O,
) -> Result<(), FilterFault>
    requires quiet { IsQuiet (T.view tree.old) }
    requires turn { AreInTurn 0 parts.now (length set.now.text) }
    ensures puts { PutsParts (named_parts set.now.text (part_names (plain_split_job job.now) (rows_of set.now) parts.now) parts.now) (T.view tree.old) (T.view tree.new) (O.view out.old) (O.view out.new) result }
    ensures rest { O.same_rest out.old out.new }
{
    match part_names(alloc, job, set, parts) {
        Ok(names) => put_parts(alloc, set.text(), &names, parts, tree, out),
        Err(_) => Err(FilterFault::Memory),
    }
}

/// Puts the parts in their order, each with its name, and writes the name of each behind its put.
fn put_parts<T: Tree, O: Sink>(
    alloc: Global,
    text: &[u8],
    names: &[Name],
    parts: &[Span],
    tree: &mut T,
    out: &mut O,
) -> Result<(), FilterFault>
    requires quiet { IsQuiet (T.view tree.old) }
    requires turn { AreInTurn 0 parts.now (length text.now) }
    requires names { length names.now ≡ length parts.now }
    requires lasting { All (λ name. is_temp name ≡ false) names.now }
    ensures puts { PutsParts (named_parts text.now names.now parts.now) (T.view tree.old) (T.view tree.new) (O.view out.old) (O.view out.new) result }
    ensures rest { O.same_rest out.old out.new }
{
    for index in 0..parts.len() {
        let bytes = bytes_of(text, parts[index]);
        put_part(alloc, &names[index], bytes, tree, out)?;
    }
    Ok(())
}

fn bytes_of(text: &[u8], part: Span) -> &[u8]
    requires order { part.start ≤ part.end }
    requires within { part.end ≤ length text.now }
    ensures { result.now ≡ bytes_at text.now part }
{
    &text[part.start as usize..part.end as usize]
}

/// Puts a part, and then writes its name.
fn put_part<T: Tree, O: Sink>(
    alloc: Global,
    name: &Name,
    bytes: &[u8],
    tree: &mut T,
    out: &mut O,
) -> Result<(), FilterFault>
    requires quiet { IsQuiet (T.view tree.old) }
    requires lasting { is_temp name.now ≡ false }
    ensures puts { PutsPart (record { name = name.now; bytes = bytes.now }) (T.view tree.old) (T.view tree.new) (O.view out.old) (O.view out.new) result }
    ensures rest { O.same_rest out.old out.new }
{
    let temp = name.temporary(alloc)?;
    let Ok(_) = put_whole(tree, &temp, name, bytes) else {
        return Err(FilterFault::Tree);
    };
    let Ok(_) = put_line(out, name) else {
        return Err(FilterFault::Write);
    };
    Ok(())
}

fn put_line<O: Sink>(out: &mut O, name: &Name) -> Result<(), Failed>
    ensures { Puts O.view O.same_rest out.old out.new result (name.now ++ codes "\n") }
{
    put_all(out, name.text().as_bytes())?;
    put_all(out, b"\n")
}
