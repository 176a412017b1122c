//! The parts of a text, cut between its file patches.

ghost use Rattle.std.specs.Prelude.{◌≡◌, ◌<◌, [], ◌∷◌, IfOk, length};
ghost use Rattle.std.specs.Option.{ForSome};
ghost use Rattle.patch_set.specs.SetView.{patch_at};
ghost use Rattle.split_recount.specs.Parts.{between, parts, row_of};
ghost use Rattle.split_recount.specs.PartLaws.{AreAsMany, BeginAtNamesAgain, BeginAtPatches, HaveOwnNames, JoinBack};
ghost use Rattle.split_recount.specs.Splitting.{AreNames, Goes, begins};

use line_list::Span;
use patch_set::PatchSet;
use std::alloc::{AllocError, Global};
use std::collections::BTreeSet;

/// Where the current part begins, and the names of its file patches.
#[derive(Drop)]
struct CurrentPart<'a> {
    start: u32,
    names: BTreeSet<&'a [u8]>,
}

fn begin<'a>(alloc: Global, start: u32, name: &'a [u8]) -> Result<CurrentPart<'a>, AllocError>
    ensures start { IfOk result (λ part. part.start ≡ start) }
    ensures names { IfOk result (λ part. AreNames (name.now ∷ []) part.names) }
{
    let mut names = BTreeSet::new(alloc);
    match names.insert(name) {
        Ok(_) => Ok(CurrentPart { start, names }),
        Err(_) => {
            drop(names);
            Err(AllocError)
        }
    }
}

/// Whether a file patch with this name begins the next part.
fn begins<'a>(part: &CurrentPart<'a>, every: bool, name: &'a [u8]) -> bool
    ensures { result ≡ begins every part.now name.now }
{
    every || part.names.contains(name)
}

/// A file patch, counted from 0, goes into the current part, or begins the next one.
fn take<'a>(
    alloc: Global,
    set: &'a PatchSet,
    patch: u32,
    every: bool,
    part: CurrentPart<'a>,
    parts: &mut Vec<Span>,
) -> Result<CurrentPart<'a>, AllocError>
    requires { patch < length set.now.patches }
    ensures { IfOk result (λ next. ForSome (patch_at set.now patch) (λ p. Goes every (row_of set.now.text p) part.entry parts.old.items next parts.new.items)) }
{
    let mut part = part;
    let name = set.plain_name(patch);
    if begins(&part, every, name) {
        let end = set.patches()[patch as usize].span.start;
        parts.push(Span {
            start: part.start,
            end,
        })?;
        let next = begin(alloc, end, name)?;
        return Ok(next);
    }
    match part.names.insert(name) {
        Ok(_) => Ok(part),
        Err(_) => Err(AllocError),
    }
}

fn cut(alloc: Global, set: &PatchSet, every: bool, end: u32) -> Result<Vec<Span>, AllocError>
    requires some { 0 < length set.now.patches }
    requires text { 0 < length set.now.text }
    requires end { end ≡ length set.now.text }
    ensures { IfOk result (λ spans. spans.items ≡ parts every set.now) }
{
    let mut part = begin(alloc, 0, set.plain_name(0))?;
    let mut parts = Vec::new(alloc);
    for patch in 1..set.patches().len() {
        part = take(alloc, set, patch as u32, every, part, &mut parts)?;
    }
    let start = part.start;
    drop(part);
    parts.push(Span { start, end })?;
    Ok(parts)
}

/// The whole text as one part.
fn whole(alloc: Global, end: u32) -> Result<Vec<Span>, AllocError>
    ensures { IfOk result (λ spans. spans.items ≡ between 0 [] end) }
{
    Ok(vec![in alloc; Span { start: 0, end }]?)
}

/// The parts of the text of a set. A part begins at the start of the text, and with each file patch whose name is that of one
/// in the current part, or with each but the first if `every` says so: there its own lines begin, those in front of its first
/// hunk included. What stands behind the last file patch is in the last part, and an empty text has no part. A text of 2^32
/// bytes, of which no set is read, counts as want of memory.
pub fn split_parts(alloc: Global, set: &PatchSet, every: bool) -> Result<Vec<Span>, AllocError>
    ensures { IfOk result (λ spans. spans.items ≡ parts every set.now) }
{
    let Ok(end) = u32::try_from(set.text().len()) else {
        return Err(AllocError);
    };
    if end == 0 {
        return Ok(Vec::new(alloc));
    }
    if set.patches().is_empty() {
        return whole(alloc, end);
    }
    cut(alloc, set, every, end)
}

/// None of the parts is empty, and one behind the other they are the text; each but the first begins where a file patch does;
/// two file patches in one part have two names. With `every` there are as many parts as file patches, and without it a part
/// begins only at a name that is in the part in front of it.
pub fn part_laws()
    ensures join { JoinBack }
    ensures begin { BeginAtPatches }
    ensures names { HaveOwnNames }
    ensures many { AreAsMany }
    ensures again { BeginAtNamesAgain }
{}
