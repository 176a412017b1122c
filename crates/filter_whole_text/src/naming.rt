//! The names of the parts of a text.
ghost use Rattle.std.specs.Prelude.{◌≡◌, ℕ, ◌≤◌, List, ◌++◌, [], ◌∷◌, codes, map, drop, length, not, ◌&&◌, bytes_eq, if◌then◌else◌, None, Some, IfOk, OnOk};
ghost use Rattle.std.specs.List.{list_all};
ghost use Rattle.num_text.specs.Numbers.{is_digit};
ghost use Rattle.hunk_core.specs.Pieces.{AreInTurn};
ghost use Rattle.outside.specs.Names.{is_slash, last_component};
ghost use Rattle.cli_tool_words.specs.PlainJobs.{plain_part_names, plain_split_job};
ghost use Rattle.split_recount.specs.Parts.{rows_of};
ghost use Rattle.split_recount.specs.Splitting.{AreNames};
ghost use Rattle.filter_whole_text.specs.PartNames.{part_name, numbered_names, flat, is_unfit, is_usable, stem, first_name, stem_at, is_mark, ends_in_mark, mark, ending, base, own_base, own_name, own_names, is_by_name, needs_mark, part_names};

use cli_tool_words::{PartNames, SplitJob};
use line_list::Span;
use outside::{Name, NameFault};
use patch_set::PatchSet;
use read_file_patch::{last_component, shortened};
use std::alloc::{AllocError, Global};
use std::collections::BTreeSet;

/// The longest name of a file patch that a part may have, in bytes.
const LONGEST: usize = 200;

/// The names of the parts, in their order.
pub fn part_names(
    alloc: Global,
    job: &SplitJob,
    set: &PatchSet,
    parts: &[Span],
) -> Result<Vec<Name>, AllocError>
    requires turn { AreInTurn 0 parts.now (length set.now.text) }
    ensures { IfOk result (λ names. names.items ≡ part_names (plain_split_job job.now) (rows_of set.now) parts.now) }
{
    if !is_by_name(&job.names) {
        return numbered_names(alloc, &job.input, parts.len());
    }
    let stems = stems_of(alloc, job.names.strip, set, parts)?;
    let names = own_names(alloc, job, &stems);
    drop(stems);
    names
}

fn is_by_name(names: &PartNames) -> bool
    ensures { result ≡ is_by_name (plain_part_names names.now) }
{
    names.by_name || names.directory.is_some()
}

/// The names of so many parts, by that of their text.
fn numbered_names(alloc: Global, file: &Name, count: usize) -> Result<Vec<Name>, AllocError>
    ensures { IfOk result (λ names. names.items ≡ numbered_names file.now count) }
{
    let mut names = Vec::new(alloc);
    for index in 0..count {
        let name = part_name(alloc, file, index as u64 + 1)?;
        names.push(name)?;
    }
    Ok(names)
}

/// The name of the part with this number.
fn part_name(alloc: Global, file: &Name, number: u64) -> Result<Name, AllocError>
    ensures { IfOk result (λ name. name ≡ part_name file.now number) }
{
    let end = format!(in alloc; ".part{number:03}")?;
    file.followed_by(alloc, end.as_str())
}

/// What stands for each part.
fn stems_of(
    alloc: Global,
    strip: u32,
    set: &PatchSet,
    parts: &[Span],
) -> Result<Vec<Name>, AllocError>
    requires turn { AreInTurn 0 parts.now (length set.now.text) }
    ensures { IfOk result (λ stems. stems.items ≡ map (stem_at strip (rows_of set.now)) parts.now) }
{
    let mut stems = Vec::new(alloc);
    let mut patch = 0;
    for index in 0..parts.len() {
        patch = first_from(set, patch, parts[index].start);
        let stem = stem(alloc, strip, name_at(set, patch))?;
        stems.push(stem)?;
    }
    Ok(stems)
}

/// The first file patch from this one on that begins at a place or behind it.
fn first_from(set: &PatchSet, from: usize, place: u32) -> usize
    ensures same { (at : ℕ) → place ≤ at → first_name (drop result (rows_of set.now)) at ≡ first_name (drop from (rows_of set.now)) at }
    ensures there { (at : ℕ) → at ≤ place → first_name (drop result (rows_of set.now)) at ≡ first_name (drop result (rows_of set.now)) 0 }
{
    let mut patch = from;
    while patch < set.patches().len() && set.patches()[patch].span.start < place {
        patch += 1;
    }
    patch
}

/// The name of a file patch, if it is there.
fn name_at(set: &PatchSet, patch: usize) -> &[u8]
    ensures { result.now ≡ first_name (drop patch (rows_of set.now)) 0 }
{
    if patch < set.patches().len() {
        set.plain_name(patch as u32)
    } else {
        b""
    }
}

/// What stands for a name.
fn stem(alloc: Global, strip: u32, name: &[u8]) -> Result<Name, AllocError>
    ensures { IfOk result (λ made. made ≡ stem strip name.now) }
{
    let text = flat(alloc, shortened(strip, name))?;
    let usable = usable(alloc, &text);
    drop(text);
    match usable? {
        Some(name) => Ok(name),
        None => unnamed(alloc),
    }
}

/// A name with each slash a low line.
fn flat(alloc: Global, name: &[u8]) -> Result<Vec<u8>, AllocError>
    ensures { IfOk result (λ text. text.items ≡ flat name.now) }
{
    let mut text = Vec::with_capacity(alloc, name.len())?;
    for at in 0..name.len() {
        text.push(without_slash(name[at]))?;
    }
    Ok(text)
}

/// A slash as a low line.
fn without_slash(byte: u8) -> u8
    ensures { result ≡ (if is_slash byte then 95 else byte) }
{
    if byte == b'/' { b'_' } else { byte }
}

/// The text as the name of a file, if it can be one.
fn usable(alloc: Global, text: &[u8]) -> Result<Option<Name>, AllocError>
    ensures { IfOk result (λ name. name ≡ (if is_usable text.now then Some text.now else None)) }
{
    match Name::new(alloc, text) {
        Ok(name) => Ok(same_name(name, text)),
        Err(NameFault::Refused { rule: _ }) => Ok(None),
        Err(NameFault::Memory) => Err(AllocError),
    }
}

/// The name, if it is this text and not unfit.
fn same_name(name: Name, text: &[u8]) -> Option<Name>
    ensures { result ≡ (if bytes_eq name text.now && not (is_unfit name) then Some name else None) }
{
    if is_same(&name, text) {
        return Some(name);
    }
    drop(name);
    None
}

fn is_same(name: &Name, text: &[u8]) -> bool
    ensures { result ≡ (bytes_eq name.now text.now && not (is_unfit name.now)) }
{
    name.text().as_bytes() == text && !is_unfit(name)
}

/// Whether it is a temporary's, or too long for what may follow it.
fn is_unfit(name: &Name) -> bool
    ensures { result ≡ is_unfit name.now }
{
    name.is_temp() || name.text().as_bytes().len() > LONGEST
}

fn unnamed(alloc: Global) -> Result<Name, AllocError>
    ensures { IfOk result (λ name. name ≡ codes "unnamed") }
{
    match Name::new(alloc, b"unnamed") {
        Ok(name) => Ok(name),
        Err(_) => Err(AllocError),
    }
}

/// The names of the parts for which these stand.
fn own_names(alloc: Global, job: &SplitJob, stems: &[Name]) -> Result<Vec<Name>, AllocError>
    ensures { IfOk result (λ all. all.items ≡ own_names (plain_split_job job.now) [] 1 stems.now) }
{
    let mut all = Vec::new(alloc);
    let mut earlier = BTreeSet::new(alloc);
    for index in 0..stems.len() {
        let stem = &stems[index];
        let marked = needs_mark(&earlier, stem);
        let name = own_name(alloc, job, marked, index as u64 + 1, stem)?;
        all.push(name)?;
        note(&mut earlier, stem)?;
    }
    drop(earlier);
    Ok(all)
}

/// Whether the number of a part goes with this.
fn needs_mark<'a>(earlier: &BTreeSet<&'a [u8]>, stem: &'a Name) -> bool
    ensures { (names : List (List ℕ)) → AreNames names earlier.now → result ≡ needs_mark names stem.now }
{
    let text = stem.text().as_bytes();
    earlier.contains(text) || ends_in_mark(text)
}

fn note<'a>(earlier: &mut BTreeSet<&'a [u8]>, stem: &'a Name) -> Result<(), AllocError>
    ensures { OnOk result ((names : List (List ℕ)) → AreNames names earlier.old → AreNames (stem.now ∷ names) earlier.new) }
{
    match earlier.insert(stem.text().as_bytes()) {
        Ok(_) => Ok(()),
        Err(_) => Err(AllocError),
    }
}

/// Whether a text ends in `.part` and digits.
fn ends_in_mark(text: &[u8]) -> bool
    ensures { result ≡ ends_in_mark text.now }
{
    for at in 0..text.len() {
        if is_mark(&text[at..]) {
            return true;
        }
    }
    false
}

fn is_mark(text: &[u8]) -> bool
    ensures { result ≡ is_mark text.now }
{
    text.starts_with(b".part") && are_digits(&text[5..])
}

fn are_digits(text: &[u8]) -> bool
    ensures { result ≡ list_all is_digit text.now }
{
    text.iter().all(|b| b.is_ascii_digit())
}

/// The name of the part with this number, for which this stands.
fn own_name(
    alloc: Global,
    job: &SplitJob,
    marked: bool,
    number: u64,
    stem: &Name,
) -> Result<Name, AllocError>
    ensures { IfOk result (λ name. name ≡ own_name (plain_split_job job.now) marked number stem.now) }
{
    let name = own_base(alloc, &job.input, job.names.bare, marked, number, stem)?;
    match &job.names.directory {
        Some(directory) => name.below(alloc, directory),
        None => Ok(name),
    }
}

/// The name of a part where it lies in no directory.
fn own_base(
    alloc: Global,
    file: &Name,
    bare: bool,
    marked: bool,
    number: u64,
    stem: &Name,
) -> Result<Name, AllocError>
    ensures { IfOk result (λ name. name ≡ own_base file.now bare marked number stem.now) }
{
    let first = base(alloc, bare, marked, number, stem)?;
    if !is_last(file, &first) {
        return Ok(first);
    }
    drop(first);
    let longer = with_mark(alloc, marked, number, stem)?;
    let second = base(alloc, bare, true, number, &longer);
    drop(longer);
    second
}

/// Whether the name is the last component of that of a file.
fn is_last(file: &Name, name: &Name) -> bool
    ensures { result ≡ bytes_eq name.now (last_component file.now) }
{
    name.text().as_bytes() == last_component(file.text().as_bytes())
}

fn base(
    alloc: Global,
    bare: bool,
    marked: bool,
    number: u64,
    stem: &Name,
) -> Result<Name, AllocError>
    ensures { IfOk result (λ name. name ≡ base bare marked number stem.now) }
{
    let name = with_mark(alloc, marked, number, stem)?;
    with_ending(alloc, bare, name)
}

fn with_mark(alloc: Global, marked: bool, number: u64, stem: &Name) -> Result<Name, AllocError>
    ensures { IfOk result (λ name. name ≡ stem.now ++ mark marked number) }
{
    if marked {
        part_name(alloc, stem, number)
    } else {
        stem.copy(alloc)
    }
}

fn with_ending(alloc: Global, bare: bool, name: Name) -> Result<Name, AllocError>
    ensures { IfOk result (λ whole. whole ≡ name ++ ending bare) }
{
    if bare {
        Ok(name)
    } else {
        name.followed_by(alloc, ".patch")
    }
}
