//! A set of file patches.
ghost use Rattle.std.specs.Prelude.{◌≡◌, ◌<◌, ◌^◌, [], IfOk, is_some, length, map, replicate, slice_index_or};
ghost use Rattle.std.specs.Option.{ForSome, option_copied};
ghost use Rattle.hunk_core.specs.declared.Verdict.TheVariants.{Untried};
ghost use Rattle.read_file_patch.specs.PlainPatch.{header_of};
ghost use Rattle.read_patch_text.specs.Regions.{region_of, regions_of};
ghost use Rattle.patch_set.specs.PlainName.{plain_name};
ghost use Rattle.patch_set.specs.Skipped.{skipped_changes};
ghost use Rattle.patch_set.specs.SetView.{IsWhole, first_row, hunks_in, patch_at, with_row, with_verdicts, without_marks};
ghost use Rattle.patch_set.specs.Fresh.{AreFirst, AreWhole, IsUntried};
ghost use Rattle.patch_set.specs.Room.{AreUnmarked, HaveRoom};

use crate::header_name::plain_name;
use crate::marks::room_if;
use crate::names::NamedPatches;
use crate::skipped::{BinaryChange, skipped_changes};
use hunk_core::{Side, Verdict};
use outside::WrittenNames;
use patch_header::ReadOptions;
use read_file_patch::{FilePatch, Target};
use std::alloc::{AllocError, Global};
use std::marker::Model;

/// What was done with a file patch. A run holds no list of its own: what a file patch wrote is read back from its row and its
/// verdicts.
#[derive(Clone, Copy)]
pub struct Row {
    /// The side that it was taken from.
    pub side: Side,
    /// The place of its chosen name among its targets, from 0.
    pub target: Option<u32>,
    /// Whether it had an effect on its target.
    pub wrote: bool,
}

/// The file patches of a patch text, with the verdicts on their hunks and what was done with each of them.
#[derive(Drop)]
pub struct PatchSet {
    text: Vec<u8>,
    ways: ReadOptions,
    patches: Vec<FilePatch>,
    output: Option<Target>,
    skipped: Vec<BinaryChange>,
    verdicts: Vec<Verdict>,
    rows: Vec<Row>,
    /// Room for the names that a run makes or takes away. What the set is seen as says whether it is there.
    marks: Option<WrittenNames>,
}

impl Model for PatchSet {
    ghost use Rattle.std.specs.Prelude.{is_some};
    ghost use Rattle.patch_set.specs.Room.{AreBlank};
    ghost use Rattle.patch_set.specs.SetView.{SetView, IsWhole};

    ghost Value = { SetView };

    ghost view = { λ s. record { text = s.text.items; ways = s.ways; patches = s.patches.items; output = s.output; skipped = s.skipped.items; verdicts = s.verdicts.items; rows = s.rows.items; has_marks = is_some s.marks } };

    ghost invariant = { λ s. IsWhole (record { text = s.text.items; ways = s.ways; patches = s.patches.items; output = s.output; skipped = s.skipped.items; verdicts = s.verdicts.items; rows = s.rows.items; has_marks = is_some s.marks }) × AreBlank s.patches.items s.output s.marks };
}

impl PatchSet {
    /// The text that was read; its last line has its line feed.
    pub fn text(&self) -> &[u8]
        ensures { result.now ≡ self.now.text }
    {
        &self.text
    }

    /// The ways in which the text was read.
    pub fn ways(&self) -> ReadOptions
        ensures { result ≡ self.now.ways }
    {
        self.ways
    }

    /// The file patches in the order of the text.
    pub fn patches(&self) -> &[FilePatch]
        ensures patches { result.now ≡ self.now.patches }
        ensures whole { IsWhole self.now }
    {
        &self.patches
    }

    /// The name of a file patch, counted from 0, for the filters: the better one of its old and its new name, `/dev/null`
    /// being none, or else the name that its file is renamed or copied to, or else its `Index:` name, or else the empty text.
    pub fn plain_name(&self, patch: u32) -> &[u8]
        requires { patch < length self.now.patches }
        ensures { ForSome (patch_at self.now patch) (λ p. result.now ≡ plain_name (header_of self.now.text p.header)) }
    {
        plain_name(&self.text, &self.patches[patch as usize].header)
    }

    /// The file that the result goes to in place of the one that is patched.
    pub fn output(&self) -> Option<&Target>
        ensures { option_copied result ≡ self.now.output }
    {
        self.output.as_ref()
    }

    /// The binary changes that were passed over, in order: one for each line `GIT binary patch` or `Binary files .. differ`
    /// that stands outside of hunks. There is none where binary changes aren't passed over.
    pub fn skipped(&self) -> &[BinaryChange]
        ensures skipped { result.now ≡ self.now.skipped }
        ensures changes { result.now ≡ skipped_changes self.now.ways self.now.text }
    {
        &self.skipped
    }

    /// One for each hunk, an ed script counting as one, or none while they are taken.
    pub fn verdicts(&self) -> &[Verdict]
        ensures { result.now ≡ self.now.verdicts }
    {
        &self.verdicts
    }

    /// What was done with a file patch, counted from 0.
    pub fn row(&self, patch: u32) -> Row
        requires { patch < length self.now.patches }
        ensures row { result ≡ slice_index_or self.now.rows patch result }
        ensures within { patch < length self.now.rows }
    {
        self.rows[patch as usize]
    }

    /// Puts a row in place of that of a file patch, counted from 0.
    pub fn note(&mut self, patch: u32, row: Row)
        requires { patch < length self.old.patches }
        ensures { self.new ≡ with_row self.old patch row }
    {
        self.rows[patch as usize] = row;
    }

    /// Hands out the verdicts, and leaves none.
    pub fn take_verdicts(&mut self) -> Vec<Verdict>
        ensures taken { result.items ≡ self.old.verdicts }
        ensures left { self.new ≡ with_verdicts self.old [] }
    {
        let empty = Vec::new(*self.verdicts.allocator());
        std::mem::replace(&mut self.verdicts, empty)
    }

    /// Puts the verdicts back, one for each hunk, an ed script counting as one.
    pub fn give_verdicts(&mut self, verdicts: Vec<Verdict>)
        requires { length verdicts.items ≡ hunks_in self.old.patches }
        ensures { self.new ≡ with_verdicts self.old verdicts.items }
    {
        self.verdicts = verdicts;
    }

    /// Hands out marks at the names that a run can make or take away, if they are there, and leaves none.
    pub fn take_marks(&mut self) -> Option<WrittenNames>
        ensures unmarked { ForSome result AreUnmarked }
        ensures room { ForSome result (HaveRoom self.old.patches self.old.output) }
        ensures handed { is_some result ≡ self.old.has_marks }
        ensures left { self.new ≡ without_marks self.old }
    {
        self.marks.take()
    }
}

/// A set that was taken apart.
#[derive(Drop)]
pub struct Parts {
    pub text: Vec<u8>,
    pub ways: ReadOptions,
    pub named: NamedPatches,
}

/// Takes a set apart. What was noted of its file patches is let go.
pub fn take_apart(set: PatchSet) -> Parts
    ensures text { result.text.items ≡ set.text }
    ensures ways { result.ways ≡ set.ways }
    ensures patches { result.named.patches.items ≡ set.patches }
    ensures output { result.named.output ≡ set.output }
    ensures whole { AreWhole result.ways result.text.items result.named.patches.items }
{
    Parts {
        text: set.text,
        ways: set.ways,
        named: NamedPatches {
            patches: set.patches,
            output: set.output,
        },
    }
}

/// What a set has beside its text and its file patches.
#[derive(Drop)]
struct Notes {
    skipped: Vec<BinaryChange>,
    verdicts: Vec<Verdict>,
    rows: Vec<Row>,
    marks: Option<WrittenNames>,
}

/// The set of these file patches, of which nothing was tried yet, with room for marks where that is asked for.
pub fn untried(
    alloc: Global,
    text: Vec<u8>,
    ways: ReadOptions,
    named: NamedPatches,
    marks_asked: bool,
) -> Result<PatchSet, AllocError>
    requires { AreWhole ways text.items named.patches.items }
    ensures untried { IfOk result (IsUntried text.items ways named) }
    ensures marks { IfOk result (λ set. set.has_marks ≡ marks_asked) }
{
    match first_notes(
        alloc,
        &text,
        ways,
        &named.patches,
        &named.output,
        marks_asked,
    ) {
        Ok(notes) => Ok(noted(text, ways, named, notes)),
        Err(error) => {
            drop(named);
            Err(error)
        }
    }
}

/// The set with these notes.
fn noted(text: Vec<u8>, ways: ReadOptions, named: NamedPatches, notes: Notes) -> PatchSet
    requires whole { AreWhole ways text.items named.patches.items }
    requires notes { AreFirst ways text.items named.patches.items named.output notes }
    ensures untried { IsUntried text.items ways named result }
    ensures marks { result.has_marks ≡ is_some notes.marks }
{
    PatchSet {
        text,
        ways,
        patches: named.patches,
        output: named.output,
        skipped: notes.skipped,
        verdicts: notes.verdicts,
        rows: notes.rows,
        marks: notes.marks,
    }
}

/// The notes of a set of which nothing was tried yet.
fn first_notes(
    alloc: Global,
    text: &[u8],
    ways: ReadOptions,
    patches: &[FilePatch],
    output: &Option<Target>,
    marks_asked: bool,
) -> Result<Notes, AllocError>
    requires regions { map region_of patches.now ≡ regions_of ways text.now }
    requires hunks { hunks_in patches.now < 2 ^ 32 }
    ensures first { IfOk result (AreFirst ways text.now patches.now output.now) }
    ensures asked { IfOk result (λ notes. is_some notes.marks ≡ marks_asked) }
{
    let skipped = skipped_changes(alloc, text, ways, patches)?;
    let verdicts = untried_hunks(alloc, hunks_in(patches))?;
    let rows = first_rows(alloc, patches.len())?;
    let marks = room_if(alloc, marks_asked, patches, output)?;
    Ok(Notes {
        skipped,
        verdicts,
        rows,
        marks,
    })
}

/// A verdict for each of so many hunks.
fn untried_hunks(alloc: Global, count: usize) -> Result<Vec<Verdict>, AllocError>
    ensures { IfOk result (λ verdicts. verdicts.items ≡ replicate count Untried) }
{
    vec![in alloc; Verdict::Untried; count]
}

/// A row for each of so many file patches.
fn first_rows(alloc: Global, count: usize) -> Result<Vec<Row>, AllocError>
    ensures { IfOk result (λ rows. rows.items ≡ replicate count first_row) }
{
    let first = Row {
        side: Side::Forward,
        target: None,
        wrote: false,
    };
    vec![in alloc; first; count]
}

/// How many hunks the file patches have, an ed script counting as one.
fn hunks_in(patches: &[FilePatch]) -> usize
    requires { hunks_in patches.now < 2 ^ 32 }
    ensures { result ≡ hunks_in patches.now }
{
    let mut count = 0;
    for patch in patches {
        count += patch.hunks() as usize;
    }
    count
}
