//! A text in memory with its lines, and how it is taken from a tree. No hash of a line is kept: it would take as much memory as
//! its place.

ghost use Rattle.std.specs.Prelude.{◌≡◌, ◌≤◌, ◌<◌, ◌+◌, ◌-◌, ◌^◌, ℕ, [], take, drop, length, vec_len, slice_index_or, bytes_eq, None, Some, IfOk, IfErr, IfSome};
ghost use Rattle.line_list.specs.Lines.{lines};
ghost use Rattle.line_list.specs.Join.{join, lacks_feed, ends_open};
ghost use Rattle.outside.specs.Files.{Files, bytes_at};
ghost use Rattle.outside.specs.TreeView.{Passes};
ghost use Rattle.outside.specs.Calls.{IsThere, IsUntouched};
ghost use Rattle.line_store.specs.Store.{IsFirstAlike, IsLastAlike, line_at};
ghost use Rattle.line_store.specs.Taking.{refusal};
ghost use Rattle.plan_a.specs.Taken.{HasLength, IsFile, HasTextCause, HasWanted, IsCutFault};
ghost use Rattle.plan_a.specs.Places.{places_of};
ghost use Rattle.plan_a.specs.Cut.{IsCut, IsRange, from_of};

use crate::cut::ends_of;
use crate::places::Places;
use line_store::OpenFault;
use outside::{Name, Tree};
use std::alloc::Global;

/// The least number of bytes that is too many.
const TOO_LONG: u64 = 1 << 40;

/// The bytes of a file, and the place where each of its lines ends.
#[derive(Drop)]
pub struct Text {
    pub bytes: Vec<u8>,
    pub ends: Places,
    ghost cut: { IsCut bytes.items (places_of ends) },
    ghost short: { length bytes.items ≤ 2 ^ 40 },
}

impl Text {
    pub fn empty(alloc: Global) -> Text
        ensures { result.bytes.items ≡ [] }
    {
        Text {
            bytes: Vec::new(alloc),
            ends: Places::none(alloc),
        }
    }

    /// The number of lines.
    pub fn count(&self) -> u64
        ensures is { result ≡ length (lines self.now.bytes.items) }
        ensures most { result ≤ 2 ^ 40 }
    {
        self.ends.len() as u64
    }

    /// Line `k`, counted from 1, or nothing where there is none.
    pub fn line(&self, k: u64) -> &[u8]
        ensures { result.now ≡ line_at (lines self.now.bytes.items) k }
    {
        let before = k.saturating_sub(1) as usize;
        if before >= self.ends.len() {
            return &[];
        }
        &self.bytes[self.start_of(before)..self.ends.at(before)]
    }

    /// So many lines from line `k` on.
    pub fn lines_from(&self, k: u64, count: u64) -> &[u8]
        requires low { 1 ≤ k }
        requires some { 1 ≤ count }
        requires high { k + count ≤ length (lines self.now.bytes.items) + 1 }
        ensures is { result.now ≡ join (take count (drop (k - 1) (lines self.now.bytes.items))) }
        ensures end { lacks_feed result.now ≡ ends_open (take count (drop (k - 1) (lines self.now.bytes.items))) }
    {
        let before = (k - 1) as usize;
        let to = self.end_of(before, count as usize);
        &self.bytes[self.start_of(before)..to]
    }

    /// Where the line begins that has so many lines before it.
    fn start_of(&self, before: usize) -> usize
        requires { before < length (places_of self.now.ends) }
        ensures { result ≡ from_of (places_of self.now.ends) before }
    {
        if before == 0 {
            0
        } else {
            self.ends.at(before - 1)
        }
    }

    /// Where so many lines end that have `before` lines before them.
    fn end_of(&self, before: usize, count: usize) -> usize
        requires some { 1 ≤ count }
        requires high { before + count ≤ length (places_of self.now.ends) }
        ensures { IsRange self.now.bytes.items before count (from_of (places_of self.now.ends) before) result }
    {
        self.ends.at(before + count - 1)
    }

    /// The first line from line `from` up to, not including, line `to` that has these bytes.
    pub fn first_alike(&self, from: u64, to: u64, line: &[u8]) -> Option<u64>
        requires low { 1 ≤ from }
        requires high { to ≤ length (lines self.now.bytes.items) + 1 }
        ensures within { IfSome result (λ k. (from ≤ k) × (k < to)) }
        ensures value { IsFirstAlike (lines self.now.bytes.items) line.now from to result }
    {
        for k in from..to {
            if is_same(self.line(k), line) {
                return Some(k);
            }
        }
        None
    }

    /// The last such line.
    pub fn last_alike(&self, from: u64, to: u64, line: &[u8]) -> Option<u64>
        requires low { 1 ≤ from }
        requires high { to ≤ length (lines self.now.bytes.items) + 1 }
        ensures within { IfSome result (λ k. (from ≤ k) × (k < to)) }
        ensures value { IsLastAlike (lines self.now.bytes.items) line.now from to result }
    {
        for k in (from..to).rev() {
            if is_same(self.line(k), line) {
                return Some(k);
            }
        }
        None
    }
}

/// Whether two lines are equal. Most others differ in their lengths, or in their last byte before the line feed.
fn is_same(a: &[u8], b: &[u8]) -> bool
    ensures { result ≡ bytes_eq a.now b.now }
{
    if a.len() != b.len() {
        return false;
    }
    let near_end = a.len().saturating_sub(2);
    if near_end < a.len() && a[near_end] != b[near_end] {
        return false;
    }
    a == b
}

/// Takes a file whole.
pub fn take_text<T: Tree>(
    alloc: Global,
    size: u32,
    tree: &mut T,
    name: &Name,
) -> Result<Text, OpenFault>
    requires { IsThere (T.view tree.old) name.now }
    ensures untouched { IsUntouched (T.view tree.old) (T.view tree.new) }
    ensures passes { Passes (T.view tree.old) (T.view tree.new) }
    ensures bytes { IfOk result (λ text. IsFile (T.view tree.old) name.now text.bytes.items) }
    ensures admitted { IfOk result (λ text. refusal size text.bytes.items ≡ None) }
    ensures cause { IfErr result (λ e. HasTextCause e size (T.view tree.old) (T.view tree.new) name.now) }
{
    let length = size_of(tree, name)?;
    if length >= TOO_LONG {
        return Err(OpenFault::FileTooLong { length });
    }
    let bytes = read_bytes(alloc, tree, name, length)?;
    cut_text(alloc, bytes, size)
}

/// The stated size of a file. One that isn't told to be there counts as empty: reading it fails.
fn size_of<T: Tree>(tree: &mut T, name: &Name) -> Result<u64, OpenFault>
    requires { IsThere (T.view tree.old) name.now }
    ensures untouched { IsUntouched (T.view tree.old) (T.view tree.new) }
    ensures passes { Passes (T.view tree.old) (T.view tree.new) }
    ensures size { IfOk result (HasLength (T.view tree.old) name.now) }
    ensures cause { (size : ℕ) → IfErr result (λ e. HasTextCause e size (T.view tree.old) (T.view tree.new) name.now) }
{
    Ok(tree.size(name)?.unwrap_or(0))
}

/// Reads a file whole, of which so many bytes are stated. What is taken are the bytes that came. The clause on their number
/// needs the test behind it: a short file can't pass for a whole one.
fn read_bytes<T: Tree>(
    alloc: Global,
    tree: &mut T,
    name: &Name,
    length: u64,
) -> Result<Vec<u8>, OpenFault>
    requires there { IsThere (T.view tree.old) name.now }
    requires stated { HasLength (T.view tree.old) name.now length }
    ensures untouched { IsUntouched (T.view tree.old) (T.view tree.new) }
    ensures passes { Passes (T.view tree.old) (T.view tree.new) }
    ensures bytes { IfOk result (λ bytes. IsFile (T.view tree.old) name.now bytes.items) }
    ensures all { IfOk result (λ bytes. vec_len bytes ≡ length) }
    ensures cause { (size : ℕ) → IfErr result (λ e. HasTextCause e size (T.view tree.old) (T.view tree.new) name.now) }
    ensures wanted { IfErr result (HasWanted length) }
{
    let mut bytes = Vec::with_capacity(alloc, length as usize)?;
    bytes.resize(length as usize, 0)?;
    let count = tree.read_at(name, 0, &mut bytes)?;
    bytes.truncate(count);
    let got = bytes.len() as u64;
    if got < length {
        return Err(OpenFault::Disagree { want: length, got });
    }
    Ok(bytes)
}

/// The text with its lines, unless one is too long.
fn cut_text(alloc: Global, bytes: Vec<u8>, size: u32) -> Result<Text, OpenFault>
    requires { vec_len bytes < 2 ^ 40 }
    ensures bytes { IfOk result (λ text. text.bytes.items ≡ bytes.items) }
    ensures admitted { IfOk result (λ text. refusal size bytes.items ≡ None) }
    ensures cause { IfErr result (IsCutFault size bytes.items) }
{
    let ends = ends_of(alloc, &bytes, size)?;
    Ok(Text { bytes, ends })
}
