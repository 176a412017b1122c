//! The first reading of a file: how many lines it has, and how long the longest is.

ghost use Rattle.std.specs.Prelude.{◌≡◌, ◌≤◌, ◌<◌, ◌+◌, ◌-◌, ◌^◌, ℕ, List, length, max, Some, None, IfOk, IfErr, IsErr};
ghost use Rattle.line_list.specs.Lines.{lines};
ghost use Rattle.line_store.specs.Taking.{long_line};
ghost use Rattle.line_store.specs.declared.fault.OpenFault.TheVariants.{LongLine};
ghost use Rattle.outside.specs.TreeView.{Passes};
ghost use Rattle.outside.specs.Calls.{IsThere, IsUntouched};
ghost use Rattle.page_pair.specs.Reading.{told_file, HasLength, IsReadFault, IsMeasureFault, IsPart, IsMeasured, IsNoneWhole, IsOpen};
ghost use Rattle.page_pair.specs.Measuring.{IsSound};
ghost use Rattle.page_pair.specs.Room.{HasRoom, room_with};

use crate::PagePair;
use crate::long::end_of_line;
use crate::reading::{read_piece, whole_line};
use crate::room::Room;
use line_store::{Half, OpenFault};
use outside::{Name, Tree};

/// A line that is too long, by its number, from 1, and its length.
#[derive(Clone, Copy)]
pub struct Long {
    pub line: u64,
    pub length: u64,
}

/// The lines before a place of a file: how many they are, how many bytes the longest has, and the room of their
/// records without padding.
#[derive(Clone, Copy)]
pub struct Measured {
    pub at: u64,
    pub count: u64,
    pub longest: u64,
    pub room: Room,
}

/// Measures the whole lines of a piece, of which each may have `most` bytes.
pub fn measure_lines(
    piece: &[u8],
    is_last: bool,
    start: Measured,
    most: u64,
) -> Result<Measured, Long>
    requires sound { IsSound start most }
    requires few { start.at + length piece.now ≤ 2 ^ 40 }
    requires small { most ≤ 2 ^ 30 }
    ensures sound { IfOk result (λ now. IsSound now most) }
    ensures on { IfOk result (λ now. start.at ≤ now.at) }
    ensures within { IfOk result (λ now. now.at ≤ start.at + length piece.now) }
    ensures left { IfOk result (λ now. IsNoneWhole piece.now is_last (now.at - start.at)) }
    ensures measured { IfOk result (λ now. (text : List ℕ) → IsPart text piece.now start.at is_last → IsMeasured text start.at start.count start.longest → IsMeasured text now.at now.count now.longest) }
    ensures room { IfOk result (λ now. (text : List ℕ) → IsPart text piece.now start.at is_last → HasRoom (most + 4) text start.at start.room → HasRoom (most + 4) text now.at now.room) }
    ensures long { IfErr result (λ long. most < long.length) }
    ensures first { IfErr result (λ long. (text : List ℕ) → IsPart text piece.now start.at is_last → IsMeasured text start.at start.count start.longest → long_line (most + 4) (lines text) ≡ Some (LongLine long.line long.length)) }
{
    let mut now = start;
    let mut at = 0;
    while let Some(end) = whole_line(piece, is_last, at) {
        let length = (end - at) as u64;
        now = match with_line(now, length, most) {
            Ok(next) => next,
            Err(long) => return Err(long),
        };
        at = end;
    }
    Ok(now)
}

/// One line more.
fn with_line(now: Measured, length: u64, most: u64) -> Result<Measured, Long>
    requires sound { IsSound now most }
    requires few { now.at + length ≤ 2 ^ 40 }
    requires some { 1 ≤ length }
    requires small { most ≤ 2 ^ 30 }
    ensures sound { IfOk result (λ next. IsSound next most) }
    ensures at { IfOk result (λ next. next.at ≡ now.at + length) }
    ensures count { IfOk result (λ next. next.count ≡ now.count + 1) }
    ensures longest { IfOk result (λ next. next.longest ≡ max now.longest length) }
    ensures room { IfOk result (λ next. next.room ≡ room_with (most + 4) now.room (4 + length)) }
    ensures long { IfErr result (λ long. most < long.length) }
    ensures line { IfErr result (λ long. (long.line ≡ now.count + 1) × (long.length ≡ length)) }
{
    let count = now.count + 1;
    if length > most {
        return Err(Long {
            line: count,
            length,
        });
    }
    Ok(Measured {
        at: now.at + length,
        count,
        longest: u64::max(now.longest, length),
        room: now.room.with(most + 4, 4 + length),
    })
}

/// Refuses the line behind those that were measured, which no page can hold: no line feed of it stands before `from`.
fn refuse_long<T: Tree>(
    pair: &mut PagePair,
    tree: &mut T,
    name: &Name,
    start: Measured,
    from: u64,
    length: u64,
) -> Result<Measured, OpenFault>
    requires there { IsThere (T.view tree.old) name.now }
    requires stated { HasLength (told_file (T.view tree.old) name.now) length }
    requires sound { IsSound start (pair.old.size - 4) }
    requires low { start.at + pair.old.size ≤ from }
    requires size { 512 ≤ pair.old.size }
    requires high { from ≤ length }
    requires few { length < 2 ^ 40 }
    requires is_open { (text : List ℕ) → told_file (T.view tree.old) name.now ≡ Some text → IsOpen text start.at from }
    requires measured { (text : List ℕ) → told_file (T.view tree.old) name.now ≡ Some text → IsMeasured text start.at start.count start.longest }
    ensures untouched { IsUntouched (T.view tree.old) (T.view tree.new) }
    ensures size { pair.new.size ≡ pair.old.size }
    ensures refused { IsErr result }
    ensures cause { IfErr result (λ e. IsMeasureFault e pair.old.size (T.view tree.old) (T.view tree.new) name.now) }
{
    let end = end_of_line(pair, tree, name, start.at, from, length)?;
    Err(OpenFault::LongLine {
        line: start.count + 1,
        length: end - start.at,
    })
}

/// Measures the lines of the next piece of a file of `length` bytes.
fn measure_piece<T: Tree>(
    pair: &mut PagePair,
    tree: &mut T,
    name: &Name,
    start: Measured,
    length: u64,
) -> Result<Measured, OpenFault>
    requires there { IsThere (T.view tree.old) name.now }
    requires stated { HasLength (told_file (T.view tree.old) name.now) length }
    requires sound { IsSound start (pair.old.size - 4) }
    requires within { start.at < length }
    requires few { length < 2 ^ 40 }
    requires measured { (text : List ℕ) → told_file (T.view tree.old) name.now ≡ Some text → IsMeasured text start.at start.count start.longest }
    requires room { (text : List ℕ) → told_file (T.view tree.old) name.now ≡ Some text → HasRoom pair.old.size text start.at start.room }
    ensures untouched { IsUntouched (T.view tree.old) (T.view tree.new) }
    ensures size { pair.new.size ≡ pair.old.size }
    ensures sound { IfOk result (λ now. IsSound now (pair.old.size - 4)) }
    ensures on { IfOk result (λ now. start.at < now.at) }
    ensures within { IfOk result (λ now. now.at ≤ length) }
    ensures measured { IfOk result (λ now. (text : List ℕ) → told_file (T.view tree.old) name.now ≡ Some text → IsMeasured text now.at now.count now.longest) }
    ensures room { IfOk result (λ now. (text : List ℕ) → told_file (T.view tree.old) name.now ≡ Some text → HasRoom pair.old.size text now.at now.room) }
    ensures cause { IfErr result (λ e. IsMeasureFault e pair.old.size (T.view tree.old) (T.view tree.new) name.now) }
{
    let most = pair.size() as u64 - 4;
    let got = read_piece(pair, tree, name, start.at, length)?;
    let end = start.at + got as u64;
    let piece = pair.page(Half::First);
    let now = match measure_lines(&piece[..got], end == length, start, most) {
        Ok(now) => now,
        Err(Long { line, length }) => return Err(OpenFault::LongLine { line, length }),
    };
    if now.at == start.at {
        return refuse_long(pair, tree, name, start, end, length);
    }
    Ok(now)
}

/// Measures the lines of a file of `length` bytes.
pub fn measure<T: Tree>(
    pair: &mut PagePair,
    tree: &mut T,
    name: &Name,
    length: u64,
) -> Result<Measured, OpenFault>
    requires there { IsThere (T.view tree.old) name.now }
    requires stated { HasLength (told_file (T.view tree.old) name.now) length }
    requires few { length < 2 ^ 40 }
    ensures untouched { IsUntouched (T.view tree.old) (T.view tree.new) }
    ensures size { pair.new.size ≡ pair.old.size }
    ensures sound { IfOk result (λ now. IsSound now (pair.old.size - 4)) }
    ensures end { IfOk result (λ now. now.at ≡ length) }
    ensures measured { IfOk result (λ now. (text : List ℕ) → told_file (T.view tree.old) name.now ≡ Some text → IsMeasured text now.at now.count now.longest) }
    ensures room { IfOk result (λ now. (text : List ℕ) → told_file (T.view tree.old) name.now ≡ Some text → HasRoom pair.old.size text now.at now.room) }
    ensures cause { IfErr result (λ e. IsMeasureFault e pair.old.size (T.view tree.old) (T.view tree.new) name.now) }
{
    let mut now = Measured {
        at: 0,
        count: 0,
        longest: 0,
        room: Room {
            pages: 0,
            filled: 0,
        },
    };
    while now.at < length {
        now = measure_piece(pair, tree, name, now, length)?;
    }
    Ok(now)
}
