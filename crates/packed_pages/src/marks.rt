//! Records that a walk came past, kept for each half, so that a later walk begins near the record that it looks for.

ghost use Rattle.std.specs.Prelude.{◌≡◌, ◌≢◌, ◌≤◌, ◌-◌, ℕ, List, [], IfSome};
ghost use Rattle.std.specs.List.{All};
ghost use Rattle.line_store.specs.declared.Half.{Half};
ghost use Rattle.page_pair.specs.Pair.{Pair};
ghost use Rattle.packed_pages.specs.Marks.{IsMark, AreMarks, AreMarked, marks_of};

use arrayvec::ArrayVec;
use line_store::Half;

/// The most marks of each kind.
const MOST: usize = 64;

/// A record of a page: how many stand before it, and its place.
#[derive(Clone, Copy, Default)]
pub struct RecordMark {
    pub before: u64,
    pub at: usize,
}

/// Marks of one page: `far` ones apart over the way from its first record on, and `near` ones over the way behind the last of
/// those. The next one is kept at `from` or behind it.
#[derive(Drop)]
pub struct PageMarks {
    pub far: ArrayVec<RecordMark, MOST>,
    pub near: ArrayVec<RecordMark, MOST>,
    pub from: usize,
}

/// The marks of the page that each half holds. Where a search goes downwards each stretch of a page is walked twice, and not
/// once for each line. A mark is right by itself, whatever marks were kept or dropped.
#[derive(Drop)]
pub struct Marks {
    pub first: PageMarks,
    pub second: PageMarks,
}

/// The place from which on a record is a far mark, where those are `spacing` bytes apart.
fn far_place(far: &ArrayVec<RecordMark, MOST>, spacing: usize) -> usize {
    match far.as_slice().last() {
        Some(mark) => mark.at.saturating_add(spacing),
        None => spacing,
    }
}

/// Adds a mark, if there is room.
fn add(marks: &mut ArrayVec<RecordMark, MOST>, mark: RecordMark)
    ensures { (page : List ℕ) → IsMark page mark → All (IsMark page) marks.old.items → All (IsMark page) marks.new.items }
{
    if !marks.is_full() {
        marks.push(mark);
    }
}

/// Keeps a record that a walk reaches. The spacings are such that a page's marks don't run out of room.
pub fn keep(page: &[u8], marks: &mut PageMarks, mark: RecordMark)
    requires is { IsMark page.now mark }
    requires marks { AreMarks page.now marks.old }
    ensures { AreMarks page.now marks.new }
{
    if mark.at < marks.from {
        return;
    }
    let spacing = page.len() / MOST + 1;
    if mark.at < far_place(&marks.far, spacing) {
        marks.from = mark.at.saturating_add(spacing / MOST + 1);
        add(&mut marks.near, mark);
    } else {
        marks.from = mark.at.saturating_add(spacing);
        marks.near.clear();
        add(&mut marks.far, mark);
    }
}

/// Drops the marks that have more records before them, and gives the last one that is left.
fn last_within(marks: &mut ArrayVec<RecordMark, MOST>, before: u64) -> Option<RecordMark>
    ensures order { IfSome result (λ mark. mark.before ≤ before) }
    ensures is { (page : List ℕ) → All (IsMark page) marks.old.items → IfSome result (IsMark page) }
    ensures kept { (page : List ℕ) → All (IsMark page) marks.old.items → All (IsMark page) marks.new.items }
{
    while let Some(mark) = marks.as_slice().last().copied() {
        if mark.before <= before {
            return Some(mark);
        }
        marks.pop();
    }
    None
}

/// The last mark that is left, near or far, or the page's first record.
fn within(marks: &mut PageMarks, before: u64) -> RecordMark
    ensures order { result.before ≤ before }
    ensures is { (page : List ℕ) → AreMarks page marks.old → IsMark page result }
    ensures kept { (page : List ℕ) → AreMarks page marks.old → AreMarks page marks.new }
{
    if let Some(mark) = last_within(&mut marks.near, before) {
        return mark;
    }
    match last_within(&mut marks.far, before) {
        Some(mark) => mark,
        None => RecordMark { before: 0, at: 0 },
    }
}

/// Drops the marks that have more records before them. The answer is the last one that is left, or the page's first record.
/// Near marks are kept from it on.
fn back_to(marks: &mut PageMarks, before: u64) -> RecordMark
    ensures order { result.before ≤ before }
    ensures is { (page : List ℕ) → AreMarks page marks.old → IsMark page result }
    ensures kept { (page : List ℕ) → AreMarks page marks.old → AreMarks page marks.new }
{
    let mark = within(marks, before);
    marks.from = mark.at;
    mark
}

impl PageMarks {
    /// No marks.
    fn new() -> PageMarks
        ensures { (page : List ℕ) → AreMarks page result }
    {
        PageMarks {
            far: ArrayVec::new(),
            near: ArrayVec::new(),
            from: 0,
        }
    }

    /// Drops all marks.
    fn clear(&mut self)
        ensures { (page : List ℕ) → AreMarks page self.new }
    {
        self.far.clear();
        self.near.clear();
        self.from = 0;
    }
}

impl Marks {
    /// No marks.
    pub fn new() -> Marks
        ensures { (pair : Pair) → AreMarked pair result }
    {
        Marks {
            first: PageMarks::new(),
            second: PageMarks::new(),
        }
    }

    /// Drops the marks of a half.
    pub fn clear(&mut self, half: Half)
        ensures none { (page : List ℕ) → AreMarks page (marks_of self.new half) }
        ensures other { (h : Half) → h ≢ half → marks_of self.new h ≡ marks_of self.old h }
    {
        match half {
            Half::First => self.first.clear(),
            Half::Second => self.second.clear(),
        }
    }

    /// Drops the marks of a half that have more records before them. The answer is the last one that is left, or the first
    /// record of the page.
    pub fn back_to(&mut self, half: Half, before: u64) -> RecordMark
        ensures order { result.before ≤ before }
        ensures is { (page : List ℕ) → AreMarks page (marks_of self.old half) → IsMark page result }
        ensures marked { (pair : Pair) → AreMarked pair self.old → AreMarked pair self.new }
    {
        match half {
            Half::First => back_to(&mut self.first, before),
            Half::Second => back_to(&mut self.second, before),
        }
    }
}
