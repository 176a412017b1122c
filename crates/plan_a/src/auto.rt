//! A plan that is chosen by the size of each file.
ghost use Rattle.std.specs.Prelude.{◌≡◌, if◌then◌else◌, false};
ghost use Rattle.line_store.specs.Taking.{IsSize, IsBuffer, IsReset, IsEmpty};
ghost use Rattle.plan_a.specs.Auto.{auto_seen, auto_counted, small_counted, page_size, goes_to_pages, is_within};

use crate::PlanA;
use line_store::{Half, LineFault, LineRun, LineStore, OpenFault, Plan};
use outside::{Name, Tree};

/// The longest file that is held in memory, in bytes.
const LONGEST_SMALL: u64 = 16_777_216;

/// The largest size of a page.
const LARGEST_PAGE: u32 = 1_048_576;

/// The size of the pages of a plan for large files, beside a buffer of this size for small ones.
pub fn page_size(buffer: u32) -> u32
    requires { IsBuffer buffer }
    ensures is { result ≡ page_size buffer }
    ensures sized { IsSize result }
{
    u32::min(buffer, LARGEST_PAGE)
}

/// A plan that holds a file of at most 16 MiB in memory, and hands a longer one to another plan. A longer one with a line
/// that is too long for the other plan's pages is held in memory too.
#[derive(Drop)]
pub struct AutoPlan<P: Plan> {
    small: PlanA,
    big: P,
    /// The file that was taken last is in the other plan.
    is_big: bool,
    ghost sizes: { (P.seen big).size ≡ page_size (⟦<PlanA as LineStore>⟧.seen small).size },
}

impl<P: Plan> AutoPlan<P> {
    /// A line may be as long as the first plan admits. The other one has pages for that, or as large as pages can be.
    pub fn new(small: PlanA, big: P) -> AutoPlan<P>
        requires sizes { (P.seen big).size ≡ page_size (⟦<PlanA as LineStore>⟧.seen small).size }
        requires empty { IsEmpty (⟦<PlanA as LineStore>⟧.seen small) }
        requires reset { IsReset (⟦<PlanA as LineStore>⟧.seen small) }
        ensures seen { ⟦<AutoPlan<P> as LineStore>⟧.seen result ≡ auto_seen false (⟦<PlanA as LineStore>⟧.seen small) (P.seen big) }
        ensures empty { IsEmpty (⟦<AutoPlan<P> as LineStore>⟧.seen result) }
        ensures reset { IsReset (⟦<AutoPlan<P> as LineStore>⟧.seen result) }
    {
        AutoPlan {
            small,
            big,
            is_big: false,
        }
    }

    /// The other plan, as the last file left it.
    pub fn into_big(self) -> P
        ensures { result ≡ self.big }
    {
        self.big
    }
}

impl<P: Plan> LineStore for AutoPlan<P> {
    ghost seen = { λ p. auto_seen p.is_big (⟦<PlanA as LineStore>⟧.seen p.small) (P.seen p.big) };

    ghost counted = { λ p. auto_counted p.is_big (small_counted p.small) (P.counted p.big) };

    fn count(&self) -> u64 {
        if self.is_big {
            self.big.count()
        } else {
            self.small.count()
        }
    }

    fn load(&mut self, k: u64, half: Half) -> Result<(), LineFault> {
        if self.is_big {
            self.big.load(k, half)
        } else {
            self.small.load(k, half)
        }
    }

    fn line(&self, half: Half) -> &[u8] {
        if self.is_big {
            self.big.line(half)
        } else {
            self.small.line(half)
        }
    }

    fn stretch(&self, half: Half, most: u64) -> LineRun<'_> {
        if self.is_big {
            self.big.stretch(half, most)
        } else {
            self.small.stretch(half, most)
        }
    }

    fn first_alike(
        &mut self,
        from: u64,
        to: u64,
        line: &[u8],
        half: Half,
    ) -> Result<Option<u64>, LineFault> {
        if self.is_big {
            self.big.first_alike(from, to, line, half)
        } else {
            self.small.first_alike(from, to, line, half)
        }
    }

    fn last_alike(
        &mut self,
        from: u64,
        to: u64,
        line: &[u8],
        half: Half,
    ) -> Result<Option<u64>, LineFault> {
        if self.is_big {
            self.big.last_alike(from, to, line, half)
        } else {
            self.small.last_alike(from, to, line, half)
        }
    }
}

impl<P: Plan> Plan for AutoPlan<P> {
    ghost scratch_after = { λ size file before. if goes_to_pages size file then P.scratch_after (page_size size) file before else before };

    ghost sized = { λ p. p.small.sized };

    fn take_file<T: Tree>(&mut self, tree: &mut T, name: &Name) -> Result<(), OpenFault> {
        self.is_big = false;
        self.small.take_empty();
        let size = tree.size(name)?.unwrap_or(0);
        if size <= LONGEST_SMALL {
            return self.small.take_file(tree, name);
        }
        match self.big.take_file(tree, name) {
            Ok(()) => {
                self.is_big = true;
                Ok(())
            }
            Err(fault) => {
                if is_within(fault, self.small.buffer) {
                    return self.small.take_file(tree, name);
                }
                Err(fault)
            }
        }
    }

    fn take_empty(&mut self) {
        self.is_big = false;
        self.small.take_empty();
    }

    fn needs_memory(&self) -> bool {
        true
    }
}

/// Whether a fault is that of a line which a buffer of this size admits.
fn is_within(fault: OpenFault, buffer: u32) -> bool
    ensures { result ≡ is_within buffer fault }
{
    match fault {
        OpenFault::LongLine { length, .. } => length <= buffer.saturating_sub(4) as u64,
        _ => false,
    }
}
