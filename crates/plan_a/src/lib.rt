//! A plan that holds the whole file in memory, and one that is chosen by the size of each file. Stands on the traits of
//! `line_store`. Begin with `src/text.rt`.
#![tactic(auto)]

ghost use Rattle.std.specs.Prelude.{◌≡◌, ◌≤◌, true};
ghost use Rattle.line_store.specs.Taking.{IsBuffer, IsReset, IsEmpty};

mod auto;
mod cut;
mod places;
mod text;

use crate::text::{Text, take_text};
pub use auto::{AutoPlan, page_size};
use line_store::{Half, Halves, LineFault, LineRun, LineStore, OpenFault, Plan};
use outside::{Name, Tree};
use std::alloc::Global;

/// The file's bytes in one block, and four bytes for each of its lines, or eight where the file has 2^32 bytes or more.
#[derive(Drop)]
pub struct PlanA {
    alloc: Global,
    buffer: u32,
    text: Text,
    halves: Halves,
    ghost sized: { IsBuffer buffer },
}

impl PlanA {
    /// A plan that stands for no lines and takes no memory yet. A line with its line feed may have `buffer` - 4 bytes.
    pub fn new(alloc: Global, buffer: u32) -> PlanA
        requires { IsBuffer buffer }
        ensures size { (⟦<PlanA as LineStore>⟧.seen result).size ≡ buffer }
        ensures memory { (⟦<PlanA as LineStore>⟧.seen result).needs_memory ≡ true }
        ensures faults { (⟦<PlanA as LineStore>⟧.seen result).faults ≡ 0 }
        ensures empty { IsEmpty (⟦<PlanA as LineStore>⟧.seen result) }
        ensures reset { IsReset (⟦<PlanA as LineStore>⟧.seen result) }
    {
        PlanA {
            alloc,
            buffer,
            text: Text::empty(alloc),
            halves: Halves::new(),
        }
    }
}

impl LineStore for PlanA {
    ghost use Rattle.std.proofs.Common.{arith};
    ghost use Rattle.std.proofs.lemmas.Grind.{common_steps};
    ghost use Rattle.plan_a.specs.PlanSeen.{plan_seen};

    ghost seen = { plan_seen };

    ghost counted = { λ p. record { most = Prim.omega (arith, p.text.cut.count, p.text.cut.few, p.text.short); told = λ lines is. Prim.grind (arith, common_steps) } };

    fn count(&self) -> u64 {
        self.text.count()
    }

    fn load(&mut self, k: u64, half: Half) -> Result<(), LineFault> {
        self.halves.set(half, Some(k));
        Ok(())
    }

    fn line(&self, half: Half) -> &[u8] {
        match self.halves.get(half) {
            Some(k) => self.text.line(k),
            None => &[],
        }
    }

    /// As many lines as are asked for.
    fn stretch(&self, half: Half, most: u64) -> LineRun<'_> {
        if let Some(k) = self.halves.get(half) {
            let bytes = self.text.lines_from(k, most);
            return LineRun { bytes, count: most };
        }
        LineRun {
            bytes: &[],
            count: 1,
        }
    }

    fn first_alike(
        &mut self,
        from: u64,
        to: u64,
        line: &[u8],
        _half: Half,
    ) -> Result<Option<u64>, LineFault> {
        Ok(self.text.first_alike(from, to, line))
    }

    fn last_alike(
        &mut self,
        from: u64,
        to: u64,
        line: &[u8],
        _half: Half,
    ) -> Result<Option<u64>, LineFault> {
        Ok(self.text.last_alike(from, to, line))
    }
}

impl Plan for PlanA {
    ghost scratch_after = { λ size file before. before };

    ghost sized = { λ p. p.sized };

    fn take_file<T: Tree>(&mut self, tree: &mut T, name: &Name) -> Result<(), OpenFault> {
        self.take_empty();
        self.text = take_text(self.alloc, self.buffer, tree, name)?;
        Ok(())
    }

    fn take_empty(&mut self) {
        self.text = Text::empty(self.alloc);
        self.halves = Halves::new();
    }

    fn needs_memory(&self) -> bool {
        true
    }
}
