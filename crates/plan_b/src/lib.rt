//! A plan that holds a file's lines as padded records in a scratch, and lends them through two pages: all records have one width,
//! so the place of a line is told by its number. Stands on `page_pair`. Begin with `specs/Layout.antt`.
#![tactic(auto)]

ghost use Rattle.std.specs.Prelude.{◌≡◌, ◌≢◌, ◌≤◌, ◌-◌, ℕ, List, [], false, None, Some, IfErr, OnOk, OnErr};
ghost use Rattle.line_store.specs.declared.Half.{Half};
ghost use Rattle.line_store.specs.Taking.{IsReset, IsEmpty};
ghost use Rattle.page_pair.specs.Pair.{page_of, IsPair};
ghost use Rattle.plan_b.specs.Held.{IsHeld};
ghost use Rattle.plan_b.specs.Spots.{AreSpots};

mod alike;
mod copying;
mod filling;
mod layout;
mod loading;
mod measuring;
mod spots;
mod stepping;
mod taking;

use crate::alike::{find_first, find_last};
use crate::layout::Layout;
use crate::loading::load_line;
use crate::spots::Spots;
use crate::taking::take_pages;
use line_store::{Half, Halves, LineFault, LineStore, OpenFault, Plan};
use outside::{Name, Scratch, Tree};
use page_pair::PagePair;
use page_pair::record::line_of;

/// The lines of a file as records on padded pages of a scratch. Each half of the pair holds one of the pages.
#[derive(Drop)]
pub struct PlanB<C: Scratch> {
    pair: PagePair,
    scratch: C,
    layout: Layout,
    halves: Halves,
    spots: Spots,
    ghost held: { IsHeld pair layout halves (C.view scratch) },
    ghost spotted: { AreSpots layout halves spots },
}

impl<C: Scratch> PlanB<C> {
    /// A plan that stands for no lines. It takes no memory beyond its pages.
    pub fn new(pair: PagePair, scratch: C) -> PlanB<C>
        ensures size { (⟦<PlanB<C> as LineStore>⟧.seen result).size ≡ pair.size }
        ensures memory { (⟦<PlanB<C> as LineStore>⟧.seen result).needs_memory ≡ false }
        ensures faults { (⟦<PlanB<C> as LineStore>⟧.seen result).faults ≡ (C.view scratch).faults }
        ensures scratch { (⟦<PlanB<C> as LineStore>⟧.seen result).scratch ≡ (C.view scratch).told }
        ensures empty { IsEmpty (⟦<PlanB<C> as LineStore>⟧.seen result) }
        ensures reset { IsReset (⟦<PlanB<C> as LineStore>⟧.seen result) }
    {
        let layout = Layout::new(pair.size(), 0, 0);
        PlanB {
            pair,
            scratch,
            layout,
            halves: Halves::new(),
            spots: Spots::new(),
        }
    }

    /// The pages and the scratch, as the plan left them.
    pub fn into_parts(self) -> (PagePair, C)
        ensures pair { result.0 ≡ self.pair }
        ensures scratch { result.1 ≡ self.scratch }
    {
        (self.pair, self.scratch)
    }
}

impl<C: Scratch> LineStore for PlanB<C> {
    ghost use Rattle.std.specs.Prelude.{◌≡◌, ◌≢◌, ◌≤◌, ◌-◌, ℕ, Some, None, IfErr, OnOk, OnErr};
    ghost use Rattle.line_store.specs.declared.Half.{Half};
    ghost use Rattle.line_store.specs.Halves.{half_of};
    ghost use Rattle.line_store.specs.Store.{Keeps, HasCause};
    ghost use Rattle.page_pair.specs.Pair.{page_of};
    ghost use Rattle.plan_b.specs.Held.{seen_of, page_held, HoldsPage, ReadsOnceAtMost};
    ghost use Rattle.plan_b.specs.Layout.{decoded-count, page_number};

    ghost seen = { λ p. seen_of p.layout p.halves (C.view p.scratch) };

    ghost counted = { λ p. record { most = p.held.layout.few; told = λ lines is. decoded-count p.layout (C.view p.scratch).told lines is } };

    fn count(&self) -> u64 {
        self.layout.count
    }

    /// At most one read of the scratch, and none where the half holds the page of line `k`. That it holds then.
    fn load(&mut self, k: u64, half: Half) -> Result<(), LineFault>
        requires low { 1 ≤ k }
        requires high { k ≤ self.old.layout.count }
        ensures held { OnOk result (half_of self.new.halves half ≡ Some k) }
        ensures dropped { OnErr result (half_of self.new.halves half ≡ None) }
        ensures other { (h : Half) → h ≢ half → half_of self.new.halves h ≡ half_of self.old.halves h }
        ensures keeps { Keeps (seen_of self.old.layout self.old.halves (C.view self.old.scratch)) (seen_of self.new.layout self.new.halves (C.view self.new.scratch)) }
        ensures cause { IfErr result (λ e. HasCause e (seen_of self.old.layout self.old.halves (C.view self.old.scratch)) (seen_of self.new.layout self.new.halves (C.view self.new.scratch))) }
        ensures reads { ReadsOnceAtMost (C.view self.old.scratch) (C.view self.new.scratch) }
        ensures still { page_held self.old.layout self.old.halves half ≡ Some (page_number self.old.layout (k - 1)) → (C.view self.new.scratch).reads ≡ (C.view self.old.scratch).reads }
        ensures page { OnOk result (page_held self.new.layout self.new.halves half ≡ Some (page_number self.old.layout (k - 1))) }
        ensures bytes { OnOk result (HoldsPage self.new.pair self.new.layout (C.view self.new.scratch) half (page_number self.old.layout (k - 1))) }
        ensures other_page { (h : Half) → h ≢ half → page_held self.new.layout self.new.halves h ≡ page_held self.old.layout self.old.halves h }
        ensures other_bytes { (h : Half) → h ≢ half → page_of self.new.pair h ≡ page_of self.old.pair h }
    {
        match load_line(
            &mut self.pair,
            &mut self.scratch,
            &mut self.halves,
            &mut self.spots,
            self.layout,
            k,
            half,
        ) {
            Ok(_) => Ok(()),
            Err(fault) => Err(fault),
        }
    }

    fn line(&self, half: Half) -> &[u8] {
        match self.halves.get(half) {
            Some(_) => line_of(self.pair.page(half), self.spots.get(half).at),
            None => &[],
        }
    }

    /// Page by page: of the lines that come after line `from` on its page, none is fetched by itself.
    fn first_alike(
        &mut self,
        from: u64,
        to: u64,
        line: &[u8],
        half: Half,
    ) -> Result<Option<u64>, LineFault> {
        find_first(
            &mut self.pair,
            &mut self.scratch,
            &mut self.halves,
            &mut self.spots,
            self.layout,
            from,
            to,
            line,
            half,
        )
    }

    /// Page by page, from the end.
    fn last_alike(
        &mut self,
        from: u64,
        to: u64,
        line: &[u8],
        half: Half,
    ) -> Result<Option<u64>, LineFault> {
        find_last(
            &mut self.pair,
            &mut self.scratch,
            &mut self.halves,
            &mut self.spots,
            self.layout,
            from,
            to,
            line,
            half,
        )
    }
}

impl<C: Scratch> Plan for PlanB<C> {
    ghost use Rattle.std.specs.Option.{option_map};
    ghost use Rattle.line_list.specs.Lines.{lines};
    ghost use Rattle.plan_b.specs.Pages.{pages};

    ghost scratch_after = { λ size file before. option_map (λ _. pages size (lines file)) before };

    ghost sized = { λ p. p.held.layout.sized.0 };

    fn take_file<T: Tree>(&mut self, tree: &mut T, name: &Name) -> Result<(), OpenFault> {
        self.take_empty();
        match take_pages(&mut self.pair, &mut self.scratch, tree, name) {
            Ok(layout) => {
                self.layout = layout;
                Ok(())
            }
            Err(fault) => Err(fault),
        }
    }

    fn take_empty(&mut self) {
        self.layout = Layout::new(self.pair.size(), 0, 0);
        self.halves = Halves::new();
    }

    fn needs_memory(&self) -> bool {
        false
    }
}
