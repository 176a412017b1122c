//! A plan that holds a file's lines as packed records in a scratch, finds them by an index, and lends them through two pages.
//! Records have no padding, so they take less room than those of `plan_b`. Stands on `page_pair`. Begin with `specs/Layout.antt`.
#![tactic(auto)]

ghost use Rattle.std.specs.Prelude.{◌≡◌, ◌≢◌, ◌≤◌, ◌-◌, ℕ, List, [], false, None, Some, IfErr, OnOk, OnErr};
ghost use Rattle.line_store.specs.declared.Half.{Half};
ghost use Rattle.line_store.specs.Taking.{IsReset, IsEmpty};
ghost use Rattle.page_pair.specs.Pair.{page_of, IsPair};
ghost use Rattle.packed_pages.specs.Marks.{AreMarked};
ghost use Rattle.packed_pages.specs.Held.{IsHeld};

mod alike;
mod copying;
mod filling;
mod laws;
mod layout;
mod loading;
mod marks;
mod places;
mod searching;
mod stepping;
mod taking;
mod walking;

use crate::alike::{find_first, find_last};
use crate::layout::Layout;
use crate::loading::load_half;
use crate::marks::Marks;
use crate::places::Places;
use crate::taking::take_pages;
pub use laws::packing_laws;
use line_store::{Half, LineFault, LineStore, OpenFault, Plan};
use outside::{Name, Scratch, Tree};
use page_pair::PagePair;
use page_pair::record::line_of;

/// The lines of a file as records on packed pages of a scratch, behind an index. Each half of the pair holds one of the pages.
#[derive(Drop)]
pub struct PackedB<C: Scratch> {
    pair: PagePair,
    scratch: C,
    layout: Layout,
    places: Places,
    marks: Marks,
    ghost held: { IsHeld pair layout places (C.view scratch) },
    ghost marked: { AreMarked pair marks },
}

impl<C: Scratch> PackedB<C> {
    /// A plan that stands for no lines. It takes no memory beyond its pages.
    pub fn new(pair: PagePair, scratch: C) -> PackedB<C>
        ensures size { (⟦<PackedB<C> as LineStore>⟧.seen result).size ≡ pair.size }
        ensures memory { (⟦<PackedB<C> as LineStore>⟧.seen result).needs_memory ≡ false }
        ensures faults { (⟦<PackedB<C> as LineStore>⟧.seen result).faults ≡ (C.view scratch).faults }
        ensures scratch { (⟦<PackedB<C> as LineStore>⟧.seen result).scratch ≡ (C.view scratch).told }
        ensures empty { IsEmpty (⟦<PackedB<C> as LineStore>⟧.seen result) }
        ensures reset { IsReset (⟦<PackedB<C> as LineStore>⟧.seen result) }
    {
        let layout = Layout::new(pair.size());
        PackedB {
            pair,
            scratch,
            layout,
            places: Places::new(),
            marks: Marks::new(),
        }
    }

    /// The pages and the scratch, as the plan left them.
    pub fn into_parts(self) -> (PagePair, C)
        ensures pair { result.0 ≡ self.pair }
        ensures scratch { result.1 ≡ self.scratch }
    {
        (self.pair, self.scratch)
    }
}

impl<C: Scratch> LineStore for PackedB<C> {
    ghost use Rattle.std.specs.Prelude.{◌≡◌, ◌≢◌, ◌≤◌, ◌-◌, ℕ, Some, None, IfErr, OnOk, OnErr};
    ghost use Rattle.line_store.specs.declared.Half.{Half};
    ghost use Rattle.line_store.specs.Store.{Keeps, HasCause};
    ghost use Rattle.page_pair.specs.Pair.{page_of};
    ghost use Rattle.packed_pages.specs.Held.{seen_of, place_of, line_held, HoldsPageOf, HasPageOf, ReadsByDigits};
    ghost use Rattle.packed_pages.specs.Layout.{decoded-count};

    ghost seen = { λ p. seen_of p.layout p.places (C.view p.scratch) };

    ghost counted = { λ p. record { most = p.held.layout.few; told = λ lines is. decoded-count p.layout (C.view p.scratch).told lines is } };

    fn count(&self) -> u64 {
        self.layout.count
    }

    /// At most as many reads of the scratch as the number of pages has binary digits, and one more; none where the half
    /// holds the page of line `k`. That it holds then: the last page whose first line is not after line `k`.
    fn load(&mut self, k: u64, half: Half) -> Result<(), LineFault>
        requires low { 1 ≤ k }
        requires high { k ≤ self.old.layout.count }
        ensures held { OnOk result (line_held self.new.places half ≡ Some k) }
        ensures dropped { OnErr result (line_held self.new.places half ≡ None) }
        ensures other { (h : Half) → h ≢ half → line_held self.new.places h ≡ line_held self.old.places h }
        ensures keeps { Keeps (seen_of self.old.layout self.old.places (C.view self.old.scratch)) (seen_of self.new.layout self.new.places (C.view self.new.scratch)) }
        ensures cause { IfErr result (λ e. HasCause e (seen_of self.old.layout self.old.places (C.view self.old.scratch)) (seen_of self.new.layout self.new.places (C.view self.new.scratch))) }
        ensures reads { ReadsByDigits self.old.layout.pages 1 (C.view self.old.scratch) (C.view self.new.scratch) }
        ensures still { HasPageOf self.old.places half k → (C.view self.new.scratch).reads ≡ (C.view self.old.scratch).reads }
        ensures page { OnOk result (HoldsPageOf self.new.layout self.new.places (C.view self.new.scratch) half k) }
        ensures other_place { (h : Half) → h ≢ half → place_of self.new.places h ≡ place_of self.old.places h }
        ensures other_bytes { (h : Half) → h ≢ half → page_of self.new.pair h ≡ page_of self.old.pair h }
    {
        load_half(
            &mut self.pair,
            &mut self.scratch,
            &mut self.places,
            &mut self.marks,
            self.layout,
            k,
            half,
        )
    }

    fn line(&self, half: Half) -> &[u8] {
        match self.places.get(half) {
            Some(place) => line_of(self.pair.page(half), place.at),
            None => &[],
        }
    }

    /// Page by page: of the lines that come after line `from` on its page, none is fetched by itself.
    fn first_alike(
        &mut self,
        from: u64,
        to: u64,
        line: &[u8],
        half: Half,
    ) -> Result<Option<u64>, LineFault> {
        find_first(
            &mut self.pair,
            &mut self.scratch,
            &mut self.places,
            &mut self.marks,
            self.layout,
            from,
            to,
            line,
            half,
        )
    }

    /// Page by page, in groups of lines of each.
    fn last_alike(
        &mut self,
        from: u64,
        to: u64,
        line: &[u8],
        half: Half,
    ) -> Result<Option<u64>, LineFault> {
        find_last(
            &mut self.pair,
            &mut self.scratch,
            &mut self.places,
            &mut self.marks,
            self.layout,
            from,
            to,
            line,
            half,
        )
    }
}

impl<C: Scratch> Plan for PackedB<C> {
    ghost use Rattle.std.specs.Option.{option_map};
    ghost use Rattle.line_list.specs.Lines.{lines};
    ghost use Rattle.packed_pages.specs.Packs.{packs};

    ghost scratch_after = { λ size file before. option_map (λ _. packs size (lines file)) before };

    ghost sized = { λ p. p.held.layout.sized.0 };

    fn take_file<T: Tree>(&mut self, tree: &mut T, name: &Name) -> Result<(), OpenFault> {
        self.take_empty();
        self.marks = Marks::new();
        let layout = match take_pages(&mut self.pair, &mut self.scratch, tree, name) {
            Ok(layout) => layout,
            Err(fault) => return Err(fault),
        };
        self.layout = layout;
        Ok(())
    }

    fn take_empty(&mut self) {
        self.layout = Layout::new(self.pair.size());
        self.places = Places::new();
    }

    fn needs_memory(&self) -> bool {
        false
    }
}
