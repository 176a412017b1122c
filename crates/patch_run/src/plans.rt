//! The run over the file patches, with the plan that the options name.
ghost use Rattle.std.specs.Prelude.{◌≡◌, false, length, IfOk};
ghost use Rattle.patch_run.specs.Doing.{StaysSet};
ghost use Rattle.outside.specs.ScratchView.{ScratchView};
ghost use Rattle.outside.specs.Quiet.{IsQuiet};
ghost use Rattle.patch_options.specs.PlainJob.{plain_options};
ghost use Rattle.patch_options.specs.declared.options.PlanKind.TheVariants.{Whole, Padded, Packed, Auto};
ghost use Rattle.patch_run.specs.Scratches.{has_scratch};
ghost use Rattle.patch_run.specs.Finishes.{CanApply, Finishes, LeavesVerdicts, LeavesRows};

use crate::{Applied, apply_set};
use apply_task::RunFault;
use outside::{Scratch, Sink, Tree};
use packed_pages::PackedB;
use page_pair::PagePair;
use patch_options::{Options, PlanKind};
use patch_set::PatchSet;
use plan_a::{AutoPlan, PlanA, page_size};
use plan_b::PlanB;
use std::alloc::Global;

/// Carries out the file patches of a set that was read with these options. The scratch comes back, and the set has a verdict
/// for each hunk.
pub fn apply<C: Scratch, T: Tree, O: Sink>(
    alloc: Global,
    options: &Options,
    set: &mut PatchSet,
    scratch: C,
    tree: &mut T,
    out: &mut O,
) -> (Result<Applied, RunFault>, C)
    requires can { CanApply (plain_options options.now) set.old }
    requires quiet { IsQuiet (T.view tree.old) }
    ensures finishes { Finishes (plain_options options.now) set.old (T.view tree.old) (T.view tree.new) (C.view scratch) (C.view result.1) (O.view out.old) (O.view out.new) result.0 }
    ensures verdicts { IfOk result.0 (LeavesVerdicts (plain_options options.now) set.old (T.view tree.old) (C.view scratch) set.new.verdicts) }
    ensures noted { IfOk result.0 (LeavesRows (plain_options options.now) set.old (T.view tree.old) (C.view scratch) set.new.rows) }
    ensures done { IfOk result.0 (λ given. given.done ≡ length set.old.patches) }
    ensures scratch { has_scratch options.now.plan ≡ false → result.1 ≡ scratch }
    ensures set { StaysSet set.old set.new }
    ensures rows { length set.new.verdicts ≡ length set.old.verdicts }
    ensures rest { O.same_rest out.old out.new }
{
    match options.plan {
        PlanKind::Whole => (apply_whole(alloc, options, set, tree, out), scratch),
        PlanKind::Padded => apply_padded(alloc, options, set, scratch, tree, out),
        PlanKind::Packed => apply_packed(alloc, options, set, scratch, tree, out),
        PlanKind::Auto => apply_by_size(alloc, options, set, scratch, tree, out),
    }
}

/// Each file is held in memory.
fn apply_whole<T: Tree, O: Sink>(
    alloc: Global,
    options: &Options,
    set: &mut PatchSet,
    tree: &mut T,
    out: &mut O,
) -> Result<Applied, RunFault>
    requires can { CanApply (plain_options options.now) set.old }
    requires plan { options.now.plan ≡ Whole }
    requires quiet { IsQuiet (T.view tree.old) }
    ensures finishes { (a : ScratchView) → Finishes (plain_options options.now) set.old (T.view tree.old) (T.view tree.new) a a (O.view out.old) (O.view out.new) result }
    ensures verdicts { (a : ScratchView) → IfOk result (LeavesVerdicts (plain_options options.now) set.old (T.view tree.old) a set.new.verdicts) }
    ensures noted { (a : ScratchView) → IfOk result (LeavesRows (plain_options options.now) set.old (T.view tree.old) a set.new.rows) }
    ensures done { IfOk result (λ given. given.done ≡ length set.old.patches) }
    ensures set { StaysSet set.old set.new }
    ensures rows { length set.new.verdicts ≡ length set.old.verdicts }
    ensures rest { O.same_rest out.old out.new }
{
    let mut whole = PlanA::new(alloc, options.buffer);
    apply_set(set, options, &mut whole, tree, out)
}

/// Each file is held as padded records in the scratch.
fn apply_padded<C: Scratch, T: Tree, O: Sink>(
    alloc: Global,
    options: &Options,
    set: &mut PatchSet,
    scratch: C,
    tree: &mut T,
    out: &mut O,
) -> (Result<Applied, RunFault>, C)
    requires can { CanApply (plain_options options.now) set.old }
    requires plan { options.now.plan ≡ Padded }
    requires quiet { IsQuiet (T.view tree.old) }
    ensures finishes { Finishes (plain_options options.now) set.old (T.view tree.old) (T.view tree.new) (C.view scratch) (C.view result.1) (O.view out.old) (O.view out.new) result.0 }
    ensures verdicts { IfOk result.0 (LeavesVerdicts (plain_options options.now) set.old (T.view tree.old) (C.view scratch) set.new.verdicts) }
    ensures noted { IfOk result.0 (LeavesRows (plain_options options.now) set.old (T.view tree.old) (C.view scratch) set.new.rows) }
    ensures done { IfOk result.0 (λ given. given.done ≡ length set.old.patches) }
    ensures set { StaysSet set.old set.new }
    ensures rows { length set.new.verdicts ≡ length set.old.verdicts }
    ensures rest { O.same_rest out.old out.new }
{
    let pair = match PagePair::new(alloc, options.buffer as usize) {
        Ok(pair) => pair,
        Err(_) => return (Err(RunFault::Memory), scratch),
    };
    let mut padded = PlanB::new(pair, scratch);
    let applied = apply_set(set, options, &mut padded, tree, out);
    let (_pair, scratch) = padded.into_parts();
    (applied, scratch)
}

/// Each file is held on packed pages in the scratch.
fn apply_packed<C: Scratch, T: Tree, O: Sink>(
    alloc: Global,
    options: &Options,
    set: &mut PatchSet,
    scratch: C,
    tree: &mut T,
    out: &mut O,
) -> (Result<Applied, RunFault>, C)
    requires can { CanApply (plain_options options.now) set.old }
    requires plan { options.now.plan ≡ Packed }
    requires quiet { IsQuiet (T.view tree.old) }
    ensures finishes { Finishes (plain_options options.now) set.old (T.view tree.old) (T.view tree.new) (C.view scratch) (C.view result.1) (O.view out.old) (O.view out.new) result.0 }
    ensures verdicts { IfOk result.0 (LeavesVerdicts (plain_options options.now) set.old (T.view tree.old) (C.view scratch) set.new.verdicts) }
    ensures noted { IfOk result.0 (LeavesRows (plain_options options.now) set.old (T.view tree.old) (C.view scratch) set.new.rows) }
    ensures done { IfOk result.0 (λ given. given.done ≡ length set.old.patches) }
    ensures set { StaysSet set.old set.new }
    ensures rows { length set.new.verdicts ≡ length set.old.verdicts }
    ensures rest { O.same_rest out.old out.new }
{
    let pair = match PagePair::new(alloc, options.buffer as usize) {
        Ok(pair) => pair,
        Err(_) => return (Err(RunFault::Memory), scratch),
    };
    let mut packed = PackedB::new(pair, scratch);
    let applied = apply_set(set, options, &mut packed, tree, out);
    let (_pair, scratch) = packed.into_parts();
    (applied, scratch)
}

/// A small file is held in memory, and a large one on packed pages in the scratch, if its lines fit them.
/// Two pages are taken before the first change, so that a large file behind small ones can't want memory for them halfway.
fn apply_by_size<C: Scratch, T: Tree, O: Sink>(
    alloc: Global,
    options: &Options,
    set: &mut PatchSet,
    scratch: C,
    tree: &mut T,
    out: &mut O,
) -> (Result<Applied, RunFault>, C)
    requires can { CanApply (plain_options options.now) set.old }
    requires plan { options.now.plan ≡ Auto }
    requires quiet { IsQuiet (T.view tree.old) }
    ensures finishes { Finishes (plain_options options.now) set.old (T.view tree.old) (T.view tree.new) (C.view scratch) (C.view result.1) (O.view out.old) (O.view out.new) result.0 }
    ensures verdicts { IfOk result.0 (LeavesVerdicts (plain_options options.now) set.old (T.view tree.old) (C.view scratch) set.new.verdicts) }
    ensures noted { IfOk result.0 (LeavesRows (plain_options options.now) set.old (T.view tree.old) (C.view scratch) set.new.rows) }
    ensures done { IfOk result.0 (λ given. given.done ≡ length set.old.patches) }
    ensures set { StaysSet set.old set.new }
    ensures rows { length set.new.verdicts ≡ length set.old.verdicts }
    ensures rest { O.same_rest out.old out.new }
{
    let pair = match PagePair::new(alloc, page_size(options.buffer) as usize) {
        Ok(pair) => pair,
        Err(_) => return (Err(RunFault::Memory), scratch),
    };
    let small = PlanA::new(alloc, options.buffer);
    let mut either = AutoPlan::new(small, PackedB::new(pair, scratch));
    let applied = apply_set(set, options, &mut either, tree, out);
    let (_pair, scratch) = either.into_big().into_parts();
    (applied, scratch)
}
