//! A sink whose bytes go to a temporary.
ghost use Rattle.std.specs.Prelude.{◌≡◌, ◌<◌, ◌≤◌, ◌↔◌, ◌++◌, [], ℕ, List, true, false, Some, IsTrue, IsErr, IfOk, OnOk, OnErr, length, take};
ghost use Rattle.outside.specs.Files.{is_temp};
ghost use Rattle.outside.specs.SinkView.{IsSinkCall, Receives, ReceivesPart};
ghost use Rattle.outside.specs.TreeView.{IsRun};
ghost use Rattle.outside.specs.Calls.{IsThere, SealsStay};
ghost use Rattle.outside.specs.Quiet.{IsQuiet, WorksOn, Holds};
ghost use Rattle.replace_file.specs.TempSink.{sink_view, SameAround};

use crate::temp::{Temp, begin_temp};
use outside::{Failed, Sink, Tree};

/// A sink over a temporary of a quiet tree. It hands each piece on and keeps no copy. A write after a failed one makes the
/// temporary anew first. Its `same_rest` has the name of the lent tree, so that who calls a generic `put_all` knows the tree
/// afterwards.
#[derive(Drop)]
pub struct TempSink<'a, 'n, T: Tree> {
    tree: &'a mut T,
    temp: Temp<'n>,
    // The last write failed: the temporary may hold any bytes or be gone.
    broken: bool,
    // A write has failed.
    silent: bool,
    ghost quiet: { IsQuiet (T.view tree.now) },
    ghost there: { broken ≡ false → IsThere (T.view tree.now) temp.name.now },
    ghost breaks: { broken ≡ true → silent ≡ true },
}

impl<'a, 'n, T: Tree> TempSink<'a, 'n, T> {
    pub fn new(tree: &'a mut T, temp: Temp<'n>) -> TempSink<'a, 'n, T>
        requires quiet { IsQuiet (T.view tree.old) }
        requires there { IsThere (T.view tree.old) temp.name.now }
        ensures lends { result.tree.ghost_name ≡ tree.entry.ghost_name }
        ensures same { result.tree.now ≡ tree.old }
        ensures name { result.temp.name.now ≡ temp.entry.name.now }
        ensures tells { result.silent ≡ false }
    {
        TempSink {
            tree,
            temp,
            broken: false,
            silent: false,
        }
    }

    /// Makes the temporary anew where the last write has failed, so that it is there.
    pub fn finish(&mut self) -> Result<(), Failed>
        ensures run { IsRun (T.view self.old.tree.now) (T.view self.new.tree.now) result }
        ensures rest { (self.new.tree.ghost_name ≡ self.old.tree.ghost_name) × (self.new.temp.name.now ≡ self.old.temp.name.now) × SameAround (T.view self.old.tree.now) (T.view self.new.tree.now) self.old.temp.name.now }
        ensures there { OnOk result (IsThere (T.view self.new.tree.now) self.old.temp.name.now) }
        ensures told { OnOk result ((sink_view (T.view self.new.tree.now) self.old.temp.name.now self.new.silent).told ≡ (sink_view (T.view self.old.tree.now) self.old.temp.name.now self.old.silent).told) }

        // What was written since the last write that failed stays.
        ensures mended { OnOk result (self.new.broken ≡ false) }
        ensures anew { OnOk result (self.old.broken ≡ true → Holds (T.view self.new.tree.now) self.old.temp.name.now []) }
        ensures stays { OnOk result (self.old.broken ≡ false → (T.view self.new.tree.now).told ≡ (T.view self.old.tree.now).told) }
    {
        mend(self.tree, &self.temp, self.broken)?;
        self.broken = false;
        Ok(())
    }

    /// The temporary, with what the sink received.
    pub fn into_temp(self) -> Temp<'n>
        ensures name { result.name.now ≡ self.entry.temp.name.now }
        ensures leaves { self.exit.0.now ≡ self.entry.tree.now }
        ensures quiet { IsQuiet (T.view self.entry.tree.now) }
        ensures holds { (b : List ℕ) → (sink_view (T.view self.entry.tree.now) self.entry.temp.name.now self.entry.silent).told ≡ Some b → Holds (T.view self.entry.tree.now) self.entry.temp.name.now b }
    {
        self.temp
    }
}

// Makes the temporary anew where it is broken.
fn mend<T: Tree>(tree: &mut T, temp: &Temp<'_>, broken: bool) -> Result<(), Failed>
    requires quiet { IsQuiet (T.view tree.old) }
    requires there { broken ≡ false → IsThere (T.view tree.old) temp.now.name.now }
    ensures run { IsRun (T.view tree.old) (T.view tree.new) result }
    ensures works { WorksOn (T.view tree.old) (T.view tree.new) temp.now.name.now }
    ensures seals { SealsStay (T.view tree.old) (T.view tree.new) temp.now.name.now }
    ensures there { OnOk result (IsThere (T.view tree.new) temp.now.name.now) }
    ensures cause { IsErr result → broken ≡ true }
    ensures anew { OnOk result (broken ≡ true → Holds (T.view tree.new) temp.now.name.now []) }
    ensures same { broken ≡ false → (T.view tree.new).told ≡ (T.view tree.old).told }
{
    if broken {
        begin_temp(tree, temp.name())?;
    }
    Ok(())
}

impl<'a, 'n, T: Tree> Sink for TempSink<'a, 'n, T> {
    ghost view = { λ s. sink_view (T.view s.tree.now) s.temp.name.now s.silent };

    ghost same_rest = { λ s t. (t.tree.ghost_name ≡ s.tree.ghost_name) × (t.temp.name.now ≡ s.temp.name.now) × SameAround (T.view s.tree.now) (T.view t.tree.now) s.temp.name.now };

    ghost use Rattle.std.proofs.Common.{refl, ◌∙◌, subst};
    ghost use Rattle.replace_file.specs.TempSink.{around_none, around_both};

    ghost rest_none = { λ x. (refl, refl, around_none (T.view x.tree.now) x.temp.name.now) };

    ghost rest_both = { λ x y z a b. (
      b.0 ∙ a.0,
      b.1 ∙ a.1,
      around_both (T.view x.tree.now) (T.view y.tree.now) (T.view z.tree.now) x.temp.name.now a.2
          (subst (λ n. SameAround (T.view y.tree.now) (T.view z.tree.now) n) a.1 b.2),
    ) };

    /// Hands the whole piece on. After `Failed` the next write makes the temporary anew, and later ones add to it.
    fn write(&mut self, piece: &[u8]) -> Result<usize, Failed>
        ensures call { IsSinkCall (sink_view (T.view self.old.tree.now) self.old.temp.name.now self.old.silent) (sink_view (T.view self.new.tree.now) self.new.temp.name.now self.new.silent) result }
        ensures rest { (self.new.tree.ghost_name ≡ self.old.tree.ghost_name) × (self.new.temp.name.now ≡ self.old.temp.name.now) × SameAround (T.view self.old.tree.now) (T.view self.new.tree.now) self.old.temp.name.now }
        ensures fits { IfOk result (λ n. n ≤ length piece.now) }
        ensures some { IfOk result (λ n. 0 < length piece.now → 0 < n) }
        ensures received { IfOk result (λ n. Receives (sink_view (T.view self.old.tree.now) self.old.temp.name.now self.old.silent) (sink_view (T.view self.new.tree.now) self.new.temp.name.now self.new.silent) (take n piece.now)) }
        ensures failed { OnErr result (ReceivesPart (sink_view (T.view self.old.tree.now) self.old.temp.name.now self.old.silent) (sink_view (T.view self.new.tree.now) self.new.temp.name.now self.new.silent) (take 0 piece.now)) }
        ensures whole { IfOk result (λ n. n ≡ length piece.now) }
        ensures breaks { IsErr result ↔ IsTrue self.new.broken }
        ensures anew { OnOk result (self.old.broken ≡ true → Holds (T.view self.new.tree.now) self.old.temp.name.now piece.now) }
        ensures adds { OnOk result (self.old.broken ≡ false → (b : List ℕ) → Holds (T.view self.old.tree.now) self.old.temp.name.now b → Holds (T.view self.new.tree.now) self.old.temp.name.now (b ++ piece.now)) }
    {
        mend(self.tree, &self.temp, self.broken)?;
        self.broken = false;
        match self.temp.put(self.tree, piece) {
            Ok(()) => Ok(piece.len()),
            Err(failed) => {
                self.broken = true;
                self.silent = true;
                Err(failed)
            }
        }
    }
}
