//! A scratch that gives its pages back other than they were written.
ghost use Rattle.std.specs.Prelude.{◌≡◌, ◌≤◌, ℕ, length, IfOk};
ghost use Rattle.outside.specs.ScratchView.{IsScratchCall};
ghost use Rattle.outside.specs.Silent.{silent_scratch};

use mem_world::MemScratch;
use outside::{Failed, Scratch};

/// What is wrong with what comes back. A read of at most eight bytes is of a number, each other one is of a page.
#[derive(Clone, Copy)]
pub enum Wrong {
    Nothing,
    /// The fifth byte of a page is turned.
    Turned,
    /// The first line of a page states so many bytes.
    Stated(u32),
    /// A page comes without its last byte.
    ShortPage,
    /// A number comes without its last byte.
    ShortNumber,
}

/// A scratch in memory whose reads come wrong, but for the first ones. It tells nothing.
#[derive(Drop)]
pub struct SpoilingScratch {
    pub inner: MemScratch,
    pub wrong: Wrong,
    /// How many reads come right.
    pub right: u64,
    pub faults: u64,
    pub reads: u64,
}

/// A call that fails is counted.
fn counted<V>(faults: &mut u64, made: Result<V, Failed>) -> Result<V, Failed>
    ensures call { (r s : ℕ) → IsScratchCall (silent_scratch faults.old r) (silent_scratch faults.new s) result }
    ensures same { result ≡ made }
{
    if made.is_err() && *faults < u64::MAX {
        *faults += 1;
    }
    made
}

/// Changes a page, if that is what is wrong. A number is left.
fn change(wrong: Wrong, buf: &mut [u8])
    ensures { length buf.new ≡ length buf.old }
{
    if buf.len() <= 8 {
        return;
    }
    match wrong {
        Wrong::Turned => buf[4] ^= 1,
        Wrong::Stated(bytes) => buf[..4].copy_from_slice(&bytes.to_le_bytes()),
        Wrong::Nothing | Wrong::ShortPage | Wrong::ShortNumber => {}
    }
}

/// Whether the last byte of a read into so much room doesn't come.
fn is_cut(wrong: Wrong, room: usize) -> bool {
    match wrong {
        Wrong::ShortPage => room > 8,
        Wrong::ShortNumber => room <= 8,
        _ => false,
    }
}

/// What comes in place of what was read.
fn spoiled(wrong: Wrong, made: Result<usize, Failed>, buf: &mut [u8]) -> Result<usize, Failed>
    requires count { IfOk made (λ n. n ≤ length buf.old) }
    ensures count { IfOk result (λ n. n ≤ length buf.old) }
    ensures length { length buf.new ≡ length buf.old }
{
    let count = made?;
    let is_cut = is_cut(wrong, buf.len());
    change(wrong, buf);
    Ok(count.saturating_sub(usize::from(is_cut)))
}

impl Scratch for SpoilingScratch {
    ghost use Rattle.std.specs.Prelude.{◌≡◌, ◌≤◌, [], ℕ, List, length, take, drop, Some, IfOk, OnOk};
    ghost use Rattle.outside.specs.ScratchView.{IsScratchCall, ReachesTo, overwritten, counted};
    ghost use Rattle.outside.specs.Silent.{silent_scratch};

    ghost view = { λ s. silent_scratch s.faults s.reads };

    fn restart(&mut self) -> Result<(), Failed> {
        let made = self.inner.restart();
        counted(&mut self.faults, made)
    }

    fn write_at(&mut self, at: u64, piece: &[u8]) -> Result<(), Failed> {
        if at > self.inner.bytes().len() as u64 {
            return counted(&mut self.faults, Err(Failed));
        }
        let made = self.inner.write_at(at, piece);
        counted(&mut self.faults, made)
    }

    fn read_at(&mut self, at: u64, buf: &mut [u8]) -> Result<usize, Failed> {
        self.reads = self.reads.saturating_add(1);
        let made = self.inner.read_at(at, buf);
        if self.reads <= self.right {
            return counted(&mut self.faults, made);
        }
        let came = spoiled(self.wrong, made, buf);
        counted(&mut self.faults, came)
    }
}
