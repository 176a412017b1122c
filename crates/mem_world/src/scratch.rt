//! A scratch in memory.
ghost use Rattle.std.specs.Prelude.{◌≡◌, ◌≤◌, vec_len, OnOk};
ghost use Rattle.outside.specs.ScratchView.{overwritten};

use crate::device::Device;
use outside::{Failed, Scratch};
use std::alloc::{AllocError, Global};

/// A scratch in memory. The calls whose numbers are listed fail.
#[derive(Drop)]
pub struct MemScratch {
    device: Device,
    bytes: Vec<u8>,
    reads: u64,
}

impl MemScratch {
    ghost use Rattle.std.specs.Prelude.{◌≡◌, [], Some};
    ghost use Rattle.mem_world.specs.Held.{scratch_view};

    /// A scratch that holds nothing. The calls whose numbers are listed fail, counted from 1.
    pub fn new(alloc: Global, failing: Vec<u32>) -> MemScratch
        ensures told { (scratch_view result).told ≡ Some [] }
        ensures faults { (scratch_view result).faults ≡ 0 }
        ensures reads { (scratch_view result).reads ≡ 0 }
        ensures failing { result.device.failing ≡ failing }
        ensures calls { result.device.calls ≡ 0 }
        ensures starved { result.device.starved ≡ 0 }
    {
        MemScratch {
            device: Device::new(failing),
            bytes: Vec::new(alloc),
            reads: 0,
        }
    }

    /// How many device calls were made, up to 4,294,967,295.
    pub fn calls(&self) -> u32
        ensures { result ≡ self.now.device.calls }
    {
        self.device.calls
    }

    /// How often memory could not grow.
    pub fn starved(&self) -> u64
        ensures { result ≡ self.now.device.starved }
    {
        self.device.starved
    }

    /// What it holds.
    pub fn bytes(&self) -> &[u8]
        ensures { (scratch_view self.now).told ≡ Some result.now }
    {
        &self.bytes
    }
}

// Writes a piece over the bytes from a place on, as far as memory goes.
fn overwrite(bytes: &mut Vec<u8>, at: usize, piece: &[u8]) -> Result<(), AllocError>
    requires { at ≤ vec_len bytes.old }
    ensures { OnOk result (bytes.new.items ≡ overwritten bytes.old.items at piece.now) }
{
    let inside = piece.len().min(bytes.len() - at);
    bytes[at..at + inside].copy_from_slice(&piece[..inside]);
    bytes.extend_from_slice(&piece[inside..])
}

impl Scratch for MemScratch {
    ghost use Rattle.std.specs.Prelude.{◌≡◌, ◌≤◌, [], ℕ, List, length, take, drop, Some, IfOk, OnOk};
    ghost use Rattle.outside.specs.ScratchView.{IsScratchCall, ReachesTo, overwritten, counted};
    ghost use Rattle.mem_world.specs.Streams.{FailsWhereListed, FailsWhereListedOrStarved};
    ghost use Rattle.mem_world.specs.Held.{scratch_view};

    ghost view = { scratch_view };

    fn restart(&mut self) -> Result<(), Failed>
        ensures call { IsScratchCall (scratch_view self.old) (scratch_view self.new) result }
        ensures reads { (scratch_view self.new).reads ≡ (scratch_view self.old).reads }
        ensures ok { OnOk result ((b : List ℕ) → (scratch_view self.old).told ≡ Some b → (scratch_view self.new).told ≡ Some []) }
        ensures fails { FailsWhereListed self.old.device self.new.device result }
    {
        if self.device.fails() {
            return Err(Failed);
        }
        self.bytes.clear();
        Ok(())
    }

    fn write_at(&mut self, at: u64, piece: &[u8]) -> Result<(), Failed>
        requires { ReachesTo (scratch_view self.old) at }
        ensures call { IsScratchCall (scratch_view self.old) (scratch_view self.new) result }
        ensures reads { (scratch_view self.new).reads ≡ (scratch_view self.old).reads }
        ensures ok { OnOk result ((b : List ℕ) → (scratch_view self.old).told ≡ Some b → (scratch_view self.new).told ≡ Some (overwritten b at piece.now)) }
        ensures fails { FailsWhereListedOrStarved self.old.device self.new.device result }
    {
        if self.device.fails() {
            return Err(Failed);
        }
        match overwrite(&mut self.bytes, at as usize, piece) {
            Ok(()) => Ok(()),
            Err(_) => {
                self.device.starve();
                Err(Failed)
            }
        }
    }

    fn read_at(&mut self, at: u64, buf: &mut [u8]) -> Result<usize, Failed>
        ensures call { IsScratchCall (scratch_view self.old) (scratch_view self.new) result }
        ensures same { (scratch_view self.new).told ≡ (scratch_view self.old).told }
        ensures reads { (scratch_view self.new).reads ≡ counted (scratch_view self.old).reads }
        ensures count { IfOk result (λ n. n ≤ length buf.old) }
        ensures bytes { IfOk result (λ n. (b : List ℕ) → (scratch_view self.old).told ≡ Some b → take n buf.new ≡ take (length buf.old) (drop at b)) }
        ensures fails { FailsWhereListed self.old.device self.new.device result }
    {
        if self.reads < u64::MAX {
            self.reads += 1;
        }
        if self.device.fails() {
            return Err(Failed);
        }
        let from = self.bytes.len().min(at as usize);
        let rest = &self.bytes[from..];
        let n = rest.len().min(buf.len());
        buf[..n].copy_from_slice(&rest[..n]);
        Ok(n)
    }
}
