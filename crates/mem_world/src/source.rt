//! A source in memory.
ghost use Rattle.std.specs.Prelude.{◌≤◌, vec_len};

use crate::device::Device;
use outside::{Failed, Source};
use std::alloc::Global;

/// A source in memory. The calls whose numbers are listed fail.
#[derive(Drop)]
pub struct MemSource {
    device: Device,
    bytes: Vec<u8>,
    at: usize,
    ghost within: { at ≤ vec_len bytes },
}

impl MemSource {
    ghost use Rattle.std.specs.Prelude.{◌≡◌, Some};
    ghost use Rattle.mem_world.specs.Held.{source_view};

    /// A source that has these bytes left. The calls whose numbers are listed fail, counted from 1.
    pub fn new(_alloc: Global, bytes: Vec<u8>, failing: Vec<u32>) -> MemSource
        ensures told { (source_view result).told ≡ Some bytes.items }
        ensures faults { (source_view result).faults ≡ 0 }
        ensures failing { result.device.failing ≡ failing }
        ensures calls { result.device.calls ≡ 0 }
        ensures starved { result.device.starved ≡ 0 }
    {
        MemSource {
            device: Device::new(failing),
            bytes,
            at: 0,
        }
    }

    /// How many device calls were made, up to 4,294,967,295.
    pub fn calls(&self) -> u32
        ensures { result ≡ self.now.device.calls }
    {
        self.device.calls
    }

    /// How often memory could not grow.
    pub fn starved(&self) -> u64
        ensures { result ≡ self.now.device.starved }
    {
        self.device.starved
    }
}

impl Source for MemSource {
    ghost use Rattle.std.specs.Prelude.{◌≡◌, ◌<◌, ◌≤◌, [], ℕ, List, length, take, drop, Some, IfOk, OnErr};
    ghost use Rattle.outside.specs.SourceView.{IsSourceCall};
    ghost use Rattle.mem_world.specs.Streams.{FailsWhereListed};
    ghost use Rattle.mem_world.specs.Held.{source_view};

    ghost view = { source_view };

    fn read(&mut self, buf: &mut [u8]) -> Result<usize, Failed>
        ensures call { IsSourceCall (source_view self.old) (source_view self.new) result }
        ensures count { IfOk result (λ n. n ≤ length buf.old) }
        ensures bytes { IfOk result (λ n. (left : List ℕ) → (source_view self.old).told ≡ Some left → (n ≤ length left) × (take n buf.new ≡ take n left)) }
        ensures left { IfOk result (λ n. (left : List ℕ) → (source_view self.old).told ≡ Some left → (source_view self.new).told ≡ Some (drop n left)) }
        ensures end { IfOk result (λ n. n ≡ 0 → 0 < length buf.old → (left : List ℕ) → (source_view self.old).told ≡ Some left → left ≡ []) }
        ensures failed { OnErr result ((source_view self.new).told ≡ (source_view self.old).told) }
        ensures fails { FailsWhereListed self.old.device self.new.device result }
    {
        if self.device.fails() {
            return Err(Failed);
        }
        let left = &self.bytes[self.at..];
        let n = left.len().min(buf.len());
        buf[..n].copy_from_slice(&left[..n]);
        self.at += n;
        Ok(n)
    }
}
