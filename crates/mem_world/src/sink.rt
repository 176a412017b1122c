//! A sink in memory.
use crate::device::Device;
use outside::{Failed, Sink};
use std::alloc::Global;

/// A sink in memory. The calls whose numbers are listed fail.
#[derive(Drop)]
pub struct MemSink {
    device: Device,
    bytes: Vec<u8>,
}

impl MemSink {
    ghost use Rattle.std.specs.Prelude.{◌≡◌, [], Some};
    ghost use Rattle.mem_world.specs.Held.{sink_view};

    /// A sink that holds nothing. The calls whose numbers are listed fail, counted from 1.
    pub fn new(alloc: Global, failing: Vec<u32>) -> MemSink
        ensures told { (sink_view result).told ≡ Some [] }
        ensures faults { (sink_view result).faults ≡ 0 }
        ensures failing { result.device.failing ≡ failing }
        ensures calls { result.device.calls ≡ 0 }
        ensures starved { result.device.starved ≡ 0 }
    {
        MemSink {
            device: Device::new(failing),
            bytes: Vec::new(alloc),
        }
    }

    /// How many device calls were made, up to 4,294,967,295.
    pub fn calls(&self) -> u32
        ensures { result ≡ self.now.device.calls }
    {
        self.device.calls
    }

    /// How often memory could not grow.
    pub fn starved(&self) -> u64
        ensures { result ≡ self.now.device.starved }
    {
        self.device.starved
    }

    /// What it has received.
    pub fn bytes(&self) -> &[u8]
        ensures { (sink_view self.now).told ≡ Some result.now }
    {
        &self.bytes
    }
}

impl Sink for MemSink {
    ghost use Rattle.std.specs.Prelude.{◌≡◌, ◌<◌, ◌≤◌, length, take, IfOk, OnErr};
    ghost use Rattle.outside.specs.SinkView.{IsSinkCall, Receives, ReceivesPart};
    ghost use Rattle.mem_world.specs.Streams.{FailsWhereListedOrStarved};
    ghost use Rattle.mem_world.specs.Held.{sink_view};

    ghost view = { sink_view };

    ghost same_rest = { λ x y. Unit {0} };

    ghost rest_none = { λ x. tt };

    ghost rest_both = { λ x y z p q. tt };

    // It takes the whole piece.
    fn write(&mut self, piece: &[u8]) -> Result<usize, Failed>
        ensures call { IsSinkCall (sink_view self.old) (sink_view self.new) result }
        ensures rest { Unit {0} }
        ensures fits { IfOk result (λ n. n ≤ length piece.now) }
        ensures some { IfOk result (λ n. 0 < length piece.now → 0 < n) }
        ensures received { IfOk result (λ n. Receives (sink_view self.old) (sink_view self.new) (take n piece.now)) }
        ensures failed { OnErr result (ReceivesPart (sink_view self.old) (sink_view self.new) (take 0 piece.now)) }
        ensures fails { FailsWhereListedOrStarved self.old.device self.new.device result }
    {
        if self.device.fails() {
            return Err(Failed);
        }
        match self.bytes.extend_from_slice(piece) {
            Ok(()) => Ok(piece.len()),
            Err(_) => {
                self.device.starve();
                Err(Failed)
            }
        }
    }
}
