//! A run of `patchgen 7 1 20 --plan=b --buffer=512`: what it leaves of its file, whatever memory it is refused.

use cli_gen::run_gen;
use cli_run_answers::Why;
use cli_tool_words::GenJob;
use mem_world::{MemScratch, MemSink, MemTree};
use outside::Name;
use patch_options::{PlanKind, SyncKind};
use std::alloc::{AllocError, Global};

const TEXT: &[u8] = b"files 1 hunks 1 applied 1 moved 1 bytes 276 status 0\n";

/// What stands in the place of the file before the run.
const OLD: &[u8] = b"something else\n";

/// The file that a script written apart from this program makes from the seed 7.
const MADE: &[u8] = b"extra 00001
extra 00002
extra 00003
0000001 231
0000002 753
0000003 673
0000004 545
0000005 219
0000006 864
0000007 764
0000008 739
0000009 686
0000010 195
0000011 075
0000012 632
0000013 280
0000014 949
0000015 962
0000016 405
0000017 899
0000018 796
0000019 951
0000020 936
";

/// That file as GNU patch leaves it.
const PATCHED: &[u8] = b"extra 00001
extra 00002
extra 00003
0000001 231
0000002 753
0000003 673
0000004 545
0000005 219
0000006 864
0000007 764
0000008 739
0000009 686
new 0000010
0000011 075
0000012 632
0000013 280
0000014 949
0000015 962
0000016 405
0000017 899
0000018 796
0000019 951
0000020 936
";

/// Runs the job, and answers why the run ended. A page of 512 bytes has the file's 23 records of 16 bytes each.
fn ended(alloc: Global, tree: &mut MemTree, out: &mut MemSink) -> Why {
    let job = GenJob {
        seed: 7,
        files: 1,
        lines: 20,
        plan: PlanKind::Padded,
        buffer: 512,
        sync: SyncKind::Each,
    };
    let scratch = MemScratch::new(alloc, Vec::new(alloc));
    let (exit, _scratch) = run_gen(alloc, job, tree, scratch, out);
    exit.why
}

/// What stands in the place of the file.
fn tree_of(alloc: Global) -> Result<MemTree, AllocError> {
    let mut tree = MemTree::new(alloc, Vec::new(alloc));
    match Name::new(alloc, b"gen/f1") {
        Ok(name) => tree.add(name, Vec::from_slice(alloc, OLD)?)?,
        Err(_) => return Err(AllocError),
    }
    Ok(tree)
}

/// Whether a file has these bytes; of no interest where the look at it wants memory.
fn is_file(alloc: Global, tree: &MemTree, name: &[u8], bytes: &[u8]) -> bool {
    match Name::new(alloc, name) {
        Ok(name) => tree.bytes_of(&name) == Some(bytes),
        Err(_) => true,
    }
}

/// Whether a run can end so that has left and written this: all of it, or a first part where memory was refused.
fn is_well(alloc: Global, why: Why, tree: &MemTree, out: &[u8]) -> bool {
    let is_old = is_file(alloc, tree, b"gen/f1", OLD);
    let is_made = is_file(alloc, tree, b"gen/f1", MADE);
    let is_patched = is_file(alloc, tree, b"gen/f1", PATCHED);
    let is_kept = is_file(alloc, tree, b"gen/f1.orig", MADE);
    match why {
        Why::Done => is_patched && is_kept && out == TEXT,
        Why::Memory | Why::TreeFault | Why::ScratchFault | Why::WriteFault => {
            (is_old || is_made || is_patched && is_kept) && TEXT.starts_with(out)
        }
        _ => false,
    }
}

/// Whether the run ends well.
fn ends_well(alloc: Global) -> Result<bool, AllocError> {
    let mut tree = tree_of(alloc)?;
    let mut out = MemSink::new(alloc, Vec::new(alloc));
    let why = ended(alloc, &mut tree, &mut out);
    Ok(is_well(alloc, why, &tree, out.bytes()))
}

// tests/starved runs this alone, with each allocation refused in turn.
#[test]
fn a_starved_run_ends_well(rt: HostRuntime) {
    assert!(rt; ends_well(rt.alloc()).unwrap_or(true));
}
