//! A file is taken and all its lines are fetched, by either plan over pages of 512 bytes.

use crate::changing::ChangingFile;
use crate::spoiling::SpoilingScratch;
use line_store::{Half, LineFault, Plan};
use outside::Name;
use packed_pages::PackedB;
use page_pair::PagePair;
use plan_b::PlanB;
use std::alloc::{AllocError, Global};

/// How many lines are `y`, fetched one by one, and the first one that a search finds. No file here has 400 lines.
fn fetched<P: Plan>(plan: &mut P) -> Result<(u64, Option<u64>), LineFault> {
    let mut alike = 0u64;
    for k in 1..400 {
        if k <= plan.count() {
            plan.load(k, Half::First)?;
            if plan.line(Half::First) == b"y\n".as_slice() {
                alike = alike.saturating_add(1);
            }
        }
    }
    let end = plan.count() + 1;
    let found = plan.first_alike(1, end, b"y\n", Half::Second)?;
    Ok((alike, found))
}

/// What comes of a file that is taken: why it isn't, or what is fetched of it.
fn taken<P: Plan>(
    alloc: Global,
    plan: &mut P,
    file: &mut ChangingFile,
) -> Result<String, AllocError> {
    let Ok(name) = Name::new(alloc, b"f") else {
        return Err(AllocError);
    };
    match plan.take_file(file, &name) {
        Ok(()) => format!(in alloc; "{:?}", fetched(plan)),
        Err(fault) => format!(in alloc; "{fault:?}"),
    }
}

/// What comes of a file that is taken onto padded pages, and how many bytes are in the scratch behind it.
pub fn by_padded(
    alloc: Global,
    file: &mut ChangingFile,
    scratch: SpoilingScratch,
) -> Result<(String, usize), AllocError> {
    let mut plan = PlanB::new(PagePair::new(alloc, 512)?, scratch);
    let text = taken(alloc, &mut plan, file)?;
    let (_pair, scratch) = plan.into_parts();
    Ok((text, scratch.inner.bytes().len()))
}

/// And of packed ones.
pub fn by_packed(
    alloc: Global,
    file: &mut ChangingFile,
    scratch: SpoilingScratch,
) -> Result<(String, usize), AllocError> {
    let mut plan = PackedB::new(PagePair::new(alloc, 512)?, scratch);
    let text = taken(alloc, &mut plan, file)?;
    let (_pair, scratch) = plan.into_parts();
    Ok((text, scratch.inner.bytes().len()))
}
