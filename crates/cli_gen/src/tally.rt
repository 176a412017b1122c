//! What the verdicts and the files behind a run come to.
ghost use Rattle.std.specs.Prelude.{◌≡◌, ℕ, count_by, Some, IfOk, IsErr};
ghost use Rattle.outside.specs.Files.{Files};
ghost use Rattle.outside.specs.TreeView.{Rises};
ghost use Rattle.outside.specs.Calls.{IsUntouched};
ghost use Rattle.hunk_apply.specs.Session.{is_placed};
ghost use Rattle.cli_gen.specs.Preparing.{ArePlaces};
ghost use Rattle.cli_gen.specs.Summary.{is_moved, bytes_in, capped};

use crate::places::MadeFileNames;
use hunk_core::Verdict;
use outside::{Failed, Tree};

/// How many hunks were placed.
pub fn count_placed(verdicts: &[Verdict]) -> u64
    ensures { result ≡ count_by is_placed verdicts.now }
{
    verdicts.iter().filter(|v| has_place(**v)).count() as u64
}

/// How many of them at an offset other than 0.
pub fn count_moved(verdicts: &[Verdict]) -> u64
    ensures { result ≡ count_by is_moved verdicts.now }
{
    verdicts.iter().filter(|v| has_moved(**v)).count() as u64
}

fn has_place(verdict: Verdict) -> bool
    ensures { result ≡ is_placed verdict }
{
    matches!(verdict, Verdict::At { .. })
}

fn has_moved(verdict: Verdict) -> bool
    ensures { result ≡ is_moved verdict }
{
    match verdict {
        Verdict::At { offset, .. } => offset != 0,
        Verdict::Untried | Verdict::Ignored | Verdict::Nowhere => false,
    }
}

/// The bytes of all files at these places, up to the greatest number. One that is missing has none.
pub fn total_size<T: Tree>(places: &[MadeFileNames], tree: &mut T) -> Result<u64, Failed>
    ensures untouched { IsUntouched (T.view tree.old) (T.view tree.new) }
    ensures cause { IsErr result → Rises (T.view tree.old) (T.view tree.new) }
    ensures size { IfOk result (λ total. (f : Files) (count : ℕ) → (T.view tree.old).told ≡ Some f → ArePlaces places.now count → total ≡ capped (bytes_in f count)) }
{
    let mut total: u64 = 0;
    for k in 0..places.len() {
        let size = tree.size(&places[k].name)?;
        total = total.saturating_add(size.unwrap_or(0));
    }
    Ok(total)
}
