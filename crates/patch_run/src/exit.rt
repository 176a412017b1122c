//! How a run ends.
ghost use Rattle.std.specs.Prelude.{◌≡◌, Ok};
ghost use Rattle.cli_run_answers.specs.Answers.{exit_status};
ghost use Rattle.patch_run.specs.Answer.{why_of, receipt_of};

use crate::Applied;
use cli_run_answers::Why;

/// How a run ends.
#[derive(Drop)]
pub struct Exit {
    /// 0 for `Done`, 1 for `Rejected`, else 2.
    pub status: u8,
    pub why: Why,
    /// The receipt, for `Done` and `Rejected`.
    pub applied: Option<Applied>,
}

/// How a run ends that came to its end, or stopped.
pub fn exit_of(ended: Result<Applied, Why>) -> Exit
    ensures why { result.why ≡ why_of ended }
    ensures applied { result.applied ≡ receipt_of ended }
    ensures status { result.status ≡ exit_status result.why }
{
    match ended {
        Ok(applied) => {
            let why = end_of(&applied);
            Exit {
                status: why.status(),
                why,
                applied: Some(applied),
            }
        }
        Err(why) => Exit {
            status: why.status(),
            why,
            applied: None,
        },
    }
}

/// The answer where every file patch had its turn.
fn end_of(applied: &Applied) -> Why
    ensures { result ≡ why_of (Ok applied.now) }
{
    if applied.status() == 0 {
        Why::Done
    } else {
        Why::Rejected
    }
}
