//! The words of a command.
ghost use Rattle.std.specs.Prelude.{◌≡◌, ◌⊎◌, map, Ok, Err, IfOk, IfErr, string_bytes};
ghost use Rattle.patch_options.specs.PlainJob.{plain_job, IsLawfulJob};
ghost use Rattle.patch_options.specs.Words.{job_of, patch_job, whole_job};

use crate::groups::patch_table;
use crate::simple::matched_by;
use crate::table::read_options;
use crate::whole::whole_words;
use crate::{Job, WordFault};
use std::alloc::Global;

/// What the words ask for. The first is `patch`.
pub fn read_words(alloc: Global, words: &[String]) -> Result<Job, WordFault>
    ensures job { IfOk result (λ job. job_of (map string_bytes words.now) ≡ Ok (plain_job job)) }
    ensures lawful { IfOk result (λ job. IsLawfulJob (plain_job job)) }
    ensures refused { IfErr result (λ fault. (fault ≡ WordFault.Memory) ⊎ (job_of (map string_bytes words.now) ≡ Err fault)) }
{
    match words {
        [tool, ..] if tool.as_str() == "patch" => read_patch(alloc, words),
        [_, ..] => Err(WordFault::Usage),
        [] => Err(WordFault::Usage),
    }
}

/// What the words of `patch` ask for.
fn read_patch(alloc: Global, words: &[String]) -> Result<Job, WordFault>
    ensures job { IfOk result (λ job. patch_job (map string_bytes words.now) ≡ Ok (plain_job job)) }
    ensures lawful { IfOk result (λ job. IsLawfulJob (plain_job job)) }
    ensures refused { IfErr result (λ fault. (fault ≡ WordFault.Memory) ⊎ (patch_job (map string_bytes words.now) ≡ Err fault)) }
{
    match whole_words(alloc, patch_table(), words) {
        Ok(whole) => read_whole(alloc, &whole),
        Err(_) => Err(WordFault::Memory),
    }
}

/// What the words of `patch` ask for, whose long names are whole.
fn read_whole(alloc: Global, words: &[String]) -> Result<Job, WordFault>
    ensures job { IfOk result (λ job. whole_job (map string_bytes words.now) ≡ Ok (plain_job job)) }
    ensures lawful { IfOk result (λ job. IsLawfulJob (plain_job job)) }
    ensures refused { IfErr result (λ fault. (fault ≡ WordFault.Memory) ⊎ (whole_job (map string_bytes words.now) ≡ Err fault)) }
{
    let matches = match matched_by(alloc, "patch", patch_table(), words) {
        Ok(matches) => matches,
        Err(fault) => return Err(fault),
    };
    let read = read_options(alloc, &matches);
    drop(matches);
    match read {
        Ok(options) => Ok(Job::Patch(options)),
        Err(fault) => Err(fault),
    }
}
