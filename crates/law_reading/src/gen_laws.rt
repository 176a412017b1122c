//! How the made patch reads.
ghost use Rattle.std.specs.Prelude.{◌≡◌, ◌≤◌, ◌*◌, ℕ, true, None, Ok};
ghost use Rattle.hunk_core.specs.declared.Form.TheVariants.{Unified};
ghost use Rattle.patch_gen.specs.Tree.{made};
ghost use Rattle.patch_header.specs.Openings.{admits};
ghost use Rattle.patch_header.specs.declared.read_options.ReadOptions.{ReadOptions};
ghost use Rattle.patch_options.specs.PlainJob.{PlainOptions};
ghost use Rattle.patch_set.specs.Refusals.{refusal};
ghost use Rattle.law_reading.specs.Joins.{read_unnumbered};
ghost use Rattle.law_reading.specs.MadePatches.{made_patches};
ghost use Rattle.law_reading.specs.Plain.{TakesNames};

/// The patch over a made tree reads as one file patch for each file, with one hunk for each twenty of its lines, line numbers
/// of the text aside. It isn't refused where each file patch is taken for the file that its header names.
pub fn gen_reads()
    ensures read { (ways : ReadOptions) (seed files lines : ℕ) → admits ways.only Unified ≡ true → 20 ≤ lines → lines ≤ 9999999 → read_unnumbered ways (made seed files lines).patch ≡ Ok (made_patches seed files lines) }
    ensures free { (o : PlainOptions) (seed files lines : ℕ) → TakesNames o → 1 ≤ files → files ≤ 1000 → 20 ≤ lines → lines ≤ 9999999 → files * lines ≤ 10000000 → refusal o (made seed files lines).patch ≡ None }
{}
