//! How a set that was written in another form reads.
ghost use Rattle.std.specs.Prelude.{◌≡◌, true, false, None, Ok};
ghost use Rattle.std.specs.List.{AllByRecursion};
ghost use Rattle.std.specs.Option.{IfSome};
ghost use Rattle.hunk_core.specs.declared.Form.{Form};
ghost use Rattle.hunk_core.specs.PlainHunk.{PlainHunk};
ghost use Rattle.context_form.specs.Canonical.{in_order};
ghost use Rattle.patch_header.specs.Openings.{admits};
ghost use Rattle.patch_header.specs.declared.read_options.ReadOptions.{ReadOptions};
ghost use Rattle.patch_set.specs.PlainName.{plain_name};
ghost use Rattle.patch_set.specs.SetView.{SetView, IsWhole, plain_patches};
ghost use Rattle.cli_tool_words.specs.PlainJobs.{PlainFilterJob};
ghost use Rattle.law_reading.specs.Joins.{read_unnumbered};
ghost use Rattle.format_convert.specs.Blocks.{changes};
ghost use Rattle.format_convert.specs.Taken.{left_patches};
ghost use Rattle.format_convert.specs.Converted.{converted};
ghost use Rattle.format_convert.specs.Refusals.{refusal};
ghost use Rattle.law_reading.specs.AsShown.{IsReordered};
ghost use Rattle.law_filters.specs.ReadAgain.{IsGivenBack, change_again, header_again, patches_again};

/// What is written of a set in a form that isn't refused reads, in all ways that admit the form, as the file patches of which a
/// hunk is kept and, as commands, of which a line is changed; line numbers aside. Each has the one name that it had, which an
/// `Index:` line gives back but for a name of a rename that begins with a space, holds a tab or has quotes that are none of C, and
/// the changes that it had: which lines are replaced by which. In the unified form its hunks are the same, and in the context form
/// they are up to the order of dropped and added lines between two kept ones.
pub fn format_reads()
    ensures read { (form : Form) → (j : PlainFilterJob) → (v : SetView) → (ways : ReadOptions) → IsWhole v → admits ways.only form ≡ true → refusal form (left_patches j (plain_patches v)) ≡ None → read_unnumbered ways (converted form j v) ≡ Ok (patches_again form j v) }
    ensures names { (form : Form) → (v : SetView) → IsWhole v → AllByRecursion (λ p. p.header.bare ≡ false → IfSome p.header.to IsGivenBack → plain_name (header_again form p.header) ≡ plain_name p.header) (plain_patches v) }
    ensures changes { (form : Form) → (j : PlainFilterJob) → (v : SetView) → IsWhole v → refusal form (left_patches j (plain_patches v)) ≡ None → AllByRecursion (λ p. changes (change_again form p.change) ≡ changes p.change) (left_patches j (plain_patches v)) }
    ensures shown { (h : PlainHunk) → IsReordered h (in_order h) }
{}
