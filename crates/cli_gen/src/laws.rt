//! What the definition of a command says, in words of its own.

ghost use Rattle.std.specs.Prelude.{◌≡◌, List, None};
ghost use Rattle.outside.specs.Files.{Files};
ghost use Rattle.read_file_patch.specs.PlainPatch.{PlainPatch};
ghost use Rattle.patch_options.specs.declared.options.PlanKind.{PlanKind};
ghost use Rattle.patch_set.specs.Refusals.{refusal};
ghost use Rattle.cli_tool_words.specs.PlainJobs.{PlainGenJob, IsSize};
ghost use Rattle.cli_run_answers.specs.declared.why.Why.TheVariants.{Done};
ghost use Rattle.cli_gen.specs.Command.{on_job, patch_text, run_over, summary};
ghost use Rattle.cli_gen.specs.Jobs.{options_for, with_plan};

/// A command that ends with `Done` says one line, its summary: the run over the file patches says nothing. The patch that is
/// made isn't refused. What a command does is the same with each plan.
pub fn gen_laws()
    ensures done { (j : PlainGenJob) (f : Files) → (on_job j f).why ≡ Done → (ps : List PlainPatch) × ((on_job j f).text ≡ summary j (run_over j ps f)) }
    ensures free { (j : PlainGenJob) → IsSize j → refusal (options_for j) (patch_text j) ≡ None }
    ensures plans { (j : PlainGenJob) (plan : PlanKind) (f : Files) → on_job (with_plan plan j) f ≡ on_job j f }
{}
