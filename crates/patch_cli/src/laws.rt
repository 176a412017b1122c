//! What the definition of a command says, in words of its own.

ghost use Rattle.std.specs.Prelude.{◌≡◌, ℕ, List, Ok};
ghost use Rattle.outside.specs.Files.{Files};
ghost use Rattle.patch_options.specs.PlainJob.{PlainOptions};
ghost use Rattle.patch_options.specs.PlainJob.PlainJob.{patch};
ghost use Rattle.patch_options.specs.declared.options.PlanKind.{PlanKind};
ghost use Rattle.patch_run.specs.Outcome.{with_plan};
ghost use Rattle.patch_cli.specs.Command.{on_job};

/// What a command does is the same with each plan.
pub fn command_laws()
    ensures plans { (o : PlainOptions) (plan : PlanKind) (f : Files) (left : List ℕ) → on_job (Ok (patch (with_plan plan o))) f left ≡ on_job (Ok (patch o)) f left }
{}
