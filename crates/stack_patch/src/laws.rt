//! What a run can change, and what that means for a stack of patches.
ghost use Rattle.std.specs.Prelude.{◌≡◌, ℕ, List, true, Option, None, Some};
ghost use Rattle.std.specs.List.{AllByRecursion};
ghost use Rattle.std.specs.Option.{ForSome};
ghost use Rattle.outside.specs.Files.{Files};
ghost use Rattle.patch_options.specs.PlainJob.{PlainOptions, IsLawful};
ghost use Rattle.read_file_patch.specs.PlainPatch.{PlainHeader};
ghost use Rattle.read_file_patch.specs.declared.derived.Target.{Target};
ghost use Rattle.read_clean_text.specs.Reading.{clean_of};
ghost use Rattle.patch_set.specs.Named.{output_of, targets_of as made_targets};
ghost use Rattle.patch_set.specs.Refusals.{refusal};
ghost use Rattle.patch_set.specs.SetView.{SetView, IsRead};
ghost use Rattle.patch_run.specs.OnePatch.{Item};
ghost use Rattle.patch_run.specs.Run.{run_of, set_run};
ghost use Rattle.series_stack.specs.Commands.{IsReader, changed_by};
ghost use Rattle.stack_patch.specs.Changed.{targets_in, can_change};
ghost use Rattle.stack_patch.specs.Given.{IsGiven, IsGivenName, with_number};
ghost use Rattle.stack_patch.specs.Reading.{push_options, patch_of_set, read_patch};
ghost use Rattle.stack_patch.specs.Keeping.{KeepsItsStack};

/// Whatever the options, each effect of a run changes a target's name, that of its reject file, or that of its backup where
/// backups are asked for. A rename has its old name among the targets, and the output of the options is one.
pub fn names_of_a_run()
    ensures { (o : PlainOptions) (output : Option Target) (items : List Item) (files : Files)
        → AllByRecursion (λ e. can_change o (targets_in output items) (changed_by e) ≡ true) (run_of o output items files).effects }
{}

/// No name that a run changes is absolute, or has a component `..`, but for what the operator gives of it: the directory, the
/// file or the output, the reject file, and what stands before or behind the name of a backup. This holds of the effects of a set
/// that was read from a text, and of all file patches with such targets, also of those whose backups have numbers.
pub fn names_given_to_a_run()
    ensures targets { (o : PlainOptions) (known : List (List ℕ)) (h : PlainHeader) → IsLawful o → AllByRecursion (IsGiven o) (made_targets o known h) }
    ensures output { (o : PlainOptions) (known : List (List ℕ)) → IsLawful o → ForSome (output_of o known) (IsGiven o) }
    ensures numbers { (o : PlainOptions) (w : Target) (number : ℕ) → IsGiven o w → IsGiven o (with_number number w) }
    ensures items { (o : PlainOptions) (output : Option Target) (items : List Item) (files : Files) → ForSome output (IsGiven o) → AllByRecursion (λ i. AllByRecursion (IsGiven o) i.targets) items
        → AllByRecursion (λ e. IsGivenName o (changed_by e)) (run_of o output items files).effects }
    ensures set { (o : PlainOptions) (text : List ℕ) (v : SetView) (files : Files) → IsLawful o → IsRead o text v → AllByRecursion (λ e. IsGivenName o (changed_by e)) (set_run o v files).effects }
{}

/// The patches of a stack have lawful names that are no temporaries', and change nothing but their targets and these reject
/// files. So a stack of them keeps its laws. Where a text, once it is clean, is read as a set of file patches, its patch has the targets
/// of the set, and does what a run over the set does.
pub fn patches_of_a_stack()
    ensures lawful { IsLawful push_options }
    ensures reader { IsReader read_patch }
    ensures set { (text : List ℕ) (v : SetView) → refusal push_options (clean_of push_options text) ≡ None → IsRead push_options (clean_of push_options text) v → read_patch (Some text) ≡ Some (patch_of_set v) }
    ensures stack { KeepsItsStack read_patch }
{}
