//! What the definition of a run says, in words of its own.

ghost use Rattle.std.specs.Prelude.{◌≡◌, ◌≢◌, ◌⊎◌, ◌↔◌, ℕ, List, [], ◌∷◌, ◌++◌, true, false, Option, Some, None};
ghost use Rattle.std.specs.List.{AllByRecursion, list_any};
ghost use Rattle.std.specs.FinMap.{get};
ghost use Rattle.outside.specs.Files.{Files, is_temp};
ghost use Rattle.outside.specs.Quiet.{after_all};
ghost use Rattle.apply_task.specs.Named.{IsNamed};
ghost use Rattle.apply_task.specs.TargetEffects.{backup_effects};
ghost use Rattle.patch_options.specs.PlainJob.{PlainOptions};
ghost use Rattle.apply_start.specs.Skipping.{changes_said, has_failing};
ghost use Rattle.name_choice.specs.declared.Choice.TheVariants.{Nothing};
ghost use Rattle.line_list.specs.Lines.{lines};
ghost use Rattle.hunk_core.specs.declared.Side.{Side};
ghost use Rattle.hunk_core.specs.declared.Verdict.{Verdict};
ghost use Rattle.apply_task.specs.Asking.{is_bare, renames};
ghost use Rattle.apply_task.specs.Kinds.{is_meant};
ghost use Rattle.read_file_patch.specs.declared.derived.Target.{Target};
ghost use Rattle.patch_run.specs.OnePatch.{Item, PlainContext, Tried, choice_of, tried, start, ending, target_at, written, output_on, wrote, was_written, rejected_before, is_backup_due, is_moving, is_written, written_effects};
ghost use Rattle.patch_run.specs.Run.{run_of, turn_of};
ghost use Rattle.patch_run.specs.Laws.{IsSkip, is_skipped, goes_over_needed, IsIgnored, IsRenamed, HasWritten, IsApart, tried_files, TakesItsSource, removed_in, keeps_files, targets_in, is_beside, is_kept_for, rejects_to};

/// A file patch is skipped exactly where no name results, or where its modes would make a link of a file, a file of a link, or
/// a submodule, or where it would rename or copy a file onto one with bytes that a
/// file patch of the text renames or copies, or where, without `-f`, it doesn't suit the chosen file: it looks as if it was
/// applied before and isn't turned round, or a word is missing. It then has no effect, and each of its hunks is
/// ignored. A dry run has no effect, and leaves the files as they are. Once a file patch has made or taken away a name, none
/// behind it in the run backs that name up. A file that is renamed has its new bytes at its new name, and nothing is left at
/// the old one. A file patch without hunks leaves the bytes of its file as they are. A run says before anything else what
/// becomes of binary changes, and is bad where one of them fails.
pub fn run_laws()
    ensures skipped { (t : PlainContext) (files : Files) → IsSkip (start t files) → IsIgnored (ending t files) }
    ensures unsuited { (t : PlainContext) (files : Files) → IsSkip (start t files) ↔ (is_skipped t files (choice_of t files) ≡ true) }
    ensures forced { (t : PlainContext) (files : Files) → t.options.force ≡ true → IsSkip (start t files) → (choice_of t files ≡ Nothing) ⊎ ((is_meant t.item.patch ≡ false) ⊎ (goes_over_needed t files (choice_of t files) ≡ true)) }
    ensures needed { (t : PlainContext) (files : Files) → goes_over_needed t files (choice_of t files) ≡ true → IsIgnored (ending t files) }
    ensures dry { (o : PlainOptions) (output : Option Target) (items : List Item) (files : Files) → o.dry_run ≡ true → (run_of o output items files).effects ≡ [] }
    ensures once { (o : PlainOptions) (output : Option Target) (front behind : List Item) (i j : Item) (files : Files) (w other : Target) (vs : List Verdict)
        → (run_of o output front files).stop ≡ None
        → HasWritten (turn_of o output (run_of o output front files) i) (ending (turn_of o output (run_of o output front files) i) (run_of o output front files).files) w.name
        → is_backup_due (turn_of o output (run_of o output (front ++ i ∷ behind) files) j) w other vs ≡ false }
    ensures renamed { (t : PlainContext) (files : Files) (s w : Target) (x : Tried) → IsNamed w → is_moving t files s w ≡ true → is_written t x ≡ true
        → IsRenamed (after_all (written_effects t files s w x) files) s w x.output }
    ensures told { (o : PlainOptions) (output : Option Target) (i : Item) (items : List Item) (files : Files)
        → (more : List ℕ) × ((run_of o output (i ∷ items) files).said ≡ changes_said o i.skipped ++ more) }
    ensures failing { (o : PlainOptions) (output : Option Target) (i : Item) (items : List Item) (files : Files)
        → has_failing o i.skipped ≡ true → (run_of o output (i ∷ items) files).stop ≡ None → (run_of o output (i ∷ items) files).is_bad ≡ true }
    ensures bare { (t : PlainContext) (side : Side) (bytes : List ℕ) → is_bare t.item.patch ≡ true → (tried t side (lines bytes)).text ≡ bytes }
    ensures same { (o : PlainOptions) (output : Option Target) (items : List Item) (files : Files) → o.dry_run ≡ true → (run_of o output items files).files ≡ files }
{}

/// What a file patch whose hunks were tried makes of the files. One that renames puts at the new name what its hunks make of
/// the bytes of the old one, which goes, unless its reject file has one of these names. Any other one changes no name but its
/// target's, those of its backup and its reject file, and temporary ones: so a copy keeps its source. With `-D` it takes no
/// file away but one that it renames, and with `--posix` none but that, by `-E`, and a symbolic link without a text; so a run
/// without renames takes none.
pub fn effect_laws()
    ensures spliced { (t : PlainContext) (files : Files) (k : ℕ) (side : Side) (bytes : List ℕ) → renames t.item.patch ≡ true
        → (target_at t.item.targets k).name ≢ (written t k).name → get files (target_at t.item.targets k).name ≡ Some bytes → IsNamed (target_at t.item.targets k) → IsNamed (written t k)
        → (written t k).name ≢ (written t k).reject → (target_at t.item.targets k).name ≢ (written t k).reject
        → wrote t files (written t k) (tried t side (lines bytes)) ≡ true
        → IsRenamed (tried_files t files k side) (target_at t.item.targets k) (written t k) (output_on t.options.define t side (lines bytes)) }
    ensures kept { (t : PlainContext) (files : Files) (k : ℕ) (side : Side) (name : List ℕ) → renames t.item.patch ≡ false → IsApart name (written t k)
        → get (tried_files t files k side) name ≡ get files name }
    ensures taken { (t : PlainContext) (files : Files) → keeps_files t.options t.item.patch ≡ true → TakesItsSource t (ending t files) }
    ensures none { (o : PlainOptions) (output : Option Target) (items : List Item) (files : Files) → AllByRecursion (λ i. keeps_files o i.patch ≡ true) items → AllByRecursion (λ i. renames i.patch ≡ false) items
        → removed_in (run_of o output items files).effects ≡ [] }
{}

/// What a run makes of a name that is no temporary's. As long as no file patch has made it or taken it away, and it isn't that
/// of a backup or a reject file, it stands for what it stood for before the run; so a backup of it holds those bytes. Where
/// rejects went to a name that is no target's and no backup's, it holds the reject texts of all these file patches, one behind
/// the other.
pub fn name_laws()
    ensures unwritten { (o : PlainOptions) (output : Option Target) (items : List Item) (files : Files) (name : List ℕ) → is_temp name ≡ false → is_beside name (targets_in output items) ≡ false
        → was_written (run_of o output items files).past name ≡ false → get (run_of o output items files).files name ≡ get files name }
    ensures backed { (o : PlainOptions) (output : Option Target) (items : List Item) (i : Item) (files : Files) (w other : Target) (vs : List Verdict) → is_temp w.name ≡ false → is_beside w.name (targets_in output items) ≡ false
        → backup_effects (is_backup_due (turn_of o output (run_of o output items files) i) w other vs) (run_of o output items files).files w
        ≡ backup_effects (is_backup_due (turn_of o output (run_of o output items files) i) w other vs) files w }
    ensures rejected { (o : PlainOptions) (output : Option Target) (items : List Item) (files : Files) (name : List ℕ) → is_temp name ≡ false → is_kept_for name (targets_in output items) ≡ false
        → list_any (rejects_to name) (run_of o output items files).past ≡ true
        → get (run_of o output items files).files name ≡ Some (rejected_before (run_of o output items files).past name) }
{}
