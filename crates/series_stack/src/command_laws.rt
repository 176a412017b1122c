//! What a stack promises. `push` saves what the next patch's names stand for, applies the patch and raises the count, or restores
//! the save where the patch isn't applied whole. `pop` lowers the count and restores the last patch's save. Each first undoes what
//! a command that was interrupted has done, by the save that it left.
ghost use Rattle.std.specs.Prelude.{◌≡◌, ℕ, suc, [], take, None, Ok};
ghost use Rattle.std.specs.FinMap.{get};
ghost use Rattle.outside.specs.Files.{Files, SameLasting};
ghost use Rattle.outside.specs.Quiet.{after_all};
ghost use Rattle.series_stack.specs.Stack.{Stack, Refusal, save_name, stack_of, recover};
ghost use Rattle.series_stack.specs.Commands.{Reader, IsReader, StackOp};
ghost use Rattle.series_stack.specs.Commands.Ending.{Done};
ghost use Rattle.series_stack.specs.Commands.StackOp.{Push};
ghost use Rattle.series_stack.specs.Outcomes.{command};
ghost use Rattle.series_stack.specs.Outcomes.Answer.{Refused, Ended};
ghost use Rattle.series_stack.specs.Laws.{IsFailedPush, HaveLastingTexts, files_after, stack_after, RefusesAs, TakesBack, Recovers};

/// A push that is done is taken back by a pop, where no save lies behind those that a push looks at. A push that is done
/// counts one patch more, a pop one less. A push that fails
/// leaves what the files before it recover to, and a refused command leaves the files. Whatever first part of a command's
/// effects a stop leaves, it recovers to what the files before or after the command recover to, and its count says to
/// which. The next command over it is refused just where it would be over these files, and with the same answer; this holds
/// where no patch of the series has a text with a name of a temporary. Temporary names aside; nobody else changes the files, and a patch changes only what its names stand for.
pub fn stack_laws()
    ensures undone { (read : Reader) (f : Files) (s : Stack) → IsReader read → stack_of f ≡ Ok s → get f (save_name (suc (suc (suc s.applied)))) ≡ None → (command read Push f).answer ≡ Ended Done → TakesBack read f }
    ensures counted { (read : Reader) (op : StackOp) (f : Files) (s : Stack) → IsReader read → stack_of f ≡ Ok s → (command read op f).answer ≡ Ended Done → stack_of (files_after read op f) ≡ Ok (stack_after op s) }
    ensures failed { (read : Reader) (f : Files) → IsReader read → IsFailedPush (command read Push f).answer → SameLasting (recover f) (files_after read Push f) }
    ensures refused { (read : Reader) (op : StackOp) (f : Files) (e : Refusal) → (command read op f).answer ≡ Refused e → (command read op f).effects ≡ [] }
    ensures stopped { (read : Reader) (op : StackOp) (f c : Files) (k : ℕ) → IsReader read → SameLasting (after_all (take k (command read op f).effects) f) c → Recovers f (files_after read op f) c }
    ensures next { (read : Reader) (op other : StackOp) (f c : Files) (k : ℕ) → IsReader read → SameLasting (after_all (take k (command read op f).effects) f) c
        → ((s : Stack) → stack_of c ≡ Ok s → HaveLastingTexts s.patches) → RefusesAs read other f (files_after read op f) c }
{}
