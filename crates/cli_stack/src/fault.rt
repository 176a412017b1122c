//! The answers that the faults of a stack's parts are.
ghost use Rattle.std.specs.Prelude.{◌≡◌};
ghost use Rattle.cli_run_answers.specs.declared.why.Why.TheVariants.{Done};
ghost use Rattle.stack_state.specs.Steps.{said_by};
ghost use Rattle.cli_stack.specs.Faults.{of_push, of_save, of_state};
ghost use Rattle.cli_stack.specs.Stages.{why_by};

use apply_task::RunFault;
use cli_run_answers::Why;
use outside::Failed;
use series_stack::StackFault;
use stack_patch::PushFault;
use stack_state::StateFault;

pub fn of_state(fault: StateFault) -> Why
    ensures { result ≡ of_state fault }
{
    match fault {
        StateFault::NoSeries => Why::NoPatchFile,
        StateFault::Bad { file } => Why::BadState { file },
        StateFault::Tree => Why::TreeFault,
        StateFault::Disagree { want, got } => Why::Disagree { want, got },
        StateFault::Memory => Why::Memory,
    }
}

pub fn of_push(fault: PushFault) -> Why
    ensures { result ≡ of_push fault }
{
    match fault {
        PushFault::Input(fault) => Why::from(fault),
        PushFault::Set(fault) => Why::from(fault),
    }
}

/// Of a save that isn't taken.
pub fn of_save(fault: StackFault) -> Why
    ensures { result ≡ of_save fault }
{
    match fault {
        StackFault::FileTooLong { length } => Why::FileTooLong { length },
        StackFault::Tree => Why::TreeFault,
        StackFault::Disagree { want, got } => Why::Disagree { want, got },
        _ => Why::Memory,
    }
}

/// Of steps with which a command ends, or that were broken off.
pub fn done(ended: Result<(), RunFault>) -> Why
    ensures { result ≡ why_by Done ended }
{
    match ended {
        Ok(()) => Why::Done,
        Err(fault) => Why::from(fault),
    }
}

/// Of a text with which a command ends.
pub fn told(ended: Result<(), Failed>) -> Why
    ensures { result ≡ why_by Done (said_by ended) }
{
    match ended {
        Ok(()) => Why::Done,
        Err(_) => Why::WriteFault,
    }
}
