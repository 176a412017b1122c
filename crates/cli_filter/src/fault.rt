//! The answers that the faults of a filter are.
ghost use Rattle.std.specs.Prelude.{◌≡◌};
ghost use Rattle.cli_filter.specs.Command.{of_filter, why_by, why_formed};

use crate::FormFault;
use cli_run_answers::Why;
use filter_whole_text::FilterFault;

pub fn why_of(fault: FilterFault) -> Why
    ensures { result ≡ of_filter fault }
{
    match fault {
        FilterFault::Input(fault) => Why::from(fault),
        FilterFault::Set(fault) => Why::from(fault),
        FilterFault::Unfit { line } => Why::Unfit { line },
        FilterFault::Pattern => Why::BadPattern,
        FilterFault::Tree => Why::TreeFault,
        FilterFault::Write => Why::WriteFault,
        FilterFault::Memory => Why::Memory,
    }
}

/// The answer of a filter that may have come to its end.
pub fn answer(ended: Result<(), FilterFault>) -> Why
    ensures { result ≡ why_by ended }
{
    match ended {
        Ok(()) => Why::Done,
        Err(fault) => why_of(fault),
    }
}

/// The answer of `filterdiff` with a form.
pub fn form_answer(ended: Result<(), FormFault>) -> Why
    ensures { result ≡ why_formed ended }
{
    match ended {
        Ok(()) => Why::Done,
        Err(FormFault::Filter(fault)) => why_of(fault),
        Err(FormFault::NoContext { line }) => Why::NoContext { line },
        Err(FormFault::Unfit { line }) => Why::Unfit { line },
    }
}
