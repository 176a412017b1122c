//! Why `filterdiff` with a form ends early.
ghost use Rattle.std.specs.Prelude.{◌≡◌};
ghost use Rattle.cli_filter.specs.Converting.{of_convert};
ghost use Rattle.cli_filter.specs.declared.form_fault.FormFault.TheVariants as forms;

use filter_whole_text::FilterFault;
use format_convert::ConvertFault;

/// Why `filterdiff` with a form ends early. A line is that of the opening of a file patch.
#[derive(Clone, Copy)]
pub enum FormFault {
    /// As without a form.
    Filter(FilterFault),
    /// The file patch lacks what the form shows.
    NoContext { line: u64 },
    /// The kept hunks of the file patch can't be written as commands.
    Unfit { line: u64 },
}

impl From<FilterFault> for FormFault {
    ghost from_gives = { λ e fault. fault ≡ forms.Filter e };

    fn from(fault: FilterFault) -> FormFault {
        FormFault::Filter(fault)
    }
}

impl From<ConvertFault> for FormFault {
    ghost from_gives = { λ e fault. fault ≡ of_convert e };

    fn from(fault: ConvertFault) -> FormFault {
        match fault {
            ConvertFault::NoContext { line } => FormFault::NoContext { line },
            ConvertFault::Unfit { line } => FormFault::Unfit { line },
            ConvertFault::Write => FormFault::Filter(FilterFault::Write),
        }
    }
}
