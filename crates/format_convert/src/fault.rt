//! Why a set isn't written in another form.

/// Why a set isn't written in another form. A line is that of the opening of a file patch.
#[derive(Clone, Copy)]
pub enum ConvertFault {
    /// The file patch lacks what the form shows.
    NoContext { line: u64 },
    /// The kept hunks of the file patch can't be written as commands.
    Unfit { line: u64 },
    /// A call of the sink failed.
    Write,
}
