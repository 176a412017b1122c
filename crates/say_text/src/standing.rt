//! What stands at a name.

/// What stands at the name that a file patch makes or changes.
#[derive(Clone, Copy)]
pub enum Standing {
    /// No file.
    Missing,
    /// A file without a byte.
    Empty,
    /// A file with bytes.
    Filled,
}
