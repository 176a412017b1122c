//! Where a patched file comes from.

/// Where a patched file comes from. Names are as they are shown.
#[derive(Clone, Copy)]
pub enum Origin<'n> {
    /// It is what it was.
    Same,
    /// It is the file with this name, which is gone then.
    Renamed(&'n str),
    /// It was the file with this name, before the run.
    AlreadyRenamed(&'n str),
    /// It is the file with this name, which stays.
    Copied(&'n str),
}
