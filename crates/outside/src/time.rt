//! Times of files.

/// When a file was written.
#[derive(Clone, Copy, Debug)]
pub struct Time {
    /// Seconds since 1970-01-01 00:00:00.
    pub seconds: i64,
    /// Nanoseconds since that second, 0 to 999,999,999.
    pub nanoseconds: u32,
    /// Whether both are told by a clock of no known zone; else the clock is that of UTC.
    pub is_local: bool,
}

/// Another time for a file.
#[derive(Clone, Copy, Debug)]
pub struct TimeChange {
    pub time: Time,
    /// The time that it must have had, if there is one.
    pub was: Option<Time>,
    /// Whether its bytes are those that are meant to have the time; else it stays.
    pub is_exact: bool,
}
