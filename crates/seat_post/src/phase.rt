//! How far a transaction is.

/// How far the transaction of a pass is.
#[derive(Clone, Copy, PartialEq, Eq, Debug)]
pub enum Phase {
    /// None is in flight.
    Idle,
    /// It reads and writes.
    Open,
    /// Its versions are linked.
    Installed,
    /// It is decided, and its entry is in the log.
    Decided,
}
