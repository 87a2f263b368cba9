//! What is open at a connection.

/// What is open at a connection.
#[derive(Clone, Copy, PartialEq, Eq, Debug)]
pub enum Opened {
    /// Nothing: a transaction or a snapshot may begin.
    Nothing,
    /// A transaction.
    Transaction,
    /// A transaction that a fault of a row's call has ended without a trace: `abort` alone is left to it.
    Spoiled,
    /// A snapshot.
    Snapshot,
    /// Nothing any more: the seat has retired.
    Closed,
}
