//! Why a call is refused.

use txn_engine::{Conflict, TxnFault};

/// Why a call of a connection is refused. What is open after each is said where the call is.
#[derive(Clone, Copy, PartialEq, Eq, Debug, thiserror::Error)]
pub enum CallFault {
    /// Another transaction is in the way. The transaction has ended without a trace, and may be tried again.
    #[error("another transaction is in the way: begin again")]
    Conflict(Conflict),
    /// No place for versions is left. The transaction has ended without a trace.
    #[error("no place for versions is left: collect, and begin again")]
    PlacesOut,
    /// No record number is left for a new row. The transaction has ended without a trace.
    #[error("no record is left for a new row")]
    RecordsOut,
    /// The allocator had no room.
    #[error("the allocator had no room")]
    NoMemory,
    /// The clock of the seat has come to its end: it draws no stamp any more.
    #[error("the clock of the seat has come to its end")]
    ClockOut,
    /// A number is out of its range. Nothing has changed.
    #[error("a number is out of its range")]
    Range,
    /// What is open at the connection does not fit the call. Nothing has changed.
    #[error("what is open at the connection does not fit the call")]
    Misused,
}

impl From<TxnFault> for CallFault {
    ghost use Rattle.std.specs.Prelude.{◌≡◌};
    ghost use Rattle.connections.specs.Rows.{fault_of};

    ghost from_gives = { λ fault answer. answer ≡ fault_of fault };

    fn from(fault: TxnFault) -> Self {
        match fault {
            TxnFault::Conflict(conflict) => CallFault::Conflict(conflict),
            TxnFault::RecordsOut => CallFault::RecordsOut,
            TxnFault::NoMemory => CallFault::NoMemory,
        }
    }
}
