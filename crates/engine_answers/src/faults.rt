//! Why calls are refused.

use clock_stamps::ClockOut;
use plain_data::NoMemory;
use validate_core::Conflict;
use version_pool::PlacesOut;

/// Why an engine is not made.
#[derive(Clone, Copy, PartialEq, Eq, Debug, thiserror::Error)]
pub enum StartFault {
    /// A number is out of its range.
    #[error("limit")]
    Limit,
    /// The allocator had no room.
    #[error("no memory")]
    NoMemory,
}

/// Why a transaction does not begin.
#[derive(Clone, Copy, PartialEq, Eq, Debug, thiserror::Error)]
pub enum BeginFault {
    /// The clock of the pass has come to its end.
    #[error("clock out")]
    ClockOut,
    /// The allocator had no room.
    #[error("no memory")]
    NoMemory,
}

/// Why a transaction does not read or write.
#[derive(Clone, Copy, PartialEq, Eq, Debug, thiserror::Error)]
pub enum TxnFault {
    /// Another transaction is in the way. From then on every call answers the same.
    #[error("conflict: {0}")]
    Conflict(Conflict),
    /// No spare record number is left for a new record.
    #[error("records out")]
    RecordsOut,
    /// The allocator had no room. The transaction is as before.
    #[error("no memory")]
    NoMemory,
}

/// Why a transaction of the seat that is alone does not read or write.
#[derive(Clone, Copy, PartialEq, Eq, Debug, thiserror::Error)]
pub enum AloneFault {
    /// No spare record number is left for a new record.
    #[error("records out")]
    RecordsOut,
    /// The allocator had no room. The transaction is as before.
    #[error("no memory")]
    NoMemory,
}

/// Why a transaction does not commit.
#[derive(Clone, Copy, PartialEq, Eq, Debug, thiserror::Error)]
pub enum CommitFault {
    /// Another transaction is in the way.
    #[error("conflict: {0}")]
    Conflict(Conflict),
    /// There is no place for one of its versions.
    #[error("places out")]
    PlacesOut,
}

/// A fault that never comes: it has no values.
#[derive(Clone, Copy, Drop)]
pub enum NoFault {}

impl From<NoMemory> for StartFault {
    ghost use Rattle.std.specs.Prelude.{◌≡◌};
    ghost use Rattle.engine_answers.specs.declared.faults.StartFault.TheVariants as fault;

    ghost from_gives = { λ _ answer. answer ≡ fault.NoMemory };

    fn from(_error: NoMemory) -> Self {
        StartFault::NoMemory
    }
}

impl From<NoMemory> for BeginFault {
    ghost use Rattle.std.specs.Prelude.{◌≡◌};
    ghost use Rattle.engine_answers.specs.declared.faults.BeginFault.TheVariants as fault;

    ghost from_gives = { λ _ answer. answer ≡ fault.NoMemory };

    fn from(_error: NoMemory) -> Self {
        BeginFault::NoMemory
    }
}

impl From<ClockOut> for BeginFault {
    ghost use Rattle.std.specs.Prelude.{◌≡◌};
    ghost use Rattle.engine_answers.specs.declared.faults.BeginFault.TheVariants as fault;

    ghost from_gives = { λ _ answer. answer ≡ fault.ClockOut };

    fn from(_error: ClockOut) -> Self {
        BeginFault::ClockOut
    }
}

impl From<NoMemory> for TxnFault {
    ghost use Rattle.std.specs.Prelude.{◌≡◌};
    ghost use Rattle.engine_answers.specs.declared.faults.TxnFault.TheVariants as fault;

    ghost from_gives = { λ _ answer. answer ≡ fault.NoMemory };

    fn from(_error: NoMemory) -> Self {
        TxnFault::NoMemory
    }
}

impl From<PlacesOut> for CommitFault {
    ghost use Rattle.std.specs.Prelude.{◌≡◌};
    ghost use Rattle.engine_answers.specs.declared.faults.CommitFault.TheVariants as fault;

    ghost from_gives = { λ _ answer. answer ≡ fault.PlacesOut };

    fn from(_error: PlacesOut) -> Self {
        CommitFault::PlacesOut
    }
}

impl From<Conflict> for CommitFault {
    ghost use Rattle.std.specs.Prelude.{◌≡◌};
    ghost use Rattle.engine_answers.specs.declared.faults.CommitFault.TheVariants as fault;

    ghost from_gives = { λ conflict answer. answer ≡ fault.Conflict conflict };

    fn from(conflict: Conflict) -> Self {
        CommitFault::Conflict(conflict)
    }
}
