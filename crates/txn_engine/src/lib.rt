//! The engine: what all seats share, and the passes, transactions and snapshots of its seats.
#![tactic(auto)]

mod alone;
mod at_alone;
mod at_pass;
mod engine;
mod fresh;
mod handing;
mod joining;
mod opened;
mod parts;
mod pass;
mod promoting;
mod rescan;
mod retired;
mod seat;
mod seat_calls;
mod settling;
mod sharing;
mod snapshot;
mod staged;
mod transacting;
mod txn;

pub use alone::Alone;
pub use clock_stamps::ClockOut;
pub use engine::{Engine, Lent};
pub use engine_answers::{
    AloneFault, BeginFault, CommitFault, Committed, NoFault, PromoteFault, Promotion, StartFault,
    TxnFault,
};
pub use pass::Pass;
pub use rapid_gc::Collected;
pub use retired::Retired;
pub use seat::Seat;
pub use seat_post::Settled;
pub use snapshot::{AloneSnapshot, Snapshot, SnapshotOver};
pub use staged::{DecidedOver, DecidedTxn, InstalledOver, InstalledTxn};
pub use txn::{AloneTxn, Txn, TxnOver};
pub use validate_core::Conflict;
pub use version_pool::PlacesOut;
