//! What the calls of an engine answer beside values: why a call is refused, what a commit tells, and what becomes of a
//! promotion.
#![tactic(auto)]

mod committed;
mod faults;
mod promotion;

pub use committed::Committed;
pub use faults::{AloneFault, BeginFault, CommitFault, NoFault, StartFault, TxnFault};
pub use promotion::{PromoteFault, Promotion};
