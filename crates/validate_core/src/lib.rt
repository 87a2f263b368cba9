//! Validation of a transaction: installing its writes as pending versions, deciding it, and storing the last statuses.
//!
//! The order is that of Lim, Kaminsky and Andersen, "Cicada: Dependably Fast Multi-Core In-Memory Transactions" (SIGMOD
//! 2017): install, raise the read stamps, check what was read and what is overwritten, and publish.
#![tactic(auto)]

mod checking;
mod conflict;
mod deciding;
mod installing;
mod noted;
mod sets;
mod statuses;

pub use conflict::Conflict;
pub use deciding::{Decided, Installed};
pub use installing::{install, install_held};
pub use sets::Sets;
