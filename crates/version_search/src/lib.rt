//! Searching the list of a record for the version that is visible at a stamp, loading its value, and linking a version.
//!
//! The search is that of Lim, Kaminsky and Andersen, "Cicada: Dependably Fast Multi-Core In-Memory Transactions" (SIGMOD
//! 2017), but for a pending version, which ends it. A version is linked by one exchange in the middle of its list, as in
//! Harris, "A Pragmatic Implementation of Non-Blocking Linked-Lists" (DISC 2001).
#![tactic(auto)]

mod finding;
mod firsts;
mod fronts;
mod links;
mod loading;
mod walking;

pub use finding::{Found, find, find_again, find_to_check};
pub use firsts::first;
pub use fronts::First;
pub use links::link;
pub use loading::{load_into, load_value, load_words};
pub use walking::Shown;
