//! The rule that all steps on an engine's table of atomic words keep, and the table and hands that make such steps.
//!
//! A kind of step is data (`specs/Kinds.antt`), and the rule is a record of parts over the words by their names and the
//! views of all seats (`specs/Rule.antt`, one file of `specs/Parts/` each). docs/RULE.md says what the parts are.
#![tactic(auto)]

mod begin;
mod collects;
mod hand;
mod links;
mod looks;
mod places;
mod publish;
mod rule;
mod searches;
mod seats;
mod shared;
mod status;
mod steps;
mod validate;
mod versions;
mod view;

pub use hand::Hand;
pub use histories::{AnyState, Keeps};
pub use links::link_place;
pub use shared::Core;
pub use status::Status;
pub use versions::{ReadVersion, WrittenVersion};
