//! Record numbers that are handed round: whoever has too many offers them, and whoever has too few takes some.
//!
//! A bounded queue that all share holds them, each with the stamp up to which its record may have been used. No call waits or takes
//! memory: one that finds others in its way tries again a bounded number of times, and is refused then.
#![tactic(auto)]

mod number;
mod pass;
mod rule;

pub use number::Number;
pub use pass::NumberPass;
