//! Whether a text is the report of an input, in the order that it prints; if not, what is wrong with it.
//!
//! The order is read from the head lines alone; what else a report says is made again from the input and compared.
#![tactic(auto)]

mod bytes;
mod checking;
mod comparing;
mod head;
mod numbers;
mod printing;

pub use checking::{Verdict, check};
pub use head::{Head, Said};
pub use printing::printed;
