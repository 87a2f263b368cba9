//! A large input made from a number, and the summary of a run over it.
//!
//! The same number gives the same text. All its transactions move amounts between accounts, so whatever order they run in, the
//! accounts keep their sum, and the summary shows it.
#![tactic(auto)]

mod generating;
mod generator;
mod lines;
mod summing_up;
mod totals;

pub use generating::generate;
pub use summing_up::{summary, summary_of_rows};
