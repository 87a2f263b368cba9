//! The run of an input on an engine: from its rows and lanes to the results of its blocks in the order of their stamps, the rows of its
//! tables as they were last, and the history of it; and the texts of these.
#![tactic(auto)]

mod copying;
mod printing;
mod reading;
mod running;
mod sizes;

pub use copying::copy_lanes;
pub use printing::{report_of, summary_of};
pub use reading::read_tables;
pub use running::{Ran, run_input};
