//! Dumps beside running writers: a run whose tables are written as they stood while it went on.
#![tactic(auto)]

mod running;
mod texts;
mod words;
mod writing;

pub use running::run_dumps;
pub use texts::text_of_dump;
