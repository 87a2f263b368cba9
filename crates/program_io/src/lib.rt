//! What a run of the program is asked for, what it reads, and how it writes: the words of its command, a source and a sink.
//!
//! The words say what to do ([`words`], by the options of [`options`]: a [`mode`] and settings), a source is read whole ([`reading`]), what is
//! to be checked is parted into an input and a report ([`parts`]), and a text is written whole ([`writing`]).
#![tactic(auto)]

mod mode;
mod options;
mod parts;
mod reading;
mod words;
mod writing;

pub use mode::{Mode, Settings};
pub use parts::parts_of;
pub use reading::{ReadingFault, receive};
pub use words::{Refusal, read_words};
pub use writing::{Stopped, write_all};

/// The greatest length of an input text, in bytes.
pub const MAX_INPUT: usize = 4_194_304;

/// The greatest length of an input text with a report behind it, in bytes.
pub const MAX_CHECKED: usize = 71_303_168;
