//! Input texts: reading them, and printing what a run answers.
//!
//! The grammar of an input stands in `specs/Grammar.antt`, by lines and what they gather; [`parse`] reads the bytes once,
//! from the first line to the last.
#![tactic(auto)]

mod bytes;
mod digits;
mod fault;
mod keyed_rows;
mod keyword;
mod line;
mod lookup;
mod meaning;
mod numbers;
mod parsing;
mod place;
mod printing;
mod reader;
mod words;

pub use fault::{InputFault, Kind, ParseFault};
pub use parsing::parse;
pub use printing::{print_block, print_table};
