//! Tests of the engine's crates: worked rows, each public call once on its happy path, and what several threads leave.
//!
//! They stand here, apart from the crates that they are of, since a crate with tests is proved twice.
#![tactic(auto)]

#[cfg(test)]
mod clocks;
#[cfg(test)]
mod collection;
#[cfg(test)]
mod deletion;
#[cfg(test)]
mod due;
#[cfg(test)]
mod faults;
#[cfg(test)]
mod lists;
#[cfg(test)]
mod places;
#[cfg(test)]
mod rule;
#[cfg(test)]
mod stamps;
#[cfg(test)]
mod tables;
#[cfg(test)]
mod validation;
#[cfg(test)]
mod words;
