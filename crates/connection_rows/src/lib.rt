//! Tests of the calls of a connection: worked rows, what each call answers where it does not fit, numbers at their limits, transactions in
//! each other's way, and want of records, of places and of clocks.
//!
//! They stand here, apart from the crate that they are of, since a crate with tests is proved twice.
#![tactic(auto)]

#[cfg(test)]
mod acts;
#[cfg(test)]
mod conflicts;
#[cfg(test)]
mod limits;
#[cfg(test)]
mod misused;
#[cfg(test)]
mod told;
#[cfg(test)]
mod walk;
#[cfg(test)]
mod wanting;
#[cfg(test)]
mod worked;
