//! Tests of the engine's public calls: worked rows, refused memory, the greatest sizes, many commits, passes in threads, and a checker
//! of what they read and wrote.
//!
//! They stand here, apart from the crate that they are of, since a crate with tests is proved twice.
#![tactic(auto)]

#[cfg(test)]
mod alone;
#[cfg(test)]
mod calls;
#[cfg(test)]
mod checker;
#[cfg(test)]
mod coming;
#[cfg(test)]
mod deeds;
#[cfg(test)]
mod due;
#[cfg(test)]
mod flights;
#[cfg(test)]
mod handing;
#[cfg(test)]
mod limits;
#[cfg(test)]
mod meeting;
#[cfg(test)]
mod noting;
#[cfg(test)]
mod opening;
#[cfg(test)]
mod play;
#[cfg(test)]
mod refused;
#[cfg(test)]
mod rows;
#[cfg(test)]
mod stress;
#[cfg(test)]
mod threads;
#[cfg(test)]
mod values;
