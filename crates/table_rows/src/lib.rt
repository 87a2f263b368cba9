//! Tests of stores of records, and of the indexes and tables over them: worked rows, and blocks of commands that run over a map of
//! records in memory and over the plain tables side by side.
#![tactic(auto)]

#[cfg(test)]
mod beside;
#[cfg(test)]
mod counted;
#[cfg(test)]
mod draws;
#[cfg(test)]
mod filled;
#[cfg(test)]
mod generated;
#[cfg(test)]
mod indexed;
#[cfg(test)]
mod nodes;
#[cfg(test)]
mod outcomes;
#[cfg(test)]
mod plain;
#[cfg(test)]
mod reads;
#[cfg(test)]
mod script;
#[cfg(test)]
mod shapes;
#[cfg(test)]
mod store;
#[cfg(test)]
mod typed;
#[cfg(test)]
mod worked;
