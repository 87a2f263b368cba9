//! Steps of a script, walked one behind the other.

use crate::acts::{Act, make};
use crate::told::Told;
use connections::{CallFault, Connection, Opened, open};
use std::alloc::Global;
use std::process::Abort;

/// A call at the connection of this seat, what it has to tell, and what is open there behind it.
pub type Step = (usize, Act, Told, Opened);

/// An engine of so many seats, rows and places has to come.
pub fn opened<R: Abort>(
    rt: &R,
    alloc: Global,
    seats: u32,
    rows: u32,
    spare: u32,
) -> Vec<Connection> {
    match open(alloc, seats, rows, spare) {
        Ok(connections) => {
            assert_eq!(rt; connections.len(), seats as usize);
            connections
        }
        Err(fault) => {
            assert_eq!(rt; fault, CallFault::NoMemory, "memory is ample");
            Vec::new(alloc)
        }
    }
}

// Makes one step.
fn step<R: Abort>(rt: &R, alloc: Global, connection: &mut Connection, step: &Step, number: usize) {
    let (_, act, due, open) = *step;
    let told = make(alloc, connection, act);
    assert_eq!(rt; told, due, "at step {number}");
    assert_eq!(rt; connection.opened(), open, "behind step {number}");
}

/// Puts so many rows of the first table, from key 1 on, in the transaction that is open at the first connection: so many find room.
pub fn fill<R: Abort>(rt: &R, alloc: Global, connections: &mut [Connection], rows: u64) {
    for key in 0..rows {
        let put = Act::Put(0, key + 1, (70, 0));
        walk(
            rt,
            alloc,
            connections,
            &[(0, put, Told::Done, Opened::Transaction)],
        );
    }
}

/// Makes each step.
pub fn walk<R: Abort>(rt: &R, alloc: Global, connections: &mut [Connection], steps: &[Step]) {
    for (number, it) in steps.iter().enumerate() {
        match connections.get_mut(it.0) {
            Some(connection) => step(rt, alloc, connection, it, number),
            None => assert!(rt; false, "no such seat at step {number}"),
        }
    }
}
