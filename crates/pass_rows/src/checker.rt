//! A plain checker of what transactions have read and written.

use std::alloc::{AllocError, Global};

/// What a touch of a record is: a read of a transaction, a write, or a read of a snapshot. At one stamp they stand in this order.
pub const READ: u32 = 0;

pub const WRITE: u32 = 1;

pub const SNAPSHOT: u32 = 2;

/// The stamp, what it is, the record, and the number of the value, where 0 is none.
pub type Touch = (u64, u32, u32, u64);

/// How many writes there are, where each read is of the latest write before it, by rising stamp. The records are absent at first.
pub fn lawful(
    alloc: Global,
    touches: &mut Vec<Touch>,
    records: u32,
) -> Result<Option<u64>, AllocError> {
    touches.sort()?;
    let mut left = vec![in alloc; 0u64; records as usize]?;
    let mut writes = 0u64;
    for (_stamp, kind, record, number) in touches.iter() {
        let Some(value) = left.get_mut(*record as usize) else {
            return Ok(None);
        };
        if *kind == WRITE {
            *value = *number;
            writes = writes.wrapping_add(1);
        } else if *value != *number {
            return Ok(None);
        }
    }
    Ok(Some(writes))
}
