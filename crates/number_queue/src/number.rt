//! What stands in the queue.

/// The number of a record that a transaction may use whose stamp is above `since`: each that used it so far had a stamp up to that.
#[derive(Clone, Copy, Drop)]
pub struct Number {
    pub rid: u32,
    pub since: u64,
}
