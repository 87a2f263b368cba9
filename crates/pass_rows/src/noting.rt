//! Transactions and snapshots that touch drawn records, and note each touch.
ghost use Rattle.std.specs.Prelude.{◌≡◌, ◌<◌};

use crate::checker::{READ, Touch, WRITE};
use crate::values::{cells, number_of};
use record_store::{RecordRead, RecordStore};

/// Numbers drawn by a linear congruential generator of 64 bits.
#[derive(Drop)]
pub struct Draws {
    pub state: u64,
}

impl Draws {
    /// The next one below a number, from the upper bits.
    pub fn below(&mut self, bound: u32) -> u32
        requires { 0 < bound }
        ensures { result < bound }
    {
        let product = self.state.wrapping_mul(6_364_136_223_846_793_005);
        self.state = product.wrapping_add(1_442_695_040_888_963_407);
        ((self.state >> 33) % u64::from(bound)) as u32
    }
}

/// Reads a record, and notes it.
pub fn note_read<F: Drop, S: RecordRead<Fault = F>>(
    store: &mut S,
    stamp: u64,
    kind: u32,
    rid: u32,
    touches: &mut Vec<Touch>,
) -> bool
    ensures { S.rest store.new ≡ S.rest store.old }
{
    if rid >= store.size() {
        return false;
    }
    let Some(value) = store.read(rid).ok() else {
        return false;
    };
    let number = number_of(&value).unwrap_or(0);
    touches.push((stamp, kind, rid, number)).is_ok()
}

/// Reads so many records, and notes them.
pub fn note_all<F: Drop, S: RecordRead<Fault = F>>(
    store: &mut S,
    stamp: u64,
    kind: u32,
    records: u32,
    touches: &mut Vec<Touch>,
) -> bool
    ensures { S.rest store.new ≡ S.rest store.old }
{
    for rid in 0..records {
        if !note_read(store, stamp, kind, rid, touches) {
            return false;
        }
    }
    true
}

// Writes a record, and notes it. The number 0 deletes it.
fn note_write<F: Drop, S: RecordStore<Fault = F>>(
    store: &mut S,
    stamp: u64,
    rid: u32,
    number: u64,
    touches: &mut Vec<Touch>,
) -> bool
    ensures { S.rest store.new ≡ S.rest store.old }
{
    if rid >= store.size() {
        return false;
    }
    let value = if number == 0 {
        None
    } else {
        Some(cells(number))
    };
    store.write(rid, value).is_ok() && touches.push((stamp, WRITE, rid, number)).is_ok()
}

// Makes a new record, which is noted as read and written.
fn note_new<F: Drop, S: RecordStore<Fault = F>>(
    store: &mut S,
    stamp: u64,
    number: u64,
    touches: &mut Vec<Touch>,
) -> bool
    ensures { S.rest store.new ≡ S.rest store.old }
{
    let Some(rid) = store.fresh().ok() else {
        return false;
    };
    touches.push((stamp, READ, rid, 0)).is_ok() && note_write(store, stamp, rid, number, touches)
}

/// Reads three records, deletes one of them now and then, writes the other two, and makes a new one now and then, with numbers from
/// this one on. It tells whether the store refused none of the calls.
pub fn touch<F: Drop, S: RecordStore<Fault = F>>(
    store: &mut S,
    draws: &mut Draws,
    records: u32,
    stamp: u64,
    number: u64,
    touches: &mut Vec<Touch>,
) -> bool
    requires { 0 < records }
    ensures { S.rest store.new ≡ S.rest store.old }
{
    let first = draws.below(records);
    let second = draws.below(records);
    let third = draws.below(records);
    note_read(store, stamp, READ, first, touches)
        && note_read(store, stamp, READ, second, touches)
        && note_read(store, stamp, READ, third, touches)
        && (draws.below(4) > 0 || note_write(store, stamp, third, 0, touches))
        && note_write(store, stamp, first, number, touches)
        && note_write(store, stamp, second, number.wrapping_add(1), touches)
        && (draws.below(8) > 0 || note_new(store, stamp, number.wrapping_add(2), touches))
}
