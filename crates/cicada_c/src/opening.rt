//! Opening an engine.

ghost use Rattle.std.specs.Prelude.{◌≡◌, ◌↔◌, ◌⊎◌, length, pos};
ghost use Rattle.connections.specs.Opening.{size_for};
ghost use Rattle.word_layout.specs.Size.{IsSize};

use crate::status::{CicadaConflict, NO_MEMORY, OK, RANGE, status_of};
use connections::{Connection, open};
use std::alloc::{AllocError, Global};

// Each connection in a box of its own.
fn boxed(alloc: Global, connections: Vec<Connection>) -> Result<Vec<Box<Connection>>, AllocError> {
    let mut boxes = Vec::new(alloc);
    for connection in connections {
        boxes.push(Box::new(alloc, connection)?)?;
    }
    Ok(boxes)
}

/// Makes an engine of as many connections as there are places in `out`, and writes a pointer to each.
#[unsafe(no_mangle)]
pub extern "C" fn cicada_proved_open(
    alloc: Global,
    rows: u32,
    spare: u32,
    out: &mut [*mut u8],
    beside: &mut CicadaConflict,
) -> i32
    ensures range { (result ≡ pos 7) ↔ (¬ IsSize (size_for (length out.old) rows spare)) }
    ensures only { (result ≡ pos 0) ⊎ (result ≡ pos 5) ⊎ (result ≡ pos 7) }
    ensures refused { ¬ (result ≡ pos 0) → out.new ≡ out.old }
{
    if out.len() > 64 {
        return RANGE;
    }
    let connections = match open(alloc, out.len() as u32, rows, spare) {
        Ok(connections) => connections,
        Err(fault) => return status_of(fault, beside),
    };
    let Ok(boxes) = boxed(alloc, connections) else {
        return NO_MEMORY;
    };
    hand_out(boxes, out);
    OK
}

// Writes a pointer to each connection, in their order.
fn hand_out(boxes: Vec<Box<Connection>>, out: &mut [*mut u8]) {
    let mut places = out.iter_mut();
    for connection in boxes {
        if let Some(place) = places.next() {
            *place = Box::into_raw(connection) as *mut u8;
        }
    }
}
