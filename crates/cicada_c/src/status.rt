//! What the calls answer, as numbers.
ghost use Rattle.std.specs.Prelude.{◌≡◌};
ghost use Rattle.cicada_c.specs.Status.{coded, coded_fault, noted, noted_fault, told, value_or};

use connections::{CallFault, Conflict};

/// It is done.
pub const OK: i32 = 0;
/// There is no row at the key.
pub const ABSENT: i32 = 1;
/// Another transaction is in the way.
pub const CONFLICT: i32 = 2;
/// No place for versions is left.
pub const PLACES_OUT: i32 = 3;
/// No record number is left for a new row.
pub const RECORDS_OUT: i32 = 4;
/// The allocator had no room.
pub const NO_MEMORY: i32 = 5;
/// The clock of the connection has come to its end.
pub const CLOCK_OUT: i32 = 6;
/// A number is out of its range.
pub const RANGE: i32 = 7;
/// What is open at the connection does not fit the call.
pub const MISUSED: i32 = 8;

/// The stamp and the record of the conflict that a call of a connection answered last; zeros before the first one.
#[derive(Clone, Copy, Drop)]
#[repr(C)]
pub struct CicadaConflict {
    /// The stamp that is in the way, as a number: whoever hears it begins above it.
    pub stamp: u64,
    /// The record at which it is.
    pub rid: u32,
}

/// The status of a fault; a conflict is noted.
pub(crate) fn status_of(fault: CallFault, beside: &mut CicadaConflict) -> i32
    ensures status { result ≡ coded_fault fault }
    ensures noted { beside.new ≡ noted_fault beside.old fault }
{
    match fault {
        CallFault::Conflict(conflict) => {
            *beside = told(conflict);
            CONFLICT
        }
        CallFault::PlacesOut => PLACES_OUT,
        CallFault::RecordsOut => RECORDS_OUT,
        CallFault::NoMemory => NO_MEMORY,
        CallFault::ClockOut => CLOCK_OUT,
        CallFault::Range => RANGE,
        CallFault::Misused => MISUSED,
    }
}

/// The status of an answer without a value.
pub(crate) fn status(answer: Result<(), CallFault>, beside: &mut CicadaConflict) -> i32
    ensures status { result ≡ coded answer }
    ensures noted { beside.new ≡ noted beside.old answer }
{
    match answer {
        Ok(()) => OK,
        Err(fault) => status_of(fault, beside),
    }
}

/// The status of an answer of a number, which is put into its place.
pub(crate) fn status_with(
    answer: Result<u64, CallFault>,
    place: &mut u64,
    beside: &mut CicadaConflict,
) -> i32
    ensures status { result ≡ coded answer }
    ensures noted { beside.new ≡ noted beside.old answer }
    ensures value { place.new ≡ value_or place.old answer }
{
    match answer {
        Ok(number) => {
            *place = number;
            OK
        }
        Err(fault) => status_of(fault, beside),
    }
}

// What a conflict tells.
fn told(conflict: Conflict) -> CicadaConflict
    ensures { result ≡ told conflict }
{
    match conflict {
        Conflict::Pending { rid, wts } => CicadaConflict { stamp: wts, rid },
        Conflict::ReadLater { rid, wts: _, rts } => CicadaConflict { stamp: rts, rid },
        Conflict::Overtaken { rid, seen: _, now } => CicadaConflict { stamp: now, rid },
    }
}
