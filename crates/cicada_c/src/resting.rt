//! What is done while nothing is open, and what is asked at any time.
ghost use Rattle.std.specs.Prelude.{◌≡◌};
ghost use Rattle.connections.specs.EachCall.{Collect, Hear, Tick};
ghost use Rattle.cicada_c.specs.Status.{Answers, Counts, coded, coded_opened, noted, places_or, value_or};

use crate::handle::CicadaHandle;
use crate::status::{CicadaConflict, OK, status, status_of, status_with};
use connections::{CallFault, Connection, Opened};

/// Takes back older versions. `places`: how many places were freed.
#[unsafe(no_mangle)]
pub extern "C" fn cicada_proved_collect(
    handle: &mut CicadaHandle,
    places: &mut u32,
    beside: &mut CicadaConflict,
) -> i32
    ensures { Answers Collect coded (λ answer. (beside.new ≡ noted beside.old answer) × (places.new ≡ places_or places.old answer)) handle.old handle.new result }
{
    match handle.connection().collect() {
        Ok(collected) => {
            *places = collected.places;
            OK
        }
        Err(fault) => status_of(fault, beside),
    }
}

/// Hears a stamp: each later stamp of this connection is above it.
#[unsafe(no_mangle)]
pub extern "C" fn cicada_proved_hear(
    handle: &mut CicadaHandle,
    stamp: u64,
    beside: &mut CicadaConflict,
) -> i32
    ensures { Answers (Hear stamp) coded (λ answer. beside.new ≡ noted beside.old answer) handle.old handle.new result }
{
    status(handle.connection().hear(stamp), beside)
}

/// Draws a stamp that no transaction gets: the others do not wait for what is below it.
#[unsafe(no_mangle)]
pub extern "C" fn cicada_proved_tick(
    handle: &mut CicadaHandle,
    reading: u64,
    stamp: &mut u64,
    beside: &mut CicadaConflict,
) -> i32
    ensures { Answers (Tick reading) coded (λ answer. (beside.new ≡ noted beside.old answer) × (stamp.new ≡ value_or stamp.old answer)) handle.old handle.new result }
{
    status_with(handle.connection().tick(reading), stamp, beside)
}

/// What is open: 0 nothing, 1 a transaction, 2 one that a fault has ended, 3 a snapshot, 4 nothing any more.
#[unsafe(no_mangle)]
pub extern "C" fn cicada_proved_opened(handle: &mut CicadaHandle) -> u32
    ensures value { result ≡ coded_opened handle.old.value.opened }
    ensures same_connection { handle.new.value ≡ handle.old.value }
    ensures same_pointer { handle.new.at ≡ handle.old.at }
{
    match handle.connection().opened() {
        Opened::Nothing => 0,
        Opened::Transaction => 1,
        Opened::Spoiled => 2,
        Opened::Snapshot => 3,
        Opened::Closed => 4,
    }
}

/// What a connection has done, and what it has.
#[derive(Clone, Copy, Drop)]
#[repr(C)]
pub struct CicadaCounts {
    /// Transactions of the connection that committed.
    pub commits: u64,
    /// Transactions of the connection that were refused.
    pub refusals: u64,
    /// Numbers of records that the connection has at hand for new rows.
    pub records: u64,
    /// Versions that it has committed, and below which nothing was taken back yet.
    pub queued: u64,
}

/// What the connection has done, and what it has.
#[unsafe(no_mangle)]
pub extern "C" fn cicada_proved_counts(
    handle: &mut CicadaHandle,
    counts: &mut CicadaCounts,
    beside: &mut CicadaConflict,
) -> i32
    ensures { Answers Counts coded (λ answer. (beside.new ≡ noted beside.old answer) × (counts.new ≡ value_or counts.old answer)) handle.old handle.new result }
{
    match counted(handle.connection()) {
        Ok(now) => {
            *counts = now;
            OK
        }
        Err(fault) => status_of(fault, beside),
    }
}

fn counted(connection: &Connection) -> Result<CicadaCounts, CallFault>
    ensures { Counts connection.now connection.now result }
{
    let commits = connection.commits()?;
    let refusals = connection.refusals()?;
    let records = connection.spare_records()?;
    let queued = connection.queued()?;
    Ok(CicadaCounts {
        commits,
        refusals,
        records: records as u64,
        queued: queued as u64,
    })
}
