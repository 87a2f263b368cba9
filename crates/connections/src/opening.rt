//! An engine, and a connection to each of its seats.

ghost use Rattle.std.specs.Prelude.{◌≡◌, ◌↔◌, All, Err, IfOk, IfErr, false};
ghost use Rattle.std.specs.Arc.{arc_value};
ghost use Rattle.connections.specs.Connection.{AreNumbersOf, HoldsTables};
ghost use Rattle.connections.specs.Opening.{AreConnected, IsConnected, IsOpened, IsRefused, advised, size_for};
ghost use Rattle.connections.specs.declared.fault.CallFault.TheVariants.{Range, NoMemory};
ghost use Rattle.txn_engine.specs.Pass.{IsIdleOf, first_pass};
ghost use Rattle.word_layout.specs.Size.{IsSize};

use crate::connection::Connection;
use crate::fault::CallFault;
use crate::handing::{KEPT, give};
use crate::opened::Opened;
use number_queue::NumberPass;
use std::alloc::Global;
use std::sync::Arc;
use stored_tables::{FIXED_RECORDS, RowsLawful};
use txn_engine::{Alone, Engine, Pass, StartFault};
use word_layout::{MAX_RECORDS, MAX_SEATS, MAX_SPARE};

/// The places for versions that are advised for each seat.
const PLACES_FOR_SEAT: u32 = 10_000;

/// Connections to a new engine of eight empty tables, by rising seat number: so many `seats` (1 to 64), with room for so many records of
/// `rows` (at most 195,888 less 32 for each seat; two a row, where rows come and go up to four, six with an index), and `spare` places
/// for versions beside one for each record (at most 262,144). Where `spare` is 0 it is as advised: one for each row, and 10,000 for each
/// seat, or the most that there may be.
///
/// All memory of the engine is taken here. `Range`: a number is out of its range.
pub fn open(alloc: Global, seats: u32, rows: u32, spare: u32) -> Result<Vec<Connection>, CallFault>
    ensures range { (result ≡ Err Range) ↔ (¬ IsSize (size_for seats rows spare)) }
    ensures opened { IfOk result (λ connections. IsOpened seats rows spare connections.items) }
    ensures refused { IfErr result IsRefused }
{
    let (engine, alone) = start(alloc, seats, rows, spare)?;
    let passes = alone.share(&engine);
    let Ok(engine) = Arc::new(alloc, engine) else {
        return Err(CallFault::NoMemory);
    };
    connect(alloc, engine, passes)
}

// The engine, and its seat that is alone.
fn start(
    alloc: Global,
    seats: u32,
    rows: u32,
    spare: u32,
) -> Result<(Engine<RowsLawful>, Alone<RowsLawful>), CallFault>
    ensures range { (result ≡ Err Range) ↔ (¬ IsSize (size_for seats rows spare)) }
    ensures size { IfOk result (λ made. made.0.size ≡ size_for seats rows spare) }
    ensures fixed { IfOk result (λ made. made.0.fixed ≡ 4112) }
    ensures tables { IfOk result (λ made. HoldsTables made.0) }
    ensures first { IfOk result (λ made. made.1.pass ≡ first_pass made.0) }
    ensures not_shared { IfOk result (λ made. made.1.shared ≡ false) }
    ensures refused { IfErr result IsRefused }
{
    // More records, or seats, than there may be are too many. Each seat may keep so many numbers to itself.
    let records = rows.min(MAX_RECORDS) + FIXED_RECORDS + seats.min(MAX_SEATS) * KEPT;
    let places = if spare == 0 {
        advised(seats, rows)
    } else {
        spare
    };
    match Engine::start(alloc, seats, records, FIXED_RECORDS, places) {
        Ok(made) => Ok(made),
        Err(StartFault::Limit) => Err(CallFault::Range),
        Err(StartFault::NoMemory) => Err(CallFault::NoMemory),
    }
}

// How many places for versions are advised.
fn advised(seats: u32, rows: u32) -> u32
    ensures { result ≡ advised seats rows }
{
    let places = seats.saturating_mul(PLACES_FOR_SEAT).saturating_add(rows);
    places.min(MAX_SPARE)
}

// A connection for this pass, which gives its numbers but for those that it keeps.
fn connect_one(
    engine: &Arc<Engine<RowsLawful>>,
    first: &NumberPass,
    mut pass: Pass<RowsLawful>,
) -> Result<Connection, CallFault>
    requires pass { IsIdleOf (arc_value engine.now) pass }
    requires tables { HoldsTables (arc_value engine.now) }
    requires numbers { AreNumbersOf (arc_value engine.now) first.now }
    ensures connected { IfOk result (IsConnected (arc_value engine.now) pass) }
    ensures fault { IfErr result (λ f. f ≡ NoMemory) }
{
    let Ok(engine) = Arc::try_clone(engine) else {
        return Err(CallFault::NoMemory);
    };
    let Ok(mut numbers) = first.another() else {
        return Err(CallFault::NoMemory);
    };
    give(&mut pass, &mut numbers, KEPT);
    Ok(Connection {
        engine,
        pass: Some(pass),
        retired: None,
        opened: Opened::Nothing,
        numbers,
    })
}

// A connection for each pass, in their order.
fn connect(
    alloc: Global,
    engine: Arc<Engine<RowsLawful>>,
    passes: Vec<Pass<RowsLawful>>,
) -> Result<Vec<Connection>, CallFault>
    requires passes { All (IsIdleOf (arc_value engine)) passes.items }
    requires tables { HoldsTables (arc_value engine) }
    ensures connections { IfOk result (λ connections. AreConnected (arc_value engine) passes.items connections.items) }
    ensures fault { IfErr result (λ f. f ≡ NoMemory) }
{
    let Ok(first) = NumberPass::first(alloc, engine.fixed(), engine.records()) else {
        return Err(CallFault::NoMemory);
    };
    let mut connections = Vec::new(alloc);
    let mut remaining = passes;
    while let Some(pass) = remaining.pop() {
        let connection = connect_one(&engine, &first, pass)?;
        let Ok(()) = connections.push(connection) else {
            return Err(CallFault::NoMemory);
        };
    }
    connections.reverse();
    Ok(connections)
}
