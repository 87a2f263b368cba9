//! Calls on passes that have no transaction in flight, each with what it has to tell.
//!
//! What is refused memory is called again, once: all is as before then.
ghost use Rattle.std.specs.Prelude.{◌≡◌, All};
ghost use Rattle.txn_engine.specs.Pass.{IsIdleOf, engine_of};
ghost use Rattle.pass_rows.specs.Seats.{IsOpen};

use crate::due::{hold, same};
use crate::limits::change_all;
use crate::opening::{end, open, stop};
use crate::threads::{is_left, touch};
use crate::values::{filled, word_of};
use histories::AnyState;
use record_store::{RecordRead, RecordStore};
use stamp_base::{Stamp, is_clock};
use std::process::Abort;
use txn_engine::{
    BeginFault, ClockOut, Collected, CommitFault, Committed, Conflict, Engine, Pass, PromoteFault,
    Promotion, Seat, Txn, TxnFault,
};

/// A call. A transaction is one call, from its begin at a reading to its end.
#[derive(Clone, Copy)]
pub enum Call {
    /// A stamp is drawn at this reading.
    Tick(u64),
    /// The stamp of this clock and seat 0 is heard.
    Hear(u64),
    /// The clock of this seat is adopted.
    Sync(u32),
    /// The last stamp.
    Last,
    /// A transaction ends without an entry.
    Abort(u64),
    /// A transaction does this and commits.
    Commit(u64, Act),
    /// A snapshot reads this record.
    Snapshot(u32),
    Collect,
    /// This record is promoted, at reading 0.
    Promote(u32),
}

/// What a transaction does.
#[derive(Clone, Copy)]
pub enum Act {
    Nothing,
    /// It reads this record.
    Read(u32),
    /// It writes this record: 32 times the word 9.
    Write(u32),
    /// It reads this record, drops what it has written, and reads record 0.
    Again(u32),
    /// It asks for two new records.
    Fresh,
    /// It changes the records from this one up to that one, whose values are their numbers and this one, to those and one more.
    Change(u32, u32, u32),
    /// It reads this record, which is absent, and writes that one.
    Touch(u32, u32),
    /// It reads what two threads have left, where these committed.
    Left(bool, bool),
}

/// What a call tells.
#[derive(Clone, Copy, PartialEq, Eq, Debug)]
pub enum Told {
    Nothing,
    Stamp(u64),
    ClockOut,
    NoMemory,
    /// A transaction committed at this stamp, after what it did, and so many versions took an inline place and a place of the pool.
    Committed(u64, Done, u32, u32),
    Stopped(Conflict),
    PlacesOut,
    /// A snapshot of this stamp has read this.
    Snapshot(u64, Option<u64>),
    Collected(Collected),
    /// A record was promoted at this stamp; it was not, since it stands in its inline place, is absent, or that place is not free.
    Promoted(u64),
    Inline,
    Absent,
    Occupied,
}

/// What an act comes to.
#[derive(Clone, Copy, PartialEq, Eq, Debug)]
pub enum Done {
    Nothing,
    /// It has read the value of this word, or none.
    Read(Option<u64>),
    /// It was given these records.
    Given(Result<u32, TxnFault>, Result<u32, TxnFault>),
    Fault(TxnFault),
    /// It changed all up to this record.
    Changed(u32),
    /// Whether all was as it had to be.
    Held(bool),
}

/// A call on the pass at this place of a list, and what it has to tell.
pub type Step = (usize, Call, Told);

// Reads a record, which has to be there.
fn read<S: RecordRead<Fault = TxnFault>>(store: &mut S, rid: u32, again: bool) -> Done
    ensures { S.rest store.new ≡ S.rest store.old }
{
    if rid >= store.size() {
        return Done::Nothing;
    }
    let mut told = store.read(rid);
    if again && told == Err(TxnFault::NoMemory) {
        told = store.read(rid);
    }
    match told {
        Ok(value) => Done::Read(word_of(value)),
        Err(fault) => Done::Fault(fault),
    }
}

// Writes a record, which has to be there.
fn write<S: RecordStore<Fault = TxnFault>>(store: &mut S, rid: u32, again: bool) -> Done
    ensures { S.rest store.new ≡ S.rest store.old }
{
    if rid >= store.size() {
        return Done::Fault(TxnFault::RecordsOut);
    }
    let mut told = store.write(rid, Some(filled(9)));
    if again && told == Err(TxnFault::NoMemory) {
        told = store.write(rid, Some(filled(9)));
    }
    match told {
        Ok(()) => Done::Nothing,
        Err(fault) => Done::Fault(fault),
    }
}

// Reads a record, drops what is written, and reads record 0.
fn read_again<S: RecordStore<Fault = TxnFault>>(store: &mut S, rid: u32, again: bool) -> Done
    ensures { S.rest store.new ≡ S.rest store.old }
{
    read(store, rid, again);
    store.undo();
    read(store, 0, again)
}

// Asks for a new record.
fn ask<S: RecordStore<Fault = TxnFault>>(store: &mut S, again: bool) -> Result<u32, TxnFault>
    ensures { S.rest store.new ≡ S.rest store.old }
{
    let told = store.fresh();
    if again && told == Err(TxnFault::NoMemory) {
        return store.fresh();
    }
    told
}

// Does this in a transaction; whether what is refused memory is called again there.
fn act_on<S: RecordStore<Fault = TxnFault>>(store: &mut S, act: Act, again: bool) -> Done
    ensures { S.rest store.new ≡ S.rest store.old }
{
    match act {
        Act::Nothing => Done::Nothing,
        Act::Read(rid) => read(store, rid, again),
        Act::Write(rid) => write(store, rid, again),
        Act::Again(rid) => read_again(store, rid, again),
        Act::Fresh => {
            let first = ask(store, again);
            Done::Given(first, ask(store, again))
        }
        Act::Change(first, last, from) => Done::Changed(change_all(
            store,
            first,
            last,
            from,
            from.wrapping_add(1),
        )),
        Act::Touch(read, write) => Done::Held(touch(store, read, write)),
        Act::Left(first, second) => Done::Held(is_left(store, first, second)),
    }
}

/// Does this in a transaction of a pass, of which no more is said than its end needs.
pub fn act_in(txn: &mut Txn<'_, AnyState>, act: Act, again: bool) -> Done
    requires { IsOpen txn.old.seat.now }
    ensures same_reference { txn.new.seat.ghost_name ≡ txn.old.seat.ghost_name }
    ensures open { IsOpen txn.new.seat.now }
    ensures of_engine { engine_of txn.new.seat.now ≡ engine_of txn.old.seat.now }
{
    act_on(txn, act, again)
}

/// Whether a call was refused memory.
pub fn is_refused(done: Done) -> bool {
    let refused = Err(TxnFault::NoMemory);
    match done {
        Done::Given(first, second) => first == refused || second == refused,
        _ => done == Done::Fault(TxnFault::NoMemory),
    }
}

// What is told of a transaction that is aborted for what it did.
fn stopped(done: Done) -> Option<Told> {
    match done {
        Done::Fault(TxnFault::Conflict(conflict)) => Some(Told::Stopped(conflict)),
        _ => is_refused(done).then_some(Told::NoMemory),
    }
}

/// What a commit tells.
pub fn ended(done: Done, told: Result<Committed, CommitFault>) -> Told {
    match told {
        Ok(told) => Told::Committed(told.stamp.number(), done, told.inlined, told.pooled),
        Err(CommitFault::Conflict(conflict)) => Told::Stopped(conflict),
        Err(CommitFault::PlacesOut) => Told::PlacesOut,
    }
}

// What a drawn stamp tells.
fn drawn(told: Result<Stamp, ClockOut>) -> Told {
    match told {
        Ok(stamp) => Told::Stamp(stamp.number()),
        Err(_) => Told::ClockOut,
    }
}

// What a refused begin tells.
fn not_begun(fault: BeginFault) -> Told {
    match fault {
        BeginFault::ClockOut => Told::ClockOut,
        BeginFault::NoMemory => Told::NoMemory,
    }
}

// A transaction that ends without an entry.
fn abort(engine: &Engine<AnyState>, pass: &mut Pass<AnyState>, reading: u64) -> Told
    requires { IsIdleOf engine.now pass.old }
    ensures { IsIdleOf engine.now pass.new }
{
    match open(pass, engine, reading) {
        Err(fault) => not_begun(fault),
        Ok(txn) => {
            let stamp = txn.stamp().number();
            stop(txn);
            Told::Stamp(stamp)
        }
    }
}

/// A transaction that does this and commits; whether what is refused memory is called again there. It is aborted where it meets a
/// conflict, or is refused memory.
pub fn commit(
    engine: &Engine<AnyState>,
    pass: &mut Pass<AnyState>,
    reading: u64,
    act: Act,
    again: bool,
) -> Told
    requires { IsIdleOf engine.now pass.old }
    ensures { IsIdleOf engine.now pass.new }
{
    match open(pass, engine, reading) {
        Err(fault) => not_begun(fault),
        Ok(mut txn) => {
            let done = act_in(&mut txn, act, again);
            let Some(told) = stopped(done) else {
                return ended(done, end(txn));
            };
            stop(txn);
            told
        }
    }
}

// A snapshot that reads a record.
fn read_snapshot(engine: &Engine<AnyState>, pass: &mut Pass<AnyState>, rid: u32) -> Told
    requires { IsIdleOf engine.now pass.old }
    ensures { IsIdleOf engine.now pass.new }
{
    let mut snapshot = pass.snapshot(engine);
    let value = if rid < snapshot.size() {
        snapshot.read(rid).unwrap_or(None)
    } else {
        Some(filled(0))
    };
    Told::Snapshot(snapshot.finish(), word_of(value))
}

fn of_promotion(promotion: Promotion) -> Told {
    match promotion {
        Promotion::Promoted(stamp) => Told::Promoted(stamp.number()),
        Promotion::Inline => Told::Inline,
        Promotion::Absent => Told::Absent,
        Promotion::Occupied => Told::Occupied,
    }
}

fn of_refusal(fault: PromoteFault) -> Told {
    match fault {
        PromoteFault::ClockOut => Told::ClockOut,
        PromoteFault::Conflict(conflict) => Told::Stopped(conflict),
    }
}

// A promotion of a record.
fn promote(engine: &Engine<AnyState>, pass: &mut Pass<AnyState>, rid: u32) -> Told
    requires { IsIdleOf engine.now pass.old }
    ensures { IsIdleOf engine.now pass.new }
{
    if rid >= engine.records() {
        return Told::Nothing;
    }
    match pass.promote(engine, rid, 0) {
        Ok(promotion) => of_promotion(promotion),
        Err(fault) => of_refusal(fault),
    }
}

// Hears the stamp of a clock and seat 0.
fn hear(engine: &Engine<AnyState>, pass: &mut Pass<AnyState>, clock: u64) -> Told
    requires { IsIdleOf engine.now pass.old }
    ensures { IsIdleOf engine.now pass.new }
{
    if !is_clock(clock) {
        return Told::ClockOut;
    }
    pass.hear(engine, Stamp::make(clock, 0));
    Told::Nothing
}

// Adopts the clock of a seat.
fn sync(engine: &Engine<AnyState>, pass: &mut Pass<AnyState>, seat: u32) -> Told
    requires { IsIdleOf engine.now pass.old }
    ensures { IsIdleOf engine.now pass.new }
{
    if seat >= engine.seats() {
        return Told::ClockOut;
    }
    pass.sync(engine, seat);
    Told::Nothing
}

// Makes a call once.
fn make_once(engine: &Engine<AnyState>, pass: &mut Pass<AnyState>, call: Call) -> Told
    requires { IsIdleOf engine.now pass.old }
    ensures { IsIdleOf engine.now pass.new }
{
    match call {
        Call::Tick(reading) => drawn(pass.tick(engine, reading)),
        Call::Hear(clock) => hear(engine, pass, clock),
        Call::Sync(seat) => sync(engine, pass, seat),
        Call::Last => Told::Stamp(pass.last().number()),
        Call::Abort(reading) => abort(engine, pass, reading),
        Call::Commit(reading, act) => commit(engine, pass, reading, act, true),
        Call::Snapshot(rid) => read_snapshot(engine, pass, rid),
        Call::Collect => Told::Collected(pass.collect(engine)),
        Call::Promote(rid) => promote(engine, pass, rid),
    }
}

// Makes a call, and again where it is refused memory.
fn make(engine: &Engine<AnyState>, pass: &mut Pass<AnyState>, call: Call) -> Told
    requires { IsIdleOf engine.now pass.old }
    ensures { IsIdleOf engine.now pass.new }
{
    match make_once(engine, pass, call) {
        Told::NoMemory => make_once(engine, pass, call),
        told => told,
    }
}

// Makes a call on the pass at a place of a list, and compares what it tells.
fn step<R: Abort>(
    rt: &R,
    engine: &Engine<AnyState>,
    passes: &mut Vec<Pass<AnyState>>,
    step: &Step,
    number: usize,
)
    requires { All (IsIdleOf engine.now) passes.old.items }
    ensures { All (IsIdleOf engine.now) passes.new.items }
{
    let (place, call, due) = *step;
    match passes.get_mut(place) {
        None => hold(rt, false, number),
        Some(pass) => same(rt, make(engine, pass, call), due, number),
    }
}

/// Makes calls on the passes of a list, and compares what each tells.
pub fn make_all<R: Abort>(
    rt: &R,
    engine: &Engine<AnyState>,
    passes: &mut Vec<Pass<AnyState>>,
    steps: &[Step],
)
    requires { All (IsIdleOf engine.now) passes.old.items }
    ensures { All (IsIdleOf engine.now) passes.new.items }
{
    for i in 0..steps.len() {
        step(rt, engine, passes, &steps[i], i);
    }
}
