//! Validation of whole transactions, by hands that step in turns and in two threads.
ghost use Rattle.std.specs.Prelude.{◌≡◌, ◌<◌, ◌≤◌, [], ◌∷◌, ◌++◌, IfOk, OnOk, true, IfSome};
ghost use Rattle.core_rule.specs.View.{writing};
ghost use Rattle.core_rule.specs.Collecting.{HasEntry};
ghost use Rattle.core_rule.specs.Deciding.{commit_of};
ghost use Rattle.core_rule.specs.Hands.{IsReady};
ghost use Rattle.core_rule.specs.Searching.{Ends};
ghost use Rattle.validate_core.specs.Installing.{IsBegun, SameSets};

use crate::due::same;
use crate::tables::{first_seat, two_seats};
use clock_stamps::draw;
use core_rule::{AnyState, Core, Hand};
use plain_data::Cells;
use stamp_base::Stamp;
use std::alloc::Global;
use std::process::Abort;
use std::sync::{Condvar, Mutex, Wait};
use std::test::*;
use std::thread::{Threads, join};
use validate_core::{Conflict, Sets, install};
use version_pool::{PlacesOut, take, take_reserved};
use version_search::{Found, find};

/// Draws the stamp of a transaction, whose sets are empty.
pub fn begin(
    alloc: Global,
    core: &Core<AnyState>,
    hand: &mut Hand<AnyState>,
    reading: u64,
) -> Result<(Sets, Stamp), Fail>
    requires ready { IsReady core.now hand.old }
    requires ends { Ends hand.old.view.work }
    ensures ready { IsReady core.now hand.new }
    ensures begun { IfOk result (λ begun. IsBegun core.now.size begun.0 hand.new.view) }
    ensures stamp { IfOk result (λ begun. hand.new.view.published.write ≡ begun.1) }
    ensures reads { IfOk result (λ begun. begun.0.reads ≡ []) }
    ensures writes { IfOk result (λ begun. begun.0.writes ≡ []) }
{
    let stamp = draw(core, hand, reading)?;
    Ok((Sets::new(alloc), stamp))
}

// The same, and the sets have room for so many reads and writes.
fn begin_with_room(
    alloc: Global,
    core: &Core<AnyState>,
    hand: &mut Hand<AnyState>,
    reading: u64,
    reads: u32,
    writes: u32,
) -> Result<(Sets, Stamp), Fail>
    requires ready { IsReady core.now hand.old }
    requires ends { Ends hand.old.view.work }
    ensures ready { IsReady core.now hand.new }
    ensures begun { IfOk result (λ begun. IsBegun core.now.size begun.0 hand.new.view) }
    ensures stamp { IfOk result (λ begun. hand.new.view.published.write ≡ begun.1) }
    ensures reads { IfOk result (λ begun. begun.0.reads ≡ []) }
    ensures writes { IfOk result (λ begun. begun.0.writes ≡ []) }
    ensures read_room { IfOk result (λ begun. reads ≤ begun.0.read_room) }
    ensures write_room { IfOk result (λ begun. writes ≤ begun.0.write_room) }
{
    let (mut sets, stamp) = begin(alloc, core, hand, reading)?;
    sets.reserve(reads, writes)?;
    Ok((sets, stamp))
}

// Reads record 5, for which there is room, and tells whether it is absent from the start.
fn finds_absent(
    core: &Core<AnyState>,
    hand: &mut Hand<AnyState>,
    sets: &mut Sets,
    stamp: Stamp,
) -> bool
    requires ready { IsReady core.now hand.old }
    requires record { 5 < core.now.size.records }
    requires begun { IsBegun core.now.size sets.old hand.old.view }
    requires stamp { hand.old.view.published.write ≡ stamp }
    requires first { sets.old.reads ≡ [] }
    requires room { 0 < sets.old.read_room }
    ensures ready { IsReady core.now hand.new }
    ensures begun { result ≡ true → IsBegun core.now.size sets.new hand.new.view }
    ensures writes { sets.new.writes ≡ sets.old.writes }
{
    match find(core, hand, 5, stamp.number(), false) {
        Found::Version {
            place,
            wts: 0,
            absent: true,
        } => {
            sets.read(5, place, 0, None);
            true
        }
        _ => false,
    }
}

// Reads record 5, which has to be absent from the start.
fn read_absent(
    core: &Core<AnyState>,
    hand: &mut Hand<AnyState>,
    sets: &mut Sets,
    stamp: Stamp,
) -> Result<(), Fail>
    requires ready { IsReady core.now hand.old }
    requires record { 5 < core.now.size.records }
    requires begun { IsBegun core.now.size sets.old hand.old.view }
    requires stamp { hand.old.view.published.write ≡ stamp }
    requires first { sets.old.reads ≡ [] }
    ensures ready { IsReady core.now hand.new }
    ensures begun { OnOk result (IsBegun core.now.size sets.new hand.new.view) }
    ensures writes { sets.new.writes ≡ sets.old.writes }
{
    sets.reserve(1, 0)?;
    if finds_absent(core, hand, sets, stamp) {
        Ok(())
    } else {
        Err("it is absent from the start".into())
    }
}

/// Installs the sets of a transaction, decides it and publishes it.
pub fn run(
    core: &Core<AnyState>,
    hand: &mut Hand<AnyState>,
    sets: &mut Sets,
) -> Result<Result<(), Conflict>, PlacesOut>
    requires ready { IsReady core.now hand.old }
    requires begun { IsBegun core.now.size sets.old hand.old.view }
    ensures ready { IsReady core.now hand.new }
    ensures ends { Ends hand.new.view.work }
    ensures same { SameSets sets.old sets.new }
    ensures log { IfOk result (λ decided. OnOk decided (hand.new.view.log ≡ hand.old.view.log ++ commit_of (writing hand.old.view.published.write) sets.new.reads sets.new.writes ∷ [])) }
{
    let installed = install(core, hand, sets)?;
    match installed.decide(core, hand, sets) {
        Ok(decided) => {
            decided.publish(core, hand, sets);
            Ok(Ok(()))
        }
        Err(conflict) => Ok(Err(conflict)),
    }
}

/// Runs a transaction with a write of this record beside what it has read.
pub fn write_one(
    core: &Core<AnyState>,
    hand: &mut Hand<AnyState>,
    mut sets: Sets,
    rid: u32,
) -> Result<Result<(), Conflict>, Fail>
    requires ready { IsReady core.now hand.old }
    requires record { rid < core.now.size.records }
    requires begun { IsBegun core.now.size sets hand.old.view }
    requires first { sets.writes ≡ [] }
    ensures ready { IsReady core.now hand.new }
    ensures ends { OnOk result (Ends hand.new.view.work) }
    ensures entered { IfOk result (λ decided. OnOk decided (HasEntry rid hand.old.view.published.write hand.new.view.log)) }
{
    sets.reserve(0, 1)?;
    sets.write(rid, Some(Cells::new([7; 32])));
    Ok(run(core, hand, &mut sets)?)
}

// Runs a transaction that writes records 0 and 1, for one of which there has to be no place.
fn write_two(
    core: &Core<AnyState>,
    hand: &mut Hand<AnyState>,
    mut sets: Sets,
) -> Result<PlacesOut, Fail>
    requires ready { IsReady core.now hand.old }
    requires records { 1 < core.now.size.records }
    requires begun { IsBegun core.now.size sets hand.old.view }
    requires first { sets.writes ≡ [] }
    ensures ready { IsReady core.now hand.new }
{
    sets.reserve(0, 2)?;
    sets.write(0, Some(Cells::new([1; 32])));
    sets.write(1, Some(Cells::new([2; 32])));
    match run(core, hand, &mut sets) {
        Err(places_out) => Ok(places_out),
        Ok(_) => Err("there is one usable place".into()),
    }
}

// Tells one thread that the other has come so far.
#[derive(Drop)]
struct Signal {
    given: Mutex<bool>,
    told: Condvar,
}

impl Signal {
    fn new() -> Self {
        Signal {
            given: Mutex::new(false),
            told: Condvar::new(),
        }
    }

    fn give<R: Wait>(&self, rt: &R) {
        *self.given.lock(rt) = true;
        self.told.notify_all();
    }

    fn wait<R: Wait>(&self, rt: &R) {
        let _given = self
            .told
            .wait_while(rt, self.given.lock(rt), |given| !*given);
    }
}

// Runs a transaction that reads record 5, and gives the signal. It answers nothing where the record is not absent from the start, or
// where a place is wanted.
fn read_first<R: Wait>(
    rt: &R,
    core: &Core<AnyState>,
    mut hand: Hand<AnyState>,
    mut sets: Sets,
    stamp: Stamp,
    decided: &Signal,
) -> Option<(Hand<AnyState>, Result<(), Conflict>)>
    requires ready { IsReady core.now hand }
    requires record { 5 < core.now.size.records }
    requires begun { IsBegun core.now.size sets hand.view }
    requires stamp { hand.view.published.write ≡ stamp }
    requires first { sets.reads ≡ [] }
    requires room { 0 < sets.read_room }
    ensures ready { IfSome result (λ ran. IsReady core.now ran.0) }
    ensures ends { IfSome result (λ ran. Ends ran.0.view.work) }
{
    if !finds_absent(core, &mut hand, &mut sets, stamp) {
        decided.give(rt);
        return None;
    }
    let answer = run(core, &mut hand, &mut sets);
    decided.give(rt);
    match answer {
        Ok(answer) => Some((hand, answer)),
        Err(PlacesOut) => None,
    }
}

// Runs a transaction that writes record 5 once the signal was given.
fn write_then<R: Wait>(
    rt: &R,
    core: &Core<AnyState>,
    mut hand: Hand<AnyState>,
    mut sets: Sets,
    decided: &Signal,
) -> Option<Result<(), Conflict>>
    requires ready { IsReady core.now hand }
    requires record { 5 < core.now.size.records }
    requires begun { IsBegun core.now.size sets hand.view }
    requires first { sets.writes ≡ [] }
    requires room { 0 < sets.write_room }
{
    decided.wait(rt);
    sets.write(5, Some(Cells::new([7; 32])));
    run(core, &mut hand, &mut sets).ok()
}

// Runs both in two threads: the reader at a later stamp first, and then the writer at an earlier one.
fn read_and_write<R: Threads + Wait + Sync>(
    rt: &R,
    core: &Core<AnyState>,
    writer: (Hand<AnyState>, Sets),
    reader: (Hand<AnyState>, Sets),
    late: Stamp,
) -> (
    Option<(Hand<AnyState>, Result<(), Conflict>)>,
    Option<Result<(), Conflict>>,
)
    requires record { 5 < core.now.size.records }
    requires writer_ready { IsReady core.now writer.0 }
    requires writer_begun { IsBegun core.now.size writer.1 writer.0.view }
    requires first_write { writer.1.writes ≡ [] }
    requires write_room { 0 < writer.1.write_room }
    requires reader_ready { IsReady core.now reader.0 }
    requires reader_begun { IsBegun core.now.size reader.1 reader.0.view }
    requires stamp { reader.0.view.published.write ≡ late }
    requires first_read { reader.1.reads ≡ [] }
    requires read_room { 0 < reader.1.read_room }
    ensures ready { IfSome result.0 (λ ran. IsReady core.now ran.0) }
    ensures ends { IfSome result.0 (λ ran. Ends ran.0.view.work) }
{
    let decided = Signal::new();
    let signal = &decided;
    let (first, writes) = writer;
    let (second, reads) = reader;
    join(
        rt,
        move || read_first(rt, core, second, reads, late, signal),
        move || write_then(rt, core, first, writes, signal),
    )
}

// Draws a stamp, gives its number, and reads record 5 at it, which has to be absent from the start.
fn begin_and_read(
    alloc: Global,
    core: &Core<AnyState>,
    hand: &mut Hand<AnyState>,
) -> Result<u64, Fail>
    requires ready { IsReady core.now hand.old }
    requires ends { Ends hand.old.view.work }
    requires record { 5 < core.now.size.records }
{
    let (mut sets, stamp) = begin(alloc, core, hand, 20)?;
    read_absent(core, hand, &mut sets, stamp)?;
    Ok(stamp.number())
}

// Draws the stamp of the writer and the later one of the reader, and runs both.
fn begin_both<R: Abort + Threads + Wait + Sync>(
    rt: &R,
    alloc: Global,
    core: &Core<AnyState>,
    mut first: Hand<AnyState>,
    mut second: Hand<AnyState>,
) -> Result<
    (
        Option<(Hand<AnyState>, Result<(), Conflict>)>,
        Option<Result<(), Conflict>>,
    ),
    Fail,
>
    requires record { 5 < core.now.size.records }
    requires first_ready { IsReady core.now first }
    requires first_ends { Ends first.view.work }
    requires second_ready { IsReady core.now second }
    requires second_ends { Ends second.view.work }
    ensures ready { IfOk result (λ both. IfSome both.0 (λ ran. IsReady core.now ran.0)) }
    ensures ends { IfOk result (λ both. IfSome both.0 (λ ran. Ends ran.0.view.work)) }
{
    let (writes, early) = begin_with_room(alloc, core, &mut first, 10, 0, 1)?;
    let (reads, late) = begin_with_room(alloc, core, &mut second, 20, 1, 0)?;
    same(rt, (early.number(), late.number()), (2_560, 5_121), 0);
    Ok(read_and_write(rt, core, (first, writes), (second, reads), late))
}

#[test]
fn a_read_at_a_later_stamp_stops_an_earlier_writer_in_another_thread(
    rt: HostRuntime,
) -> Result<(), Fail> {
    let (core, first, second) = two_seats(rt.alloc(), 6, 4)?;
    let (read, written) = begin_both(&rt, rt.alloc(), &core, first, second)?;
    let Some((mut second, answer)) = read else {
        return Err("it is absent from the start".into());
    };
    same(&rt, answer, Ok(()), 1);
    let stopped = Conflict::ReadLater {
        rid: 5,
        wts: 0,
        rts: 5_121,
    };
    same(&rt, written, Some(Err(stopped)), 2);
    let number = begin_and_read(rt.alloc(), &core, &mut second)?;
    same(&rt, number, 5_377, 3);
    Ok(())
}

// Runs a transaction that reads record 5, which has to be absent from the start, and writes it.
fn change_absent(
    alloc: Global,
    core: &Core<AnyState>,
    hand: &mut Hand<AnyState>,
) -> Result<Result<(), Conflict>, Fail>
    requires ready { IsReady core.now hand.old }
    requires ends { Ends hand.old.view.work }
    requires record { 5 < core.now.size.records }
{
    let (mut sets, stamp) = begin(alloc, core, hand, 10)?;
    read_absent(core, hand, &mut sets, stamp)?;
    write_one(core, hand, sets, 5)
}

#[test]
fn a_seat_that_is_alone_reads_and_writes_a_record(rt: HostRuntime) -> Result<(), Fail> {
    let (core, mut hand) = first_seat(rt.alloc(), 1, 6, 4)?;
    let changed = change_absent(rt.alloc(), &core, &mut hand)?;
    same(&rt, changed, Ok(()), 0);
    Ok(())
}

// Begins a transaction that writes records 0 and 1, and runs it: the number of its stamp, and what it comes to.
fn begin_and_write_two(
    alloc: Global,
    core: &Core<AnyState>,
    hand: &mut Hand<AnyState>,
) -> Result<(u64, PlacesOut), Fail>
    requires ready { IsReady core.now hand.old }
    requires ends { Ends hand.old.view.work }
    requires records { 1 < core.now.size.records }
    ensures ready { IsReady core.now hand.new }
{
    let (sets, stamp) = begin(alloc, core, hand, 1)?;
    Ok((stamp.number(), write_two(core, hand, sets)?))
}

#[test]
fn without_a_place_for_a_write_nothing_stays_installed(rt: HostRuntime) -> Result<(), Fail> {
    let (core, mut hand) = first_seat(rt.alloc(), 1, 2, 2)?;
    let (number, fault) = begin_and_write_two(rt.alloc(), &core, &mut hand)?;
    same(&rt, number, 256, 0);
    same(&rt, fault, PlacesOut, 1);
    same(&rt, take(&core, &mut hand, 0), Err(PlacesOut), 2);
    same(&rt, take_reserved(&core, &mut hand), Some(3), 3);
    Ok(())
}
