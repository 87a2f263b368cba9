//! Worked rows: calls on the passes of an engine, each with what it has to tell.

use crate::calls::{Act, Call, Done, Step, Told};
use crate::coming::{Size, begin};
use crate::due::same;
use crate::flights::Flight;
use crate::play::{Piece, play};
use stamp_base::{GREATEST_CLOCK, Stamp};
use std::test::Fail;
use txn_engine::{Collected, Conflict, Settled, StartFault, TxnFault};

/// Two seats with six fixed records and four spare places.
const SIX: Size = (6, 6, 4);

/// Nothing is collected.
const NONE: Collected = Collected {
    cut: 0,
    dropped: 0,
    late: 0,
    locked: 0,
    places: 0,
};

// A transaction that begins at reading 0 and writes this record.
fn writes(rid: u32) -> Call {
    Call::Commit(0, Act::Write(rid))
}

// A commit of one version that took a place of the pool, and one that took an inline place.
fn pooled(stamp: u64) -> Told {
    Told::Committed(stamp, Done::Nothing, 0, 1)
}

fn inlined(stamp: u64) -> Told {
    Told::Committed(stamp, Done::Nothing, 1, 0)
}

// A commit that has read this.
fn has_read(stamp: u64, word: Option<u64>) -> Told {
    Told::Committed(stamp, Done::Read(word), 0, 0)
}

// One item was cut, and so many places were freed.
fn cut(places: u32) -> Told {
    Told::Collected(Collected {
        cut: 1,
        places,
        ..NONE
    })
}

#[test]
fn a_version_that_was_read_later_is_not_overwritten(rt: HostRuntime) -> Result<(), Fail> {
    let flight = Flight {
        act: Act::Write(5),
        is_linked: false,
        calls: &[(0, Call::Commit(20, Act::Read(5)), has_read(5_121, None))],
        due: Told::Stopped(Conflict::ReadLater {
            rid: 5,
            wts: 0,
            rts: 5_121,
        }),
        later: &[],
    };
    let settled = Settled {
        rewritten: 1,
        cut: 1,
        places: 2,
    };
    play(&rt, rt.alloc(), 2, SIX, Piece::Settles(&flight, settled))
}

#[test]
fn a_read_that_was_overtaken_does_not_commit(rt: HostRuntime) -> Result<(), Fail> {
    let overtaken = Told::Stopped(Conflict::Overtaken {
        rid: 5,
        seen: 0,
        now: 2_560,
    });
    let due = (pooled(2_560), overtaken);
    play(&rt, rt.alloc(), 2, SIX, Piece::Crosses(due))
}

#[test]
fn a_pending_version_is_not_waited_for(rt: HostRuntime) -> Result<(), Fail> {
    let pending = Conflict::Pending { rid: 5, wts: 2_560 };
    let flight = Flight {
        act: Act::Write(5),
        is_linked: true,
        calls: &[(0, Call::Commit(20, Act::Read(5)), Told::Stopped(pending))],
        due: pooled(2_560),
        later: &[(
            0,
            Call::Commit(30, Act::Read(5)),
            has_read(269_825, Some(9)),
        )],
    };
    play(&rt, rt.alloc(), 2, SIX, Piece::Flies(&flight))
}

#[test]
fn a_conflict_is_answered_again_after_undo(rt: HostRuntime) -> Result<(), Fail> {
    let pending = Conflict::Pending { rid: 5, wts: 2_560 };
    let flight = Flight {
        act: Act::Write(5),
        is_linked: true,
        calls: &[(0, Call::Commit(20, Act::Again(5)), Told::Stopped(pending))],
        due: pooled(2_560),
        later: &[],
    };
    play(&rt, rt.alloc(), 2, SIX, Piece::Flies(&flight))
}

#[test]
fn a_full_pool_has_a_place_once_one_is_collected(rt: HostRuntime) -> Result<(), Fail> {
    let steps = [
        (0, writes(0), pooled(256)),
        (0, writes(1), Told::PlacesOut),
        (0, Call::Tick(0), Told::Stamp(262_144)),
        (0, Call::Collect, cut(1)),
        (0, writes(0), inlined(262_400)),
        (0, Call::Tick(0), Told::Stamp(262_656)),
        (0, Call::Collect, cut(1)),
        (0, writes(1), pooled(262_912)),
    ];
    play(&rt, rt.alloc(), 1, (2, 2, 2), Piece::Calls(&steps))
}

#[test]
fn a_clock_comes_to_its_end(rt: HostRuntime) -> Result<(), Fail> {
    let last = Told::Stamp(Stamp::make(GREATEST_CLOCK, 0).number());
    let steps = [
        (0, Call::Hear(GREATEST_CLOCK), Told::Nothing),
        (0, Call::Last, last),
        (0, Call::Abort(0), Told::ClockOut),
        (0, Call::Last, last),
        (0, Call::Tick(0), Told::ClockOut),
        (0, Call::Last, last),
    ];
    play(&rt, rt.alloc(), 1, (1, 1, 1), Piece::Calls(&steps))
}

#[test]
fn the_greatest_reading_is_not_beyond_the_clocks(rt: HostRuntime) -> Result<(), Fail> {
    let steps = [
        (
            0,
            Call::Abort(u64::MAX),
            Told::Stamp(9_223_372_036_854_775_808),
        ),
        (
            0,
            Call::Abort(u64::MAX),
            Told::Stamp(9_223_372_036_854_776_064),
        ),
    ];
    play(&rt, rt.alloc(), 1, (1, 1, 1), Piece::Calls(&steps))
}

#[test]
fn a_snapshot_is_below_what_is_in_flight(rt: HostRuntime) -> Result<(), Fail> {
    let late = Told::Collected(Collected { late: 1, ..NONE });
    let flight = Flight {
        act: Act::Nothing,
        is_linked: false,
        calls: &[
            (0, Call::Commit(20, Act::Write(3)), pooled(5_121)),
            (0, Call::Snapshot(3), Told::Snapshot(2_559, None)),
            (0, Call::Collect, late),
        ],
        due: Told::Committed(2_560, Done::Nothing, 0, 0),
        later: &[],
    };
    play(&rt, rt.alloc(), 2, SIX, Piece::Flies(&flight))
}

#[test]
fn a_clock_is_adopted(rt: HostRuntime) -> Result<(), Fail> {
    let steps = [
        (
            1,
            Call::Commit(500, Act::Nothing),
            Told::Committed(128_001, Done::Nothing, 0, 0),
        ),
        (0, Call::Sync(1), Told::Nothing),
        (0, Call::Abort(0), Told::Stamp(128_256)),
    ];
    play(&rt, rt.alloc(), 2, SIX, Piece::Calls(&steps))
}

#[test]
fn an_engine_beyond_its_limits_is_not_made(rt: HostRuntime) {
    let alloc = rt.alloc();
    let sizes = [(0, (1, 1, 1)), (65, (1, 1, 1)), (1, (1, 2, 1))];
    for (i, (seats, size)) in sizes.iter().enumerate() {
        let refusal = begin(alloc, *seats, *size).err();
        same(&rt, refusal, Some(StartFault::Limit), i);
    }
}

#[test]
fn a_new_number_that_is_not_written_is_given_again(rt: HostRuntime) -> Result<(), Fail> {
    let given = Done::Given(Ok(2), Err(TxnFault::RecordsOut));
    let steps = [
        (
            0,
            Call::Commit(0, Act::Fresh),
            Told::Committed(256, given, 0, 0),
        ),
        (
            0,
            Call::Commit(0, Act::Fresh),
            Told::Committed(512, given, 0, 0),
        ),
    ];
    play(&rt, rt.alloc(), 1, (3, 2, 4), Piece::Calls(&steps))
}

#[test]
fn a_version_is_promoted(rt: HostRuntime) -> Result<(), Fail> {
    let steps = [
        (0, writes(0), pooled(256)),
        (0, Call::Collect, cut(1)),
        (0, Call::Promote(0), Told::Promoted(512)),
        (0, Call::Promote(0), Told::Inline),
        (0, Call::Promote(1), Told::Absent),
        (0, writes(0), pooled(1_280)),
        (0, Call::Promote(0), Told::Occupied),
    ];
    play(&rt, rt.alloc(), 1, (2, 2, 4), Piece::Calls(&steps))
}

#[test]
fn what_another_pass_has_cut_is_dropped(rt: HostRuntime) -> Result<(), Fail> {
    let dropped = Told::Collected(Collected { dropped: 1, ..NONE });
    let steps = [
        (0, Call::Commit(10, Act::Write(0)), pooled(2_560)),
        (1, Call::Commit(20, Act::Write(0)), pooled(5_121)),
        (0, Call::Tick(30), Told::Stamp(7_680)),
        (1, Call::Tick(30), Told::Stamp(7_681)),
        (0, Call::Snapshot(0), Told::Snapshot(7_679, Some(9))),
        (1, Call::Collect, cut(2)),
        (0, Call::Collect, dropped),
    ];
    play(&rt, rt.alloc(), 2, (1, 1, 4), Piece::Calls(&steps))
}
