//! Commits of the seat that is alone, with the places that their versions took, and what it then settles.
ghost use Rattle.std.specs.Prelude.{◌≡◌};
ghost use Rattle.txn_engine.specs.Pass.{IsIdleOf};

use crate::deeds::{Deed, transact};
use crate::due::same;
use crate::flights::settled;
use crate::play::{Piece, play};
use crate::values::value;
use histories::AnyState;
use record_store::RecordStore;
use std::process::Abort;
use std::test::Fail;
use txn_engine::{Alone, Engine, Settled};

/// Writes a record, which has to be there.
pub fn put<F: Drop, S: RecordStore<Fault = F>>(store: &mut S, rid: u32) -> bool
    ensures { S.rest store.new ≡ S.rest store.old }
{
    if rid >= store.size() {
        return false;
    }
    store.write(rid, value(Some(7))).is_ok()
}

// Writes a record by a transaction of its own, whose version has to take this place: an inline one, or one of the pool.
fn commit<R: Abort>(
    rt: &R,
    engine: &Engine<AnyState>,
    alone: &mut Alone<AnyState>,
    rid: u32,
    places: (u32, u32),
    step: usize,
)
    requires { IsIdleOf engine.now alone.old.pass }
    ensures { IsIdleOf engine.now alone.new.pass }
{
    let told = transact(rt, engine, alone, Deed::Put(rid), true, step);
    same(rt, told, Some(places), step);
}

/// Two records are written, and settled; then the first is written twice again.
pub fn commit_and_settle<R: Abort>(rt: &R, engine: &Engine<AnyState>, mut alone: Alone<AnyState>)
    requires { IsIdleOf engine.now alone.pass }
{
    commit(rt, engine, &mut alone, 0, (0, 1), 0);
    commit(rt, engine, &mut alone, 1, (0, 1), 1);
    let cut = Settled {
        rewritten: 0,
        cut: 2,
        places: 2,
    };
    same(rt, settled(engine, &mut alone), Ok(cut), 2);
    commit(rt, engine, &mut alone, 0, (1, 0), 3);
    commit(rt, engine, &mut alone, 0, (0, 1), 4);
    same(rt, alone.last().number(), 4 * 256, 5);
}

#[test]
fn the_seat_that_is_alone_counts_its_places_and_settles(rt: HostRuntime) -> Result<(), Fail> {
    play(&rt, rt.alloc(), 1, (2, 2, 4), Piece::Alone)
}
