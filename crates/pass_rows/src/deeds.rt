//! What a transaction of the seat that is alone does: one function begins and ends them all, since each such function is dear to prove.
ghost use Rattle.std.specs.Prelude.{◌≡◌};
ghost use Rattle.txn_engine.specs.Pass.{IsIdleOf};

use crate::alone::put;
use crate::due::hold;
use crate::limits::{delete_new, fill, is_left, take_new};
use crate::opening::{end_alone, open_alone, stop_alone};
use histories::AnyState;
use record_store::RecordStore;
use std::process::Abort;
use txn_engine::{Alone, AloneFault, Engine};

/// What a transaction does.
#[derive(Clone, Copy)]
pub enum Deed {
    /// It writes this record.
    Put(u32),
    /// It writes every record.
    Fill,
    /// It takes all new records, and gives them a value if this is so.
    Take(bool),
    /// It deletes them.
    Delete,
    /// It reads what is left of all records.
    Look,
}

// Does this in a transaction, at this step.
fn act<R: Abort, S: RecordStore<Fault = AloneFault>>(rt: &R, store: &mut S, deed: Deed, step: usize)
    ensures { S.rest store.new ≡ S.rest store.old }
{
    match deed {
        Deed::Put(rid) => hold(rt, put(store, rid), step),
        Deed::Fill => fill(rt, store),
        Deed::Take(commits) => take_new(rt, store, commits),
        Deed::Delete => delete_new(rt, store),
        Deed::Look => hold(rt, is_left(store), 10),
    }
}

/// Does this in a transaction, which has to begin, and commits if this is so. It tells the places that its versions took, if it committed.
pub fn transact<R: Abort>(
    rt: &R,
    engine: &Engine<AnyState>,
    alone: &mut Alone<AnyState>,
    deed: Deed,
    commits: bool,
    step: usize,
) -> Option<(u32, u32)>
    requires { IsIdleOf engine.now alone.old.pass }
    ensures seat { IsIdleOf engine.now alone.new.pass }
    ensures shared { alone.new.shared ≡ alone.old.shared }
{
    let Ok(mut txn) = open_alone(alone, engine, 0) else {
        hold(rt, false, step);
        return None;
    };
    act(rt, &mut txn, deed, step);
    if commits {
        return end_alone(txn);
    }
    stop_alone(txn);
    None
}
