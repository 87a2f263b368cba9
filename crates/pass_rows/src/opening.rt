//! Transactions, begun and ended by calls of which no more is said than the next call needs: each clause of the engine's own call would
//! be looked at for each goal behind it.
ghost use Rattle.std.specs.Prelude.{◌≡◌, IfOk};
ghost use Rattle.std.specs.Borrow.{sem, RestsIfErr};
ghost use Rattle.histories.specs.contracts.AnyState.{the_row as any_state};
ghost use Rattle.txn_engine.specs.contracts.alone.Alone.{the_row as alone_row};
ghost use Rattle.txn_engine.specs.contracts.pass.Pass.{the_row};
ghost use Rattle.txn_engine.specs.Pass.{IsIdleOf, engine_of};
ghost use Rattle.pass_rows.specs.Seats.{IsOpen, IsLinked, IsDecided};

use histories::AnyState;
use txn_engine::{
    Alone, AloneTxn, BeginFault, CommitFault, Committed, Conflict, DecidedOver, Engine,
    InstalledOver, Lent, Pass, Seat, Txn, TxnOver,
};

/// Begins a transaction.
pub fn open<'a>(
    pass: &'a mut Pass<AnyState>,
    engine: &'a Engine<AnyState>,
    reading: u64,
) -> Result<Txn<'a, AnyState>, BeginFault>
    requires { IsIdleOf engine.now pass.old }
    ensures* rests { sem 𝓛 (RestsIfErr (the_row any_state) pass.entry (λ t. t.seat.ghost_name) result (λ p. IsIdleOf engine.now p)) }
    ensures same_reference { IfOk result (λ t. t.seat.ghost_name ≡ pass.entry.ghost_name) }
    ensures open { IfOk result (λ t. IsOpen t.seat.now) }
    ensures of_engine { IfOk result (λ t. engine_of t.seat.now ≡ engine.now) }
{
    pass.begin(engine, reading)
}

/// Ends a transaction without an entry.
pub fn stop<E: Lent<AnyState>>(txn: TxnOver<'_, Pass<AnyState>, E>)
    requires { IsOpen txn.seat.now }
    ensures { IsIdleOf (engine_of txn.entry.seat.now) txn.exit.0.now }
{
    txn.abort();
}

/// Commits a transaction.
pub fn end<E: Lent<AnyState>>(txn: TxnOver<'_, Pass<AnyState>, E>) -> Result<Committed, CommitFault>
    requires { IsOpen txn.seat.now }
    ensures { IsIdleOf (engine_of txn.entry.seat.now) txn.exit.0.now }
{
    txn.commit()
}

/// Links the versions of a transaction.
pub fn link<'a, E: Lent<AnyState>>(
    txn: TxnOver<'a, Pass<AnyState>, E>,
) -> Result<InstalledOver<'a, AnyState, E>, CommitFault>
    requires { IsOpen txn.seat.now }
    ensures* rests { sem 𝓛 (RestsIfErr (the_row any_state) txn.entry.seat (λ t. t.pass.ghost_name) result (λ p. IsIdleOf (engine_of txn.entry.seat.now) p)) }
    ensures same_reference { IfOk result (λ t. t.pass.ghost_name ≡ txn.entry.seat.ghost_name) }
    ensures linked { IfOk result (λ t. IsLinked t.linked.stamp t.pass.now) }
    ensures of_engine { IfOk result (λ t. engine_of t.pass.now ≡ engine_of txn.entry.seat.now) }
{
    txn.install()
}

/// Decides a transaction whose versions are linked.
pub fn decide<'a, E: Lent<AnyState>>(
    txn: InstalledOver<'a, AnyState, E>,
) -> Result<DecidedOver<'a, AnyState, E>, Conflict>
    requires { IsLinked txn.linked.stamp txn.pass.now }
    ensures* rests { sem 𝓛 (RestsIfErr (the_row any_state) txn.entry.pass (λ t. t.pass.ghost_name) result (λ p. IsIdleOf (engine_of txn.entry.pass.now) p)) }
    ensures same_reference { IfOk result (λ t. t.pass.ghost_name ≡ txn.entry.pass.ghost_name) }
    ensures decided { IfOk result (λ t. IsDecided t.entered.stamp t.pass.now) }
    ensures of_engine { IfOk result (λ t. engine_of t.pass.now ≡ engine_of txn.entry.pass.now) }
{
    txn.decide()
}

/// Publishes the versions of a transaction that is decided.
pub fn publish<E: Lent<AnyState>>(txn: DecidedOver<'_, AnyState, E>) -> Committed
    requires { IsDecided txn.entered.stamp txn.pass.now }
    ensures { IsIdleOf (engine_of txn.entry.pass.now) txn.exit.0.now }
{
    txn.publish()
}

/// Begins a transaction of the seat that is alone.
pub fn open_alone<'a>(
    alone: &'a mut Alone<AnyState>,
    engine: &'a Engine<AnyState>,
    reading: u64,
) -> Result<AloneTxn<'a, AnyState>, BeginFault>
    requires { IsIdleOf engine.now alone.old.pass }
    ensures* rests { sem 𝓛 (RestsIfErr (alone_row any_state) alone.entry (λ t. t.seat.ghost_name) result (λ a. IsIdleOf engine.now a.pass × (a.shared ≡ alone.old.shared))) }
    ensures same_reference { IfOk result (λ t. t.seat.ghost_name ≡ alone.entry.ghost_name) }
    ensures open { IfOk result (λ t. IsOpen t.seat.now.pass) }
    ensures of_engine { IfOk result (λ t. engine_of t.seat.now.pass ≡ engine.now) }
    ensures shared { IfOk result (λ t. t.seat.now.shared ≡ alone.old.shared) }
{
    alone.begin(engine, reading)
}

/// Ends a transaction of the seat that is alone without an entry.
pub fn stop_alone<E: Lent<AnyState>>(txn: TxnOver<'_, Alone<AnyState>, E>)
    requires { IsOpen txn.seat.now.pass }
    ensures seat { IsIdleOf (engine_of txn.entry.seat.now.pass) txn.exit.0.now.pass }
    ensures shared { txn.exit.0.now.shared ≡ txn.entry.seat.now.shared }
{
    txn.abort();
}

/// Commits a transaction of the seat that is alone; how many versions took an inline place, and how many a place of the pool, if it
/// committed.
pub fn end_alone<E: Lent<AnyState>>(txn: TxnOver<'_, Alone<AnyState>, E>) -> Option<(u32, u32)>
    requires { IsOpen txn.seat.now.pass }
    ensures seat { IsIdleOf (engine_of txn.entry.seat.now.pass) txn.exit.0.now.pass }
    ensures shared { txn.exit.0.now.shared ≡ txn.entry.seat.now.shared }
{
    match txn.commit() {
        Ok(told) => Some((told.inlined, told.pooled)),
        Err(_) => None,
    }
}
