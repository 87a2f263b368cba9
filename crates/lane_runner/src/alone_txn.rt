//! How a transaction of the seat that is alone ends.

ghost use Rattle.std.specs.Prelude.{◌≡◌, Ok, IfOk};
ghost use Rattle.lane_runner.specs.AloneTxn.{CommitsAlone, MayEndAlone};
ghost use Rattle.lane_runner.specs.Holding.{KeepsShared};

use record_store::Walk;
use replay_model::NoMemory;
use stored_tables::RowsLawful;
use txn_engine::{Alone, AloneFault, Engine, TxnOver};

/// Ends the transaction that is open at the seat that is alone, by what its body answered: it commits, at the stamp that is given; or memory
/// was wanted for, and it ends without an entry. What it has read is what the log left, so a body that answers otherwise of that is ruled out.
pub(crate) fn end_alone<T>(
    engine: &Engine<RowsLawful>,
    alone: &mut Alone<RowsLawful>,
    told: Result<T, Walk<AloneFault>>,
) -> Result<(u64, T), NoMemory>
    requires { MayEndAlone engine.now told alone.old }
    ensures told { IfOk result (λ done. told ≡ Ok done.1) }
    ensures commits { IfOk result (λ done. CommitsAlone alone.old alone.new done.0) }
    ensures shared { KeepsShared alone.old alone.new }
{
    let txn = TxnOver::resume(alone, engine);
    match told {
        Ok(answer) => {
            let Ok(committed) = txn.commit() else {
                unreachable!();
            };
            Ok((committed.stamp.number(), answer))
        }
        Err(Walk::Torn(_)) => {
            txn.abort();
            unreachable!()
        }
        Err(Walk::Store(AloneFault::RecordsOut)) => {
            txn.abort();
            unreachable!()
        }
        Err(_) => {
            txn.abort();
            Err(NoMemory)
        }
    }
}
