//! What a reading by a snapshot came to.

ghost use Rattle.std.specs.Prelude.{◌≡◌, Ok, IfOk};
ghost use Rattle.record_store.specs.Walks.{IfTorn};

use record_store::Walk;
use replay_model::NoMemory;
use txn_engine::NoFault;

/// What a reading came to that met no torn tables. A snapshot has no fault of its own, so want of memory is the only one.
pub fn untorn<T>(told: Result<T, Walk<NoFault>>) -> Result<T, NoMemory>
    requires { IfTorn told (λ _. ⊥) }
    ensures { IfOk result (λ value. told ≡ Ok value) }
{
    match told {
        Ok(value) => Ok(value),
        Err(Walk::NoMemory) => Err(NoMemory),
        Err(Walk::Torn(_)) => unreachable!(),
        Err(Walk::Store(fault)) => match fault {},
    }
}
