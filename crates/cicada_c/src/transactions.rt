//! Transactions.
ghost use Rattle.std.specs.Prelude.{◌≡◌};
ghost use Rattle.connections.specs.EachCall.{Abort, Begin, Commit};
ghost use Rattle.cicada_c.specs.Status.{Answers, coded, noted, value_or};

use crate::handle::CicadaHandle;
use crate::status::{CicadaConflict, status, status_with};

/// Begins a transaction.
#[unsafe(no_mangle)]
pub extern "C" fn cicada_proved_begin(
    handle: &mut CicadaHandle,
    reading: u64,
    beside: &mut CicadaConflict,
) -> i32
    ensures { Answers (Begin reading) coded (λ answer. beside.new ≡ noted beside.old answer) handle.old handle.new result }
{
    status(handle.connection().begin(reading), beside)
}

/// Commits the transaction, at `stamp`.
#[unsafe(no_mangle)]
pub extern "C" fn cicada_proved_commit(
    handle: &mut CicadaHandle,
    stamp: &mut u64,
    beside: &mut CicadaConflict,
) -> i32
    ensures { Answers Commit coded (λ answer. (beside.new ≡ noted beside.old answer) × (stamp.new ≡ value_or stamp.old answer)) handle.old handle.new result }
{
    status_with(handle.connection().commit(), stamp, beside)
}

/// Ends the transaction, which leaves nothing.
#[unsafe(no_mangle)]
pub extern "C" fn cicada_proved_abort(handle: &mut CicadaHandle, beside: &mut CicadaConflict) -> i32
    ensures { Answers Abort coded (λ answer. beside.new ≡ noted beside.old answer) handle.old handle.new result }
{
    status(handle.connection().abort(), beside)
}
