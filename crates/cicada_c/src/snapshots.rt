//! Snapshots.
ghost use Rattle.std.specs.Prelude.{◌≡◌};
ghost use Rattle.connections.specs.EachCall.{Finish, Snapshot};
ghost use Rattle.cicada_c.specs.Status.{Answers, coded, noted, value_or};

use crate::handle::CicadaHandle;
use crate::status::{CicadaConflict, status, status_with};

/// Begins a snapshot.
#[unsafe(no_mangle)]
pub extern "C" fn cicada_proved_snapshot(
    handle: &mut CicadaHandle,
    beside: &mut CicadaConflict,
) -> i32
    ensures { Answers Snapshot coded (λ answer. beside.new ≡ noted beside.old answer) handle.old handle.new result }
{
    status(handle.connection().snapshot(), beside)
}

/// Ends the snapshot, which read at `stamp`.
#[unsafe(no_mangle)]
pub extern "C" fn cicada_proved_finish(
    handle: &mut CicadaHandle,
    stamp: &mut u64,
    beside: &mut CicadaConflict,
) -> i32
    ensures { Answers Finish coded (λ answer. (beside.new ≡ noted beside.old answer) × (stamp.new ≡ value_or stamp.old answer)) handle.old handle.new result }
{
    status_with(handle.connection().finish(), stamp, beside)
}
