//! An engine with one seat, and its pass.

ghost use Rattle.std.specs.Prelude.{◌≡◌, false, All, IfOk};
ghost use Rattle.program_rows.specs.Seats.{IsSeat};

use std::alloc::Global;
use stored_tables::RowsLawful;
use txn_engine::{Alone, Engine, Pass, StartFault};

/// An engine of a run with one seat and so many records, with `spare` places for versions beside one for each record, and the seat that is
/// alone.
pub fn one_seat(
    alloc: Global,
    records: u32,
    spare: u32,
) -> Result<(Engine<RowsLawful>, Alone<RowsLawful>), StartFault>
    ensures seat { IfOk result (λ made. IsSeat made.0 made.1.pass) }
    ensures not_shared { IfOk result (λ made. made.1.shared ≡ false) }
    ensures fixed { IfOk result (λ made. made.0.fixed ≡ 4112) }
{
    Engine::start(alloc, 1, records, 4112, spare)
}

/// The passes of all seats.
pub fn shared(alone: Alone<RowsLawful>, engine: &Engine<RowsLawful>) -> Vec<Pass<RowsLawful>>
    requires seat { IsSeat engine.now alone.pass }
    requires not_shared { alone.shared ≡ false }
    ensures { All (IsSeat engine.now) result.items }
{
    alone.share(engine)
}
