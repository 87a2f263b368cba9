//! Collection after a try and after a block.

ghost use Rattle.std.specs.Prelude.{◌≡◌, []};
ghost use Rattle.histories.specs.History.{Lawful};
ghost use Rattle.history_replay.specs.Results.{StandsForSome};
ghost use Rattle.txn_engine.specs.Pass.{IsIdleOf, IsAlone};
ghost use Rattle.lane_runner.specs.Rows.{stands};
ghost use Rattle.lane_runner.specs.Blocks.{IsRefused};
ghost use Rattle.lane_runner.specs.Ready.{IsReady, IsReadyOnceCollected};

use stored_tables::RowsLawful;
use txn_engine::{Engine, Pass, Seat};

/// Collects below what the pass has queued. What cannot be collected yet stays for the next time; of a pass that is alone nothing
/// stays, and its log is told to be lawful.
pub(crate) fn collect(engine: &Engine<RowsLawful>, pass: &mut Pass<RowsLawful>)
    requires pass { IsIdleOf engine.now pass.old }
    ensures none { IsRefused 0 pass.old pass.new }
    ensures clock { pass.new.clock ≡ pass.old.clock }
    ensures queue { IsAlone pass.old → pass.new.queue ≡ [] }
    ensures ready { IsReadyOnceCollected pass.old → IsReady pass.new }
    ensures lawful { IsAlone pass.old → Lawful (StandsForSome stands) pass.old.shared.size.records pass.old.log }
{
    pass.tell(engine);
    pass.collect(engine);
}
