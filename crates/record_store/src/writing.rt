//! Nodes of an index, written to their records.

ghost use Rattle.std.specs.Prelude.{◌≡◌, ◌<◌, OnOk, OnErr, Some};
ghost use Rattle.record_store.specs.Goes.{WalksByCalls};
ghost use Rattle.record_store.specs.Meaning.{after_write};
ghost use Rattle.record_store.specs.Walks.{IfTorn};

use crate::store::RecordStore;
use crate::walk::Walk;
use plain_data::Cells;

/// Writes the cells of a node to its record.
pub fn write_node<S: RecordStore>(
    store: &mut S,
    rid: u32,
    cells: Cells,
) -> Result<(), Walk<S::Fault>>
    requires { rid < (S.meaning store.old).size }
    ensures ok { OnOk result (S.meaning store.new ≡ after_write (S.meaning store.old) rid (Some cells)) }
    ensures err { OnErr result (S.meaning store.new ≡ S.meaning store.old) }
    ensures torn { IfTorn result (λ _. ⊥) }
    ensures walk { WalksByCalls S.read_gives S.write_gives S.fresh_gives S.meaning S.rest (λ _. ⊥) 0 store.old store.new result }
{
    store.write(rid, Some(cells))?;
    Ok(())
}
