//! How the trees of a table give empty leaves back.

ghost use Rattle.std.specs.Prelude.{All, ◌≡◌, ℕ, ◌<◌, ◌≤◌, [], IfOk, IfSome};
ghost use Rattle.record_store.specs.Goes.{GoesByCalls};
ghost use Rattle.record_store.specs.Walks.{IfTorn, OnlyReads};
ghost use Rattle.replay_model.specs.Input.{IsColumn};
ghost use Rattle.stored_tables.specs.Answers.{Stands};
ghost use Rattle.stored_tables.specs.Reclaim.{GivesLeaf, GivesLeaves};
ghost use Rattle.stored_tables.specs.Runs.{Runs};
ghost use Rattle.stored_tables.specs.Tears.{IsTreeOf, NamesTornChange};

use crate::leaving::Taken;
use crate::places::root_of;
use ordered_index::{Freed, Key};
use record_store::{RecordStore, Walk};

/// Gives the leaf of a key of a tree back where it is empty, and answers the records that are absent from then on.
pub fn reclaim_leaf<S: RecordStore>(
    store: &mut S,
    tree: u32,
    key: Key,
) -> Result<Freed, Walk<S::Fault>>
    requires tree { tree < 16 }
    requires fixed { 4112 ≤ (S.meaning store.old).fixed }
    ensures runs { Runs S.read_gives S.write_gives S.fresh_gives S.meaning (Stands (S.meaning store.old)) (λ _ _ _. ⊥) (λ freed asked state held. (asked ≡ 0) × GivesLeaf tree key freed.items (S.meaning store.old) (S.meaning store.new) state held) 3 store.old store.new result }
    ensures tears { (table : ℕ) → IsTreeOf table tree → IfTorn result (NamesTornChange table (S.meaning store.new)) }
    ensures asks_nothing { GoesByCalls S.read_gives S.write_gives S.fresh_gives S.meaning (λ _. ⊥) 0 store.old store.new result }

    // also where no state that agrees stands for tables
    ensures stored { IfOk result (λ freed. All (λ rid. rid < (S.meaning store.old).size) freed.items) }

    // nothing is written where nothing is freed
    ensures kept { IfOk result (λ freed. freed.items ≡ [] → OnlyReads (S.meaning store.old) (S.meaning store.new)) }
    ensures rest { S.rest store.new ≡ S.rest store.old }
{
    ordered_index::reclaim(store, root_of(tree), key)
}

/// Gives the leaves back where a row's entries were, of its table's tree by keys and of its index.
pub fn reclaim_leaves<S: RecordStore>(
    store: &mut S,
    table: u32,
    key: u64,
    taken: &Taken,
) -> Result<(), Walk<S::Fault>>
    requires table { table < 8 }
    requires fixed { 4112 ≤ (S.meaning store.old).fixed }
    requires column { IfSome taken.now.index IsColumn }
    ensures runs { Runs S.read_gives S.write_gives S.fresh_gives S.meaning (Stands (S.meaning store.old)) (λ _ _ _. ⊥) (λ _ asked state held. (asked ≡ 0) × GivesLeaves table key taken.now.index taken.now.row (S.meaning store.old) (S.meaning store.new) state held) 6 store.old store.new result }
    ensures tears { IfTorn result (NamesTornChange table (S.meaning store.new)) }
    ensures asks_nothing { GoesByCalls S.read_gives S.write_gives S.fresh_gives S.meaning (λ _. ⊥) 0 store.old store.new result }
    ensures rest { S.rest store.new ≡ S.rest store.old }
{
    reclaim_leaf(store, table, Key { high: key, low: 0 })?;
    let Some(column) = taken.index else {
        return Ok(());
    };
    let high = taken.row.column(column);
    reclaim_leaf(store, table + 8, Key { high, low: key })?;
    Ok(())
}
