//! The head of a table's index.

ghost use Rattle.std.specs.Prelude.{◌≡◌, ℕ, ◌<◌, ◌≤◌, IfOk, IfSome, IfNone};
ghost use Rattle.record_store.specs.Walks.{IfTorn};
ghost use Rattle.replay_model.specs.Input.{IsColumn};
ghost use Rattle.stored_tables.specs.Answers.{Stands, IsIndexed};
ghost use Rattle.stored_tables.specs.Runs.{Looks};
ghost use Rattle.stored_tables.specs.Shape.{head_words};
ghost use Rattle.stored_tables.specs.Tears.{NamesTorn};

use crate::places::head_of;
use plain_data::Cells;
use record_store::{RecordRead, Walk};

/// The column that a table's index is on, if it has one.
pub fn index_of<S: RecordRead>(store: &mut S, table: u32) -> Result<Option<u32>, Walk<S::Fault>>
    requires table { table < 8 }
    requires size { 4112 ≤ (S.meaning store.old).size }
    ensures looks { Looks S.read_gives S.meaning (Stands (S.meaning store.old)) (IsIndexed table) store.old store.new result }
    ensures tears { IfTorn result (NamesTorn table (S.meaning store.old) (S.meaning store.new)) }
    ensures column { IfOk result (λ column. IfSome column IsColumn) }
    ensures rest { S.rest store.new ≡ S.rest store.old }
{
    let head = head_of(table);
    let mut cells = Cells::new([0; 32]);
    if !store.read_into(head, &mut cells)? {
        return Ok(None);
    }
    match read_head(&cells) {
        Some(column) => Ok(Some(column)),
        None => Err(Walk::Torn(head)),
    }
}

/// The cells of a head: the column, and zeros after it.
pub fn head_cells(column: u32) -> Cells
    ensures { result ≡ head_words column }
{
    let mut words = [0; 32];
    words[0] = u64::from(column);
    Cells::new(words)
}

/// The column of these cells, if they are those of a head.
fn read_head(cells: &Cells) -> Option<u32>
    ensures head { IfSome result (λ column. (cells.now ≡ head_words column) × IsColumn column) }
    ensures no_head { IfNone result ((column : ℕ) → IsColumn column → cells.now ≡ head_words column → ⊥) }
{
    let word = cells.word(0);
    if word < 1 || word > 6 {
        return None;
    }
    let column = word as u32;
    if head_cells(column) == *cells {
        Some(column)
    } else {
        None
    }
}
