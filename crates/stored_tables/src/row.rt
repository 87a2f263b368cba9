//! A row as it stands in a record.

ghost use Rattle.std.specs.Prelude.{◌≡◌, ◌==◌, ℕ, List, IfSome, IfNone, length};
ghost use Rattle.std.specs.List.{list_all};
ghost use Rattle.stored_tables.specs.Tables.{row_words};

use plain_data::Cells;
use replay_model::Columns;

/// The cells of a row: its six columns, and zeros after them.
pub fn row_cells(row: &Columns) -> Cells
    ensures cells { result ≡ row_words row.now }
    ensures six { length row.now ≡ 6 }
{
    let [a, b, c, d, e, f] = row.values();
    Cells::new([
        a, b, c, d, e, f, 0, 0, 0, 0, 0, 0, 0, 0, 0, 0, 0, 0, 0, 0, 0, 0, 0, 0, 0, 0, 0, 0, 0, 0,
        0, 0,
    ])
}

/// The row of these cells, if they are those of a row.
pub fn read_row(cells: &Cells) -> Option<Columns>
    ensures row { IfSome result (λ row. cells.now ≡ row_words row) }
    ensures no_row { IfNone result ((row : List ℕ) → cells.now ≡ row_words row → ⊥) }
{
    let words = cells.words();
    if !has_zeros_alone(&words[6..]) {
        return None;
    }
    Some(Columns::new([words[0], words[1], words[2], words[3], words[4], words[5]]))
}

fn has_zeros_alone(words: &[u64]) -> bool
    ensures { result ≡ list_all (λ word. word == 0) words.now }
{
    words.iter().all(|word| *word == 0)
}
