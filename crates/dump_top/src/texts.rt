//! The text of a dump.

ghost use Rattle.std.specs.Prelude.{◌≡◌, ◌^◌, ◌<◌, ◌∷◌, [], ◌++◌, IfOk, OnOk, All, length};
ghost use Rattle.replay_model.specs.Input.{IsColumn};
ghost use Rattle.replay_model.specs.Report.{tables_text};
ghost use Rattle.snap_dump.specs.Dumps.{seen_of};
ghost use Rattle.dump_top.specs.Rows.{pairs_in};
ghost use Rattle.dump_top.specs.Texts.{dump_text};

use itoa::Buffer;
use replay_model::{Columns, Names, NoMemory, Rows, text_of_table};
use snap_dump::Dump;
use std::alloc::Global;

/// A dump of the tables that are declared: its stamp, each of them as a report has it, and a last line.
pub fn text_of_dump(alloc: Global, declared: &Names, dump: &Dump) -> Result<Vec<u8>, NoMemory>
    requires columns { All (λ table. IsColumn table.1) declared.now }
    requires few { length declared.now < 2 ^ 32 }
    ensures { IfOk result (λ text. text.items ≡ dump_text declared.now (seen_of dump.now).0 (seen_of dump.now).1) }
{
    let mut text = Vec::new(alloc);
    text.extend_from_slice(b"dump ")?;
    let mut digits = Buffer::new();
    text.extend_from_slice(digits.format(dump.stamp).as_bytes())?;
    text.extend_from_slice(b"\n")?;
    push_tables(alloc, &mut text, declared, dump)?;
    text.extend_from_slice(b"done\n")?;
    Ok(text)
}

/// Appends the lines of each table.
fn push_tables(
    alloc: Global,
    text: &mut Vec<u8>,
    declared: &Names,
    dump: &Dump,
) -> Result<(), NoMemory>
    requires columns { All (λ table. IsColumn table.1) declared.now }
    requires few { length declared.now < 2 ^ 32 }
    ensures { OnOk result (text.new.items ≡ text.old.items ++ tables_text 0 declared.now (seen_of dump.now).1) }
{
    for i in 0..declared.len() {
        let pairs = pairs_of(alloc, &dump.rows, i as u32)?;
        let table = text_of_table(alloc, declared.get(i), declared.columns(i), &pairs)?;
        text.extend_from_slice(table.as_slice())?;
    }
    Ok(())
}

/// The rows of one table among those of all.
fn pairs_of(alloc: Global, rows: &Rows, table: u32) -> Result<Vec<(u64, Columns)>, NoMemory>
    ensures { IfOk result (λ pairs. pairs.items ≡ pairs_in table rows.now) }
{
    let mut pairs = Vec::new(alloc);
    for &row in rows.as_slice() {
        push_own(&mut pairs, table, row)?;
    }
    Ok(pairs)
}

/// Appends a row where it is one of the table.
fn push_own(
    pairs: &mut Vec<(u64, Columns)>,
    table: u32,
    row: (u32, u64, Columns),
) -> Result<(), NoMemory>
    ensures { OnOk result (pairs.new.items ≡ pairs.old.items ++ pairs_in table (row ∷ [])) }
{
    let (other, key, columns) = row;
    if other == table {
        pairs.push((key, columns))?;
        return Ok(());
    }
    Ok(())
}
