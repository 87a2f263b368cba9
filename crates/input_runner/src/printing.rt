//! The report and the summary of an input that was run.

ghost use Rattle.std.specs.Prelude.{◌≡◌, ◌++◌, ◌^◌, ◌<◌, IfOk, OnOk, All, length, map, codes};
ghost use Rattle.replay_model.specs.Input.{IsWellFormed, IsColumn};
ghost use Rattle.replay_model.specs.Replay.{NamesBlock, block_named};
ghost use Rattle.replay_model.specs.Answered.{HasAnswers, AllAnswered};
ghost use Rattle.replay_model.specs.Report.{blocks_text, tables_text, line};
ghost use Rattle.replay_model.specs.TableMap.{TableMap};
ghost use Rattle.load_gen.specs.Load.{spelled};
ghost use Rattle.load_gen.specs.Summary.{summary_lines};
ghost use Rattle.typed_tables.specs.Listing.{AreRows};
ghost use Rattle.input_runner.specs.Printing.{results_text, listed_text};

use load_gen::summary_of_rows;
use replay_model::{Input, Names, NoMemory, Outcome, Pairs, Placed, push_block, text_of_table};
use std::alloc::Global;

/// The text of results and of rows: each block with its answers, then every table, then the last line.
pub fn report_of(
    alloc: Global,
    input: &Input,
    results: &[(Placed, Outcome)],
    rows: &[Pairs],
) -> Result<Vec<u8>, NoMemory>
    requires well_formed { IsWellFormed input.now }
    requires named { All (NamesBlock input.now.lanes) (map (λ result. result.0) results.now) }
    requires answered { AllAnswered input.now.lanes (map (λ result. result.0) results.now) (map (λ result. result.1) results.now) }
    requires each { length rows.now ≡ length input.now.tables }
    ensures { IfOk result (λ text. (tables : TableMap) → AreRows (length input.now.tables) tables rows.now
        → text.items ≡ blocks_text input.now (map (λ result. result.0) results.now) (map (λ result. result.1) results.now) ++ tables_text 0 input.now.tables tables ++ line (codes "done")) }
{
    let mut text = Vec::new(alloc);
    push_results(&mut text, input, results)?;
    push_tables(alloc, &mut text, &input.tables, rows)?;
    text.extend_from_slice(b"done\n")?;
    Ok(text)
}

/// Appends the lines of each block.
fn push_results(
    text: &mut Vec<u8>,
    input: &Input,
    results: &[(Placed, Outcome)],
) -> Result<(), NoMemory>
    requires well_formed { IsWellFormed input.now }
    requires named { All (λ result. NamesBlock input.now.lanes result.0) results.now }
    requires answered { All (λ result. HasAnswers (block_named input.now.lanes result.0).commands result.1) results.now }
    ensures { OnOk result (text.new.items ≡ text.old.items ++ results_text input.now results.now) }
{
    for result in results {
        push_block(text, input, &result.0, &result.1)?;
    }
    Ok(())
}

/// Appends the lines of each table.
fn push_tables(
    alloc: Global,
    text: &mut Vec<u8>,
    declared: &Names,
    rows: &[Pairs],
) -> Result<(), NoMemory>
    requires columns { All (λ table. IsColumn table.1) declared.now }
    requires each { length rows.now ≡ length declared.now }
    ensures { OnOk result (text.new.items ≡ text.old.items ++ listed_text declared.now rows.now) }
{
    for (i, pairs) in rows.iter().enumerate() {
        let (name, columns) = (declared.get(i), declared.columns(i));
        let table = text_of_table(alloc, name, columns, pairs.as_slice())?;
        text.extend_from_slice(table.as_slice())?;
    }
    Ok(())
}

/// Three lines: how many transaction blocks the input has, the sum of all columns of all rows, and `done`.
pub fn summary_of(alloc: Global, input: &Input, rows: &[Pairs]) -> Result<Vec<u8>, NoMemory>
    requires { IsWellFormed input.now }
    ensures { IfOk result (λ text. (tables : TableMap) → AreRows (length input.now.tables) tables rows.now
        → text.items ≡ spelled (summary_lines input.now tables)) }
{
    summary_of_rows(alloc, input, rows)
}
