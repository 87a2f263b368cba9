//! What a summary counts and adds up.

ghost use Rattle.std.specs.Prelude.{◌≡◌, ◌+◌, ◌<◌, ◌^◌, IfOk};
ghost use Rattle.std.specs.List.{count_by};
ghost use Rattle.replay_model.specs.Input.{IsWellFormed};
ghost use Rattle.load_gen.specs.Summary.{is_txn, transactions, columns_sum, rows_sum, lists_sum, tables_sum};

use replay_model::{Blocks, Columns, Input, NoMemory, Pairs, Tables};
use std::alloc::Global;

/// How many blocks of the input are no snapshots.
pub fn transactions(input: &Input) -> u64
    requires { IsWellFormed input.now }
    ensures { result ≡ transactions input.now.lanes }
{
    let mut total: u64 = 0;
    for blocks in input.lanes.as_slice() {
        total += txns_in(blocks) as u64;
    }
    total
}

/// How many of these are no snapshots.
#[tactic(auto, using(std::proofs::lemmas::List::Sums::count_by_more_yes, std::proofs::lemmas::List::Sums::count_by_more_no))]
fn txns_in(blocks: &Blocks) -> usize
    ensures { result ≡ count_by is_txn blocks.now }
{
    let mut count: usize = 0;
    for block in blocks.as_slice() {
        if !block.snap {
            count += 1;
        }
    }
    count
}

/// The sum of all columns of all rows of the first tables, so many of them.
///
/// A sum above 2^128 - 1 would take more than 2^61 rows; it counts as want of memory.
pub fn tables_sum(alloc: Global, count: usize, tables: &Tables) -> Result<u128, NoMemory>
    requires { count < 2 ^ 32 }
    ensures { IfOk result (λ sum. sum ≡ tables_sum count tables.now) }
{
    let mut total: u128 = 0;
    for i in 0..count {
        let pairs = tables.pairs(alloc, i as u32)?;
        total = added(total, rows_sum(&pairs)?)?;
    }
    Ok(total)
}

/// The sum of all columns of all rows in these lists.
///
/// A sum above 2^128 - 1 would take more than 2^61 rows; it counts as want of memory.
pub fn lists_sum(lists: &[Pairs]) -> Result<u128, NoMemory>
    ensures { IfOk result (λ sum. sum ≡ lists_sum lists.now) }
{
    let mut total: u128 = 0;
    for pairs in lists {
        total = added(total, rows_sum(pairs)?)?;
    }
    Ok(total)
}

/// The sum of all columns of these rows.
fn rows_sum(pairs: &Pairs) -> Result<u128, NoMemory>
    ensures { IfOk result (λ sum. sum ≡ rows_sum pairs.now) }
{
    let mut total: u128 = 0;
    for i in 0..pairs.len() {
        let &(_, row) = pairs.get(i);
        total = added(total, columns_sum(&row))?;
    }
    Ok(total)
}

/// The sum of two numbers, where it has 128 bits.
fn added(total: u128, more: u128) -> Result<u128, NoMemory>
    ensures { IfOk result (λ sum. sum ≡ total + more) }
{
    match total.checked_add(more) {
        Some(sum) => Ok(sum),
        None => Err(NoMemory),
    }
}

/// The sum of the columns of a row; six numbers of 64 bits do not come near 128.
fn columns_sum(row: &Columns) -> u128
    ensures { result ≡ columns_sum row.now }
{
    let low = row.column(1) as u128 + row.column(2) as u128 + row.column(3) as u128;
    low + row.column(4) as u128 + row.column(5) as u128 + row.column(6) as u128
}
