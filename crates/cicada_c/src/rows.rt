//! Rows of the tables.
ghost use Rattle.std.specs.Prelude.{◌≡◌, length};
ghost use Rattle.connections.specs.EachCall.{DeclareIndex, FindRows, Get, ListRows, Put, Remove};
ghost use Rattle.cicada_c.specs.Status.{Answers, coded, coded_bool, coded_option, counted_or, counted_option, noted, some_or};
ghost use Rattle.cicada_c.specs.Writing.{WritesRows, found_or_none, rows_or_none};

use crate::handle::CicadaHandle;
use crate::status::{ABSENT, CicadaConflict, OK, status, status_of};
use connections::CallFault;
use replay_model::Columns;
use std::alloc::Global;

/// The row of a table at a key, in the transaction or the snapshot that is open.
#[unsafe(no_mangle)]
pub extern "C" fn cicada_proved_get(
    handle: &mut CicadaHandle,
    table: u32,
    key: u64,
    columns: &mut [u64; 6],
    beside: &mut CicadaConflict,
) -> i32
    ensures { Answers (Get table key) coded_option (λ answer. (beside.new ≡ noted beside.old answer) × (columns.new ≡ some_or columns.old answer)) handle.old handle.new result }
{
    match handle.connection().get(table, key) {
        Ok(Some(row)) => {
            *columns = row.values();
            OK
        }
        Ok(None) => ABSENT,
        Err(fault) => status_of(fault, beside),
    }
}

/// Sets the row of a table at a key.
#[unsafe(no_mangle)]
pub extern "C" fn cicada_proved_put(
    handle: &mut CicadaHandle,
    table: u32,
    key: u64,
    columns: &[u64; 6],
    beside: &mut CicadaConflict,
) -> i32
    ensures { Answers (Put table key columns.now) coded (λ answer. beside.new ≡ noted beside.old answer) handle.old handle.new result }
{
    let row = Columns::new(*columns);
    status(handle.connection().put(table, key, &row), beside)
}

/// Takes the row of a table at a key out.
#[unsafe(no_mangle)]
pub extern "C" fn cicada_proved_remove(
    handle: &mut CicadaHandle,
    table: u32,
    key: u64,
    beside: &mut CicadaConflict,
) -> i32
    ensures { Answers (Remove table key) coded_bool (λ answer. beside.new ≡ noted beside.old answer) handle.old handle.new result }
{
    status_of_bool(handle.connection().remove(table, key), beside)
}

/// The first `limit` rows of a table with keys from `low` to `high`. `count` is how many they are; of these `keys` and `rows` get as many as
/// there is room for.
#[unsafe(no_mangle)]
pub extern "C" fn cicada_proved_list(
    alloc: Global,
    handle: &mut CicadaHandle,
    table: u32,
    low: u64,
    high: u64,
    limit: u32,
    keys: &mut [u64],
    rows: &mut [[u64; 6]],
    count: &mut usize,
    beside: &mut CicadaConflict,
) -> i32
    ensures { Answers (ListRows table low high limit) coded (λ answer. (beside.new ≡ noted beside.old answer) × (count.new ≡ counted_or count.old answer) × WritesRows (rows_or_none answer) keys.old keys.new rows.old rows.new) handle.old handle.new result }
{
    match handle.connection().list(alloc, table, low, high, limit) {
        Ok(found) => {
            *count = found.as_slice().len();
            write_rows(found.as_slice(), keys, rows);
            OK
        }
        Err(fault) => status_of(fault, beside),
    }
}

/// The first `limit` rows of a table whose column lies from `low` to `high`, by its index; counted and written as those of a list.
#[unsafe(no_mangle)]
pub extern "C" fn cicada_proved_find(
    alloc: Global,
    handle: &mut CicadaHandle,
    table: u32,
    column: u32,
    low: u64,
    high: u64,
    limit: u32,
    keys: &mut [u64],
    rows: &mut [[u64; 6]],
    count: &mut usize,
    beside: &mut CicadaConflict,
) -> i32
    ensures { Answers (FindRows table column low high limit) coded_option (λ answer. (beside.new ≡ noted beside.old answer) × (count.new ≡ counted_option count.old answer) × WritesRows (found_or_none answer) keys.old keys.new rows.old rows.new) handle.old handle.new result }
{
    match handle
        .connection()
        .find(alloc, table, column, low, high, limit)
    {
        Ok(Some(found)) => {
            *count = found.as_slice().len();
            write_rows(found.as_slice(), keys, rows);
            OK
        }
        Ok(None) => ABSENT,
        Err(fault) => status_of(fault, beside),
    }
}

/// Declares an index of a table on a column.
#[unsafe(no_mangle)]
pub extern "C" fn cicada_proved_declare_index(
    alloc: Global,
    handle: &mut CicadaHandle,
    table: u32,
    column: u32,
    beside: &mut CicadaConflict,
) -> i32
    ensures { Answers (DeclareIndex table column) coded_bool (λ answer. beside.new ≡ noted beside.old answer) handle.old handle.new result }
{
    status_of_bool(
        handle.connection().declare_index(alloc, table, column),
        beside,
    )
}

// The status of an answer of whether something was there.
fn status_of_bool(answer: Result<bool, CallFault>, beside: &mut CicadaConflict) -> i32
    ensures status { result ≡ coded_bool answer }
    ensures noted { beside.new ≡ noted beside.old answer }
{
    match answer {
        Ok(true) => OK,
        Ok(false) => ABSENT,
        Err(fault) => status_of(fault, beside),
    }
}

// Writes the first of these rows, as many as there is room for.
fn write_rows(found: &[(u64, Columns)], keys: &mut [u64], rows: &mut [[u64; 6]])
    ensures { WritesRows found.now keys.old keys.new rows.old rows.new }
{
    let most = found.len().min(keys.len()).min(rows.len());
    for i in 0..most {
        let (key, row) = &found[i];
        keys[i] = *key;
        rows[i] = row.values();
    }
}
