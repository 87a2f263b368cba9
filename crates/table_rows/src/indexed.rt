//! Rows of a table with an index: searches by it, pages of rows, and a row that is changed.

ghost use Rattle.std.specs.Prelude.{◌≡◌, OnOk};

use record_store::{MapFault, MapStore};
use replay_model::Columns;
use std::alloc::Global;
use std::test::Fail;
use stored_tables::{FIXED_RECORDS, find_rows, page_rows};
use typed_tables::{Account, declare_index, typed_find, typed_put, typed_update};

/// A call on table 0, and what is due of it. The rows are accounts, and the index is on column 2, the balance.
#[derive(Clone, Copy)]
enum Call {
    /// Declares the index, and answers whether it did.
    Declares(bool),
    /// Puts an account with a balance at a key.
    Puts(u64, u64),
    /// A search by a column, for values of a range, so many rows at most: it finds these keys, or the table has no such index.
    Finds(u32, (u64, u64), u32, Option<&'static [u64]>),
    /// The page of two rows behind a key has these keys.
    Pages(Option<u64>, &'static [u64]),
    /// Adds 60 to the balance at a key, and answers what it is then.
    Adds(u64, Option<u64>),
}

use Call::{Adds, Declares, Finds, Pages, Puts};

/// Whether these are the keys of the rows.
fn are_keys<T>(rows: &[(u64, T)], due: &[u64]) -> bool {
    rows.len() == due.len() && rows.iter().zip(due).all(|(row, key)| row.0 == *key)
}

/// Whether both searches find these keys, or find that the table has no such index.
fn finds(
    alloc: Global,
    store: &mut MapStore,
    column: u32,
    range: (u64, u64),
    limit: u32,
    due: Option<&'static [u64]>,
) -> Result<bool, Fail>
    requires fixed { store.old.fixed ≡ 4112 }
    requires size { store.old.size ≡ 4200 }
    ensures fixed { OnOk result (store.new.fixed ≡ 4112) }
    ensures size { OnOk result (store.new.size ≡ 4200) }
{
    let mut typed: Vec<(u64, Account)> = Vec::new(alloc);
    let indexed = typed_find(alloc, store, 0, column, range.0, range.1, limit, &mut typed)?;
    let found = find_rows(alloc, store, 0, column, range.0, range.1, limit)?;
    Ok(match (found, due) {
        (Some(pairs), Some(due)) => {
            indexed && are_keys(pairs.as_slice(), due) && are_keys(&typed, due)
        }
        (None, None) => !indexed && typed.is_empty(),
        _ => false,
    })
}

/// Adds 60 to the balance at a key, and answers what it is then.
fn add(store: &mut MapStore, key: u64) -> Result<Option<u64>, Fail>
    requires fixed { store.old.fixed ≡ 4112 }
    requires size { store.old.size ≡ 4200 }
    ensures fixed { OnOk result (store.new.fixed ≡ 4112) }
    ensures size { OnOk result (store.new.size ≡ 4200) }
{
    let updated = typed_update(
        store,
        0,
        key,
        |account: Account| Account {
            balance: account.balance.saturating_add(60),
            ..account
        },
    )?;
    Ok(updated.map(|account| account.balance))
}

/// Makes a call, and answers whether it came to what is due.
fn comes_to(alloc: Global, store: &mut MapStore, call: Call) -> Result<bool, Fail>
    requires fixed { store.old.fixed ≡ 4112 }
    requires size { store.old.size ≡ 4200 }
    ensures fixed { OnOk result (store.new.fixed ≡ 4112) }
    ensures size { OnOk result (store.new.size ≡ 4200) }
{
    match call {
        Declares(due) => Ok(declare_index(alloc, store, 0, 2)? == due),
        Puts(key, balance) => {
            typed_put(store, 0, key, &Account { owner: 7, balance })?;
            Ok(true)
        }
        Finds(column, range, limit, due) => finds(alloc, store, column, range, limit, due),
        Pages(behind, due) => {
            let page = page_rows(alloc, store, 0, behind, 2)?;
            Ok(are_keys(page.as_slice(), due))
        }
        Adds(key, due) => Ok(add(store, key)? == due),
    }
}

/// Makes these calls one behind the other.
fn make_each(alloc: Global, calls: &[Call]) -> Result<(), Fail> {
    let mut store = MapStore::new(alloc, FIXED_RECORDS, 4200);
    for call in calls {
        if !comes_to(alloc, &mut store, *call)? {
            return Err("a call on a table with an index answered another thing".into());
        }
    }
    Ok(())
}

#[test]
fn rows_are_found_by_an_index_and_listed_in_pages(rt: HostRuntime) -> Result<(), Fail> {
    let calls = [
        Finds(2, (0, 99), 9, None),
        Declares(true),
        Puts(1, 70),
        Puts(2, 5),
        Puts(3, 70),
        Puts(4, 9),
        Declares(false),
        Finds(2, (0, 99), 9, Some(&[2, 4, 1, 3])),
        Finds(2, (6, 70), 2, Some(&[4, 1])),
        Finds(2, (71, 99), 9, Some(&[])),
        Finds(1, (0, 99), 9, None),
        Pages(None, &[1, 2]),
        Pages(Some(2), &[3, 4]),
        Pages(Some(3), &[4]),
        Pages(Some(u64::MAX), &[]),
        Adds(2, Some(65)),
        Adds(5, None),
        Finds(2, (0, 99), 9, Some(&[4, 2, 1, 3])),
        Pages(Some(4), &[]),
    ];
    make_each(rt.alloc(), &calls)
}
