//! The worked row of typed tables: an account at key 1, a row that is none at key 2, and no row at key 3.

ghost use Rattle.std.specs.Prelude.{◌≡◌, OnOk};

use crate::script::Script;
use record_store::{MapFault, MapStore};
use replay_model::{Columns, Command, Outcome};
use std::alloc::Global;
use std::test::Fail;
use stored_tables::exec_txn;
use typed_tables::{Account, TypedFault, typed_get, typed_put, typed_remove, typed_scan};

/// A call on table 0, and what is due of it.
#[derive(Clone, Copy)]
enum Call {
    /// Puts the account at key 1.
    Puts,
    /// A block puts the columns of no account at key 2.
    PutsOther,
    /// The account at a key, or none.
    Gets(u64, Option<Account>),
    /// At key 2 stands a foreign row.
    GetsForeign,
    /// A scan from 0 to 9 for one row lists the account at key 1 alone.
    ScansFirst,
    /// One for five rows is refused for the foreign row, and the list stays as it was.
    ScansForeign,
    /// Removes key 1, and answers whether it was there.
    Removes(bool),
}

use Call::{Gets, GetsForeign, Puts, PutsOther, Removes, ScansFirst, ScansForeign};

/// The account at key 1.
const SAVED: Account = Account {
    owner: 7,
    balance: 50,
};

/// The columns at key 2: an owner has 32 bits at most.
const OTHER: [u64; 6] = [4_294_967_296, 1, 0, 0, 0, 0];

/// Whether it is the foreign row at key 2.
fn is_foreign<T: Drop>(answer: Result<T, TypedFault<MapFault>>) -> bool {
    match &answer {
        Err(TypedFault::Foreign { key, columns }) => *key == 2 && columns.values() == OTHER,
        _ => false,
    }
}

/// Puts the columns of no account at key 2 by a block, and answers whether it was done.
fn put_other(alloc: Global, store: &mut MapStore) -> Result<bool, Fail>
    requires fixed { store.old.fixed ≡ 4112 }
    requires size { store.old.size ≡ 4200 }
    ensures fixed { OnOk result (store.new.fixed ≡ 4112) }
    ensures size { OnOk result (store.new.size ≡ 4200) }
{
    let mut script = Script::new(alloc);
    let filled = script.push(Command::Put {
        table: 0,
        key: 2,
        values: Columns::new(OTHER),
    });
    let script = script.if_filled(filled)?;
    let outcome = exec_txn(alloc, store, &script.block().commands)?;
    Ok(matches!(outcome, Outcome::Done(_)))
}

/// Whether a scan for one row lists the account alone, or one for five is refused and leaves a list of it as it was.
fn scans(alloc: Global, store: &mut MapStore, limit: u32) -> Result<bool, Fail>
    requires fixed { store.old.fixed ≡ 4112 }
    requires size { store.old.size ≡ 4200 }
    ensures fixed { OnOk result (store.new.fixed ≡ 4112) }
    ensures size { OnOk result (store.new.size ≡ 4200) }
{
    let mut out: Vec<(u64, Account)> = Vec::new(alloc);
    typed_scan(alloc, store, 0, 0, 9, 1, &mut out)?;
    let refused = limit == 1 || is_foreign(typed_scan(alloc, store, 0, 0, 9, limit, &mut out));
    Ok(refused && out.as_slice() == [(1, SAVED)].as_slice())
}

/// Makes a call, and answers whether it came to what is due.
fn comes_to(alloc: Global, store: &mut MapStore, call: Call) -> Result<bool, Fail>
    requires fixed { store.old.fixed ≡ 4112 }
    requires size { store.old.size ≡ 4200 }
    ensures fixed { OnOk result (store.new.fixed ≡ 4112) }
    ensures size { OnOk result (store.new.size ≡ 4200) }
{
    match call {
        Puts => {
            typed_put(store, 0, 1, &SAVED)?;
            Ok(true)
        }
        PutsOther => put_other(alloc, store),
        Gets(key, due) => Ok(typed_get::<Account, MapStore>(store, 0, key)? == due),
        GetsForeign => Ok(is_foreign(typed_get::<Account, MapStore>(store, 0, 2))),
        ScansFirst => scans(alloc, store, 1),
        ScansForeign => scans(alloc, store, 5),
        Removes(due) => Ok(typed_remove(store, 0, 1)? == due),
    }
}

/// Makes these calls one behind the other.
fn make_each(alloc: Global, calls: &[Call]) -> Result<(), Fail> {
    let mut store = MapStore::new(alloc, 4112, 4200);
    for call in calls {
        if !comes_to(alloc, &mut store, *call)? {
            return Err("a call on a typed table answered another thing".into());
        }
    }
    Ok(())
}

#[test]
fn a_row_that_is_no_account_is_foreign(rt: HostRuntime) -> Result<(), Fail> {
    let calls = [
        Puts,
        PutsOther,
        Gets(1, Some(SAVED)),
        GetsForeign,
        Gets(3, None),
        ScansFirst,
        ScansForeign,
        Removes(true),
        Removes(false),
        Gets(1, None),
    ];
    make_each(rt.alloc(), &calls)
}
