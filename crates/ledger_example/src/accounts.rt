//! Accounts as rows of one table: at the key of an account stand its owner and its balance.
ghost use Rattle.std.specs.Prelude.{◌≡◌, ◌≤◌};

use record_store::{RecordRead, RecordStore};
use std::alloc::Global;
use typed_tables::{Account, TypedFault, typed_get, typed_put, typed_scan};

// The table that has the accounts.
const ACCOUNTS: u32 = 0;

/// From which account how much goes to which, each by its key.
#[derive(Clone, Copy, Drop)]
pub struct Transfer {
    pub from: u64,
    pub to: u64,
    pub amount: u64,
}

/// Moves the amount, or what the account has where that is less. Whether it did: both accounts are there, and the other one can hold the
/// sum.
pub fn make_transfer<S: RecordStore>(
    store: &mut S,
    transfer: Transfer,
) -> Result<bool, TypedFault<S::Fault>>
    requires size { 4112 ≤ (S.meaning store.old).size }
    requires fixed { 4112 ≤ (S.meaning store.old).fixed }
    ensures { S.rest store.new ≡ S.rest store.old }
{
    let Transfer { from, to, amount } = transfer;
    let Some(payer) = typed_get::<Account, S>(store, ACCOUNTS, from)? else {
        return Ok(false);
    };
    let Some(payee) = typed_get::<Account, S>(store, ACCOUNTS, to)? else {
        return Ok(false);
    };
    let moved = amount.min(payer.balance);
    let Some(sum) = payee.balance.checked_add(moved) else {
        return Ok(false);
    };
    if from != to {
        set_balance(store, from, payer, payer.balance - moved)?;
        set_balance(store, to, payee, sum)?;
    }
    Ok(true)
}

// Sets the balance of an account, whose owner stays.
fn set_balance<S: RecordStore>(
    store: &mut S,
    key: u64,
    account: Account,
    balance: u64,
) -> Result<(), TypedFault<S::Fault>>
    requires { 4112 ≤ (S.meaning store.old).fixed }
    ensures fixed { (S.meaning store.new).fixed ≡ (S.meaning store.old).fixed }
    ensures rest { S.rest store.new ≡ S.rest store.old }
{
    typed_put(store, ACCOUNTS, key, &Account { balance, ..account })
}

/// Opens an account with this balance for each of the first owners, so many of them; an owner's number is the key.
pub fn open_all<S: RecordStore>(
    store: &mut S,
    owners: u32,
    balance: u64,
) -> Result<(), TypedFault<S::Fault>>
    requires { 4112 ≤ (S.meaning store.old).fixed }
    ensures { S.rest store.new ≡ S.rest store.old }
{
    for owner in 0..owners {
        let account = Account { owner, balance };
        set_balance(store, u64::from(owner), account, balance)?;
    }
    Ok(())
}

/// What the first accounts have together, so many of them, modulo 2^64.
pub fn add_up<S: RecordRead>(
    alloc: Global,
    store: &mut S,
    accounts: u32,
) -> Result<u64, TypedFault<S::Fault>>
    requires { 4112 ≤ (S.meaning store.old).size }
    ensures { S.rest store.new ≡ S.rest store.old }
{
    let mut rows: Vec<(u64, Account)> = Vec::new(alloc);
    typed_scan(alloc, store, ACCOUNTS, 0, u64::MAX, accounts, &mut rows)?;
    let mut sum = 0u64;
    for (_, account) in rows.as_slice() {
        sum = sum.wrapping_add(account.balance);
    }
    Ok(sum)
}
