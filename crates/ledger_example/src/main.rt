//! A ledger over the engine, as a caller embeds it: accounts as rows of a table, transfers by threads, which begin again after a conflict,
//! older versions taken back beside them, and a snapshot that adds up all accounts. The sum, which no transfer changes, is printed;
//! contracts do not speak of it.
#![tactic(auto)]

ghost use Rattle.std.specs.Prelude.{◌≡◌, ◌≤◌, false, IfOk};
ghost use Rattle.ledger_example.specs.Tables.{HoldsTables};
ghost use Rattle.txn_engine.specs.Pass.{IsIdleOf};

mod accounts;
mod transfers;

use histories::AnyState;
use std::alloc::Global;
use std::io::{self, Print};
use std::thread::Threads;
use transfers::{fill, run_all, sum};
use txn_engine::{Alone, Engine, StartFault};
use typed_tables::FIXED_RECORDS;

/// How many accounts there are.
pub const ACCOUNTS: u32 = 8;

/// What each account has at first.
pub const FIRST: u64 = 100;

fn main(rt: HostRuntime) -> io::Result<()> {
    match begin(rt.alloc()) {
        Ok((engine, alone)) => run(&rt, rt.alloc(), &engine, alone),
        Err(fault) => println!(&rt; "no engine: {fault}"),
    }
}

// An engine of four seats, with records for tables and one more for each account, and places for 64 more versions; and its seat that is
// alone.
fn begin(alloc: Global) -> Result<(Engine<AnyState>, Alone<AnyState>), StartFault>
    ensures seat { IfOk result (λ made. IsIdleOf made.0 made.1.pass) }
    ensures not_shared { IfOk result (λ made. made.1.shared ≡ false) }
    ensures tables { IfOk result (λ made. HoldsTables made.0) }
{
    Engine::start(alloc, 4, FIXED_RECORDS + ACCOUNTS, FIXED_RECORDS, 64)
}

// Opens the accounts, makes all transfers, and prints the sum.
fn run<R: Threads + Sync + Print>(
    rt: &R,
    alloc: Global,
    engine: &Engine<AnyState>,
    mut alone: Alone<AnyState>,
) -> io::Result<()>
    requires seat { IsIdleOf engine.now alone.pass }
    requires not_shared { alone.shared ≡ false }
    requires tables { HoldsTables engine.now }
{
    if !fill(engine, &mut alone) {
        return println!(rt; "the accounts were not opened");
    }
    let mut passes = alone.share(engine);
    run_all(rt, engine, &mut passes);
    match sum(alloc, engine, &mut passes) {
        Some(sum) => println!(rt; "the accounts have {sum}"),
        None => println!(rt; "an account was not read"),
    }
}
