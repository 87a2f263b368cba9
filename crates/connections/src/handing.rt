//! Record numbers that go from one connection to another: what a connection has too many of it offers, and what it has too few of it takes.

ghost use Rattle.std.specs.Prelude.{◌≡◌, ◌≤◌, ◌<◌};
ghost use Rattle.connections.specs.Connection.{IsOpenOf};
ghost use Rattle.connections.specs.Handing.{Gives, GivesAll, TakesIn, with_spare};
ghost use Rattle.number_queue.specs.Passes.{AreSameLimits};

use number_queue::{Number, NumberPass};
use stored_tables::RowsLawful;
use txn_engine::{Engine, Pass, TxnOver};

/// A connection that has fewer spare numbers takes some before it puts a row, which needs up to so many.
pub(crate) const TAKEN_BELOW: u32 = 12;

/// A connection keeps up to so many spare numbers where no transaction is open.
pub(crate) const KEPT: u32 = 32;

// Puts the last spare numbers into the queue, until no more than these are left or the queue refuses one.
pub(crate) fn give(pass: &mut Pass<RowsLawful>, numbers: &mut NumberPass, keep: u32)
    ensures gives { Gives keep pass.old pass.new numbers.old numbers.new }
    ensures limits { AreSameLimits numbers.old numbers.new }
{
    let since = pass.last().number();
    while pass.spare() > keep {
        let Some(rid) = pass.part_with() else {
            unreachable!();
        };
        if !numbers.offer(Number { rid, since }) {
            pass.take_in(rid);
            return;
        }
    }
}

// Puts all numbers into the queue, as far as it takes them.
pub(crate) fn give_all(pass: &mut Pass<RowsLawful>, numbers: &mut NumberPass)
    ensures gives { GivesAll pass.old pass.new numbers.old numbers.new }
    ensures only { pass.new ≡ with_spare pass.old pass.new.spare }
    ensures limits { AreSameLimits numbers.old numbers.new }
{
    give(pass, numbers, 0);
    numbers.put_back();
}

// Takes numbers for the transaction that is open at the pass, where it has few.
pub(crate) fn take_in(
    pass: &mut Pass<RowsLawful>,
    engine: &Engine<RowsLawful>,
    numbers: &mut NumberPass,
)
    requires pass { IsOpenOf engine.now pass.old }
    requires fixed { numbers.old.fixed ≡ engine.now.fixed }
    requires records { numbers.old.records ≡ engine.now.size.records }
    ensures takes { TakesIn pass.old.stamp 12 pass.old pass.new numbers.old numbers.new }
    ensures only { pass.new ≡ with_spare pass.old pass.new.spare }
    ensures limits { AreSameLimits numbers.old numbers.new }
{
    if pass.spare() >= TAKEN_BELOW {
        return;
    }
    let txn = TxnOver::resume(pass, engine);
    let stamp = txn.stamp().number();
    txn.leave();
    take(pass, numbers, stamp, TAKEN_BELOW);
}

// Takes so many numbers at most for a transaction of this stamp.
fn take(pass: &mut Pass<RowsLawful>, numbers: &mut NumberPass, stamp: u64, most: u32)
    requires fixed { pass.old.fixed ≡ numbers.old.fixed }
    requires records { pass.old.shared.size.records ≡ numbers.old.records }
    ensures takes { TakesIn stamp most pass.old pass.new numbers.old numbers.new }
    ensures only { pass.new ≡ with_spare pass.old pass.new.spare }
    ensures limits { AreSameLimits numbers.old numbers.new }
{
    if most == 0 || pass.spare() >= TAKEN_BELOW {
        return;
    }
    let Some(rid) = numbers.take(stamp) else {
        return;
    };
    pass.take_in(rid);
    take(pass, numbers, stamp, most - 1);
}
