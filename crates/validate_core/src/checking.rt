//! The checks of a transaction: its read stamps, its reads once more, and the versions that it overwrites.
ghost use Rattle.std.specs.Prelude.{◌≡◌, ◌≢◌, ◌<◌, ◌+◌, [], take, length, OnOk, OnErr, IfOk, IfErr};
ghost use Rattle.word_layout.specs.Size.{places};
ghost use Rattle.core_rule.specs.View.{Write, checks, writing};
ghost use Rattle.core_rule.specs.Status.{status_word};
ghost use Rattle.core_rule.specs.Deciding.{commit_of, IsFitting};
ghost use Rattle.core_rule.specs.Hands.{IsReady, StaysReady};
ghost use Rattle.version_search.specs.Finding.{Finds};
ghost use Rattle.validate_core.specs.Sets.{IsInside, Turn, versions_read, records_written};
ghost use Rattle.validate_core.specs.Checked.{Raises, FindsAgain, IsReadInTime, PassesCheck, Checks, Validates};
ghost use Rattle.validate_core.specs.Halting.{StopsSearch, StopsCheck, FailsCheck, Halts};
ghost use Rattle.validate_core.specs.OneByOne.{OneByOne, StopsIn};
ghost use Rattle.validate_core.specs.Validating.{Works, Stage, Stopped, Decides, IsShown};

use crate::conflict::Conflict;
use crate::sets::Sets;
use core_rule::{Core, Hand, Keeps, Status};
use version_search::{Shown, find_again, find_to_check};

/// Validates a transaction whose writes are linked, up to the load that decides it.
pub(crate) fn validate<J: Keeps>(
    core: &Core<J>,
    hand: &mut Hand<J>,
    sets: &Sets,
    stamp: u64,
) -> Result<(), Conflict>
    requires ready { IsReady core.now hand.old }
    requires inside { IsInside core.now.size sets.now }
    requires installed { Stage stamp sets.now [] [] [] hand.old.view }
    requires fits { IsFitting J.kept core.now.size.records (commit_of (writing stamp) sets.now.reads sets.now.writes) }
    ensures ok { OnOk result (Decides J.kept core.now.size.records stamp sets.now hand.old.view hand.new.view) }
    ensures validates { OnOk result (Validates stamp hand.old.view.number (versions_read sets.now.reads) (records_written sets.now.writes) hand.old.view.seen.loads hand.new.view.seen.loads) }
    ensures works { OnErr result (Works hand.old.view hand.new.view) }
    ensures stopped { OnErr result (Stopped sets.now hand.new.view) }
    ensures conflict { IfErr result (IsShown stamp sets.now hand.old.view hand.new.view) }
    ensures halts { IfErr result (Halts stamp (versions_read sets.now.reads) (records_written sets.now.writes) hand.old.view.seen.loads hand.new.view.seen.loads) }
    ensures stays { StaysReady core.now hand.old hand.new }
{
    raise_all(core, hand, sets, stamp);
    if let Err(conflict) = search_again(core, hand, sets, stamp) {
        return Err(conflict);
    }
    check_writes(core, hand, sets, stamp)
}

// Raises the read stamp of each version read.
fn raise_all<J: Keeps>(core: &Core<J>, hand: &mut Hand<J>, sets: &Sets, stamp: u64)
    requires ready { IsReady core.now hand.old }
    requires inside { IsInside core.now.size sets.now }
    requires stage { Stage stamp sets.now [] [] [] hand.old.view }
    ensures stage { Stage stamp sets.now sets.now.reads [] [] hand.new.view }
    ensures raises { OneByOne Raises (versions_read sets.now.reads) hand.old.view.seen.loads hand.new.view.seen.loads }
    ensures works { Works hand.old.view hand.new.view }
    ensures stays { StaysReady core.now hand.old hand.new }
{
    for i in 0..sets.count_reads() {
        core.raise_read_stamp(hand, sets.read_at(i), stamp);
    }
}

// Searches each record read once more: the version read has to be the visible one still.
fn search_again<J: Keeps>(
    core: &Core<J>,
    hand: &mut Hand<J>,
    sets: &Sets,
    stamp: u64,
) -> Result<(), Conflict>
    requires ready { IsReady core.now hand.old }
    requires inside { IsInside core.now.size sets.now }
    requires stage { Stage stamp sets.now sets.now.reads [] [] hand.old.view }
    ensures stage { OnOk result (Stage stamp sets.now sets.now.reads sets.now.reads [] hand.new.view) }
    ensures again { OnOk result (OneByOne (FindsAgain stamp) (versions_read sets.now.reads) hand.old.view.seen.loads hand.new.view.seen.loads) }
    ensures works { Works hand.old.view hand.new.view }
    ensures stopped { OnErr result (Stopped sets.now hand.new.view) }
    ensures conflict { IfErr result (IsShown stamp sets.now hand.old.view hand.new.view) }
    ensures halts { IfErr result (λ conflict. StopsIn (FindsAgain stamp) (StopsSearch stamp conflict) (versions_read sets.now.reads) hand.old.view.seen.loads hand.new.view.seen.loads) }
    ensures stays { StaysReady core.now hand.old hand.new }
{
    for i in 0..sets.count_reads() {
        let read = sets.read_at(i);
        let shown = find_again(core, hand, read, stamp);
        if shown.status == Status::Pending {
            return Err(Conflict::Pending {
                rid: read.rid(),
                wts: shown.wts,
            });
        }
        if shown.wts != read.wts() {
            return Err(Conflict::Overtaken {
                rid: read.rid(),
                seen: read.wts(),
                now: shown.wts,
            });
        }
    }
    Ok(())
}

// Checks that no version to be overwritten was read at a later stamp. The last check decides the transaction; without
// writes a load of its published stamp does.
fn check_writes<J: Keeps>(
    core: &Core<J>,
    hand: &mut Hand<J>,
    sets: &Sets,
    stamp: u64,
) -> Result<(), Conflict>
    requires ready { IsReady core.now hand.old }
    requires inside { IsInside core.now.size sets.now }
    requires stage { Stage stamp sets.now sets.now.reads sets.now.reads [] hand.old.view }
    requires fits { IsFitting J.kept core.now.size.records (commit_of (writing stamp) sets.now.reads sets.now.writes) }
    ensures ok { OnOk result (Decides J.kept core.now.size.records stamp sets.now hand.old.view hand.new.view) }
    ensures checks { OnOk result (Checks stamp hand.old.view.number (records_written sets.now.writes) hand.old.view.seen.loads hand.new.view.seen.loads) }
    ensures works { OnErr result (Works hand.old.view hand.new.view) }
    ensures stopped { OnErr result (Stopped sets.now hand.new.view) }
    ensures conflict { IfErr result (IsShown stamp sets.now hand.old.view hand.new.view) }
    ensures halts { IfErr result (λ conflict. StopsIn (IsReadInTime stamp) (StopsCheck stamp conflict) (records_written sets.now.writes) hand.old.view.seen.loads hand.new.view.seen.loads) }
    ensures stays { StaysReady core.now hand.old hand.new }
{
    let count = sets.count_writes();
    if count == 0 {
        core.decide_bare(hand);
        return Ok(());
    }
    for i in 0..count - 1 {
        if let Err(conflict) = check(core, hand, sets, i, stamp) {
            return Err(conflict);
        }
    }
    check_last(core, hand, sets, count - 1, stamp)
}

// Searches for the version that the write of this number overwrites. A pending one stops the transaction.
fn find_overwritten<J: Keeps>(
    core: &Core<J>,
    hand: &mut Hand<J>,
    sets: &Sets,
    i: usize,
    stamp: u64,
) -> Result<Shown, Conflict>
    requires ready { IsReady core.now hand.old }
    requires inside { IsInside core.now.size sets.now }
    requires number { i < length sets.now.writes }
    requires stage { Stage stamp sets.now sets.now.reads sets.now.reads (take i sets.now.writes) hand.old.view }
    ensures finds { IfOk result (λ shown. (u : Write) → Turn i sets.now.writes u → Finds (checks u) stamp u.record_number shown.place shown.wts (status_word shown.status) hand.old.view hand.new.view) }
    ensures not_pending { IfOk result (λ shown. status_word shown.status ≢ status_word Status.Pending) }
    ensures place { IfOk result (λ shown. shown.place < places core.now.size) }
    ensures works { OnErr result (Works hand.old.view hand.new.view) }
    ensures stopped { OnErr result (Stopped sets.now hand.new.view) }
    ensures conflict { IfErr result (IsShown stamp sets.now hand.old.view hand.new.view) }
    ensures halts { IfErr result (FailsCheck stamp i sets.now.writes hand.old.view.seen.loads hand.new.view.seen.loads) }
    ensures stays { StaysReady core.now hand.old hand.new }
{
    let write = sets.write_at(i);
    let shown = find_to_check(core, hand, write, stamp);
    if shown.status == Status::Pending {
        return Err(Conflict::Pending {
            rid: write.rid(),
            wts: shown.wts,
        });
    }
    Ok(shown)
}

// Checks the write of this number.
fn check<J: Keeps>(
    core: &Core<J>,
    hand: &mut Hand<J>,
    sets: &Sets,
    i: usize,
    stamp: u64,
) -> Result<(), Conflict>
    requires ready { IsReady core.now hand.old }
    requires inside { IsInside core.now.size sets.now }
    requires number { i < length sets.now.writes }
    requires stage { Stage stamp sets.now sets.now.reads sets.now.reads (take i sets.now.writes) hand.old.view }
    ensures stage { OnOk result (Stage stamp sets.now sets.now.reads sets.now.reads (take (i + 1) sets.now.writes) hand.new.view) }
    ensures passes { OnOk result (PassesCheck stamp i sets.now.writes hand.old.view.seen.loads hand.new.view.seen.loads) }
    ensures works { Works hand.old.view hand.new.view }
    ensures stopped { OnErr result (Stopped sets.now hand.new.view) }
    ensures conflict { IfErr result (IsShown stamp sets.now hand.old.view hand.new.view) }
    ensures halts { IfErr result (FailsCheck stamp i sets.now.writes hand.old.view.seen.loads hand.new.view.seen.loads) }
    ensures stays { StaysReady core.now hand.old hand.new }
{
    let write = sets.write_at(i);
    let shown = match find_overwritten(core, hand, sets, i, stamp) {
        Ok(shown) => shown,
        Err(conflict) => return Err(conflict),
    };
    let rts = core.load_read_stamp(hand, shown.place);
    if rts > stamp {
        return Err(Conflict::ReadLater {
            rid: write.rid(),
            wts: shown.wts,
            rts,
        });
    }
    Ok(())
}

// Checks the last write, which decides the transaction.
fn check_last<J: Keeps>(
    core: &Core<J>,
    hand: &mut Hand<J>,
    sets: &Sets,
    i: usize,
    stamp: u64,
) -> Result<(), Conflict>
    requires ready { IsReady core.now hand.old }
    requires inside { IsInside core.now.size sets.now }
    requires number { i + 1 ≡ length sets.now.writes }
    requires stage { Stage stamp sets.now sets.now.reads sets.now.reads (take i sets.now.writes) hand.old.view }
    requires fits { IsFitting J.kept core.now.size.records (commit_of (writing stamp) sets.now.reads sets.now.writes) }
    ensures ok { OnOk result (Decides J.kept core.now.size.records stamp sets.now hand.old.view hand.new.view) }
    ensures passes { OnOk result (PassesCheck stamp i sets.now.writes hand.old.view.seen.loads hand.new.view.seen.loads) }
    ensures works { OnErr result (Works hand.old.view hand.new.view) }
    ensures stopped { OnErr result (Stopped sets.now hand.new.view) }
    ensures conflict { IfErr result (IsShown stamp sets.now hand.old.view hand.new.view) }
    ensures halts { IfErr result (FailsCheck stamp i sets.now.writes hand.old.view.seen.loads hand.new.view.seen.loads) }
    ensures stays { StaysReady core.now hand.old hand.new }
{
    let write = sets.write_at(i);
    let shown = match find_overwritten(core, hand, sets, i, stamp) {
        Ok(shown) => shown,
        Err(conflict) => return Err(conflict),
    };
    let rts = core.decide_by_check(hand, shown.place);
    if rts > stamp {
        return Err(Conflict::ReadLater {
            rid: write.rid(),
            wts: shown.wts,
            rts,
        });
    }
    Ok(())
}
