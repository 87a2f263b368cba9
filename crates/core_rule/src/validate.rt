//! Steps that validate a transaction, decide it, and store the last statuses of what it linked; and the end of a snapshot.
ghost use Rattle.std.specs.Prelude.{◌≡◌, ◌≢◌, ◌<◌, ◌≤◌, true, false, [], ◌∷◌, ◌++◌};
ghost use Rattle.word_layout.specs.Size.{places};
ghost use Rattle.stamp_base.specs.Limits.{end_of_stamps};
ghost use Rattle.core_rule.specs.View.{again, checks, stamped, shown, resting, writing, no_item};
ghost use Rattle.core_rule.specs.Status.{status_word};
ghost use Rattle.core_rule.specs.Views.{Among, Has, AllIn};
ghost use Rattle.core_rule.specs.Searching.{IsAt, stand_in, look_in, stamp_seen, state_seen, checked_in, Rests, IsFinal, IsWhole, IsNotRead, Begins, OthersPassed, shown_at};
ghost use Rattle.core_rule.specs.Deciding.{stamp_in, commit_of, IsFitting, IsUndecided};
ghost use Rattle.core_rule.specs.Snapshots.{firsts, AreAllWhole};
ghost use Rattle.core_rule.specs.Hands.{IsReady, Steps};
ghost use Rattle.core_rule.specs.Kinds.{load_head, raise_read_stamp, load_read_stamp, decide_by_check, decide_bare, store_status, finish};

use crate::hand::Hand;
use crate::shared::Core;
use crate::status::Status;
use crate::versions::{ReadVersion, WrittenVersion};
use histories::Keeps;
use std::marker::Brand;

impl<J: Keeps> Core<J> {
    /// Raises the read stamp of a version that was read to the stamp in flight, and gives what it was before.
    pub fn raise_read_stamp(&self, hand: &mut Hand<J>, read: &ReadVersion, stamp: u64) -> u64
        requires ready { IsReady self.now hand.old }
        requires in_flight { hand.old.view.flight ≡ writing stamp }
        requires inside { read.now.place < places self.now.size }
        requires found { Among read.now hand.old.view.work.reads }
        requires whole { IsWhole read.now }
        requires only { IsNotRead read.now.record_number hand.old.view.work.raised }
        requires undecided { hand.old.view.work.decided ≡ false }
        ensures { Steps J.kept (raise_read_stamp read.now) hand.old result hand.new }
    {
        let word = self.layout.rts(read.place());
        self.fetch_max::<Brand, _>(&mut hand.seat, word, stamp, read)
    }

    /// Begins the second search for a version that was read, whose read stamp is raised.
    pub fn load_head_again(&self, hand: &mut Hand<J>, read: &ReadVersion) -> u64
        requires ready { IsReady self.now hand.old }
        requires record { read.now.record_number < self.now.size.records }
        requires begins { Begins (again read.now) read.now.record_number hand.old.view.work }
        ensures { Steps J.kept (load_head (again read.now) read.now.record_number) hand.old result hand.new }
    {
        let word = self.layout.head(read.rid());
        self.load::<Brand, _>(&mut hand.seat, word, read)
    }

    /// Begins the search for the version that a linked one overwrites.
    pub fn load_head_to_check(&self, hand: &mut Hand<J>, write: &WrittenVersion) -> u64
        requires ready { IsReady self.now hand.old }
        requires record { write.now.record_number < self.now.size.records }
        requires begins { Begins (checks write.now) write.now.record_number hand.old.view.work }
        ensures { Steps J.kept (load_head (checks write.now) write.now.record_number) hand.old result hand.new }
    {
        let word = self.layout.head(write.rid());
        self.load::<Brand, _>(&mut hand.seat, word, write)
    }

    /// Loads the read stamp of the version that a linked one overwrites: at most the stamp in flight, it passes the check.
    pub fn load_read_stamp(&self, hand: &mut Hand<J>, place: u32) -> u64
        requires ready { IsReady self.now hand.old }
        requires here { IsAt place hand.old.view.work.search }
        requires place { place < places self.now.size }
        requires seen { look_in hand.old.view.work.search ≡ shown (stamp_seen (look_in hand.old.view.work.search)) (state_seen (look_in hand.old.view.work.search)) }
        requires last { IsFinal (state_seen (look_in hand.old.view.work.search)) }
        requires aim { (stand_in hand.old.view.work.search).aim ≡ checks (checked_in hand.old.view.work.search) }
        ensures { Steps J.kept (load_read_stamp (stand_in hand.old.view.work.search) (checked_in hand.old.view.work.search) (stamp_seen (look_in hand.old.view.work.search)) (state_seen (look_in hand.old.view.work.search))) hand.old result hand.new }
    {
        let word = self.layout.rts(place);
        self.load::<Brand, _>(&mut hand.seat, word, &())
    }

    /// The same at the last check of a transaction, which decides to commit where it passes.
    pub fn decide_by_check(&self, hand: &mut Hand<J>, place: u32) -> u64
        requires ready { IsReady self.now hand.old }
        requires here { IsAt place hand.old.view.work.search }
        requires place { place < places self.now.size }
        requires seen { look_in hand.old.view.work.search ≡ shown (stamp_seen (look_in hand.old.view.work.search)) (state_seen (look_in hand.old.view.work.search)) }
        requires last { IsFinal (state_seen (look_in hand.old.view.work.search)) }
        requires aim { (stand_in hand.old.view.work.search).aim ≡ checks (checked_in hand.old.view.work.search) }
        requires finished { AllIn hand.old.view.work.raised hand.old.view.work.finished }
        requires passed { OthersPassed (checked_in hand.old.view.work.search).record_number hand.old.view.work.linked hand.old.view.work.passed }
        requires undecided { IsUndecided hand.old.view.work }
        requires fits { IsFitting J.kept self.now.size.records (commit_of hand.old.view.flight hand.old.view.work.finished hand.old.view.work.linked) }
        ensures { Steps J.kept (decide_by_check (stand_in hand.old.view.work.search) (checked_in hand.old.view.work.search) (stamp_seen (look_in hand.old.view.work.search)) (state_seen (look_in hand.old.view.work.search))) hand.old result hand.new }
    {
        let rts = self.layout.rts(place);
        self.load::<Brand, _>(&mut hand.seat, rts, &())
    }

    /// Decides to commit a transaction whose reads were all searched again and that writes nothing, at a load of its
    /// published stamp.
    pub fn decide_bare(&self, hand: &mut Hand<J>) -> u64
        requires ready { IsReady self.now hand.old }
        requires in_flight { hand.old.view.flight ≡ writing (stamp_in hand.old.view.flight) }
        requires rests { Rests hand.old.view.work.search }
        requires finished { AllIn hand.old.view.work.raised hand.old.view.work.finished }
        requires bare { hand.old.view.work.linked ≡ [] }
        requires undecided { IsUndecided hand.old.view.work }
        requires fits { IsFitting J.kept self.now.size.records (commit_of hand.old.view.flight hand.old.view.work.finished []) }
        ensures { Steps J.kept decide_bare hand.old result hand.new }
    {
        let word = self.layout.published_write(hand.number);
        self.load::<Brand, _>(&mut hand.seat, word, &())
    }

    /// Stores the last status of a linked version: committed or deleted where the transaction was decided, else aborted.
    pub fn store_status(&self, hand: &mut Hand<J>, write: &WrittenVersion, decided: bool)
        requires ready { IsReady self.now hand.old }
        requires inside { write.now.place < places self.now.size }
        requires rests { Rests hand.old.view.work.search }
        requires linked { Among write.now hand.old.view.work.linked }
        requires once { Has write.now.record_number hand.old.view.work.settled → ⊥ }
        requires decided { hand.old.view.work.decided ≡ decided }
        ensures { Steps J.kept (store_status write.now) hand.old (shown_at decided write.now.cells) hand.new }
    {
        let word = self.layout.status(write.place());
        let last = last_status(write, decided);
        self.store::<Brand, _>(&mut hand.seat, word, last.word(), write);
    }

    /// Ends a snapshot with all that it has read, at a load of the own published read word: its entry enters the log. The
    /// reads are those that the view has, so nothing of them is stored.
    pub fn finish(&self, hand: &mut Hand<J>) -> u64
        requires ready { IsReady self.now hand.old }
        requires resting { hand.old.view.flight ≡ resting }
        requires whole { AreAllWhole hand.old.view.work.reads }
        requires collected { hand.old.view.work.item ≡ no_item }
        ensures { Steps J.kept (finish (firsts hand.old.view.work.reads)) hand.old result hand.new }
    {
        let word = self.layout.published_read(hand.number);
        self.load::<Brand, _>(&mut hand.seat, word, &())
    }
}

/// The last status of a version.
fn last_status(write: &WrittenVersion, decided: bool) -> Status
    ensures { status_word result ≡ shown_at decided write.now.cells }
{
    if !decided {
        Status::Aborted
    } else if write.is_deletion() {
        Status::Deleted
    } else {
        Status::Committed
    }
}
