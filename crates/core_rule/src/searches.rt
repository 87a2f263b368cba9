//! Steps of a search, and those that link a version.
ghost use Rattle.std.specs.Prelude.{◌≡◌, ◌≢◌, ◌+◌, ◌<◌, ◌≤◌, suc, Some, None, true, false, []};
ghost use Rattle.word_layout.specs.Size.{places};
ghost use Rattle.word_layout.specs.Name.{cell, word_of};
ghost use Rattle.stamp_base.specs.Limits.{end_of_stamps};
ghost use Rattle.core_rule.specs.View.{reads, links, blank, stamped, marks, writing, shown, at_front};
ghost use Rattle.core_rule.specs.Searching.{IsAt, stand_in, look_in, joint_in, write_in, first_joint, stamp_seen, Rests, IsPassed, IsLate, AsksStatus, limit_of, IsLoading, read_place, read_cells, FitsPlace, IsNotLinked, front_fill, IsWholeFill};
ghost use Rattle.core_rule.specs.Holding.{filled_place, IsFilling};
ghost use Rattle.core_rule.specs.Status.{status_word};
ghost use Rattle.core_rule.specs.Views.{IsAlone};
ghost use Rattle.core_rule.specs.Hands.{IsReady, Steps};
ghost use Rattle.core_rule.specs.Kinds.{load_head, load_next, load_stamp, load_status, load_cell, mark, point, link_head, link_next, front_head, front_stamp, front_status, front_next};
ghost use Rattle.word_layout.specs.Limits.{cells_of_value};

use crate::hand::Hand;
use crate::shared::Core;
use crate::status::Status;
use histories::Keeps;
use std::marker::Brand;

impl<J: Keeps> Core<J> {
    /// Begins a search for a read: loads the head of a record's list.
    pub fn load_head(&self, hand: &mut Hand<J>, rid: u32) -> u64
        requires ready { IsReady self.now hand.old }
        requires record { rid < self.now.size.records }
        requires rests { Rests hand.old.view.work.search }
        ensures { Steps J.kept (load_head reads rid) hand.old result hand.new }
    {
        let word = self.layout.head(rid);
        self.load::<Brand, _>(&mut hand.seat, word, &rid)
    }

    /// Goes on to the next older version, from one that is too late or aborted.
    pub fn load_next(&self, hand: &mut Hand<J>, place: u32) -> u64
        requires ready { IsReady self.now hand.old }
        requires here { IsAt place hand.old.view.work.search }
        requires place { place < places self.now.size }
        requires passed { IsPassed (limit_of hand.old.view.flight hand.old.view.published.read) (look_in hand.old.view.work.search) }
        requires late { IsLate (stand_in hand.old.view.work.search).aim (look_in hand.old.view.work.search) }
        ensures { Steps J.kept (load_next (stand_in hand.old.view.work.search) (look_in hand.old.view.work.search)) hand.old result hand.new }
    {
        let word = self.layout.next(place);
        self.load::<Brand, _>(&mut hand.seat, word, &())
    }

    /// Loads the write stamp at the place where the search stands.
    pub fn load_stamp(&self, hand: &mut Hand<J>, place: u32) -> u64
        requires ready { IsReady self.now hand.old }
        requires here { IsAt place hand.old.view.work.search }
        requires place { place < places self.now.size }
        requires blank { look_in hand.old.view.work.search ≡ blank }
        ensures { Steps J.kept (load_stamp (stand_in hand.old.view.work.search)) hand.old result hand.new }
    {
        let word = self.layout.wts(place);
        self.load::<Brand, _>(&mut hand.seat, word, &())
    }

    /// Loads the status there, of a version of this stamp that is not too late.
    pub fn load_status(&self, hand: &mut Hand<J>, place: u32, stamp: u64) -> Status
        requires ready { IsReady self.now hand.old }
        requires here { IsAt place hand.old.view.work.search }
        requires place { place < places self.now.size }
        requires seen { look_in hand.old.view.work.search ≡ stamped stamp }
        requires early { stamp < limit_of hand.old.view.flight hand.old.view.published.read }
        requires asks { AsksStatus (stand_in hand.old.view.work.search).aim }
        ensures { Steps J.kept (load_status (stand_in hand.old.view.work.search) stamp) hand.old (status_word result) hand.new }
    {
        let word = self.layout.status(place);
        let found = self.load::<Brand, _>(&mut hand.seat, word, &stamp);
        Status::shown_by(found)
    }

    /// Loads the next cell of the version that was found last, whose first cell stands in the word `first`.
    pub fn load_cell(&self, hand: &mut Hand<J>, first: u32, index: u32) -> u64
        requires ready { IsReady self.now hand.old }
        requires loading { IsLoading hand.old.view.work.reads }
        requires first { first ≡ word_of self.now.size (cell (read_place hand.old.view.work.reads) 0) }
        requires inside { read_place hand.old.view.work.reads < places self.now.size }
        requires index { index ≡ read_cells hand.old.view.work.reads }
        requires room { index < cells_of_value }
        ensures { Steps J.kept load_cell hand.old result hand.new }
    {
        let seat = &mut hand.seat;
        let word = first + index;
        self.load::<Brand, _>(seat, word, &())
    }

    /// Begins the search for the place of a version that is marked.
    pub fn load_head_to_link(&self, hand: &mut Hand<J>, rid: u32) -> u64
        requires ready { IsReady self.now hand.old }
        requires record { rid < self.now.size.records }
        requires marked { hand.old.view.work.search ≡ marks (write_in hand.old.view.work.search) }
        requires of_record { (write_in hand.old.view.work.search).record_number ≡ rid }
        ensures { Steps J.kept (load_head (links (first_joint (write_in hand.old.view.work.search))) rid) hand.old result hand.new }
    {
        let word = self.layout.head(rid);
        self.load::<Brand, _>(&mut hand.seat, word, &rid)
    }

    /// Marks what is filled as a pending version of a record.
    pub fn mark(&self, hand: &mut Hand<J>, rid: u32, place: u32)
        requires ready { IsReady self.now hand.old }
        requires in_work { IsFilling hand.old.view.places.fills }
        requires place { place ≡ filled_place hand.old.view.places.fills }
        requires inside { place < places self.now.size }
        requires in_flight { hand.old.view.flight ≡ writing (front_fill hand.old.view.places.fills).stamp }
        requires reset { (front_fill hand.old.view.places.fills).reset ≡ true }
        requires fits { FitsPlace self.now.size rid place }
        requires rests { Rests hand.old.view.work.search }
        requires only { IsNotLinked rid hand.old.view.work.linked }
        requires whole { IsWholeFill (front_fill hand.old.view.places.fills) }
        requires undecided { hand.old.view.work.decided ≡ false }
        ensures { Steps J.kept (mark rid (front_fill hand.old.view.places.fills)) hand.old (status_word Status.Pending) hand.new }
    {
        let word = self.layout.status(place);
        self.store::<Brand, _>(&mut hand.seat, word, Status::Pending.word(), &rid);
    }

    /// Stores in the own link of a marked version the place below, where the search stands.
    pub fn point(&self, hand: &mut Hand<J>, place: u32, below: u32)
        requires ready { IsReady self.now hand.old }
        requires here { IsAt below hand.old.view.work.search }
        requires seen { look_in hand.old.view.work.search ≡ stamped (stamp_seen (look_in hand.old.view.work.search)) }
        requires linking { (stand_in hand.old.view.work.search).aim ≡ links (joint_in hand.old.view.work.search) }
        requires place { place ≡ (joint_in hand.old.view.work.search).write.place }
        requires inside { place < places self.now.size }
        requires early { stamp_seen (look_in hand.old.view.work.search) < (joint_in hand.old.view.work.search).write.stamp }
        ensures { Steps J.kept (point (stand_in hand.old.view.work.search) (joint_in hand.old.view.work.search) (stamp_seen (look_in hand.old.view.work.search))) hand.old (suc below) hand.new }
    {
        let word = self.layout.next(place);
        let seat = &mut hand.seat;
        self.store::<Brand, _>(seat, word, u64::from(below) + 1, &());
    }

    /// Links the marked version at the head of its record's list, if the head still names the place below.
    pub fn link_head(&self, hand: &mut Hand<J>, rid: u32, place: u32, below: u32) -> u64
        requires ready { IsReady self.now hand.old }
        requires here { IsAt below hand.old.view.work.search }
        requires seen { look_in hand.old.view.work.search ≡ stamped (stamp_seen (look_in hand.old.view.work.search)) }
        requires linking { (stand_in hand.old.view.work.search).aim ≡ links (joint_in hand.old.view.work.search) }
        requires place { place ≡ (joint_in hand.old.view.work.search).write.place }
        requires rid { rid ≡ (stand_in hand.old.view.work.search).record_number }
        requires inside { rid < self.now.size.records }
        requires stored { (joint_in hand.old.view.work.search).stored ≡ true }
        requires first { (joint_in hand.old.view.work.search).above ≡ None }
        ensures { Steps J.kept (link_head (stand_in hand.old.view.work.search) (joint_in hand.old.view.work.search) (stamp_seen (look_in hand.old.view.work.search))) hand.old result hand.new }
    {
        let word = self.layout.head(rid);
        let (old, new) = (u64::from(below) + 1, u64::from(place) + 1);
        self.compare_exchange::<Brand, _>(&mut hand.seat, word, old, new, &())
    }

    /// Links the marked version behind the place above, if that place's link still names the place below.
    pub fn link_next(&self, hand: &mut Hand<J>, above: u32, place: u32, below: u32) -> u64
        requires ready { IsReady self.now hand.old }
        requires here { IsAt below hand.old.view.work.search }
        requires seen { look_in hand.old.view.work.search ≡ stamped (stamp_seen (look_in hand.old.view.work.search)) }
        requires linking { (stand_in hand.old.view.work.search).aim ≡ links (joint_in hand.old.view.work.search) }
        requires place { place ≡ (joint_in hand.old.view.work.search).write.place }
        requires inside { above < places self.now.size }
        requires stored { (joint_in hand.old.view.work.search).stored ≡ true }
        requires above { (joint_in hand.old.view.work.search).above ≡ Some above }
        ensures { Steps J.kept (link_next (stand_in hand.old.view.work.search) (joint_in hand.old.view.work.search) above (stamp_seen (look_in hand.old.view.work.search))) hand.old result hand.new }
    {
        let word = self.layout.next(above);
        let (old, new) = (u64::from(below) + 1, u64::from(place) + 1);
        self.compare_exchange::<Brand, _>(&mut hand.seat, word, old, new, &above)
    }
}

impl<J: Keeps> Core<J> {
    /// Loads the head of a record's list, by a seat that is alone.
    pub fn front_head(&self, hand: &mut Hand<J>, rid: u32) -> u64
        requires ready { IsReady self.now hand.old }
        requires rid { rid < self.now.size.records }
        requires alone { IsAlone hand.old.view }
        ensures { Steps J.kept (front_head rid) hand.old result hand.new }
    {
        let word = self.layout.head(rid);
        self.load::<Brand, _>(&mut hand.seat, word, &rid)
    }

    /// Loads the write stamp of the first version.
    pub fn front_stamp(&self, hand: &mut Hand<J>, rid: u32, place: u32) -> u64
        requires ready { IsReady self.now hand.old }
        requires front { hand.old.view.front ≡ at_front rid place blank }
        requires place { place < places self.now.size }
        ensures { Steps J.kept (front_stamp rid place) hand.old result hand.new }
    {
        let word = self.layout.wts(place);
        self.load::<Brand, _>(&mut hand.seat, word, &())
    }

    /// Loads its status.
    pub fn front_status(&self, hand: &mut Hand<J>, rid: u32, place: u32, stamp: u64) -> Status
        requires ready { IsReady self.now hand.old }
        requires front { hand.old.view.front ≡ at_front rid place (stamped stamp) }
        requires place { place < places self.now.size }
        ensures { Steps J.kept (front_status rid place stamp) hand.old (status_word result) hand.new }
    {
        let word = self.layout.status(place);
        let found = self.load::<Brand, _>(&mut hand.seat, word, &stamp);
        Status::shown_by(found)
    }

    /// Loads its link: 0 where it is the only version, and then the seat knows so.
    pub fn front_next(
        &self,
        hand: &mut Hand<J>,
        rid: u32,
        place: u32,
        stamp: u64,
        status: Status,
    ) -> u64
        requires ready { IsReady self.now hand.old }
        requires front { hand.old.view.front ≡ at_front rid place (shown stamp (status_word status)) }
        requires place { place < places self.now.size }
        ensures { Steps J.kept (front_next rid place stamp (status_word status)) hand.old result hand.new }
    {
        let word = self.layout.next(place);
        self.load::<Brand, _>(&mut hand.seat, word, &())
    }
}
