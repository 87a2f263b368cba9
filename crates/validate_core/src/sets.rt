//! What a transaction has read and what it writes.
ghost use Rattle.std.specs.Prelude.{◌≡◌, ◌≢◌, ◌⊎◌, ◌+◌, ◌<◌, ◌≤◌, min, List, [], ◌∷◌, ◌++◌, Some, None, IfSome, IfNone, option_copied, length, slice_set, OnOk, OnErr};
ghost use Rattle.word_layout.specs.Size.{places};
ghost use Rattle.core_rule.specs.View.{Read, Write};
ghost use Rattle.core_rule.specs.Views.{Among};
ghost use Rattle.core_rule.specs.Deciding.{read_value, read_values, written_values};
ghost use Rattle.core_rule.specs.Hands.{IsReady, StaysReady};
ghost use Rattle.core_rule.specs.Searching.{IsLoading, read_place, read_cells};
ghost use Rattle.core_rule.specs.Versions.{read_version, written_version};
ghost use Rattle.record_store.specs.Meaning.{value_at, with_value};
ghost use Rattle.validate_core.specs.Noted.{few};
ghost use Rattle.validate_core.specs.Sets.{SetsView, Turn, Once, LoadsOne, count_below};

use crate::noted::Noted;
use core_rule::{Core, Hand, Keeps, ReadVersion, WrittenVersion};
use plain_data::{Cells, NoMemory};
use std::alloc::Global;
use std::marker::Model;
use version_search::load_into;

/// The reads of a transaction with their version stamps, and its writes.
pub struct Sets {
    reads: Noted<ReadVersion>,
    writes: Noted<WrittenVersion>,
}

impl Model for Sets {
    ghost use Rattle.validate_core.specs.Sets.{SetsView};
    ghost use Rattle.validate_core.specs.Noted.{noted, room, AreNoted};

    ghost Value = { SetsView };

    ghost view = { λ s. record { reads = noted s.reads; writes = noted s.writes; read_room = room s.reads; write_room = room s.writes } };

    ghost invariant = { λ s. AreNoted s.reads s.writes };
}

// Written out, so that whoever lets one go needs one call in the proof and not one for each part of it.
impl Drop for Sets {
    fn drop(self) {
        let Sets {
            reads: _,
            writes: _,
        } = self;
    }
}

impl Sets {
    /// Nothing read, and nothing written. It takes no memory.
    pub fn new(alloc: Global) -> Self
        ensures reads { result.reads ≡ [] }
        ensures writes { result.writes ≡ [] }
    {
        Sets {
            reads: Noted::new(alloc),
            writes: Noted::new(alloc),
        }
    }

    /// Makes room for so many reads and writes beyond what stands. The lists stay as they are, after a refusal too, which comes
    /// only where there was less room.
    #[inline(always)]
    pub fn reserve(&mut self, reads: u32, writes: u32) -> Result<(), NoMemory>
        ensures reads { self.new.reads ≡ self.old.reads }
        ensures writes { self.new.writes ≡ self.old.writes }
        ensures read_room { OnOk result (length self.old.reads + reads ≤ self.new.read_room) }
        ensures write_room { OnOk result (length self.old.writes + writes ≤ self.new.write_room) }
        ensures full { OnErr result ((self.old.read_room < length self.old.reads + reads) ⊎ (self.old.write_room < length self.old.writes + writes)) }
        ensures not_less { (self.old.read_room ≤ self.new.read_room) × (self.old.write_room ≤ self.new.write_room) }
    {
        self.reads.reserve(reads)?;
        self.writes.reserve(writes)?;
        Ok(())
    }

    /// Adds a read of a record that has none, where there is room.
    pub fn read(&mut self, rid: u32, place: u32, wts: u64, value: Option<Cells>)
        requires room { length self.old.reads < self.old.read_room }
        requires first { (d : Read) → Among d self.old.reads → d.record_number ≢ rid }
        ensures reads { self.new.reads ≡ self.old.reads ++ read_version rid place wts value ∷ [] }
        ensures writes { self.new.writes ≡ self.old.writes }
        ensures once { Once (λ (d : Read). d.record_number) self.new.reads }
        ensures read_room { self.old.read_room ≤ self.new.read_room }
        ensures write_room { self.old.write_room ≤ self.new.write_room }
    {
        self.reads.make_item();
        let i = self.reads.count;
        self.reads.items[i].set(rid, place, wts, &value);
        self.reads.enter(rid);
    }

    /// Adds a read of a record that has none, where there is room: of the version that the last search for a read found, whose
    /// value is loaded.
    pub fn load<J: Keeps>(
        &mut self,
        core: &Core<J>,
        hand: &mut Hand<J>,
        rid: u32,
        place: u32,
        wts: u64,
    )
        requires ready { IsReady core.now hand.old }
        requires loading { IsLoading hand.old.view.work.reads }
        requires place { place ≡ read_place hand.old.view.work.reads }
        requires inside { place < places core.now.size }
        requires begins { read_cells hand.old.view.work.reads ≡ 0 }
        requires room { length self.old.reads < self.old.read_room }
        requires first { (d : Read) → Among d self.old.reads → d.record_number ≢ rid }
        ensures loads { LoadsOne rid place wts self.old self.new hand.old.view hand.new.view }
        ensures writes { self.new.writes ≡ self.old.writes }
        ensures once { Once (λ (d : Read). d.record_number) self.new.reads }
        ensures read_room { self.old.read_room ≤ self.new.read_room }
        ensures write_room { self.old.write_room ≤ self.new.write_room }
        ensures stays { StaysReady core.now hand.old hand.new }
    {
        self.reads.make_item();
        let i = self.reads.count;
        self.reads.items[i].begin(rid, place, wts);
        load_into(core, hand, place, &mut self.reads.items[i]);
        self.reads.enter(rid);
    }

    /// Adds a write to a record that has none, where there is room. It has no place yet.
    pub fn write(&mut self, rid: u32, value: Option<Cells>)
        requires room { length self.old.writes < self.old.write_room }
        requires first { (u : Write) → Among u self.old.writes → u.record_number ≢ rid }
        ensures writes { self.new.writes ≡ self.old.writes ++ written_version rid 0 0 value ∷ [] }
        ensures reads { self.new.reads ≡ self.old.reads }
        ensures once { Once (λ (u : Write). u.record_number) self.new.writes }
        ensures read_room { self.old.read_room ≤ self.new.read_room }
        ensures write_room { self.old.write_room ≤ self.new.write_room }
    {
        self.add_write(rid, &value);
    }

    // Adds such a write.
    fn add_write(&mut self, rid: u32, value: &Option<Cells>)
        requires room { length self.old.writes < self.old.write_room }
        requires first { (u : Write) → Among u self.old.writes → u.record_number ≢ rid }
        ensures writes { self.new.writes ≡ self.old.writes ++ written_version rid 0 0 value.now ∷ [] }
        ensures reads { self.new.reads ≡ self.old.reads }
        ensures once { Once (λ (u : Write). u.record_number) self.new.writes }
        ensures read_room { self.old.read_room ≤ self.new.read_room }
        ensures write_room { self.old.write_room ≤ self.new.write_room }
    {
        self.writes.make_item();
        let i = self.writes.count;
        self.writes.items[i].set(rid, value);
        self.writes.enter(rid);
    }

    /// Writes a value to a record, in place of an earlier one, where there is room.
    pub fn put(&mut self, rid: u32, value: &Option<Cells>)
        requires room { length self.old.writes < self.old.write_room }
        ensures values { written_values self.new.writes ≡ with_value (written_values self.old.writes) rid value.now }
        ensures reads { self.new.reads ≡ self.old.reads }
        ensures once { Once (λ (u : Write). u.record_number) self.new.writes }
        ensures read_room { self.old.read_room ≤ self.new.read_room }
        ensures write_room { self.old.write_room ≤ self.new.write_room }
    {
        tell_whole(value);
        match self.writes.position(rid) {
            Some(i) => self.writes.items[i].set(rid, value),
            None => self.add_write(rid, value),
        }
    }

    /// The version that was read of a record.
    pub fn read_of(&self, rid: u32) -> Option<&ReadVersion>
        ensures found { IfSome result (λ d. value_at (read_values self.now.reads) rid ≡ Some (read_value d.now)) }
        ensures none { IfNone result (value_at (read_values self.now.reads) rid ≡ None) }
    {
        let i = self.reads.position(rid)?;
        Some(&self.reads.items[i])
    }

    /// The value that is written to a record.
    pub fn value_written(&self, rid: u32) -> Option<&Option<Cells>>
        ensures { option_copied result ≡ value_at (written_values self.now.writes) rid }
    {
        let i = self.writes.position(rid)?;
        Some(self.writes.items[i].value())
    }

    /// Drops all reads and writes.
    pub fn clear(&mut self)
        ensures reads { self.new.reads ≡ [] }
        ensures writes { self.new.writes ≡ [] }
        ensures room { (min few self.old.read_room ≤ self.new.read_room) × (min few self.old.write_room ≤ self.new.write_room) }
    {
        self.reads.clear();
        self.writes.clear();
    }

    /// Drops the writes.
    pub fn drop_writes(&mut self)
        ensures reads { self.new.reads ≡ self.old.reads }
        ensures writes { self.new.writes ≡ [] }
        ensures room { (self.old.read_room ≤ self.new.read_room) × (min few self.old.write_room ≤ self.new.write_room) }
    {
        self.writes.clear();
    }

    /// The version that was read last.
    pub fn last_read(&self) -> &ReadVersion
        requires { self.now.reads ≢ [] }
        ensures { (ds : List Read) → (d : Read) → self.now.reads ≡ ds ++ d ∷ [] → result.now ≡ d }
    {
        &self.reads.items[self.reads.count - 1]
    }

    /// How many writes stand in places below this one.
    pub fn count_below(&self, place: u32) -> usize
        ensures { result ≡ count_below place self.now.writes }
    {
        let mut count = 0;
        for i in 0..self.writes.count {
            if self.writes.items[i].place() < place {
                count += 1;
            }
        }
        count
    }

    /// How many reads there are.
    pub fn count_reads(&self) -> usize
        ensures count { result ≡ length self.now.reads }
        ensures once { Once (λ (d : Read). d.record_number) self.now.reads }
    {
        self.reads.count
    }

    /// How many writes there are.
    pub fn count_writes(&self) -> usize
        ensures count { result ≡ length self.now.writes }
        ensures once { Once (λ (u : Write). u.record_number) self.now.writes }
    {
        self.writes.count
    }

    /// The read of this number, counted from 0.
    pub fn read_at(&self, i: usize) -> &ReadVersion
        requires { i < length self.now.reads }
        ensures { Turn i self.now.reads result.now }
    {
        &self.reads.items[i]
    }

    /// The write of this number; its place and its stamp are 0 before it is linked.
    pub fn write_at(&self, i: usize) -> &WrittenVersion
        requires { i < length self.now.writes }
        ensures { Turn i self.now.writes result.now }
    {
        &self.writes.items[i]
    }

    // Notes beside a write where it was linked, and at which stamp.
    pub(crate) fn place_at(&mut self, i: usize, place: u32, stamp: u64)
        requires { i < length self.old.writes }
        ensures writes { (u : Write) → Turn i self.old.writes u → self.new.writes ≡ slice_set self.old.writes i (record u { place = place; stamp = stamp }) }
        ensures reads { self.new.reads ≡ self.old.reads }
        ensures room { (self.old.read_room ≤ self.new.read_room) × (self.old.write_room ≤ self.new.write_room) }
    {
        self.writes.items[i].set_place(place, stamp);
    }
}

// All values have 32 words.
fn tell_whole(value: &Option<Cells>)
    ensures { IfSome value.now (λ words. length words ≡ 32) }
{
    if let Some(cells) = value {
        // Its type tells contracts how long it is.
        let _words = cells.words();
    }
}
