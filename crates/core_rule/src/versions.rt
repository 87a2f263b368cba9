//! Versions that a transaction has read and written.

use plain_data::Cells;
use std::marker::Model;

/// A version that a search found, with the value that was loaded; `None` where it is a deletion.
///
/// It can become another version, in whose cells a value is then loaded word by word, so that no value is copied.
#[derive(Drop)]
pub struct ReadVersion {
    rid: u32,
    place: u32,
    wts: u64,
    present: bool,
    words: [u64; 32],
}

impl Model for ReadVersion {
    ghost use Rattle.std.specs.Prelude.{[], if◌then◌else◌};
    ghost use Rattle.core_rule.specs.View.{Read};
    ghost use Rattle.core_rule.specs.Status.{status_word};
    ghost use Rattle.core_rule.specs.declared.status.Status.TheVariants.{Committed, Deleted};

    ghost Value = { Read };

    ghost view = { λ r. record { record_number = r.rid; place = r.place; version = r.wts; status = if r.present then status_word Committed else status_word Deleted; cells = if r.present then r.words else [] } };
}

impl ReadVersion {
    ghost use Rattle.std.specs.Prelude.{◌≡◌, ◌<◌, Some, IfSome, length, slice_set};
    ghost use Rattle.core_rule.specs.Deciding.{read_value};
    ghost use Rattle.core_rule.specs.Versions.{read_version};

    pub fn new(rid: u32, place: u32, wts: u64, value: Option<Cells>) -> Self
        ensures { result ≡ read_version rid place wts value }
    {
        match value {
            None => ReadVersion {
                rid,
                place,
                wts,
                present: false,
                words: [0; 32],
            },
            Some(cells) => ReadVersion {
                rid,
                place,
                wts,
                present: true,
                words: cells.words(),
            },
        }
    }

    /// Becomes another version.
    pub fn set(&mut self, rid: u32, place: u32, wts: u64, value: &Option<Cells>)
        ensures { self.new ≡ read_version rid place wts value.now }
    {
        self.rid = rid;
        self.place = place;
        self.wts = wts;
        self.present = value.is_some();
        if let Some(cells) = value {
            self.words = cells.words();
        }
    }

    /// Becomes another version, of a record that is present; what stands in its cells before they are set is any.
    pub fn begin(&mut self, rid: u32, place: u32, wts: u64)
        ensures version { self.new ≡ read_version rid place wts (Some self.new.cells) }
        ensures whole { length self.new.cells ≡ 32 }
    {
        self.rid = rid;
        self.place = place;
        self.wts = wts;
        self.present = true;
    }

    /// Sets the cell of this number, counted from 0.
    pub fn set_cell(&mut self, i: u32, word: u64)
        requires cell { i < 32 }
        requires present { length self.old.cells ≡ 32 }
        ensures { self.new ≡ record self.old { cells = slice_set self.old.cells i word } }
    {
        self.words[i as usize] = word;
    }

    /// The record's number.
    pub fn rid(&self) -> u32
        ensures { result ≡ self.now.record_number }
    {
        self.rid
    }

    pub fn place(&self) -> u32
        ensures { result ≡ self.now.place }
    {
        self.place
    }

    /// Its write stamp.
    pub fn wts(&self) -> u64
        ensures { result ≡ self.now.version }
    {
        self.wts
    }

    /// The value; `None` where it is a deletion.
    pub fn value(&self) -> Option<Cells>
        ensures value { result ≡ read_value self.now }
        ensures whole { IfSome result (λ words. length words ≡ 32) }
    {
        if self.present {
            Some(Cells::new(self.words))
        } else {
            None
        }
    }
}

/// A version that a transaction links at its stamp; the value is `None` where it is a deletion. Its place and its stamp are 0 before
/// it is linked.
#[derive(Drop)]
pub struct WrittenVersion {
    rid: u32,
    place: u32,
    stamp: u64,
    value: Option<Cells>,
}

impl Model for WrittenVersion {
    ghost use Rattle.core_rule.specs.View.{Write};
    ghost use Rattle.core_rule.specs.Versions.{cells_of};

    ghost Value = { Write };

    ghost view = { λ u. record { record_number = u.rid; place = u.place; stamp = u.stamp; cells = cells_of u.value } };
}

impl WrittenVersion {
    ghost use Rattle.std.specs.Prelude.{◌≡◌, ◌↔◌, ◌⊎◌, IsTrue, [], length};
    ghost use Rattle.core_rule.specs.Deciding.{value_of};
    ghost use Rattle.core_rule.specs.Versions.{written_version, cells_of};

    pub fn new(rid: u32, place: u32, stamp: u64, value: Option<Cells>) -> Self
        ensures { result ≡ written_version rid place stamp value }
    {
        WrittenVersion {
            rid,
            place,
            stamp,
            value,
        }
    }

    /// The record's number.
    pub fn rid(&self) -> u32
        ensures { result ≡ self.now.record_number }
    {
        self.rid
    }

    pub fn place(&self) -> u32
        ensures { result ≡ self.now.place }
    {
        self.place
    }

    /// Becomes a write of this value to a record, without a place.
    pub fn set(&mut self, rid: u32, value: &Option<Cells>)
        ensures { self.new ≡ written_version rid 0 0 value.now }
    {
        self.rid = rid;
        self.place = 0;
        self.stamp = 0;
        self.value = *value;
    }

    /// The value; `None` where it is a deletion.
    pub fn value(&self) -> &Option<Cells>
        ensures value { result.now ≡ value_of self.now.cells }
        ensures cells { cells_of result.now ≡ self.now.cells }
        ensures whole { (self.now.cells ≡ []) ⊎ (length self.now.cells ≡ 32) }
    {
        if let Some(cells) = &self.value {
            // Its type tells contracts how long it is.
            let _words = cells.words();
        }
        &self.value
    }

    /// Notes where it is linked, and at which stamp.
    pub fn set_place(&mut self, place: u32, stamp: u64)
        ensures { self.new ≡ record self.old { place = place; stamp = stamp } }
    {
        self.place = place;
        self.stamp = stamp;
    }

    /// Whether it deletes the record.
    pub fn is_deletion(&self) -> bool
        ensures { IsTrue result ↔ (self.now.cells ≡ []) }
    {
        match &self.value {
            None => true,
            Some(cells) => cells.words().is_empty(),
        }
    }
}
