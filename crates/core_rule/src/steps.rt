//! The operations of the table, each for every kind of step that has this way. `_of` has what the kind is of: it is for the choice of
//! the kind alone.
ghost use Rattle.std.specs.Prelude.{◌≡◌, []};
ghost use Rattle.word_layout.specs.Name.{IsNamed, word_of};
ghost use Rattle.core_rule.specs.Ways.{Looks, stores, raises_to, exchanges, swaps};
ghost use Rattle.core_rule.specs.Kinds.{name, way, Allowed};
ghost use Rattle.core_rule.specs.Learnt.{Told};

use crate::rule::{Deed, Does};
use crate::shared::Core;
use crate::view::View;
use atomic_table::Seat;
use histories::Keeps;

impl<J: Keeps> Core<J> {
    pub(crate) fn load<M: Deed, O>(&self, seat: &mut Seat<(), View>, word: u32, _of: &O) -> u64
        requires table { seat.old.table_id ≡ self.now.table }
        requires bare { seat.old.me.1 ≡ [] }
        requires named { IsNamed self.now.size (name M.kind seat.old.me.0) }
        requires word { word ≡ word_of self.now.size (name M.kind seat.old.me.0) }
        requires allowed { Allowed J.kept M.kind seat.old.me.0 }
        requires way { Looks (way M.kind seat.old.me.0) }
        ensures table { seat.new.table_id ≡ seat.old.table_id }
        ensures id { seat.new.id ≡ seat.old.id }
        ensures bare { seat.new.me.1 ≡ [] }
        ensures told { Told J.kept M.kind seat.old.me.0 result seat.new.me.0 }
    {
        self.table.shared.load::<Does<J, M>>(seat, word as usize)
    }

    pub(crate) fn store<M: Deed, O>(&self, seat: &mut Seat<(), View>, word: u32, new: u64, _of: &O)
        requires table { seat.old.table_id ≡ self.now.table }
        requires bare { seat.old.me.1 ≡ [] }
        requires named { IsNamed self.now.size (name M.kind seat.old.me.0) }
        requires word { word ≡ word_of self.now.size (name M.kind seat.old.me.0) }
        requires allowed { Allowed J.kept M.kind seat.old.me.0 }
        requires way { way M.kind seat.old.me.0 ≡ stores new }
        ensures table { seat.new.table_id ≡ seat.old.table_id }
        ensures id { seat.new.id ≡ seat.old.id }
        ensures bare { seat.new.me.1 ≡ [] }
        ensures told { Told J.kept M.kind seat.old.me.0 new seat.new.me.0 }
    {
        self.table
            .shared
            .store::<Does<J, M>>(seat, word as usize, new);
    }

    pub(crate) fn fetch_max<M: Deed, O>(
        &self,
        seat: &mut Seat<(), View>,
        word: u32,
        bound: u64,
        _of: &O,
    ) -> u64
        requires table { seat.old.table_id ≡ self.now.table }
        requires bare { seat.old.me.1 ≡ [] }
        requires named { IsNamed self.now.size (name M.kind seat.old.me.0) }
        requires word { word ≡ word_of self.now.size (name M.kind seat.old.me.0) }
        requires allowed { Allowed J.kept M.kind seat.old.me.0 }
        requires way { way M.kind seat.old.me.0 ≡ raises_to bound }
        ensures table { seat.new.table_id ≡ seat.old.table_id }
        ensures id { seat.new.id ≡ seat.old.id }
        ensures bare { seat.new.me.1 ≡ [] }
        ensures told { Told J.kept M.kind seat.old.me.0 result seat.new.me.0 }
    {
        self.table
            .shared
            .fetch_max::<Does<J, M>>(seat, word as usize, bound)
    }

    /// Gives the number found, which has become `new` where it was `old`.
    pub(crate) fn compare_exchange<M: Deed, O>(
        &self,
        seat: &mut Seat<(), View>,
        word: u32,
        old: u64,
        new: u64,
        _of: &O,
    ) -> u64
        requires table { seat.old.table_id ≡ self.now.table }
        requires bare { seat.old.me.1 ≡ [] }
        requires named { IsNamed self.now.size (name M.kind seat.old.me.0) }
        requires word { word ≡ word_of self.now.size (name M.kind seat.old.me.0) }
        requires allowed { Allowed J.kept M.kind seat.old.me.0 }
        requires way { way M.kind seat.old.me.0 ≡ exchanges old new }
        ensures table { seat.new.table_id ≡ seat.old.table_id }
        ensures id { seat.new.id ≡ seat.old.id }
        ensures bare { seat.new.me.1 ≡ [] }
        ensures told { Told J.kept M.kind seat.old.me.0 result seat.new.me.0 }
    {
        self.table
            .shared
            .compare_exchange::<Does<J, M>>(seat, word as usize, old, new)
    }

    /// Gives the number found, which has become `new`.
    pub(crate) fn swap<M: Deed>(&self, seat: &mut Seat<(), View>, word: u32, new: u64) -> u64
        requires table { seat.old.table_id ≡ self.now.table }
        requires bare { seat.old.me.1 ≡ [] }
        requires named { IsNamed self.now.size (name M.kind seat.old.me.0) }
        requires word { word ≡ word_of self.now.size (name M.kind seat.old.me.0) }
        requires allowed { Allowed J.kept M.kind seat.old.me.0 }
        requires way { way M.kind seat.old.me.0 ≡ swaps new }
        ensures table { seat.new.table_id ≡ seat.old.table_id }
        ensures id { seat.new.id ≡ seat.old.id }
        ensures bare { seat.new.me.1 ≡ [] }
        ensures told { Told J.kept M.kind seat.old.me.0 result seat.new.me.0 }
    {
        self.table
            .shared
            .swap::<Does<J, M>>(seat, word as usize, new)
    }
}
