//! Finding a record among what is noted of records.
ghost use Rattle.std.specs.Prelude.{ℕ, ◌≡◌, ◌≢◌, ◌+◌, ◌<◌, ◌≤◌, min, [], length, IfSome, IfNone, OnOk, OnErr};
ghost use Rattle.core_rule.specs.Views.{Among};
ghost use Rattle.validate_core.specs.Noted.{IsNoted, IsOf, noted, few, room};

use core_rule::{ReadVersion, WrittenVersion};
use indexmap::IndexSet;
use plain_data::NoMemory;
use std::alloc::Global;

// So many records stand in chains; a set has those behind them.
const FEW: usize = 128;

// There are so many chains, one for each remainder that a number may leave.
const CHAINS: usize = 64;

// A set that has room for more gives it back.
const MANY: usize = 1024;

/// What is noted of one record.
pub(crate) trait OfRecord: Drop {
    /// The number of the record.
    ghost number: { Self → ℕ };

    /// The number of the record.
    fn rid(&self) -> u32
        ensures { result ≡ number self.now };

    /// An item that is yet to become one of a record.
    fn blank() -> Self;
}

impl OfRecord for ReadVersion {
    ghost use Rattle.core_rule.specs.View.{Read};

    ghost number = { λ (d : Read). d.record_number };

    fn rid(&self) -> u32 {
        self.rid()
    }

    fn blank() -> Self {
        ReadVersion::new(0, 0, 0, None)
    }
}

impl OfRecord for WrittenVersion {
    ghost use Rattle.core_rule.specs.View.{Write};

    ghost number = { λ (u : Write). u.record_number };

    fn rid(&self) -> u32 {
        self.rid()
    }

    fn blank() -> Self {
        WrittenVersion::new(0, 0, 0, None)
    }
}

/// What is noted of records, each once, in the order of noting: the first `count` items. Those behind them are used again.
///
/// The first few stand in chains, each of those whose numbers leave the same modulo 64: `newest` has for each chain the place of the
/// last one in it, and `older` for each item that of the one before it in its chain. These places are counted from 1, and 0 is none. Of
/// all behind the first few a set has the numbers, in the same order.
#[derive(Drop)]
pub(crate) struct Noted<V> {
    pub(crate) items: Vec<V>,
    pub(crate) count: usize,
    behind: IndexSet<u32>,
    newest: [u8; CHAINS],
    older: [u8; FEW],
}

impl<V: OfRecord> Noted<V> {
    /// Nothing is noted. It takes no memory.
    pub(crate) fn new(alloc: Global) -> Self
        ensures none { noted result ≡ [] }
        ensures noted { IsNoted V.number result }
    {
        Noted {
            items: Vec::new(alloc),
            count: 0,
            behind: IndexSet::new(alloc),
            newest: [0; CHAINS],
            older: [0; FEW],
        }
    }

    /// Where a record stands in the order of noting.
    #[inline(always)]
    pub(crate) fn position(&self, rid: u32) -> Option<usize>
        requires { IsNoted V.number self.now }
        ensures found { IfSome result (IsOf V.number rid (noted self.now)) }
        ensures none { IfNone result ((x : V) → Among x (noted self.now) → V.number x ≢ rid) }
    {
        let mut at = self.newest[rid as usize % CHAINS] as usize;
        while at > 0 {
            let i = at - 1;
            if self.items[i].rid() == rid {
                return Some(i);
            }
            at = self.older[i] as usize;
        }
        if self.count <= FEW {
            return None;
        }
        let i = self.behind.get_index_of(&rid)?;
        Some(FEW + i)
    }

    /// Makes room for so many records more. What is noted stays, after a refusal too, which comes only where there was less room.
    #[inline(always)]
    pub(crate) fn reserve(&mut self, more: u32) -> Result<(), NoMemory>
        requires { IsNoted V.number self.old }
        ensures noted { IsNoted V.number self.new }
        ensures same { noted self.new ≡ noted self.old }
        ensures room { OnOk result (length (noted self.old) + more ≤ room self.new) }
        ensures full { OnErr result (room self.old < length (noted self.old) + more) }
        ensures not_less { room self.old ≤ room self.new }
    {
        let wanted = self.count + more as usize;
        if wanted <= self.items.len() && wanted <= FEW {
            return Ok(());
        }
        self.grow(wanted)
    }

    // Makes room for so many records in all. It is rare, since the items are used again, so its code stands apart, and that of `reserve`
    // in its callers.
    #[cold]
    #[inline(never)]
    fn grow(&mut self, wanted: usize) -> Result<(), NoMemory>
        requires noted { IsNoted V.number self.old }
        requires more { self.old.count ≤ wanted }
        ensures noted { IsNoted V.number self.new }
        ensures same { noted self.new ≡ noted self.old }
        ensures room { OnOk result (wanted ≤ room self.new) }
        ensures full { OnErr result (room self.old < wanted) }
        ensures not_less { room self.old ≤ room self.new }
    {
        let behind = self.behind.len();
        let have = self.items.len();
        if wanted > have {
            self.items.reserve(wanted - have)?;
        }
        if wanted > FEW {
            self.behind.reserve(wanted - FEW - behind)?;
        }
        Ok(())
    }

    /// Sees that an item stands behind those that are noted, where there is room.
    pub(crate) fn make_item(&mut self)
        requires noted { IsNoted V.number self.old }
        requires room { length (noted self.old) < room self.old }
        ensures noted { IsNoted V.number self.new }
        ensures same { noted self.new ≡ noted self.old }
        ensures item { self.new.count < length self.new.items.items }
        ensures room { room self.old ≤ room self.new }
    {
        if self.count == self.items.len() {
            let Ok(()) = self.items.push(V::blank()) else {
                unreachable!();
            };
        }
    }

    /// Notes the item behind those that are noted, which is of this record, where there is room.
    #[inline(always)]
    pub(crate) fn enter(&mut self, rid: u32)
        requires noted { IsNoted V.number self.old }
        requires room { length (noted self.old) < room self.old }
        requires item { IsOf V.number rid self.old.items.items self.old.count }
        requires first { (x : V) → Among x (noted self.old) → V.number x ≢ rid }
        ensures noted { IsNoted V.number self.new }
        ensures items { self.new.items ≡ self.old.items }
        ensures count { self.new.count ≡ self.old.count + 1 }
        ensures room { room self.old ≤ room self.new }
    {
        if self.count < FEW {
            let chain = rid as usize % CHAINS;
            self.older[self.count] = self.newest[chain];
            self.newest[chain] = (self.count + 1) as u8;
        } else {
            let Ok(_) = self.behind.insert(rid) else {
                unreachable!();
            };
        }
        self.count += 1;
    }

    /// Forgets all. The room of the items stays, and that of a large set goes back.
    pub(crate) fn clear(&mut self)
        requires { IsNoted V.number self.old }
        ensures none { noted self.new ≡ [] }
        ensures noted { IsNoted V.number self.new }
        ensures room { min few (room self.old) ≤ room self.new }
    {
        self.count = 0;
        self.newest = [0; CHAINS];
        wipe(&mut self.behind);
    }
}

// Takes all out of a set. The room of a large one goes back.
fn wipe(set: &mut IndexSet<u32>)
    ensures { set.new.keys ≡ [] }
{
    if set.is_empty() {
        return;
    }
    set.clear();
    if set.capacity() > MANY {
        set.shrink_to_fit();
    }
}
