//! Installing the writes of a transaction: each is filled into a place and linked as a pending version.
ghost use Rattle.std.specs.Prelude.{◌≡◌, ◌<◌, ◌≤◌, false, length, OnOk, OnErr, IfOk};
ghost use Rattle.stamp_base.specs.Stamp.{IsStamp};
ghost use Rattle.word_layout.specs.Size.{places};
ghost use Rattle.core_rule.specs.View.{Write, writing};
ghost use Rattle.core_rule.specs.Views.{Has, Among};
ghost use Rattle.core_rule.specs.Searching.{FitsPlace, IsNotLinked, Rests};
ghost use Rattle.core_rule.specs.Hands.{IsReady, StaysReady};
ghost use Rattle.validate_core.specs.Sets.{Turn};
ghost use Rattle.validate_core.specs.Validating.{Stands};
ghost use Rattle.validate_core.specs.Installing.{IsBegun, SameSets, Puts, InstallsOne, FindsNoneFor, Installs, InstallsHeld, FindsNoPlace, IsFullFor};
ghost use Rattle.version_pool.specs.Takes.{IsFull};

use crate::deciding::Installed;
use crate::sets::Sets;
use crate::statuses::store_first;
use core_rule::{Core, Hand, Keeps};
use stamp_base::Stamp;
use version_pool::{PlacesOut, fill, take};
use version_search::link;

/// Installs the writes in the order of adding: for each in turn it takes a place, fills it and links it before the next one.
/// Where no place is free, the versions linked are aborted.
pub fn install<J: Keeps>(
    core: &Core<J>,
    hand: &mut Hand<J>,
    sets: &mut Sets,
) -> Result<Installed, PlacesOut>
    requires ready { IsReady core.now hand.old }
    requires begun { IsBegun core.now.size sets.old hand.old.view }
    ensures stands { Stands hand.old.view hand.new.view }
    ensures log { hand.new.view.log ≡ hand.old.view.log }
    ensures same { SameSets sets.old sets.new }
    ensures stamp { IfOk result (λ installed. installed.stamp ≡ hand.old.view.published.write) }
    ensures ok { OnOk result (Installs core.now.size sets.new hand.old.view hand.new.view) }
    ensures err { OnErr result (FindsNoPlace core.now.size sets.new hand.old.view hand.new.view) }
    ensures full { OnErr result (IsFullFor core.now.size (length sets.old.writes) hand.old.view) }
    // No version of it stands in the reserved place.
    ensures in_reserved { hand.new.view.counts.in_reserved ≡ hand.old.view.counts.in_reserved }
    ensures room { (sets.old.read_room ≤ sets.new.read_room) × (sets.old.write_room ≤ sets.new.write_room) }
    ensures stays { StaysReady core.now hand.old hand.new }
{
    let stamp = hand.published_write();
    for i in 0..sets.count_writes() {
        if let Err(places_out) = install_one(core, hand, sets, i, stamp) {
            store_first(core, hand, sets, i, false);
            return Err(places_out);
        }
    }
    Ok(Installed { stamp })
}

/// Installs the one write of the sets in a place that is held.
pub fn install_held<J: Keeps>(
    core: &Core<J>,
    hand: &mut Hand<J>,
    sets: &mut Sets,
    place: u32,
) -> Installed
    requires ready { IsReady core.now hand.old }
    requires begun { IsBegun core.now.size sets.old hand.old.view }
    requires one { length sets.old.writes ≡ 1 }
    requires holds { Has place hand.old.view.places.held }
    requires inside { place < places core.now.size }
    requires fits { (u : Write) → Among u sets.old.writes → FitsPlace core.now.size u.record_number place }
    ensures same { SameSets sets.old sets.new }
    ensures stamp { result.stamp ≡ hand.old.view.published.write }
    ensures installs { InstallsHeld core.now.size place sets.old sets.new hand.old.view hand.new.view }
    ensures room { (sets.old.read_room ≤ sets.new.read_room) × (sets.old.write_room ≤ sets.new.write_room) }
    ensures stays { StaysReady core.now hand.old hand.new }
{
    let stamp = hand.published_write();
    put(core, hand, sets, 0, place, stamp);
    Installed { stamp }
}

// Takes a place for the write of this number, fills it and links it.
fn install_one<J: Keeps>(
    core: &Core<J>,
    hand: &mut Hand<J>,
    sets: &mut Sets,
    i: usize,
    stamp: u64,
) -> Result<(), PlacesOut>
    requires ready { IsReady core.now hand.old }
    requires number { i < length sets.old.writes }
    requires stamp { IsStamp stamp }
    requires in_flight { hand.old.view.flight ≡ writing stamp }
    requires inside { (u : Write) → Turn i sets.old.writes u → u.record_number < core.now.size.records }
    requires only { (u : Write) → Turn i sets.old.writes u → IsNotLinked u.record_number hand.old.view.work.linked }
    requires rests { Rests hand.old.view.work.search }
    requires undecided { hand.old.view.work.decided ≡ false }
    ensures ok { OnOk result (InstallsOne core.now.size stamp i sets.old sets.new hand.old.view hand.new.view) }
    ensures err { OnErr result (FindsNoneFor core.now.size i sets.old hand.old.view hand.new.view) }
    ensures full { OnErr result (IsFull core.now.size hand.old.view) }
    ensures same { OnErr result (sets.new ≡ sets.old) }
    ensures in_reserved { hand.new.view.counts.in_reserved ≡ hand.old.view.counts.in_reserved }
    ensures room { (sets.old.read_room ≤ sets.new.read_room) × (sets.old.write_room ≤ sets.new.write_room) }
    ensures stays { StaysReady core.now hand.old hand.new }
{
    let rid = sets.write_at(i).rid();
    match take(core, hand, rid) {
        Ok((place, _)) => {
            put(core, hand, sets, i, place, stamp);
            Ok(())
        }
        Err(places_out) => Err(places_out),
    }
}

// Fills a held place with the write of this number, links it as a version at the stamp, and notes the place beside the write.
fn put<J: Keeps>(
    core: &Core<J>,
    hand: &mut Hand<J>,
    sets: &mut Sets,
    i: usize,
    place: u32,
    stamp: u64,
)
    requires ready { IsReady core.now hand.old }
    requires number { i < length sets.old.writes }
    requires stamp { IsStamp stamp }
    requires in_flight { hand.old.view.flight ≡ writing stamp }
    requires holds { Has place hand.old.view.places.held }
    requires inside { place < places core.now.size }
    requires fits { (u : Write) → Turn i sets.old.writes u → FitsPlace core.now.size u.record_number place }
    requires only { (u : Write) → Turn i sets.old.writes u → IsNotLinked u.record_number hand.old.view.work.linked }
    requires rests { Rests hand.old.view.work.search }
    requires undecided { hand.old.view.work.decided ≡ false }
    ensures puts { Puts core.now.size stamp i place sets.old sets.new hand.old.view hand.new.view }
    ensures room { (sets.old.read_room ≤ sets.new.read_room) × (sets.old.write_room ≤ sets.new.write_room) }
    ensures stays { StaysReady core.now hand.old hand.new }
{
    let write = sets.write_at(i);
    let rid = write.rid();
    fill(core, hand, place, Stamp::from_number(stamp), write.value());
    link(core, hand, rid, place, stamp);
    sets.place_at(i, place, stamp);
}
