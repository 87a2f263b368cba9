//! The walk over the nodes of a bucket.

ghost use Rattle.std.specs.Prelude.{◌≡◌, ℕ, ◌+◌, ◌^◌, ◌<◌, ◌≤◌, IfNone, IfOk, IfSome, OnOk, slice_index};
ghost use Rattle.record_store.specs.Goes.{WalksByReads};
ghost use Rattle.record_store.specs.Limits.{record_limit};
ghost use Rattle.record_store.specs.States.{EachState};
ghost use Rattle.record_store.specs.Walks.{IfTorn};
ghost use Rattle.hash_index.specs.Chain.{RowEndsWell, RowTears, bucket_of};
ghost use Rattle.hash_index.specs.Held.{LinkHolds};
ghost use Rattle.hash_index.specs.Node.{IsNode};
ghost use Rattle.hash_index.specs.Search.{IsRowLink, ReadsLink, IsNoLink, IsPlace, IsWithin, first_room, end_place};

use crate::node::{are_within, find, has_room, next_record};
use plain_data::Cells;
use record_store::{RecordRead, Walk};

/// The buckets of a base.
const BUCKETS: u64 = 511;

/// The record of a key's bucket in the chain of `base`.
pub fn bucket_at(base: u32, key: u64) -> u32
    requires { base + 511 < 2 ^ 32 }
    ensures { result ≡ base + bucket_of key }
{
    base + (key % BUCKETS) as u32
}

/// A node that was read: its record, its position in the row, the next one, and its words.
#[derive(Clone, Copy)]
pub struct Link {
    pub at: u32,
    pub position: u32,
    pub next: Option<u32>,
    pub words: [u64; 32],
}

/// Where a search for a key ends.
#[derive(Drop)]
pub enum Place {
    /// At the pair of this number in this node.
    Found(Link, usize),
    /// The key is not there, and this is the first node with room.
    Room(Link),
    /// The key is not there, and no node has room; this is the last one.
    Full(Link),
    /// This is the record of the bucket, which is absent.
    Empty(u32),
}

/// Looks for the key in the row of its bucket, in a store of this size.
pub fn search<S: RecordRead>(
    store: &mut S,
    size: u32,
    base: u32,
    key: u64,
) -> Result<Place, Walk<S::Fault>>
    requires size { size ≡ (S.meaning store.old).size }
    requires at_most { size ≤ record_limit }
    requires buckets { base + 511 ≤ size }
    ensures place { IfOk result (λ place. EachState (S.meaning store.old) (S.meaning store.new) (λ state. IsPlace size (base + bucket_of key) key state place)) }
    ensures within { IfOk result (λ place. IsWithin size (base + bucket_of key) key place) }
    ensures walked { OnOk result (EachState (S.meaning store.old) (S.meaning store.new) (RowEndsWell size (base + bucket_of key) key)) }
    ensures torn { IfTorn result (λ rid. EachState (S.meaning store.old) (S.meaning store.new) (λ state. RowTears size (base + bucket_of key) key state rid)) }
    ensures walk { WalksByReads S.read_gives S.meaning S.rest store.old store.new result }
{
    let bucket = bucket_at(base, key);
    let Some(mut here) = read_link(store, size, bucket, 0)? else {
        return Ok(Place::Empty(bucket));
    };
    let mut room = None;
    loop {
        if let Some(index) = find(&here.words, key) {
            return Ok(Place::Found(here, index));
        }
        let Some(next) = here.next else {
            return Ok(end_of_row(room, here));
        };
        let Some(link) = read_link(store, size, next, here.position + 1)? else {
            return Err(Walk::Torn(next));
        };
        room = first_with_room(room, here);
        here = link;
    }
}

/// The node of a record at a position, or `None` where the record is absent.
fn read_link<S: RecordRead>(
    store: &mut S,
    size: u32,
    rid: u32,
    position: u32,
) -> Result<Option<Link>, Walk<S::Fault>>
    requires size { size ≡ (S.meaning store.old).size }
    requires at_most { size ≤ record_limit }
    requires rid { rid < size }
    ensures link { IfOk result (λ link. IfSome link (IsRowLink size rid position)) }
    ensures read { IfOk result (λ link. EachState (S.meaning store.old) (S.meaning store.new) (λ state. ReadsLink size rid position state link)) }
    ensures torn { IfTorn result (λ torn. (torn ≡ rid) × EachState (S.meaning store.old) (S.meaning store.new) (λ state. IsNoLink size position state rid)) }
    ensures walk { WalksByReads S.read_gives S.meaning S.rest store.old store.new result }
{
    let mut cells = Cells::new([0; 32]);
    if !store.read_into(rid, &mut cells)? {
        return Ok(None);
    }
    match node_at(rid, &cells, position, size) {
        Some(link) => Ok(Some(link)),
        None => Err(Walk::Torn(rid)),
    }
}

/// The node of these cells, if they are one at this position of a store of this size.
fn node_at(at: u32, cells: &Cells, position: u32, size: u32) -> Option<Link>
    requires { size ≤ record_limit }
    ensures node { IfSome result (λ link. (link.at ≡ at) × IsNode size position cells.now × LinkHolds link cells.now) }
    ensures no_node { IfNone result (IsNode size position cells.now → ⊥) }
{
    let words = cells.words();
    let next = next_record(&words, size, position)?;
    if !are_within(&words, size) {
        return None;
    }
    Some(Link {
        at,
        position,
        next,
        words,
    })
}

/// The first node with room, once one more was passed.
fn first_with_room(room: Option<Link>, passed: Link) -> Option<Link>
    requires { slice_index passed.words 0 ≤ 14 }
    ensures { result ≡ first_room room passed }
{
    if room.is_none() && has_room(&passed.words) {
        Some(passed)
    } else {
        room
    }
}

/// The place of a key that no node has, from the first node with room before the last one, and the last one.
fn end_of_row(room: Option<Link>, last: Link) -> Place
    requires { slice_index last.words 0 ≤ 14 }
    ensures { result ≡ end_place room last }
{
    match room {
        Some(link) => Place::Room(link),
        None if has_room(&last.words) => Place::Room(last),
        None => Place::Full(last),
    }
}
