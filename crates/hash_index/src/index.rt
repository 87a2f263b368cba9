//! The calls of the index.

ghost use Rattle.std.specs.Prelude.{◌≡◌, ℕ, ◌+◌, ◌<◌, ◌≤◌, IfOk, IfSome, OnOk};
ghost use Rattle.record_store.specs.Goes.{WalksByReads, WalksByCalls, WalksCounting};
ghost use Rattle.record_store.specs.Limits.{record_limit};
ghost use Rattle.record_store.specs.States.{EachState};
ghost use Rattle.record_store.specs.Walks.{IfTorn, OnlyReads};
ghost use Rattle.record_store.specs.Writes.{WritesAtMost, WritesOnly, EachWritesKnown};
ghost use Rattle.hash_index.specs.Chain.{EachChain, RowEndsWell, bucket_of, record_of};
ghost use Rattle.hash_index.specs.Search.{AddsNode, IsInStore};
ghost use Rattle.hash_index.specs.Answers.{IsTornChain, PutMayAsk, PutAsks, PutsPair, RemovesPair};

use crate::looking::look;
use crate::node::{all_pairs, node_cells, one_pair};
use crate::search::{Link, Place, search};
use record_store::{RecordRead, RecordStore, Walk, write_node};

/// The record number beside a key in the chain of `base`.
pub fn get<S: RecordRead>(store: &mut S, base: u32, key: u64) -> Result<Option<u32>, Walk<S::Fault>>
    requires { base + 511 ≤ (S.meaning store.old).size }
    ensures ok { IfOk result (λ answer. EachChain base (S.meaning store.old) (S.meaning store.new) (λ _ rows. answer ≡ record_of rows key)) }

    // whatever the records are, also where none that agree with what was read have a lawful chain
    ensures stored { IfOk result (λ answer. IfSome answer (λ rid. rid < (S.meaning store.old).size)) }
    ensures walked { OnOk result (EachState (S.meaning store.old) (S.meaning store.new) (RowEndsWell (S.meaning store.old).size (base + bucket_of key) key)) }
    ensures torn { IfTorn result (IsTornChain base key (S.meaning store.old) (S.meaning store.new)) }
    ensures walk { WalksByReads S.read_gives S.meaning S.rest store.old store.new result }
{
    let size = store.size();
    look(store, size, base, key)
}

/// Sets the record number beside a key in the chain of `base`, whether it is there or not.
///
/// After a refusal what was read and written may have grown.
pub fn put<S: RecordStore>(
    store: &mut S,
    base: u32,
    key: u64,
    rid: u32,
) -> Result<(), Walk<S::Fault>>
    requires buckets { base + 511 ≤ (S.meaning store.old).fixed }
    requires rid { rid < (S.meaning store.old).size }
    ensures ok { OnOk result (PutsPair base key rid (S.meaning store.old) (S.meaning store.new)) }
    ensures walked { OnOk result (EachState (S.meaning store.old) (S.meaning store.new) (RowEndsWell (S.meaning store.old).size (base + bucket_of key) key)) }
    ensures torn { IfTorn result (IsTornChain base key (S.meaning store.old) (S.meaning store.new)) }
    ensures unwritten { IfTorn result (λ _. OnlyReads (S.meaning store.old) (S.meaning store.new)) }

    // each ask of `fresh` is counted, and may be made
    ensures walk { WalksCounting S.read_gives S.write_gives S.fresh_gives S.meaning S.rest (PutMayAsk base key) (PutAsks base key) store.old store.new result }

    // whatever it answers, no record is written but the bucket, one that is present, and one that was given
    ensures writes { EachWritesKnown (S.meaning store.old) (S.meaning store.new) }
{
    let size = store.size();
    match search(store, size, base, key)? {
        Place::Found(link, index) => {
            let mut pairs = all_pairs(&link.words, size);
            pairs[index].1 = rid;
            let cells = node_cells(&pairs, link.next, link.position);
            write_node(store, link.at, cells)
        }
        Place::Room(link) => {
            let mut pairs = all_pairs(&link.words, size);
            pairs.push((key, rid));
            let cells = node_cells(&pairs, link.next, link.position);
            write_node(store, link.at, cells)
        }
        Place::Full(link) => add_node(store, size, &link, key, rid),
        Place::Empty(bucket) => {
            let cells = node_cells(&one_pair(key, rid), None, 0);
            write_node(store, bucket, cells)
        }
    }
}

/// Puts a pair into a new node behind the last one.
fn add_node<S: RecordStore>(
    store: &mut S,
    size: u32,
    last: &Link,
    key: u64,
    rid: u32,
) -> Result<(), Walk<S::Fault>>
    requires size { size ≡ (S.meaning store.old).size }
    requires at_most { size ≤ record_limit }
    requires last { IsInStore size last.now }
    ensures ok { OnOk result (AddsNode key rid last.now (S.meaning store.old) (S.meaning store.new)) }
    ensures torn { IfTorn result (λ _. ⊥) }
    ensures walk { WalksByCalls S.read_gives S.write_gives S.fresh_gives S.meaning S.rest (λ asks. asks ≤ 1) 1 store.old store.new result }
    ensures writes { WritesOnly (λ rid. rid ≡ last.now.at) (S.meaning store.old) (S.meaning store.new) }
    ensures few { WritesAtMost 2 (S.meaning store.old) (S.meaning store.new) }
{
    let fresh = store.fresh()?;
    let first = node_cells(&one_pair(key, rid), None, last.position + 1);
    write_node(store, fresh, first)?;
    let pairs = all_pairs(&last.words, size);
    let cells = node_cells(&pairs, Some(fresh), last.position);
    write_node(store, last.at, cells)
}

/// Removes a key from the chain of `base`, and answers whether it was there.
///
/// After a refusal what was read and written may have grown.
pub fn remove<S: RecordStore>(store: &mut S, base: u32, key: u64) -> Result<bool, Walk<S::Fault>>
    requires { base + 511 ≤ (S.meaning store.old).fixed }
    ensures ok { IfOk result (λ was_there. RemovesPair base key was_there (S.meaning store.old) (S.meaning store.new)) }
    ensures walked { OnOk result (EachState (S.meaning store.old) (S.meaning store.new) (RowEndsWell (S.meaning store.old).size (base + bucket_of key) key)) }
    ensures torn { IfTorn result (IsTornChain base key (S.meaning store.old) (S.meaning store.new)) }
    ensures unwritten { IfTorn result (λ _. OnlyReads (S.meaning store.old) (S.meaning store.new)) }

    // `fresh` is never asked
    ensures walk { WalksByCalls S.read_gives S.write_gives S.fresh_gives S.meaning S.rest (λ _. ⊥) 0 store.old store.new result }

    // whatever it answers, one record is written at most, and it is present
    ensures few { WritesAtMost 1 (S.meaning store.old) (S.meaning store.new) }
    ensures writes { EachWritesKnown (S.meaning store.old) (S.meaning store.new) }
{
    let size = store.size();
    match search(store, size, base, key)? {
        Place::Found(link, index) => {
            let mut pairs = all_pairs(&link.words, size);
            pairs.swap_remove(index);
            let cells = node_cells(&pairs, link.next, link.position);
            write_node(store, link.at, cells)?;
            Ok(true)
        }
        Place::Room(_) | Place::Full(_) | Place::Empty(_) => Ok(false),
    }
}
