//! The calls of the index.

ghost use Rattle.std.specs.Prelude.{◌≡◌, ℕ, ◌<◌, IfOk, IfSome, OnOk};
ghost use Rattle.record_store.specs.Goes.{WalksByReads, WalksByCalls, WalksCounting};
ghost use Rattle.ordered_index.specs.Changes.{RemovesEntry, InsertsEntry};
ghost use Rattle.record_store.specs.Writes.{EachWritesKnown};
ghost use Rattle.ordered_index.specs.Asks.{InsertMayAsk, InsertAsks};
ghost use Rattle.record_store.specs.Walks.{IfTorn, OnlyReads};
ghost use Rattle.ordered_index.specs.Tree.{EachTree, record_of_key};
ghost use Rattle.record_store.specs.States.{EachState};
ghost use Rattle.ordered_index.specs.Walk.{DescentEndsWell, IsTornTree};
ghost use Rattle.ordered_index.specs.Written.{WritesNodes};

use crate::enter::{Entering, enter, put_root};
use crate::key::Key;
use crate::node::Node;
use crate::standing::{entry, place, rank_of, to_node};
use crate::walk::{FIRST, Stored, leaf_for, read_node};
use record_store::{RecordRead, RecordStore, Walk, write_node};

/// The record number beside a key in the tree of `root`.
pub fn get<S: RecordRead>(store: &mut S, root: u32, key: Key) -> Result<Option<u32>, Walk<S::Fault>>
    requires { root < (S.meaning store.old).size }
    ensures ok { IfOk result (λ answer. EachTree root (S.meaning store.old) (S.meaning store.new) (λ _ _ leaves. answer ≡ record_of_key leaves key)) }

    // also where no state that agrees has a lawful tree
    ensures stored { IfOk result (λ answer. IfSome answer (λ rid. rid < (S.meaning store.old).size)) }
    ensures walked { OnOk result (EachState (S.meaning store.old) (S.meaning store.new) (DescentEndsWell (S.meaning store.old).size root key)) }
    ensures torn { IfTorn result (IsTornTree root key (S.meaning store.old) (S.meaning store.new)) }
    ensures walk { WalksByReads S.read_gives S.meaning S.rest store.old store.new result }
{
    let size = store.size();
    let Some(leaf) = leaf_for(store, size, root, key)? else {
        return Ok(None);
    };
    match place(&leaf.words, key) {
        Some(index) => Ok(Some(entry(&leaf.words, size, index).1)),
        None => Ok(None),
    }
}

/// Removes a key from the tree of `root`, and answers whether it was there.
///
/// After a refusal what was read and written may have grown.
pub fn remove<S: RecordStore>(store: &mut S, root: u32, key: Key) -> Result<bool, Walk<S::Fault>>
    requires { root < (S.meaning store.old).fixed }
    ensures ok { IfOk result (λ was_there. RemovesEntry root key was_there (S.meaning store.old) (S.meaning store.new)) }
    ensures walked { OnOk result (EachState (S.meaning store.old) (S.meaning store.new) (DescentEndsWell (S.meaning store.old).size root key)) }
    ensures torn { IfTorn result (IsTornTree root key (S.meaning store.old) (S.meaning store.new)) }
    ensures unwritten { IfTorn result (λ _. OnlyReads (S.meaning store.old) (S.meaning store.new)) }

    // `fresh` is never asked
    ensures walk { WalksByCalls S.read_gives S.write_gives S.fresh_gives S.meaning S.rest (λ _. ⊥) 0 store.old store.new result }

    // whatever it answers, one record is written at most, and it is present
    ensures few { WritesNodes 1 (S.meaning store.old) (S.meaning store.new) }
    ensures writes { EachWritesKnown (S.meaning store.old) (S.meaning store.new) }
{
    let size = store.size();
    let Some(leaf) = leaf_for(store, size, root, key)? else {
        return Ok(false);
    };
    let Some(index) = place(&leaf.words, key) else {
        return Ok(false);
    };
    let mut node = to_node(&leaf.words, size);
    node.entries.remove(index);
    write_node(store, leaf.at, node.cells())?;
    Ok(true)
}

/// Inserts a key with its record number into the tree of `root`, and answers whether it did: a key that is there stays as it was.
///
/// A node with nine entries that takes a tenth is parted in two, and a new record is asked for; the root asks for two. After a
/// refusal what was read and written may have grown.
pub fn insert<S: RecordStore>(
    store: &mut S,
    root: u32,
    key: Key,
    rid: u32,
) -> Result<bool, Walk<S::Fault>>
    requires root { root < (S.meaning store.old).fixed }
    requires rid { rid < (S.meaning store.old).size }
    ensures ok { IfOk result (λ done. InsertsEntry root key rid done (S.meaning store.old) (S.meaning store.new)) }
    ensures walked { OnOk result (EachState (S.meaning store.old) (S.meaning store.new) (DescentEndsWell (S.meaning store.old).size root key)) }
    ensures torn { IfTorn result (IsTornTree root key (S.meaning store.old) (S.meaning store.new)) }
    ensures unwritten { IfTorn result (λ _. OnlyReads (S.meaning store.old) (S.meaning store.new)) }

    // `fresh` is asked where the key is not there, and so often at most as new records are due
    ensures walk { WalksCounting S.read_gives S.write_gives S.fresh_gives S.meaning S.rest (InsertMayAsk root key) (InsertAsks root key) store.old store.new result }

    // whatever it answers, no record is written but the root, one that is present, and one that was given
    ensures writes { EachWritesKnown (S.meaning store.old) (S.meaning store.new) }
    ensures few { WritesNodes 51 (S.meaning store.old) (S.meaning store.new) }
{
    let size = store.size();
    let mut top = Stored::blank();
    if !read_node(store, size, root, FIRST, &mut top)? {
        write_node(store, root, Node::leaf(key, rid).cells())?;
        return Ok(true);
    }
    let rank = rank_of(&top.words, key);
    match enter(store, size, &top.words, rank, 1, key, rid)? {
        Entering::There => Ok(false),
        Entering::Done => Ok(true),
        Entering::Takes(entry) => {
            put_root(store, &top, size, rank, entry)?;
            Ok(true)
        }
    }
}
