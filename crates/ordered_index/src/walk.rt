//! The walk from the root to the leaf for a key.

ghost use Rattle.std.specs.Prelude.{◌≡◌, ℕ, ◌+◌, ◌<◌, ◌≤◌, IfOk, IfSome, IfNone};
ghost use Rattle.record_store.specs.Into.{value_if};
ghost use Rattle.record_store.specs.Limits.{record_limit};
ghost use Rattle.record_store.specs.Goes.{WalksByReads};
ghost use Rattle.record_store.specs.Walks.{IfTorn};
ghost use Rattle.ordered_index.specs.Standing.{IsNode};
ghost use Rattle.record_store.specs.States.{EachState};
ghost use Rattle.ordered_index.specs.Walk.{IsTreeNode, ReadsNode, IsNoNode, DescentTears, LeafIs};

use crate::key::Key;
use crate::standing::{child, fence, is_inner, is_node};
use plain_data::Cells;
use record_store::{RecordRead, Walk};

/// The most nodes on a walk.
pub const MOST_DEPTH: u32 = 24;

/// The low fence of the root.
pub const FIRST: Key = Key { high: 0, low: 0 };

/// A node as it was read, with its record.
#[derive(Drop)]
pub struct Stored {
    pub at: u32,
    pub words: [u64; 32],
}

impl Stored {
    /// A place for a node that is yet to be read.
    pub fn blank() -> Self {
        Stored {
            at: 0,
            words: [0; 32],
        }
    }
}

/// The leaf for a key, or `None` where the root is absent.
pub fn leaf_for<S: RecordRead>(
    store: &mut S,
    size: u32,
    root: u32,
    key: Key,
) -> Result<Option<Stored>, Walk<S::Fault>>
    requires size { size ≡ (S.meaning store.old).size }
    requires at_most { size ≤ record_limit }
    requires root { root < size }
    ensures leaf { IfOk result (λ leaf. EachState (S.meaning store.old) (S.meaning store.new) (λ state. LeafIs size root key state leaf)) }
    ensures within { IfOk result (λ leaf. IfSome leaf (λ here. (here.at < size) × IsNode size here.words)) }
    ensures torn { IfTorn result (λ rid. EachState (S.meaning store.old) (S.meaning store.new) (λ state. DescentTears size root key state rid)) }
    ensures walk { WalksByReads S.read_gives S.meaning S.rest store.old store.new result }
{
    let mut here = Stored::blank();
    if !read_node(store, size, root, FIRST, &mut here)? {
        return Ok(None);
    }
    let mut depth = 1;
    while is_inner(&here.words) {
        let (low, rid) = child(&here.words, size, key);
        if depth == MOST_DEPTH {
            return Err(Walk::Torn(rid));
        }
        if !read_node(store, size, rid, low, &mut here)? {
            return Err(Walk::Torn(rid));
        }
        depth += 1;
    }
    Ok(Some(here))
}

/// Reads the node of a record with this low fence, and answers whether the record is present.
pub fn read_node<S: RecordRead>(
    store: &mut S,
    size: u32,
    rid: u32,
    low: Key,
    here: &mut Stored,
) -> Result<bool, Walk<S::Fault>>
    requires size { size ≡ (S.meaning store.old).size }
    requires at_most { size ≤ record_limit }
    requires rid { rid < size }
    ensures node { IfOk result (λ present. IfSome (value_if present here.new) (IsTreeNode size rid low)) }
    ensures read { IfOk result (λ present. EachState (S.meaning store.old) (S.meaning store.new) (λ state. ReadsNode size rid state (value_if present here.new))) }
    ensures torn { IfTorn result (λ torn. (torn ≡ rid) × EachState (S.meaning store.old) (S.meaning store.new) (λ state. IsNoNode size low state rid)) }
    ensures walk { WalksByReads S.read_gives S.meaning S.rest store.old store.new result }
{
    let mut cells = Cells::new([0; 32]);
    if !store.read_into(rid, &mut cells)? {
        return Ok(false);
    }
    here.at = rid;
    here.words = cells.words();
    if !is_node(&here.words, size) {
        return Err(Walk::Torn(rid));
    }
    if fence(&here.words) != low {
        return Err(Walk::Torn(rid));
    }
    Ok(true)
}
