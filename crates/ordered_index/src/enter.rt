//! How a tree takes an entry in, from its leaf upwards.

ghost use Rattle.std.specs.Prelude.{◌≡◌, ℕ, ◌+◌, ◌*◌, ◌<◌, ◌≤◌, length, IfOk, IfSome, OnOk, OnErr, Some};
ghost use Rattle.record_store.specs.Goes.{WalksByCalls, WalksCounting};
ghost use Rattle.record_store.specs.Limits.{record_limit};
ghost use Rattle.record_store.specs.Meaning.{after_write};
ghost use Rattle.record_store.specs.Writes.{WritesOnly, EachWritesKnown};
ghost use Rattle.record_store.specs.Walks.{IfTorn, OnlyReads};
ghost use Rattle.ordered_index.specs.Asks.{MayAskUnder, MayAskAt, MayAskRoot, MayAskSplit, AsksUnder, AsksRoot, AsksSplit, asks_at};
ghost use Rattle.ordered_index.specs.declared.node.Kind.TheVariants.{Leaf, Inner};
ghost use Rattle.ordered_index.specs.Held.{content_of};
ghost use Rattle.ordered_index.specs.Keys.{NotAfter};
ghost use Rattle.ordered_index.specs.Standing.{IsNode, content_at};
ghost use Rattle.ordered_index.specs.Written.{WritesNodes};
ghost use Rattle.record_store.specs.States.{EachState};
ghost use Rattle.ordered_index.specs.Enter.{EachEntered, IsLeafEntered, IfTakes, IfThere, IsRank, TearsBelow, ReachesBelow, PutsEntry, PutsRoot, with_entry};

use crate::key::Key;
use crate::node::Node;
use crate::standing::{entry, is_inner, place, rank_of, to_node};
use crate::walk::{MOST_DEPTH, Stored, read_node};
use record_store::{RecordStore, Walk, write_node};

/// What comes of an entry below a node.
#[derive(Drop)]
pub enum Entering {
    /// The key was there, and nothing changed.
    There,
    /// The entry is in.
    Done,
    /// The node itself has to take this entry in.
    Takes((Key, u32)),
}

/// Puts an entry into the part of the tree below a node, whose entries up to this number are not behind the key.
pub fn enter<S: RecordStore>(
    store: &mut S,
    size: u32,
    here: &[u64; 32],
    rank: usize,
    depth: u32,
    key: Key,
    rid: u32,
) -> Result<Entering, Walk<S::Fault>>
    requires size { size ≡ (S.meaning store.old).size }
    requires at_most { size ≤ record_limit }
    requires rid { rid < size }
    requires node { IsNode size here.now }
    requires rank { IsRank key (content_at here.now).entries rank }
    requires low { NotAfter (content_at here.now).low key }
    requires depth { depth ≤ 24 }
    ensures leaf { (content_at here.now).kind ≡ Leaf → IfOk result (λ entering. IsLeafEntered key rid (content_at here.now).entries entering × (S.meaning store.new ≡ S.meaning store.old)) }
    ensures inner { (content_at here.now).kind ≡ Inner → IfOk result (EachEntered (S.meaning store.old) (S.meaning store.new) key rid (content_at here.now).entries rank) }
    ensures within { IfOk result (λ entering. IfTakes entering (λ entry. entry.1 < size)) }
    ensures there { IfOk result (λ entering. IfThere entering (OnlyReads (S.meaning store.old) (S.meaning store.new))) }
    ensures torn { IfTorn result (λ torn. ((content_at here.now).kind ≡ Inner) × EachState (S.meaning store.old) (S.meaning store.new) (λ state. TearsBelow size depth key (content_at here.now).entries state torn)) }
    ensures unwritten { IfTorn result (λ _. OnlyReads (S.meaning store.old) (S.meaning store.new)) }

    // `fresh` is asked for a full node, where the key is not there
    ensures walk { WalksCounting S.read_gives S.write_gives S.fresh_gives S.meaning S.rest (MayAskUnder key (content_at here.now)) (AsksUnder key (content_at here.now) depth) store.old store.new result }

    // no record is written but one that is present, and one that was given
    ensures writes { EachWritesKnown (S.meaning store.old) (S.meaning store.new) }
    ensures walked { (content_at here.now).kind ≡ Inner → OnOk result (EachState (S.meaning store.old) (S.meaning store.new) (ReachesBelow size depth key (content_at here.now).entries)) }
{
    if !is_inner(here) {
        return match place(here, key) {
            Some(_) => Ok(Entering::There),
            None => Ok(Entering::Takes((key, rid))),
        };
    }
    let (low, at) = entry(here, size, rank - 1);
    if depth == MOST_DEPTH {
        return Err(Walk::Torn(at));
    }
    let mut child = Stored::blank();
    if !read_node(store, size, at, low, &mut child)? {
        return Err(Walk::Torn(at));
    }
    let child_rank = rank_of(&child.words, key);
    match enter(store, size, &child.words, child_rank, depth + 1, key, rid)? {
        Entering::There => Ok(Entering::There),
        Entering::Done => Ok(Entering::Done),
        Entering::Takes(entry) => match put_entry(store, &child, size, child_rank, entry)? {
            Some(new) => Ok(Entering::Takes(new)),
            None => Ok(Entering::Done),
        },
    }
}

/// Puts an entry into a node that is not the root, and answers the entry of a new node where it was parted in two.
fn put_entry<S: RecordStore>(
    store: &mut S,
    here: &Stored,
    size: u32,
    rank: usize,
    entry: (Key, u32),
) -> Result<Option<(Key, u32)>, Walk<S::Fault>>
    requires at { here.now.at < (S.meaning store.old).size }
    requires node { IsNode size here.now.words }
    requires rank { rank ≤ length (content_at here.now.words).entries }
    ensures ok { IfOk result (PutsEntry (S.meaning store.old) (S.meaning store.new) here.now.at (content_at here.now.words) (with_entry (content_at here.now.words).entries rank entry)) }
    ensures torn { IfTorn result (λ _. ⊥) }
    ensures walk { WalksByCalls S.read_gives S.write_gives S.fresh_gives S.meaning S.rest (MayAskAt (content_at here.now.words).entries) (asks_at (content_at here.now.words).entries) store.old store.new result }
    ensures writes { WritesOnly (λ rid. rid ≡ here.now.at) (S.meaning store.old) (S.meaning store.new) }
    ensures few { WritesNodes (2 * asks_at (content_at here.now.words).entries + 1) (S.meaning store.old) (S.meaning store.new) }
    ensures parted { IfOk result (λ new. IfSome new (λ _. WritesNodes (2 * asks_at (content_at here.now.words).entries) (S.meaning store.old) (S.meaning store.new))) }
{
    change_node(store, here.at, to_node(&here.words, size), rank, entry)
}

/// Writes a node that is not the root with an entry more, and answers the entry of a new node where it was parted in two.
fn change_node<S: RecordStore>(
    store: &mut S,
    at: u32,
    mut node: Node,
    rank: usize,
    entry: (Key, u32),
) -> Result<Option<(Key, u32)>, Walk<S::Fault>>
    requires at { at < (S.meaning store.old).size }
    requires few { length node.entries.items ≤ 9 }
    requires rank { rank ≤ length node.entries.items }
    ensures ok { IfOk result (PutsEntry (S.meaning store.old) (S.meaning store.new) at (content_of node) (with_entry node.entries.items rank entry)) }
    ensures torn { IfTorn result (λ _. ⊥) }
    ensures walk { WalksByCalls S.read_gives S.write_gives S.fresh_gives S.meaning S.rest (MayAskAt node.entries.items) (asks_at node.entries.items) store.old store.new result }
    ensures writes { WritesOnly (λ rid. rid ≡ at) (S.meaning store.old) (S.meaning store.new) }
    ensures few { WritesNodes (2 * asks_at node.entries.items + 1) (S.meaning store.old) (S.meaning store.new) }
    ensures parted { IfOk result (λ new. IfSome new (λ _. WritesNodes (2 * asks_at node.entries.items) (S.meaning store.old) (S.meaning store.new))) }
{
    node.entries.insert(rank, entry);
    if !node.entries.is_full() {
        write_node(store, at, node.cells())?;
        return Ok(None);
    }
    let fresh = store.fresh()?;
    let right = node.part(fresh);
    let low = right.low;
    write_node(store, fresh, right.cells())?;
    write_node(store, at, node.cells())?;
    Ok(Some((low, fresh)))
}

/// Puts an entry into the root.
pub fn put_root<S: RecordStore>(
    store: &mut S,
    here: &Stored,
    size: u32,
    rank: usize,
    entry: (Key, u32),
) -> Result<(), Walk<S::Fault>>
    requires at { here.now.at < (S.meaning store.old).size }
    requires node { IsNode size here.now.words }
    requires rank { rank ≤ length (content_at here.now.words).entries }
    ensures ok { OnOk result (PutsRoot (S.meaning store.old) (S.meaning store.new) here.now.at (content_at here.now.words) (with_entry (content_at here.now.words).entries rank entry)) }
    ensures torn { IfTorn result (λ _. ⊥) }
    ensures walk { WalksCounting S.read_gives S.write_gives S.fresh_gives S.meaning S.rest (MayAskRoot (content_at here.now.words).entries) (AsksRoot (content_at here.now.words).entries) store.old store.new result }
    ensures writes { WritesOnly (λ rid. rid ≡ here.now.at) (S.meaning store.old) (S.meaning store.new) }
{
    change_root(store, here.at, to_node(&here.words, size), rank, entry)
}

/// Writes the root with an entry more.
fn change_root<S: RecordStore>(
    store: &mut S,
    at: u32,
    mut top: Node,
    rank: usize,
    entry: (Key, u32),
) -> Result<(), Walk<S::Fault>>
    requires at { at < (S.meaning store.old).size }
    requires few { length top.entries.items ≤ 9 }
    requires rank { rank ≤ length top.entries.items }
    ensures ok { OnOk result (PutsRoot (S.meaning store.old) (S.meaning store.new) at (content_of top) (with_entry top.entries.items rank entry)) }
    ensures torn { IfTorn result (λ _. ⊥) }
    ensures walk { WalksCounting S.read_gives S.write_gives S.fresh_gives S.meaning S.rest (MayAskRoot top.entries.items) (AsksRoot top.entries.items) store.old store.new result }
    ensures writes { WritesOnly (λ rid. rid ≡ at) (S.meaning store.old) (S.meaning store.new) }
{
    top.entries.insert(rank, entry);
    if !top.entries.is_full() {
        write_node(store, at, top.cells())?;
        return Ok(());
    }
    split_root(store, at, top)
}

/// Writes the ten entries of the root to two new nodes, first the left one, and the root over them.
fn split_root<S: RecordStore>(store: &mut S, at: u32, mut top: Node) -> Result<(), Walk<S::Fault>>
    requires at { at < (S.meaning store.old).size }
    requires ten { length top.entries.items ≡ 10 }
    ensures ok { OnOk result (PutsRoot (S.meaning store.old) (S.meaning store.new) at (content_of top) top.entries.items) }
    ensures torn { IfTorn result (λ _. ⊥) }
    ensures walk { WalksCounting S.read_gives S.write_gives S.fresh_gives S.meaning S.rest MayAskSplit AsksSplit store.old store.new result }
    ensures writes { WritesOnly (λ rid. rid ≡ at) (S.meaning store.old) (S.meaning store.new) }
    ensures few { WritesNodes 3 (S.meaning store.old) (S.meaning store.new) }
{
    let left = store.fresh()?;
    let right = store.fresh()?;
    let low = top.low;
    let right_node = top.part(right);
    let over = Node::over(low, left, right_node.low, right);
    write_node(store, left, top.cells())?;
    write_node(store, right, right_node.cells())?;
    write_node(store, at, over.cells())?;
    Ok(())
}
