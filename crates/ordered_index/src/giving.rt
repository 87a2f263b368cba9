//! How a tree gives an empty leaf back.

ghost use Rattle.std.specs.Prelude.{All, ◌≡◌, ◌⊎◌, ℕ, ◌+◌, ◌-◌, ◌<◌, ◌≤◌, ◌∷◌, [], length, IfOk, OnOk, OnErr, None};
ghost use Rattle.record_store.specs.Goes.{WalksByReads, WalksByCalls};
ghost use Rattle.record_store.specs.Limits.{record_limit};
ghost use Rattle.record_store.specs.Meaning.{after_write};
ghost use Rattle.record_store.specs.States.{EachState};
ghost use Rattle.record_store.specs.Walks.{IfTorn, OnlyReads};
ghost use Rattle.record_store.specs.Writes.{WritesOnly, EachWritesKnown};
ghost use Rattle.ordered_index.specs.declared.node.Kind.TheVariants.{Leaf, Inner};
ghost use Rattle.ordered_index.specs.Held.{content_of};
ghost use Rattle.ordered_index.specs.Keys.{last_at};
ghost use Rattle.ordered_index.specs.Node.{Content};
ghost use Rattle.ordered_index.specs.Standing.{IsNode, content_at};
ghost use Rattle.ordered_index.specs.Splits.{IsRank};
ghost use Rattle.ordered_index.specs.Tree.{IsAt, named};
ghost use Rattle.ordered_index.specs.Under.{IsUnder};
ghost use Rattle.ordered_index.specs.Walk.{DescentEndsWell, IsTreeNode, node_of};
ghost use Rattle.ordered_index.specs.Reclaim.{Reclaims, IsTornReclaim, IsNoLeafOf, IsNoneBeside, IsLeafAt, IsFound, Joins, WritesOrFrees, joined_of, after_join, without};

use crate::key::Key;
use crate::node::Node;
use crate::standing::{entry, is_inner, rank_of, to_node};
use crate::under::{Under, leaf_under};
use crate::walk::{Stored, read_node};
use arrayvec::ArrayVec;
use record_store::{RecordRead, RecordStore, Walk, write_node};

/// The records that a call freed.
pub type Freed = ArrayVec<u32, 1>;

/// Gives the leaf of a key back where it has no entries and the node above it names three leaves or more, and answers the records that
/// are absent from then on.
///
/// The leaf and the one behind it become one, at the record of the left of the two. Where the node above names none behind it, it is the
/// one before it. The map stays as it is. Where no leaf is given back nothing is written, and nothing is answered. After a refusal what
/// was read and written may have grown.
pub fn reclaim<S: RecordStore>(store: &mut S, root: u32, key: Key) -> Result<Freed, Walk<S::Fault>>
    requires { root < (S.meaning store.old).fixed }
    ensures ok { IfOk result (λ freed. Reclaims root key freed.items (S.meaning store.old) (S.meaning store.new)) }

    // also where no state that agrees has a lawful tree
    ensures stored { IfOk result (λ freed. All (λ rid. rid < (S.meaning store.old).size) freed.items) }
    ensures walked { OnOk result (EachState (S.meaning store.old) (S.meaning store.new) (DescentEndsWell (S.meaning store.old).size root key)) }
    ensures torn { IfTorn result (IsTornReclaim root key (S.meaning store.old) (S.meaning store.new)) }
    ensures unwritten { IfTorn result (λ _. OnlyReads (S.meaning store.old) (S.meaning store.new)) }

    // `fresh` is never asked
    ensures walk { WalksByCalls S.read_gives S.write_gives S.fresh_gives S.meaning S.rest (λ _. ⊥) 0 store.old store.new result }

    // whatever it answers, three records are written at most, and each is present
    ensures few { WritesOrFrees 3 (S.meaning store.old) (S.meaning store.new) }
    ensures writes { EachWritesKnown (S.meaning store.old) (S.meaning store.new) }
{
    let size = store.size();
    let Some(under) = leaf_under(store, size, root, key)? else {
        return Ok(Freed::new());
    };
    if count(&under.leaf.words, size) > 0 {
        return Ok(Freed::new());
    }
    if count(&under.parent.words, size) == 2 {
        return Ok(Freed::new());
    }
    give_back(store, size, key, &under)
}

/// How many entries a node has.
fn count(words: &[u64; 32], size: u32) -> usize
    requires { IsNode size words.now }
    ensures { result ≡ length (content_at words.now).entries }
{
    words[1] as usize
}

/// Joins an empty leaf with one beside it, which is read first.
fn give_back<S: RecordStore>(
    store: &mut S,
    size: u32,
    key: Key,
    under: &Under,
) -> Result<Freed, Walk<S::Fault>>
    requires size { size ≡ (S.meaning store.old).size }
    requires at_most { size ≤ record_limit }
    requires under { IsUnder size key under.now }
    requires some { 2 ≤ length (content_at under.now.parent.words).entries }
    requires empty { (content_at under.now.leaf.words).entries ≡ [] }
    ensures ok { IfOk result (λ freed. Joins size (node_of under.now.parent) (node_of under.now.leaf) (S.meaning store.old) (S.meaning store.new) freed.items) }
    ensures stored { IfOk result (λ freed. All (λ rid. rid < size) freed.items) }
    ensures torn { IfTorn result (IsNoneBeside size (content_at under.now.parent.words).entries (S.meaning store.old) (S.meaning store.new)) }
    ensures unwritten { IfTorn result (λ _. OnlyReads (S.meaning store.old) (S.meaning store.new)) }
    ensures walk { WalksByCalls S.read_gives S.write_gives S.fresh_gives S.meaning S.rest (λ _. ⊥) 0 store.old store.new result }
    ensures few { WritesOrFrees 3 (S.meaning store.old) (S.meaning store.new) }
    ensures writes { WritesOnly (IsFound (S.meaning store.old) (S.meaning store.new) under.now.parent.at under.now.leaf.at) (S.meaning store.old) (S.meaning store.new) }
{
    let parent = &under.parent;
    let rank = rank_of(&parent.words, key);
    if rank < count(&parent.words, size) {
        let beside = read_leaf(store, size, entry(&parent.words, size, rank))?;
        return join_leaves(store, size, parent, rank, &under.leaf, &beside);
    }
    let beside = read_leaf(store, size, entry(&parent.words, size, rank - 2))?;
    join_leaves(store, size, parent, rank - 1, &beside, &under.leaf)
}

/// Reads the leaf that an entry names.
fn read_leaf<S: RecordRead>(
    store: &mut S,
    size: u32,
    entry: (Key, u32),
) -> Result<Stored, Walk<S::Fault>>
    requires size { size ≡ (S.meaning store.old).size }
    requires at_most { size ≤ record_limit }
    requires rid { entry.1 < size }
    ensures leaf { IfOk result (IsLeafAt size entry) }
    ensures read { IfOk result (λ here. EachState (S.meaning store.old) (S.meaning store.new) (λ state. IsAt size state (node_of here))) }
    ensures torn { IfTorn result (λ torn. (torn ≡ entry.1) × EachState (S.meaning store.old) (S.meaning store.new) (IsNoLeafOf size entry)) }
    ensures walk { WalksByReads S.read_gives S.meaning S.rest store.old store.new result }
{
    let (low, rid) = entry;
    let mut here = Stored::blank();
    if !read_node(store, size, rid, low, &mut here)? {
        return Err(Walk::Torn(rid));
    }
    if is_inner(&here.words) {
        return Err(Walk::Torn(rid));
    }
    Ok(here)
}

/// Writes two leaves as one at the record of the left one, of which one has no entries, frees the right one, and takes its entry at this
/// place out of the node above.
fn join_leaves<S: RecordStore>(
    store: &mut S,
    size: u32,
    parent: &Stored,
    place: usize,
    left: &Stored,
    right: &Stored,
) -> Result<Freed, Walk<S::Fault>>
    requires size { size ≡ (S.meaning store.old).size }
    requires parent_at { parent.now.at < size }
    requires parent { IsNode size parent.now.words }
    requires left_at { left.now.at < size }
    requires left { IsNode size left.now.words }
    requires right_at { right.now.at < size }
    requires right { IsNode size right.now.words }
    requires place { place < length (content_at parent.now.words).entries }
    requires empty { ((content_at left.now.words).entries ≡ []) ⊎ ((content_at right.now.words).entries ≡ []) }
    ensures ok { OnOk result (S.meaning store.new ≡ after_join (S.meaning store.old) left.now.at (joined_of (content_at left.now.words) (content_at right.now.words)) right.now.at parent.now.at (without (content_at parent.now.words) place)) }
    ensures freed { IfOk result (λ freed. freed.items ≡ right.now.at ∷ []) }
    ensures torn { IfTorn result (λ _. ⊥) }
    ensures walk { WalksByCalls S.read_gives S.write_gives S.fresh_gives S.meaning S.rest (λ _. ⊥) 0 store.old store.new result }
    ensures few { WritesOrFrees 3 (S.meaning store.old) (S.meaning store.new) }
    ensures writes { WritesOnly (λ rid. (rid ≡ left.now.at) ⊎ (rid ≡ right.now.at) ⊎ (rid ≡ parent.now.at)) (S.meaning store.old) (S.meaning store.new) }
{
    let leaf = joined(to_node(&left.words, size), to_node(&right.words, size));
    let mut above = to_node(&parent.words, size);
    above.entries.remove(place);
    write_node(store, left.at, leaf.cells())?;
    free_node(store, right.at)?;
    write_node(store, parent.at, above.cells())?;
    let mut freed = Freed::new();
    freed.push(right.at);
    Ok(freed)
}

/// Two nodes as one, of which one has no entries.
fn joined(left: Node, right: Node) -> Node
    requires { (left.entries.items ≡ []) ⊎ (right.entries.items ≡ []) }
    ensures { content_of result ≡ joined_of (content_of left) (content_of right) }
{
    if left.entries.is_empty() {
        return Node {
            kind: left.kind,
            low: left.low,
            entries: right.entries,
            next: right.next,
        };
    }
    Node {
        kind: left.kind,
        low: left.low,
        entries: left.entries,
        next: right.next,
    }
}

/// Makes a record absent.
fn free_node<S: RecordStore>(store: &mut S, rid: u32) -> Result<(), Walk<S::Fault>>
    requires { rid < (S.meaning store.old).size }
    ensures ok { OnOk result (S.meaning store.new ≡ after_write (S.meaning store.old) rid None) }
    ensures err { OnErr result (S.meaning store.new ≡ S.meaning store.old) }
    ensures torn { IfTorn result (λ _. ⊥) }
    ensures walk { WalksByCalls S.read_gives S.write_gives S.fresh_gives S.meaning S.rest (λ _. ⊥) 0 store.old store.new result }
{
    store.write(rid, None)?;
    Ok(())
}
