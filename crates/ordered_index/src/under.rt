//! The walk from the root to the leaf for a key and the node above it.

ghost use Rattle.std.specs.Prelude.{◌≡◌, ℕ, ◌<◌, ◌≤◌, IfOk, IfSome, Some};
ghost use Rattle.record_store.specs.Limits.{record_limit};
ghost use Rattle.record_store.specs.Goes.{WalksByReads};
ghost use Rattle.record_store.specs.Walks.{IfTorn};
ghost use Rattle.record_store.specs.States.{EachState};
ghost use Rattle.ordered_index.specs.Standing.{IsNode, content_at};
ghost use Rattle.ordered_index.specs.declared.node.Kind.TheVariants.{Leaf, Inner};
ghost use Rattle.ordered_index.specs.Keys.{last_at};
ghost use Rattle.ordered_index.specs.Tree.{named};
ghost use Rattle.ordered_index.specs.Walk.{DescentTears, node_of};
ghost use Rattle.ordered_index.specs.Reclaim.{UnderIs};
ghost use Rattle.ordered_index.specs.Under.{IsUnder};

use crate::key::Key;
use crate::standing::{child, is_inner};
use crate::walk::{FIRST, MOST_DEPTH, Stored, read_node};
use record_store::{RecordRead, Walk};

/// A leaf and the inner node that names it.
#[derive(Drop)]
pub struct Under {
    pub parent: Stored,
    pub leaf: Stored,
}

/// The leaf for a key and the node above it, or `None` where the root is absent or a leaf.
pub fn leaf_under<S: RecordRead>(
    store: &mut S,
    size: u32,
    root: u32,
    key: Key,
) -> Result<Option<Under>, Walk<S::Fault>>
    requires size { size ≡ (S.meaning store.old).size }
    requires at_most { size ≤ record_limit }
    requires root { root < size }
    ensures under { IfOk result (λ under. EachState (S.meaning store.old) (S.meaning store.new) (λ state. UnderIs size root key state under)) }
    ensures within { IfOk result (λ under. IfSome under (IsUnder size key)) }
    ensures torn { IfTorn result (λ rid. EachState (S.meaning store.old) (S.meaning store.new) (λ state. DescentTears size root key state rid)) }
    ensures walk { WalksByReads S.read_gives S.meaning S.rest store.old store.new result }
{
    let mut here = Stored::blank();
    if !read_node(store, size, root, FIRST, &mut here)? {
        return Ok(None);
    }
    if !is_inner(&here.words) {
        return Ok(None);
    }
    let mut parent = Stored::blank();
    let mut depth = 1;
    while is_inner(&here.words) {
        let (low, rid) = child(&here.words, size, key);
        if depth == MOST_DEPTH {
            return Err(Walk::Torn(rid));
        }
        let words = here.words;
        parent.at = here.at;
        parent.words = words;
        if !read_node(store, size, rid, low, &mut here)? {
            return Err(Walk::Torn(rid));
        }
        depth += 1;
    }
    Ok(Some(Under { parent, leaf: here }))
}
