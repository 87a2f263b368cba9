//! The words of a node.

ghost use Rattle.std.specs.Prelude.{◌≡◌, ◌==◌, ◌<◌, ◌≤◌, [], ◌∷◌, length, nat_lt, position, slice_index, All, MatchBool, IfNone, IfSome};
ghost use Rattle.hash_index.specs.Node.{IsNode, NamesNext, pairs_of, chain_node_words};

use arrayvec::ArrayVec;
use plain_data::Cells;
use record_store::{link_word, named_record};

/// The pairs of a key and a record number that a node has.
pub type Pairs = ArrayVec<(u64, u32), 14>;

/// One pair alone.
pub fn one_pair(key: u64, rid: u32) -> Pairs
    ensures { result.items ≡ (key, rid) ∷ [] }
{
    let mut pairs = ArrayVec::new();
    pairs.push((key, rid));
    pairs
}

/// The cells of a node with these pairs, zero where nothing is said.
pub fn node_cells(pairs: &Pairs, next: Option<u32>, position: u32) -> Cells
    ensures { result ≡ chain_node_words pairs.now.items next position }
{
    let mut words = [0; 32];
    words[0] = pairs.len() as u64;
    words[1] = link_word(next);
    words[30] = u64::from(position);
    for i in 0..pairs.len() {
        let (key, rid) = pairs[i];
        words[2 + 2 * i] = key;
        words[3 + 2 * i] = u64::from(rid);
    }
    Cells::new(words)
}

/// The next node that the words name, unless they cannot be a node at this position of a store of this size, whatever their pairs.
pub fn next_record(words: &[u64; 32], size: u32, position: u32) -> Option<Option<u32>>
    ensures named { IfSome result (NamesNext size position words.now) }
    ensures no_node { IfNone result (IsNode size position words.now → ⊥) }
{
    if words[0] > 14 || words[30] != u64::from(position) || position >= size {
        return None;
    }
    named_record(words[1], size)
}

/// Whether the record numbers of all pairs lie in a store of this size.
pub fn are_within(words: &[u64; 32], size: u32) -> bool
    requires { slice_index words.now 0 ≤ 14 }
    ensures { MatchBool result (All (λ pair. pair.1 < size) (pairs_of words.now)) (All (λ pair. pair.1 < size) (pairs_of words.now) → ⊥) }
{
    for i in 0..words[0] as usize {
        let rid = words[3 + 2 * i];
        if rid >= u64::from(size) {
            return false;
        }
    }
    true
}

/// Where the key stands among the pairs.
pub fn find(words: &[u64; 32], key: u64) -> Option<usize>
    requires { slice_index words.now 0 ≤ 14 }
    ensures { result ≡ position (λ pair. pair.0 == key) (pairs_of words.now) }
{
    for i in 0..words[0] as usize {
        if words[2 + 2 * i] == key {
            return Some(i);
        }
    }
    None
}

/// Whether the node has room for one pair more.
pub fn has_room(words: &[u64; 32]) -> bool
    requires { slice_index words.now 0 ≤ 14 }
    ensures { result ≡ nat_lt (length (pairs_of words.now)) 14 }
{
    words[0] < 14
}

/// All pairs of a node, to be changed.
pub fn all_pairs(words: &[u64; 32], size: u32) -> Pairs
    requires few { slice_index words.now 0 ≤ 14 }
    requires records { All (λ pair. pair.1 < size) (pairs_of words.now) }
    ensures { result.items ≡ pairs_of words.now }
{
    let mut pairs = ArrayVec::new();
    for i in 0..words[0] as usize {
        let rid = words[3 + 2 * i] as u32;
        pairs.push((words[2 + 2 * i], rid));
    }
    pairs
}
