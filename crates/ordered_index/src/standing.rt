//! A node where its words stand, which is looked at and not taken apart.

ghost use Rattle.std.specs.Prelude.{◌≡◌, ℕ, ◌+◌, ◌*◌, ◌-◌, ◌<◌, ◌≤◌, ◌==◌, if◌then◌else◌, drop, length, slice_get, slice_index, slice_index_or, IfNone, IfSome, MatchBool, None, Some, true, false};
ghost use Rattle.ordered_index.specs.Held.{content_of};
ghost use Rattle.ordered_index.specs.Keys.{Above, InStore, NotAfter, Rising, entry_at, first_key, is_before, last_at};
ghost use Rattle.ordered_index.specs.Node.{Begins, Content, Holds, IsSound, kind_word, least, next_leaf};
ghost use Rattle.ordered_index.specs.Standing.{IsNode, content_at, entries_at, key_at};
ghost use Rattle.ordered_index.specs.Splits.{IsRank};
ghost use Rattle.ordered_index.specs.Walk.{HasKeyAt};
ghost use Rattle.ordered_index.specs.declared.node.Kind.{Kind};
ghost use Rattle.ordered_index.specs.declared.node.Kind.TheVariants.{Leaf, Inner};

use crate::key::Key;
use crate::node::{Kind, Node};
use arrayvec::ArrayVec;
use record_store::named_record;

/// Whether the words are a node of a store of this size.
pub fn is_node(words: &[u64; 32], size: u32) -> bool
    ensures node { result ≡ true → IsNode size words.now }
    ensures no_node { result ≡ false → (node : Content) → Holds words.now node → IsSound size node → ⊥ }
{
    let Some(kind) = read_kind(words[0]) else {
        return false;
    };
    if words[1] > 9 || words[1] < least_of(kind) {
        return false;
    }
    if !begins(words, kind) {
        return false;
    }
    if !are_in_order(words, size) {
        return false;
    }
    names_next(kind, words[31], size)
}

/// Whether there are nodes below.
pub fn is_inner(words: &[u64; 32]) -> bool
    ensures inner { result ≡ true → (content_at words.now).kind ≡ Inner }
    ensures leaf { result ≡ false → (content_at words.now).kind ≡ Leaf }
{
    words[0] == 2
}

/// The low fence.
pub fn fence(words: &[u64; 32]) -> Key
    ensures { result ≡ (content_at words.now).low }
{
    Key {
        high: words[2],
        low: words[3],
    }
}

/// The next leaf.
pub fn next(words: &[u64; 32], size: u32) -> Option<u32>
    requires { IsNode size words.now }
    ensures { result ≡ (content_at words.now).next }
{
    if is_inner(words) {
        return None;
    }
    named_record(words[31], size)?
}

/// The entry of this number.
pub fn entry(words: &[u64; 32], size: u32, i: usize) -> (Key, u32)
    requires node { IsNode size words.now }
    requires within { i < length (content_at words.now).entries }
    ensures { result ≡ slice_index_or (content_at words.now).entries i (first_key, 0) }
{
    let rid = words[6 + 3 * i] as u32;
    (key_of(words, i), rid)
}

/// How many entries stand up to the last one whose key is not behind this one.
pub fn rank_of(words: &[u64; 32], key: Key) -> usize
    requires { slice_index words.now 1 ≤ 9 }
    ensures within { result ≤ length (content_at words.now).entries }
    ensures above { Above key (drop result (content_at words.now).entries) }
    ensures rank { IsRank key (content_at words.now).entries result }
    ensures last { last_at (content_at words.now).entries key ≡ (if result == 0 then None else slice_get (content_at words.now).entries (result - 1)) }
{
    let mut rank = words[1] as usize;
    while rank > 0 && key.is_before(key_of(words, rank - 1)) {
        rank -= 1;
    }
    rank
}

/// The entry for a key: the last one whose key is not behind it.
pub fn child(words: &[u64; 32], size: u32, key: Key) -> (Key, u32)
    requires node { IsNode size words.now }
    requires kind { (content_at words.now).kind ≡ Inner }
    requires low { NotAfter (content_at words.now).low key }
    ensures { last_at (content_at words.now).entries key ≡ Some result }
{
    let rank = rank_of(words, key);
    entry(words, size, rank - 1)
}

/// Where the entry with a key stands.
pub fn place(words: &[u64; 32], key: Key) -> Option<usize>
    requires few { slice_index words.now 1 ≤ 9 }
    requires rising { Rising (content_at words.now).entries }
    ensures place { IfSome result (HasKeyAt (content_at words.now).entries key) }
    ensures absent { IfNone result (entry_at (content_at words.now).entries key ≡ None) }
{
    let rank = rank_of(words, key);
    if rank == 0 {
        return None;
    }
    if key_of(words, rank - 1) != key {
        return None;
    }
    Some(rank - 1)
}

/// The node in memory, to be changed.
pub fn to_node(words: &[u64; 32], size: u32) -> Node
    requires { IsNode size words.now }
    ensures { content_of result ≡ content_at words.now }
{
    Node {
        kind: kind_of(words),
        low: fence(words),
        entries: entries_of(words, size),
        next: next(words, size),
    }
}

/// What it leads to.
fn kind_of(words: &[u64; 32]) -> Kind
    ensures { result ≡ (content_at words.now).kind }
{
    if is_inner(words) {
        Kind::Inner
    } else {
        Kind::Leaf
    }
}

/// All entries.
fn entries_of(words: &[u64; 32], size: u32) -> ArrayVec<(Key, u32), 10>
    requires { IsNode size words.now }
    ensures { result.items ≡ (content_at words.now).entries }
{
    let mut entries = ArrayVec::new();
    for i in 0..words[1] as usize {
        entries.push(entry(words, size, i));
    }
    entries
}

/// The key of the entry of this number.
fn key_of(words: &[u64; 32], i: usize) -> Key
    requires { i < 9 }
    ensures { result ≡ key_at words.now i }
{
    Key {
        high: words[4 + 3 * i],
        low: words[5 + 3 * i],
    }
}

/// The kind that a word says.
fn read_kind(word: u64) -> Option<Kind>
    ensures kind { IfSome result (λ kind. word ≡ kind_word kind) }
    ensures none { IfNone result ((kind : Kind) → word ≡ kind_word kind → ⊥) }
{
    match word {
        1 => Some(Kind::Leaf),
        2 => Some(Kind::Inner),
        _ => None,
    }
}

/// The least number of entries.
fn least_of(kind: Kind) -> u64
    ensures { result ≡ least kind }
{
    match kind {
        Kind::Leaf => 0,
        Kind::Inner => 2,
    }
}

/// Whether the first key of an inner node is its low fence.
fn begins(words: &[u64; 32], kind: Kind) -> bool
    requires few { slice_index words.now 1 ≤ 9 }
    requires enough { least kind ≤ slice_index words.now 1 }
    ensures { MatchBool result (Begins kind (content_at words.now).low (entries_at words.now)) (Begins kind (content_at words.now).low (entries_at words.now) → ⊥) }
{
    match kind {
        Kind::Leaf => true,
        Kind::Inner => key_of(words, 0) == fence(words),
    }
}

/// Whether the record numbers of all entries lie in a store of this size, and their keys rise strictly.
fn are_in_order(words: &[u64; 32], size: u32) -> bool
    requires { slice_index words.now 1 ≤ 9 }
    ensures { MatchBool result (InStore size (entries_at words.now) × Rising (entries_at words.now)) (InStore size (entries_at words.now) → Rising (entries_at words.now) → ⊥) }
{
    for i in 0..words[1] as usize {
        if words[6 + 3 * i] >= u64::from(size) {
            return false;
        }
        if !follows(words, i) {
            return false;
        }
    }
    true
}

/// Whether the key of an entry is behind that of the one before it, if there is one.
fn follows(words: &[u64; 32], i: usize) -> bool
    requires { i < 9 }
    ensures first { i ≡ 0 → result ≡ true }
    ensures later { 0 < i → result ≡ is_before (key_at words.now (i - 1)) (key_at words.now i) }
{
    i == 0 || key_of(words, i - 1).is_before(key_of(words, i))
}

/// Whether the next leaf that the last word of a node names lies in a store of this size.
fn names_next(kind: Kind, word: u64, size: u32) -> bool
    ensures { MatchBool result (IfSome (next_leaf kind word) (λ rid. rid < size)) (IfSome (next_leaf kind word) (λ rid. rid < size) → ⊥) }
{
    match kind {
        Kind::Leaf => named_record(word, size).is_some(),
        Kind::Inner => true,
    }
}
