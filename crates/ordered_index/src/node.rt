//! A node as it stands in a record.

ghost use Rattle.std.specs.Prelude.{◌≡◌, ◌≤◌, length};
ghost use Rattle.ordered_index.specs.Node.{kind_word as kind_word_of, tree_node_words};
ghost use Rattle.ordered_index.specs.Enter.{next_left as next_left_of};

use crate::key::Key;
use arrayvec::ArrayVec;
use plain_data::Cells;
use record_store::link_word;

/// What a node leads to.
#[derive(Clone, Copy, PartialEq, Eq, Debug)]
pub enum Kind {
    /// The records of keys.
    Leaf,
    /// Nodes below, by their low fences.
    Inner,
}

/// A node: its low fence, at most nine entries by rising key, and one more while it is split, and the next leaf of a leaf.
#[derive(Drop)]
pub struct Node {
    pub kind: Kind,
    pub low: Key,
    pub entries: ArrayVec<(Key, u32), 10>,
    pub next: Option<u32>,
}

impl Node {
    ghost use Rattle.ordered_index.specs.Held.{content_of};
    ghost use Rattle.ordered_index.specs.Enter.{left_of, right_of, over_of, leaf_of};

    /// A leaf with one entry and none behind it.
    pub fn leaf(key: Key, rid: u32) -> Self
        ensures { content_of result ≡ leaf_of key rid }
    {
        let mut entries = ArrayVec::new();
        entries.push((key, rid));
        Node {
            kind: Kind::Leaf,
            low: Key { high: 0, low: 0 },
            entries,
            next: None,
        }
    }

    /// An inner node over two nodes.
    pub fn over(low: Key, left: u32, key: Key, right: u32) -> Self
        ensures { content_of result ≡ over_of low left key right }
    {
        let mut entries = ArrayVec::new();
        entries.push((low, left));
        entries.push((key, right));
        Node {
            kind: Kind::Inner,
            low,
            entries,
            next: None,
        }
    }

    /// The cells that hold the node, zero where nothing is said.
    pub fn cells(&self) -> Cells
        requires { length self.now.entries.items ≤ 9 }
        ensures { result ≡ tree_node_words (content_of self.now) }
    {
        let mut words = [0; 32];
        words[0] = kind_word(self.kind);
        words[1] = self.entries.len() as u64;
        words[2] = self.low.high;
        words[3] = self.low.low;
        words[31] = link_word(self.next);
        for i in 0..self.entries.len() {
            let (key, rid) = self.entries[i];
            words[4 + 3 * i] = key.high;
            words[5 + 3 * i] = key.low;
            words[6 + 3 * i] = u64::from(rid);
        }
        Cells::new(words)
    }

    /// Parts a node of ten entries in two: the first five stay, and the last five are those of the answer, which is to stand at
    /// this record.
    pub fn part(&mut self, fresh: u32) -> Node
        requires { length self.old.entries.items ≡ 10 }
        ensures left { content_of self.new ≡ left_of (content_of self.old) self.old.entries.items fresh }
        ensures right { content_of result ≡ right_of (content_of self.old) self.old.entries.items }
    {
        let mut entries = ArrayVec::new();
        for i in 5..10 {
            entries.push(self.entries[i]);
        }
        self.entries.truncate(5);
        let next = self.next;
        self.next = next_left(self.kind, fresh);
        Node {
            kind: self.kind,
            low: entries[0].0,
            entries,
            next,
        }
    }
}

/// The word that says the kind.
fn kind_word(kind: Kind) -> u64
    ensures { result ≡ kind_word_of kind }
{
    match kind {
        Kind::Leaf => 1,
        Kind::Inner => 2,
    }
}

/// The next leaf of the left part of a node.
fn next_left(kind: Kind, fresh: u32) -> Option<u32>
    ensures { result ≡ next_left_of kind fresh }
{
    match kind {
        Kind::Leaf => Some(fresh),
        Kind::Inner => None,
    }
}
