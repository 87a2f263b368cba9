//! A look for a key over the nodes of a bucket's row, which keeps none of them.

ghost use Rattle.std.specs.Prelude.{◌≡◌, ℕ, ◌+◌, ◌<◌, ◌≤◌, IfNone, IfOk, IfSome};
ghost use Rattle.record_store.specs.Goes.{WalksByReads};
ghost use Rattle.record_store.specs.States.{EachState};
ghost use Rattle.record_store.specs.Walks.{IfTorn};
ghost use Rattle.hash_index.specs.Chain.{RowTears, bucket_of};
ghost use Rattle.hash_index.specs.Looking.{IsSeen, RowAnswers};
ghost use Rattle.hash_index.specs.Node.{IsNode};

use crate::node::next_record;
use crate::search::bucket_at;
use plain_data::Cells;
use record_store::{RecordRead, Walk};

/// What a node says of a key.
#[derive(Clone, Copy)]
enum Seen {
    /// It has the key, and this record number beside it.
    Found(u32),
    /// It has it not, and this record is the next node.
    Next(u32),
    /// It has it not, and is the last node.
    End,
}

/// The record number beside the key in the row of its bucket, in a store of this size.
pub fn look<S: RecordRead>(
    store: &mut S,
    size: u32,
    base: u32,
    key: u64,
) -> Result<Option<u32>, Walk<S::Fault>>
    requires size { size ≡ (S.meaning store.old).size }
    requires buckets { base + 511 ≤ size }
    ensures answer { IfOk result (λ answer. EachState (S.meaning store.old) (S.meaning store.new) (λ state. RowAnswers size (base + bucket_of key) key state answer)) }
    ensures within { IfOk result (λ answer. IfSome answer (λ rid. rid < size)) }
    ensures torn { IfTorn result (λ rid. EachState (S.meaning store.old) (S.meaning store.new) (λ state. RowTears size (base + bucket_of key) key state rid)) }
    ensures walk { WalksByReads S.read_gives S.meaning S.rest store.old store.new result }
{
    let mut at = bucket_at(base, key);
    let mut position = 0;
    let mut cells = Cells::new([0; 32]);
    loop {
        if !store.read_into(at, &mut cells)? {
            return if position == 0 {
                Ok(None)
            } else {
                Err(Walk::Torn(at))
            };
        }
        match seen_in(&cells.words(), size, position, key) {
            Some(Seen::Found(rid)) => return Ok(Some(rid)),
            Some(Seen::End) => return Ok(None),
            Some(Seen::Next(next)) => {
                at = next;
                position += 1;
            }
            None => return Err(Walk::Torn(at)),
        }
    }
}

/// What these words say of the key, if they are a node at this position of a store of this size.
fn seen_in(words: &[u64; 32], size: u32, position: u32, key: u64) -> Option<Seen>
    ensures seen { IfSome result (IsSeen size position key words.now) }
    ensures no_node { IfNone result (IsNode size position words.now → ⊥) }
{
    let next = next_record(words, size, position)?;
    let mut found = None;
    for i in 0..words[0] as usize {
        let rid = words[3 + 2 * i];
        if rid >= u64::from(size) {
            return None;
        }
        if words[2 + 2 * i] == key && found.is_none() {
            found = Some(rid as u32);
        }
    }
    match (found, next) {
        (Some(rid), _) => Some(Seen::Found(rid)),
        (None, Some(next)) => Some(Seen::Next(next)),
        (None, None) => Some(Seen::End),
    }
}
