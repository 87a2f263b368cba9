//! The scan over the row of leaves.

ghost use Rattle.std.specs.Prelude.{◌≡◌, ◌⊎◌, ℕ, ◌+◌, ◌-◌, ◌<◌, ◌≤◌, ◌++◌, length, take, IfOk, OnOk, OnErr, true, false, vec_len};
ghost use Rattle.record_store.specs.Limits.{record_limit};
ghost use Rattle.std.specs.Vec.{vec_capacity};
ghost use Rattle.record_store.specs.Goes.{GoesByReads, WalksByReads};
ghost use Rattle.record_store.specs.Walks.{IfTorn, IfNoMemory};
ghost use Rattle.ordered_index.specs.Standing.{IsNode, content_at};
ghost use Rattle.ordered_index.specs.Walk.{node_of};
ghost use Rattle.ordered_index.specs.Keys.{is_before as is_before_of, Rising};
ghost use Rattle.ordered_index.specs.Tree.{EachTree, IsAt, row_entries};
ghost use Rattle.record_store.specs.States.{EachState};
ghost use Rattle.ordered_index.specs.Scan.{between, Appends, ListsNothing, Scans, ScanTears, IsTornScan, HasBehind, IsLeafBehind, IsNoLeaf, keys_behind};

use crate::key::Key;
use crate::standing::{entry, fence, is_inner, is_node, next};
use crate::walk::{Stored, leaf_for};
use plain_data::Cells;
use record_store::{RecordRead, Walk};

/// Appends to `out` the first `limit` pairs of the tree of `root` whose keys lie from `lo` to `hi`, both taken in, by rising key.
///
/// `NoMemory` comes only where `out` has no room for `limit` pairs more, and then nothing was read. After a refusal `out` is as it was.
/// Where the arguments alone say that there is no such pair, nothing is read.
pub fn scan<S: RecordRead>(
    store: &mut S,
    root: u32,
    lo: Key,
    hi: Key,
    limit: u32,
    out: &mut Vec<(Key, u32)>,
) -> Result<(), Walk<S::Fault>>
    requires { root < (S.meaning store.old).size }
    ensures ok { OnOk result (EachTree root (S.meaning store.old) (S.meaning store.new) (λ _ _ leaves. out.new.items ≡ out.old.items ++ take limit (between lo hi (row_entries leaves)))) }
    ensures rising { OnOk result (EachTree root (S.meaning store.old) (S.meaning store.new) (λ _ _ leaves. Rising (take limit (between lo hi (row_entries leaves))))) }

    // also where no state that agrees has a lawful tree
    ensures stored { OnOk result (Appends (S.meaning store.old).size limit lo hi out.old.items out.new.items) }
    ensures err { OnErr result (out.new.items ≡ out.old.items) }
    ensures walked { OnOk result (ListsNothing lo hi limit ⊎ EachState (S.meaning store.old) (S.meaning store.new) (Scans (S.meaning store.old).size root lo hi limit out.old.items out.new.items)) }
    ensures nothing { ListsNothing lo hi limit → store.new ≡ store.old }
    ensures torn { IfTorn result (IsTornScan root lo (S.meaning store.old) (S.meaning store.new)) }
    ensures walk { GoesByReads S.read_gives S.meaning store.old store.new result }
    ensures memory { IfNoMemory result ((vec_capacity out.old < vec_len out.old + limit) × (store.new ≡ store.old)) }
    ensures rest { S.rest store.new ≡ S.rest store.old }
{
    if out.reserve(limit as usize).is_err() {
        return Err(Walk::NoMemory);
    }
    if limit == 0 || hi.is_before(lo) {
        return Ok(());
    }
    let kept = out.len();
    let answer = scan_leaves(store, root, lo, hi, limit as usize, out);
    if answer.is_err() {
        out.truncate(kept);
    }
    answer
}

/// Appends pairs of the leaves from that for `lo` on, until there are so many, a key behind `hi` was met, or no leaf is left.
fn scan_leaves<S: RecordRead>(
    store: &mut S,
    root: u32,
    lo: Key,
    hi: Key,
    limit: usize,
    out: &mut Vec<(Key, u32)>,
) -> Result<(), Walk<S::Fault>>
    requires root { root < (S.meaning store.old).size }
    requires some { 0 < limit }
    requires room { vec_len out.old + limit ≤ vec_capacity out.old }
    ensures ok { OnOk result (EachState (S.meaning store.old) (S.meaning store.new) (Scans (S.meaning store.old).size root lo hi limit out.old.items out.new.items)) }
    ensures appends { Appends (S.meaning store.old).size limit lo hi out.old.items out.new.items }
    ensures torn { IfTorn result (λ rid. EachState (S.meaning store.old) (S.meaning store.new) (ScanTears (S.meaning store.old).size root lo rid)) }
    ensures walk { WalksByReads S.read_gives S.meaning S.rest store.old store.new result }
{
    let size = store.size();
    let most = out.len() + limit;
    let Some(mut here) = leaf_for(store, size, root, lo)? else {
        return Ok(());
    };
    let mut goes_on = take_between(&here.words, size, lo, hi, most, out);
    while goes_on {
        let Some(next) = next(&here.words, size) else {
            return Ok(());
        };
        let before = fence(&here.words);
        read_next_leaf(store, size, next, before, &mut here)?;
        if hi.is_before(fence(&here.words)) {
            return Ok(());
        }
        goes_on = take_between(&here.words, size, lo, hi, most, out);
    }
    Ok(())
}

/// Appends a node's entries with keys from `lo` to `hi` until the list has `most`, and answers whether nodes behind it may have
/// more.
fn take_between(
    words: &[u64; 32],
    size: u32,
    lo: Key,
    hi: Key,
    most: usize,
    out: &mut Vec<(Key, u32)>,
) -> bool
    requires node { IsNode size words.now }
    requires some { vec_len out.old < most }
    requires room { most ≤ vec_capacity out.old }
    ensures items { out.new.items ≡ out.old.items ++ take (most - length out.old.items) (between lo hi (content_at words.now).entries) }
    ensures room { most ≤ vec_capacity out.new }
    ensures goes_on { result ≡ true → vec_len out.new < most }
    ensures ends { result ≡ false → HasBehind hi (content_at words.now).entries ⊎ (vec_len out.new ≡ most) }
{
    for i in 0..words[1] as usize {
        let pair = entry(words, size, i);
        if hi.is_before(pair.0) {
            return false;
        }
        if pair.0.is_before(lo) {
            continue;
        }
        if out.push(pair).is_err() {
            unreachable!();
        }
        if out.len() == most {
            return false;
        }
    }
    true
}

/// Reads the leaf of a record, with a fence behind that of the leaf before.
fn read_next_leaf<S: RecordRead>(
    store: &mut S,
    size: u32,
    rid: u32,
    before: Key,
    here: &mut Stored,
) -> Result<(), Walk<S::Fault>>
    requires size { size ≡ (S.meaning store.old).size }
    requires at_most { size ≤ record_limit }
    requires rid { rid < size }
    ensures leaf { OnOk result (IsLeafBehind size rid before here.new) }
    ensures read { OnOk result (EachState (S.meaning store.old) (S.meaning store.new) (λ state. IsAt size state (node_of here.new))) }
    ensures torn { IfTorn result (λ torn. (torn ≡ rid) × EachState (S.meaning store.old) (S.meaning store.new) (λ state. IsNoLeaf size before state rid)) }
    ensures walk { WalksByReads S.read_gives S.meaning S.rest store.old store.new result }
{
    let mut cells = Cells::new([0; 32]);
    if !store.read_into(rid, &mut cells)? {
        return Err(Walk::Torn(rid));
    }
    here.at = rid;
    here.words = cells.words();
    if !is_node(&here.words, size) {
        return Err(Walk::Torn(rid));
    }
    if is_inner(&here.words) || !rises(before, fence(&here.words)) {
        return Err(Walk::Torn(rid));
    }
    Ok(())
}

/// Whether a fence rises to the next one.
fn rises(before: Key, next: Key) -> bool
    ensures before { result ≡ is_before_of before next }
    ensures nearer { result ≡ true → keys_behind next < keys_behind before }
{
    before.is_before(next)
}
