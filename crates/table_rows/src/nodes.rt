//! Worked chains and trees, and records that are given out, over a map in memory of 600 records, of which 512 are never given out. The chain's
//! base is 0, and the tree's root 511. Indexes are called by generic code, through the bound alone.

ghost use Rattle.std.specs.Prelude.{◌≡◌, ◌<◌, ◌≤◌, OnOk};

use hash_index::{get as chain_get, put as chain_put, remove as chain_remove};
use ordered_index::{Key, Walk, get, insert, reclaim, remove, scan};
use plain_data::Cells;
use record_store::{MapFault, MapStore, RecordRead, RecordStore, most_records};
use std::alloc::Global;
use std::test::Fail;

/// A key whose low part is 0.
fn key(high: u64) -> Key {
    Key { high, low: 0 }
}

/// A `put` into the chain.
fn put_pair<S: RecordStore>(store: &mut S, key: u64, rid: u32) -> Result<(), Walk<S::Fault>>
    requires buckets { 511 ≤ (S.meaning store.old).fixed }
    requires rid { rid < (S.meaning store.old).size }
    ensures size { OnOk result ((S.meaning store.new).size ≡ (S.meaning store.old).size) }
    ensures fixed { OnOk result ((S.meaning store.new).fixed ≡ (S.meaning store.old).fixed) }
{
    chain_put(store, 0, key, rid)
}

/// A `get` from it.
fn get_pair<S: RecordRead>(store: &mut S, key: u64) -> Result<Option<u32>, Walk<S::Fault>>
    requires { 511 ≤ (S.meaning store.old).size }
    ensures size { OnOk result ((S.meaning store.new).size ≡ (S.meaning store.old).size) }
    ensures fixed { OnOk result ((S.meaning store.new).fixed ≡ (S.meaning store.old).fixed) }
{
    chain_get(store, 0, key)
}

/// A `remove` from it.
fn remove_pair<S: RecordStore>(store: &mut S, key: u64) -> Result<bool, Walk<S::Fault>>
    requires { 511 ≤ (S.meaning store.old).fixed }
    ensures size { OnOk result ((S.meaning store.new).size ≡ (S.meaning store.old).size) }
    ensures fixed { OnOk result ((S.meaning store.new).fixed ≡ (S.meaning store.old).fixed) }
{
    chain_remove(store, 0, key)
}

/// An `insert` into the tree.
fn insert_key<S: RecordStore>(store: &mut S, high: u64, rid: u32) -> Result<bool, Walk<S::Fault>>
    requires root { 511 < (S.meaning store.old).fixed }
    requires rid { rid < (S.meaning store.old).size }
    ensures size { OnOk result ((S.meaning store.new).size ≡ (S.meaning store.old).size) }
    ensures fixed { OnOk result ((S.meaning store.new).fixed ≡ (S.meaning store.old).fixed) }
{
    insert(store, 511, key(high), rid)
}

/// A `get` from it.
fn get_key<S: RecordRead>(store: &mut S, high: u64) -> Result<Option<u32>, Walk<S::Fault>>
    requires { 511 < (S.meaning store.old).size }
    ensures size { OnOk result ((S.meaning store.new).size ≡ (S.meaning store.old).size) }
    ensures fixed { OnOk result ((S.meaning store.new).fixed ≡ (S.meaning store.old).fixed) }
{
    get(store, 511, key(high))
}

/// A `remove` from it.
fn remove_key<S: RecordStore>(store: &mut S, high: u64) -> Result<bool, Walk<S::Fault>>
    requires { 511 < (S.meaning store.old).fixed }
    ensures size { OnOk result ((S.meaning store.new).size ≡ (S.meaning store.old).size) }
    ensures fixed { OnOk result ((S.meaning store.new).fixed ≡ (S.meaning store.old).fixed) }
{
    remove(store, 511, key(high))
}

/// Gives the leaf of a key back, and answers the record that was freed.
fn reclaim_key<S: RecordStore>(store: &mut S, high: u64) -> Result<Option<u32>, Walk<S::Fault>>
    requires { 511 < (S.meaning store.old).fixed }
    ensures size { OnOk result ((S.meaning store.new).size ≡ (S.meaning store.old).size) }
    ensures fixed { OnOk result ((S.meaning store.new).fixed ≡ (S.meaning store.old).fixed) }
{
    let freed = reclaim(store, 511, key(high))?;
    Ok(freed.first().copied())
}

/// A `scan` of the tree from a key to another one.
fn scan_keys<S: RecordRead>(
    store: &mut S,
    range: (u64, u64, u32),
    out: &mut Vec<(Key, u32)>,
) -> Result<(), Walk<S::Fault>>
    requires { 511 < (S.meaning store.old).size }
    ensures size { OnOk result ((S.meaning store.new).size ≡ (S.meaning store.old).size) }
    ensures fixed { OnOk result ((S.meaning store.new).fixed ≡ (S.meaning store.old).fixed) }
{
    scan(store, 511, key(range.0), key(range.1), range.2, out)
}

/// Reads a record, and writes it.
fn read<S: RecordRead>(store: &mut S, rid: u32) -> Result<Option<Cells>, S::Fault>
    requires { rid < (S.meaning store.old).size }
    ensures size { OnOk result ((S.meaning store.new).size ≡ (S.meaning store.old).size) }
    ensures fixed { OnOk result ((S.meaning store.new).fixed ≡ (S.meaning store.old).fixed) }
{
    store.read(rid)
}

fn write<S: RecordStore>(store: &mut S, rid: u32, value: Option<Cells>) -> Result<(), S::Fault>
    requires { rid < (S.meaning store.old).size }
    ensures size { OnOk result ((S.meaning store.new).size ≡ (S.meaning store.old).size) }
    ensures fixed { OnOk result ((S.meaning store.new).fixed ≡ (S.meaning store.old).fixed) }
{
    store.write(rid, value)
}

/// A call, and what is due of it.
#[derive(Clone, Copy)]
enum Step {
    /// Of the chain: a key and its record number; the one that is found; and whether the key was there.
    Puts(u64, u32),
    Gets(u64, Option<u32>),
    Removes(u64, bool),
    /// A `get` of this key meets that torn record.
    GetsTorn(u64, u32),
    /// Of the tree: a key and its record number, and whether the key was new; the record number that is found; and whether the key was there.
    Inserts(u64, u32, bool),
    Finds(u64, Option<u32>),
    Drops(u64, bool),
    /// For the insertion of this key there is no record.
    WantsRecord(u64),
    /// From a key to another one, so many at most: how many pairs are listed, and the last one.
    Lists((u64, u64, u32), usize, Option<(u64, u32)>),
    /// A list of the keys from 0 to 9 meets this torn record, and stays empty.
    ListsTorn(u32),
    /// The leaf of this key is given back, and which record was freed.
    Frees(u64, Option<u32>),
    /// Of records: a word of one; the word that all cells of one have, or none; and the same written.
    HasWord(u32, usize, u64),
    Reads(u32, Option<u64>),
    Writes(u32, Option<u64>),
    /// A record that is zero but for two words.
    Stands(u32, (usize, u64), (usize, u64)),
    /// A new record, none where there is no further one; and all writes are dropped.
    Gives(Option<u32>),
    Undoes,
    HasSize(u32),
}

use Step::{
    Drops, Finds, Frees, Gets, GetsTorn, Gives, HasSize, HasWord, Inserts, Lists, ListsTorn, Puts,
    Reads, Removes, Stands, Undoes, WantsRecord, Writes,
};

/// A record with a word in each of its cells.
fn record_of(word: Option<u64>) -> Option<Cells> {
    match word {
        Some(word) => Some(Cells::new([word; 32])),
        None => None,
    }
}

/// A record that is zero but for two words.
fn standing(one: (usize, u64), other: (usize, u64)) -> Option<Cells> {
    let mut words = [0; 32];
    for (index, word) in [one, other] {
        if index < 32 {
            words[index] = word;
        }
    }
    Some(Cells::new(words))
}

/// Whether a record has this word.
fn has_word(cells: Option<Cells>, index: usize, word: u64) -> bool {
    let words = match cells {
        Some(cells) => cells.words(),
        None => [0; 32],
    };
    index < 32 && words[index] == word
}

/// Whether a list between two keys has so many pairs, and this one last.
fn lists(
    alloc: Global,
    store: &mut MapStore,
    range: (u64, u64, u32),
    count: usize,
    last: Option<(u64, u32)>,
) -> Result<bool, Walk<MapFault>>
    requires size { store.old.size ≡ 600 }
    requires fixed { store.old.fixed ≡ 512 }
    ensures size { OnOk result (store.new.size ≡ 600) }
    ensures fixed { OnOk result (store.new.fixed ≡ 512) }
{
    let mut out = Vec::new(alloc);
    scan_keys(store, range, &mut out)?;
    let found = out.last().map(|(key, rid)| (key.high, *rid));
    Ok(out.len() == count && found == last)
}

/// Whether a call of records answers what is due.
fn keeps(store: &mut MapStore, step: &Step) -> Result<bool, Walk<MapFault>>
    requires size { store.old.size ≡ 600 }
    requires fixed { store.old.fixed ≡ 512 }
    ensures size { OnOk result (store.new.size ≡ 600) }
    ensures fixed { OnOk result (store.new.fixed ≡ 512) }
{
    match *step {
        HasWord(rid, index, word) if rid < 600 => Ok(has_word(read(store, rid)?, index, word)),
        Reads(rid, word) if rid < 600 => Ok(read(store, rid)? == record_of(word)),
        Writes(rid, word) if rid < 600 => {
            write(store, rid, record_of(word))?;
            Ok(true)
        }
        Stands(rid, one, other) if rid < 600 => {
            write(store, rid, standing(one, other))?;
            Ok(true)
        }
        Gives(due) => Ok(store.fresh().ok() == due),
        Undoes => {
            store.undo();
            Ok(true)
        }
        HasSize(size) => Ok(store.size() == size),
        _ => Ok(false),
    }
}

/// Whether a call answers what is due.
fn holds(alloc: Global, store: &mut MapStore, step: &Step) -> Result<bool, Walk<MapFault>>
    requires size { store.old.size ≡ 600 }
    requires fixed { store.old.fixed ≡ 512 }
    ensures size { OnOk result (store.new.size ≡ 600) }
    ensures fixed { OnOk result (store.new.fixed ≡ 512) }
{
    match *step {
        Puts(key, rid) if rid < 600 => {
            put_pair(store, key, rid)?;
            Ok(true)
        }
        Gets(key, rid) => Ok(get_pair(store, key)? == rid),
        Removes(key, was_there) => Ok(remove_pair(store, key)? == was_there),
        Inserts(high, rid, new) if rid < 600 => Ok(insert_key(store, high, rid)? == new),
        Finds(high, rid) => Ok(get_key(store, high)? == rid),
        Drops(high, was_there) => Ok(remove_key(store, high)? == was_there),
        Lists(range, count, last) => lists(alloc, store, range, count, last),
        Frees(high, freed) => Ok(reclaim_key(store, high)? == freed),
        _ => keeps(store, step),
    }
}

/// Whether the last call of a row, which is refused, is refused as is due.
fn is_refused(alloc: Global, store: &mut MapStore, step: &Step) -> bool
    requires size { store.old.size ≡ 600 }
    requires fixed { store.old.fixed ≡ 512 }
{
    match *step {
        GetsTorn(key, rid) => get_pair(store, key) == Err(Walk::Torn(rid)),
        WantsRecord(high) => insert_key(store, high, 1) == Err(Walk::Store(MapFault::RecordsOut)),
        ListsTorn(rid) => {
            let mut out = Vec::new(alloc);
            scan_keys(store, (0, 9, 5), &mut out) == Err(Walk::Torn(rid)) && out.is_empty()
        }
        _ => false,
    }
}

/// How many calls answer what is due, up to the first that does not.
fn count_held(alloc: Global, store: &mut MapStore, steps: &[Step]) -> Result<usize, Walk<MapFault>>
    requires size { store.old.size ≡ 600 }
    requires fixed { store.old.fixed ≡ 512 }
    ensures size { OnOk result (store.new.size ≡ 600) }
    ensures fixed { OnOk result (store.new.fixed ≡ 512) }
{
    let mut held = 0;
    for i in 0..steps.len() {
        if !holds(alloc, store, &steps[i])? {
            return Ok(held);
        }
        held = i + 1;
    }
    Ok(held)
}

/// The call of a number that is made for each of a range.
#[derive(Clone, Copy)]
enum Each {
    /// Puts the key 5 + 511 times the number, in bucket 5, with the record number 520 more than it.
    Put,
    /// Inserts the number as a key, with the record number 520 more than it, or 1.
    Insert,
    /// Removes the number from the tree.
    Drop,
    /// Gives its leaf back.
    Free,
    /// Inserts it, removes the one ten below, and gives the leaf of that back.
    Turn,
    /// Gives out a new record, of this number.
    Give,
}

/// Calls for the numbers from this one to that one, and how many of them changed something.
type Range = (Each, u32, u32, u32);

/// The call of a number, and whether it changed something.
fn call(store: &mut MapStore, each: Each, number: u32) -> Result<bool, Walk<MapFault>>
    requires size { store.old.size ≡ 600 }
    requires fixed { store.old.fixed ≡ 512 }
    ensures size { OnOk result (store.new.size ≡ 600) }
    ensures fixed { OnOk result (store.new.fixed ≡ 512) }
{
    let high = u64::from(number);
    let rid = if number < 80 { 520 + number } else { 1 };
    match each {
        Each::Put => {
            put_pair(store, 5 + 511 * high, rid)?;
            Ok(true)
        }
        Each::Insert => insert_key(store, high, rid),
        Each::Drop => remove_key(store, high),
        Each::Free => Ok(reclaim_key(store, high)?.is_some()),
        Each::Turn => {
            insert_key(store, high, rid)?;
            remove_key(store, high.saturating_sub(10))?;
            Ok(reclaim_key(store, high.saturating_sub(10))?.is_some())
        }
        Each::Give => Ok(store.fresh().ok() == Some(number)),
    }
}

/// Makes the calls of a range, and answers how many changed something.
fn call_each(store: &mut MapStore, range: &Range) -> Result<u32, Walk<MapFault>>
    requires size { store.old.size ≡ 600 }
    requires fixed { store.old.fixed ≡ 512 }
    ensures size { OnOk result (store.new.size ≡ 600) }
    ensures fixed { OnOk result (store.new.fixed ≡ 512) }
{
    let mut changed = 0u32;
    for number in range.1..range.2 {
        if call(store, range.0, number)? {
            changed = changed.saturating_add(1);
        }
    }
    Ok(changed)
}

/// Makes the calls of all ranges, and answers whether as many changed something as are due.
fn are_called(store: &mut MapStore, ranges: &[Range]) -> Result<bool, Walk<MapFault>>
    requires size { store.old.size ≡ 600 }
    requires fixed { store.old.fixed ≡ 512 }
    ensures size { OnOk result (store.new.size ≡ 600) }
    ensures fixed { OnOk result (store.new.fixed ≡ 512) }
{
    for i in 0..ranges.len() {
        if call_each(store, &ranges[i])? != ranges[i].3 {
            return Ok(false);
        }
    }
    Ok(true)
}

/// Calls for ranges of numbers, then single calls, and the last one where it is refused.
type Row = (&'static [Range], &'static [Step], Option<Step>);

const ROWS: &[Row] = &[
    // One key of a chain is put and removed.
    (
        &[],
        &[
            Puts(5, 530),
            Gets(5, Some(530)),
            Gets(516, None),
            Removes(5, true),
            Removes(5, false),
        ],
        None,
    ),
    // A node that holds a key of another bucket is torn.
    (&[], &[Stands(5, (1, 6), (2, 0))], Some(GetsTorn(5, 5))),
    // A full bucket is continued.
    (
        &[(Each::Put, 0, 15, 15)],
        &[
            Gets(7159, Some(534)),
            HasWord(512, 0, 1),
            HasWord(512, 30, 1),
            HasWord(5, 1, 513),
            HasWord(5, 31, 0),
        ],
        None,
    ),
    // A hole is filled.
    (
        &[(Each::Put, 0, 15, 15)],
        &[
            Removes(5, true),
            HasWord(5, 0, 13),
            HasWord(5, 2, 6648),
            HasWord(5, 3, 533),
            HasWord(5, 28, 0),
            HasWord(5, 29, 0),
            Puts(7670, 540),
            HasWord(5, 0, 14),
        ],
        None,
    ),
    // The tenth key splits the root.
    (
        &[(Each::Insert, 1, 11, 10)],
        &[
            Inserts(3, 599, false),
            HasWord(511, 0, 2),
            HasWord(511, 1, 2),
            HasWord(511, 6, 512),
            HasWord(511, 7, 6),
            HasWord(511, 9, 513),
            HasWord(512, 0, 1),
            HasWord(512, 1, 5),
            HasWord(512, 4, 1),
            HasWord(512, 31, 514),
            HasWord(513, 1, 5),
            HasWord(513, 2, 6),
            HasWord(513, 4, 6),
            HasWord(513, 31, 0),
            Finds(3, Some(523)),
            Finds(11, None),
        ],
        None,
    ),
    // Pairs are listed.
    (
        &[(Each::Insert, 1, 11, 10)],
        &[
            Lists((2, 9, 1), 1, Some((2, 522))),
            Lists((2, 9, 2), 2, Some((3, 523))),
            Lists((2, 9, 3), 3, Some((4, 524))),
            Lists((10, 99, 3), 1, Some((10, 530))),
            Lists((9, 2, 3), 0, None),
            Lists((2, 9, 0), 0, None),
        ],
        None,
    ),
    // Leaves are linked.
    (
        &[(Each::Insert, 1, 16, 15)],
        &[
            HasWord(511, 0, 2),
            HasWord(511, 1, 3),
            HasWord(511, 4, 0),
            HasWord(511, 5, 0),
            HasWord(511, 6, 512),
            HasWord(511, 7, 6),
            HasWord(511, 8, 0),
            HasWord(511, 9, 513),
            HasWord(511, 10, 11),
            HasWord(511, 11, 0),
            HasWord(511, 12, 514),
            HasWord(512, 31, 514),
            HasWord(513, 31, 515),
            HasWord(514, 31, 0),
        ],
        None,
    ),
    // A leaf may be empty.
    (
        &[(Each::Insert, 1, 16, 15), (Each::Drop, 6, 11, 5)],
        &[
            Drops(7, false),
            HasWord(513, 1, 0),
            Lists((5, 11, 1), 1, Some((5, 525))),
            Lists((5, 11, 9), 2, Some((11, 531))),
        ],
        None,
    ),
    // A leaf that names itself as the next one is torn.
    (&[], &[Stands(511, (0, 1), (31, 512))], Some(ListsTorn(511))),
    // For the tenth key no new record is left.
    (
        &[(Each::Insert, 1, 10, 9), (Each::Give, 512, 600, 88)],
        &[Gives(None)],
        Some(WantsRecord(10)),
    ),
    // Three leaves of five keys, of which the first is empty: it takes what the second has.
    (
        &[(Each::Insert, 1, 16, 15), (Each::Drop, 1, 6, 5)],
        &[
            Frees(3, Some(513)),
            HasWord(512, 0, 1),
            HasWord(512, 1, 5),
            HasWord(512, 2, 0),
            HasWord(512, 4, 6),
            HasWord(512, 16, 10),
            HasWord(512, 31, 515),
            HasWord(513, 0, 0),
            HasWord(513, 1, 0),
            HasWord(511, 1, 2),
            HasWord(511, 4, 0),
            HasWord(511, 6, 512),
            HasWord(511, 7, 11),
            HasWord(511, 9, 514),
            Finds(5, None),
            Finds(6, Some(526)),
            Finds(15, Some(535)),
            Frees(3, None),
        ],
        None,
    ),
    // The last leaf joins the one before it.
    (
        &[(Each::Insert, 1, 16, 15), (Each::Drop, 11, 16, 5)],
        &[
            Frees(13, Some(514)),
            HasWord(513, 1, 5),
            HasWord(513, 2, 6),
            HasWord(513, 31, 0),
            HasWord(514, 0, 0),
            HasWord(511, 1, 2),
            HasWord(511, 7, 6),
            HasWord(511, 9, 513),
        ],
        None,
    ),
    // Of fifteen leaves below three nodes two leaves of each node stay; then the tree takes its keys again.
    (
        &[
            (Each::Insert, 1, 80, 79),
            (Each::Drop, 1, 80, 79),
            (Each::Free, 1, 80, 9),
            (Each::Insert, 1, 80, 79),
        ],
        &[Finds(1, Some(521)), Finds(79, Some(599))],
        None,
    ),
    // A queue of rising keys keeps two leaves: one of five keys comes with every fifth key from 15 on, and one is freed each time.
    (
        &[(Each::Insert, 1, 11, 10), (Each::Turn, 11, 401, 78)],
        &[],
        None,
    ),
    // Written records are read, and `undo` drops writes.
    (
        &[],
        &[
            HasSize(600),
            Reads(1, None),
            Writes(1, Some(7)),
            Reads(1, Some(7)),
            Writes(1, None),
            Reads(1, None),
            Writes(4, Some(7)),
            Undoes,
            Reads(4, None),
        ],
        None,
    ),
    // New records are the least that are neither given out nor written.
    (
        &[],
        &[
            Writes(513, None),
            Gives(Some(512)),
            Gives(Some(514)),
            Undoes,
            Gives(Some(512)),
            Gives(Some(513)),
        ],
        None,
    ),
];

/// The rows, of which no proof knows more than that they are rows.
fn rows() -> &'static [Row] {
    ROWS
}

/// Plays a row on a new store.
fn play(alloc: Global, row: &Row) -> Result<bool, Walk<MapFault>> {
    let mut store = MapStore::new(alloc, 512, 600);
    if !are_called(&mut store, row.0)? {
        return Ok(false);
    }
    if count_held(alloc, &mut store, row.1)? != row.1.len() {
        return Ok(false);
    }
    match &row.2 {
        Some(step) => Ok(is_refused(alloc, &mut store, step)),
        None => Ok(true),
    }
}

#[test]
fn worked_nodes_and_records_are_so(rt: HostRuntime) -> Result<(), Fail> {
    for row in rows() {
        if !play(rt.alloc(), row)? {
            return Err("a call answered another thing".into());
        }
    }
    Ok(())
}

/// Takes every new record of the largest store. Whether no further one is given out then, and the first one is again once they are dropped.
fn gives_all(alloc: Global) -> Result<bool, MapFault> {
    let mut store = MapStore::new(alloc, 0, most_records());
    for _ in 0..200_000u32 {
        store.fresh()?;
    }
    let all_given = store.fresh() == Err(MapFault::RecordsOut);
    store.undo();
    Ok(all_given && store.fresh() == Ok(0))
}

/// Writes every record of the largest store, and answers whether none is given out then.
fn writes_all(alloc: Global) -> Result<bool, MapFault> {
    let mut store = MapStore::new(alloc, 0, most_records());
    write_all(&mut store)?;
    Ok(store.fresh() == Err(MapFault::RecordsOut))
}

/// Writes every record of the largest store.
fn write_all(store: &mut MapStore) -> Result<(), MapFault>
    requires { store.old.size ≡ 200000 }
{
    for rid in 0..200_000u32 {
        store.write(rid, Some(Cells::new([7; 32])))?;
    }
    Ok(())
}

#[test]
fn every_record_is_given_and_written(rt: HostRuntime) -> Result<(), Fail> {
    if !gives_all(rt.alloc())? || !writes_all(rt.alloc())? {
        return Err("a call answered another thing".into());
    }
    Ok(())
}
