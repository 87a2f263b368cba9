//! A sorted map from pairs of numbers to rows.

ghost use Rattle.std.specs.Prelude.{◌≡◌, IfOk, OnOk, OnErr, None, IsSome, map, take};
ghost use Rattle.std.specs.FinMap as finite;
ghost use Rattle.std.specs.BTreeMap.{IsOrdered};
ghost use Rattle.std.specs.BTreeMap.Range.{IsLeBy, entries_between};
ghost use Rattle.std.specs.declared.ops.Bound.TheVariants.{Included};
ghost use Rattle.replay_model.specs.TableMap.{pair_cmp, pair_at};
ghost use Rattle.replay_model.specs.RowsIn.{put_at, rows_in, rows_between, first_spanning};

use crate::columns::Columns;
use plain_data::NoMemory;
use std::alloc::{AllocError, Global};
use std::collections::BTreeMap;
use std::marker::Model;

/// Rows by two numbers: a table and a key, or a column's value and a key.
#[derive(Drop)]
pub struct SortedRows {
    rows: BTreeMap<(u64, u64), Columns>,
}

impl Model for SortedRows {
    ghost use Rattle.std.specs.Prelude.{◌^◌, ◌<◌, All};
    ghost use Rattle.std.specs.Map.{keys_of};
    ghost use Rattle.std.specs.FinMap.{from_entries};
    ghost use Rattle.replay_model.specs.TableMap.{RowMap, row_map_code};

    ghost Value = { RowMap };

    ghost coded = { row_map_code };

    ghost view = { λ a. from_entries a.rows.entries };

    // The second numbers have 64 bits, so no row under a first number lies behind the greatest one.
    ghost invariant = { λ a. All (λ place. place.1 < 2 ^ 64) (keys_of a.rows.entries) };
}

impl SortedRows {
    /// No rows; takes no memory yet.
    pub fn new(alloc: Global) -> Self
        ensures { result ≡ finite.empty }
    {
        SortedRows {
            rows: BTreeMap::new(alloc),
        }
    }

    pub fn get(&self, first: u64, second: u64) -> Option<Columns>
        ensures { result ≡ finite.get self.now (first, second) }
    {
        self.rows.get(&(first, second)).copied()
    }

    /// Sets a row, whether it is there or not. Only a new one may want memory.
    pub fn put(&mut self, first: u64, second: u64, row: Columns) -> Result<(), NoMemory>
        ensures ok { OnOk result (self.new ≡ finite.insert self.old (first, second) row) }
        ensures err { OnErr result (self.new ≡ self.old) }
        ensures absent { OnErr result (finite.get self.old (first, second) ≡ None) }
    {
        self.rows.insert((first, second), row)?;
        Ok(())
    }

    /// Takes a row out, and answers what it was.
    pub fn remove(&mut self, first: u64, second: u64) -> Option<Columns>
        ensures value { result ≡ finite.get self.old (first, second) }
        ensures rest { self.new ≡ finite.remove self.old (first, second) }
    {
        self.rows.remove(&(first, second))
    }

    /// Sets a row that is there to what it was before, or takes it out where there was none.
    pub fn restore(&mut self, first: u64, second: u64, was: Option<Columns>)
        requires { IsSome (finite.get self.old (first, second)) }
        ensures { self.new ≡ put_at self.old (first, second) was }
    {
        match was {
            Some(row) => {
                let Ok(()) = self.put(first, second, row) else {
                    unreachable!();
                };
            }
            None => {
                let _ = self.remove(first, second);
            }
        }
    }

    /// The first `limit` rows under one number whose second numbers lie from `lo` to `hi`, each with its second number. The time
    /// grows with what is found, and with the logarithm of the number of rows.
    pub fn between(
        &self,
        alloc: Global,
        first: u64,
        lo: u64,
        hi: u64,
        limit: u64,
    ) -> Result<Vec<(u64, Columns)>, NoMemory>
        ensures { IfOk result (λ pairs. pairs.items ≡ rows_between first lo hi limit self.now) }
    {
        if lo > hi {
            return Ok(Vec::new(alloc));
        }
        let pairs = first_between(&self.rows, alloc, (first, lo), (first, hi), limit as usize)?;
        Ok(pairs)
    }

    /// All rows under one number, by rising second number.
    pub fn under(&self, alloc: Global, first: u64) -> Result<Vec<(u64, Columns)>, NoMemory>
        ensures { IfOk result (λ pairs. pairs.items ≡ rows_in first self.now) }
    {
        let pairs = all_between(&self.rows, alloc, (first, 0), (first, u64::MAX))?;
        Ok(pairs)
    }

    /// The first `limit` rows whose first numbers lie from `lo` to `hi`, each with its second number. The time grows with what is
    /// found, and with the logarithm of the number of rows.
    pub fn spanning(
        &self,
        alloc: Global,
        lo: u64,
        hi: u64,
        limit: u64,
    ) -> Result<Vec<(u64, Columns)>, NoMemory>
        ensures { IfOk result (λ pairs. pairs.items ≡ first_spanning lo hi limit self.now) }
    {
        if lo > hi {
            return Ok(Vec::new(alloc));
        }
        let (first, last) = ((lo, 0), (hi, u64::MAX));
        let pairs = first_between(&self.rows, alloc, first, last, limit as usize)?;
        Ok(pairs)
    }
}

type Rows = BTreeMap<(u64, u64), Columns>;

// The rows from `lo` to `hi`, each with the second number of its place.
fn all_between(
    rows: &Rows,
    alloc: Global,
    lo: (u64, u64),
    hi: (u64, u64),
) -> Result<Vec<(u64, Columns)>, AllocError>
    requires { IsLeBy pair_cmp lo hi }
    ensures ordered { IsOrdered pair_cmp rows.now }
    ensures pairs { IfOk result (λ pairs. pairs.items
        ≡ map pair_at (entries_between pair_cmp (Included lo) (Included hi) rows.now.entries)) }
{
    rows.range(lo..=hi)
        .map(|(place, row)| (place.1, *row))
        .collect(alloc)
}

// The first `limit` of them.
fn first_between(
    rows: &Rows,
    alloc: Global,
    lo: (u64, u64),
    hi: (u64, u64),
    limit: usize,
) -> Result<Vec<(u64, Columns)>, AllocError>
    requires { IsLeBy pair_cmp lo hi }
    ensures ordered { IsOrdered pair_cmp rows.now }
    ensures pairs { IfOk result (λ pairs. let between = entries_between pair_cmp (Included lo) (Included hi) rows.now.entries
        in pairs.items ≡ map pair_at (take limit between)) }
{
    rows.range(lo..=hi)
        .take(limit)
        .map(|(place, row)| (place.1, *row))
        .collect(alloc)
}
