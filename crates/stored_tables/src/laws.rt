//! Laws of tables and of states that stand for them. Each function does nothing; its contract is a law.

ghost use Rattle.std.specs.Prelude.{◌≡◌};
ghost use Rattle.stored_tables.specs.Laws.{EmptyStands, OneTables, FitsRecords, FitsMore};
ghost use Rattle.stored_tables.specs.Places.{fixed_records};

use crate::places::FIXED_RECORDS;

/// The empty state stands for the tables without rows and indexes.
pub fn empty_stands()
    ensures { EmptyStands }
{}

/// A state stands for one tables at most, at whatever size and wherever they stand.
pub fn one_tables()
    ensures { OneTables }
{}

/// A state of so many records that stands for tables does so at that size too.
pub fn fits_records()
    ensures { FitsRecords }
{}

/// A state that stands for tables at a size does so at each greater size.
pub fn fits_more()
    ensures { FitsMore }
{}

/// The constant is the number of the definition.
pub fn fixed_agrees()
    ensures { FIXED_RECORDS ≡ fixed_records }
{}
