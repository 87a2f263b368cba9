//! Tables of rows of a type of one's own, over any store of records. Such a table is a finite map from keys to rows: the calls are its
//! `get`, `insert` and `remove`, and the first entries of a range of keys.
#![tactic(auto)]

mod account;
mod columns;
mod fault;
mod finding;
mod getting;
mod listing;
mod putting;
mod removing;
mod scanning;
mod typed_row;
mod updating;

pub use account::Account;
pub use fault::TypedFault;
pub use finding::typed_find;
pub use getting::typed_get;
pub use listing::list_tables;
pub use putting::typed_put;
pub use record_store::Walk;
pub use removing::{typed_remove, typed_without};
pub use scanning::typed_scan;
pub use stored_tables::{FIXED_RECORDS, declare_index};
pub use typed_row::Row;
pub use updating::typed_update;
