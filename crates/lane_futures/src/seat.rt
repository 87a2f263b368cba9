//! What a worker goes on with from group to group.

use stored_tables::RowsLawful;
use txn_engine::Pass;

/// A pass, and its clock.
#[derive(Drop)]
pub(crate) struct Seat<C> {
    pub(crate) pass: Pass<RowsLawful>,
    pub(crate) clock: C,
}
