//! What a commit tells.

use stamp_base::Stamp;

/// What a commit tells: its stamp, and how many of its versions took the inline place of their record, and how many a place of
/// the pool.
#[derive(Clone, Copy, PartialEq, Eq, Debug)]
pub struct Committed {
    pub stamp: Stamp,
    pub inlined: u32,
    pub pooled: u32,
}
