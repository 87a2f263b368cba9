//! What a worker takes lanes with.

use crate::lane::Item;
use crate::rule::{EachOnce, Taking};
use crossbeam_queue::{Pass, RuledArrayQueue};
use std::marker::Model;

pub(crate) type ItemQueue = RuledArrayQueue<Item, Taking, EachOnce>;

pub(crate) type ItemPass = Pass<Item, Taking>;

/// A worker's right to take lanes from one queue, and the list of those that it took.
///
/// Contracts see the lanes that it took and whether it has answered `None`. They also see which queue it is of, and its
/// share of the 64 shares that all passes of a queue have together, so that a caller can show that it has all of them.
#[derive(Drop)]
pub struct LanePass {
    pub(crate) inner: ItemPass,
    pub(crate) ended: bool,
}

impl Model for LanePass {
    ghost use Rattle.std.specs.Prelude.{◌≡◌, ◌<◌, true, false, []};
    ghost use Rattle.lane_queue.specs.View.{known};
    ghost use Rattle.lane_queue.specs.Passes.{Taker};

    ghost Value = { Taker };

    ghost view = { λ p. record { queue = p.inner.table_id; lanes = (known p.inner).lanes; share = (known p.inner).share; took = (known p.inner).took; ended = (known p.inner).ended } };

    ghost invariant = { λ p. (p.inner.me.1 ≡ []) × (p.ended ≡ (known p.inner).ended) × (0 < (known p.inner).share) × (p.ended ≡ false → 0 < (known p.inner).ends) × ((known p.inner).single ≡ true) };
}
