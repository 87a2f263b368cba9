//! A seat that has retired.
ghost use Rattle.std.specs.Prelude.{◌≡◌, ◌<◌};
ghost use Rattle.stamp_base.specs.Stamp.{stamp_of};
ghost use Rattle.txn_engine.specs.Retired.{RetiredView};

use core_rule::Hand;
use spare_numbers::Numbers;
use stamp_base::Stamp;
use std::marker::Model;

/// A seat that makes no call any more, with what it leaves to the seats that go on.
#[derive(Drop)]
pub struct Retired<J> {
    pub(crate) hand: Hand<J>,
    pub(crate) numbers: Numbers,
    pub(crate) refusals: u64,
}

impl<J> Model for Retired<J> {
    ghost use Rattle.txn_engine.specs.Retired.{RetiredView, retired_view, IsRetiredSeat};

    ghost Value = { RetiredView };

    ghost view = { λ r. retired_view r.hand r.numbers r.refusals };

    ghost invariant = { λ r. IsRetiredSeat r.hand r.numbers r.refusals };
}

impl<J> Retired<J> {
    /// The number of the seat.
    pub fn seat(&self) -> u32
        ensures value { result ≡ self.now.seat }
        ensures within { result < self.now.engine.size.seats }
    {
        self.hand.number()
    }

    /// The stamp of its clock and its number.
    pub fn last(&self) -> Stamp
        ensures { result ≡ stamp_of self.now.clock self.now.seat }
    {
        Stamp::make(self.hand.clock(), self.hand.number())
    }
}
