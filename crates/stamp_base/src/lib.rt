//! Stamps, which order the transactions of an engine.
#![tactic(auto)]

ghost use Rattle.std.specs.Prelude.{◌≡◌, ℕ, ◌<◌, ◌≤◌, ◌↔◌, IsTrue, min};
ghost use Rattle.stamp_base.specs.Limits.{most_seats, greatest_clock, greatest_adopted_clock, end_of_stamps};
ghost use Rattle.stamp_base.specs.Stamp.{stamp_of, clock_of, seat_of, IsStamp, PairIsBefore};

use std::marker::Model;

/// How many seats there are at most: seats are numbered from 0 to 63.
pub const SEATS: u32 = 64;

/// The greatest clock of a stamp.
pub const GREATEST_CLOCK: u64 = (1 << 56) - 2;

/// The greatest clock that a seat adopts from a reading, or from another seat when it synchronises.
pub const GREATEST_ADOPTED_CLOCK: u64 = 1 << 55;

/// A number above that of every stamp. The published word of a seat that is not open holds it.
pub const END: u64 = u64::MAX;

/// Whether a seat has this number.
pub fn is_seat(seat: u32) -> bool
    ensures { IsTrue result ↔ (seat < most_seats) }
{
    seat < SEATS
}

/// Whether a stamp may have this clock.
pub fn is_clock(clock: u64) -> bool
    ensures { IsTrue result ↔ (clock ≤ greatest_clock) }
{
    clock <= GREATEST_CLOCK
}

/// Whether a stamp has this number.
pub fn is_stamp(number: u64) -> bool
    ensures { IsTrue result ↔ IsStamp number }
{
    is_clock(number / 256) && is_seat((number % 256) as u32)
}

/// What a seat adopts of a clock that it reads, or that another seat shows.
pub fn adopted_clock(clock: u64) -> u64
    ensures { result ≡ min clock greatest_adopted_clock }
{
    clock.min(GREATEST_ADOPTED_CLOCK)
}

/// Whether a published word says that its seat is not open.
pub fn is_end(number: u64) -> bool
    ensures { IsTrue result ↔ (number ≡ end_of_stamps) }
{
    number == END
}

/// The timestamp of a transaction: a clock and the number of the seat that drew it.
///
/// Stamps are ordered by clock, then by seat. Two seats never draw the same stamp. The form is that of
/// Lim, Kaminsky and Andersen, "Cicada: Dependably Fast Multi-Core In-Memory Transactions" (SIGMOD
/// 2017), where the thread's number is the suffix of its timestamps.
#[derive(Clone, Copy, Debug, PartialEq, Eq, PartialOrd, Ord, Hash)]
pub struct Stamp {
    number: u64,
}

impl Model for Stamp {
    ghost Value = { ℕ };

    ghost view = { λ s. s.number };

    ghost invariant = { λ s. IsStamp s.number };

    ghost inverse = { λ n. record { number = n } };
}

impl Stamp {
    /// The stamp of a clock and a seat.
    pub fn make(clock: u64, seat: u32) -> Stamp
        requires clock_in_range { clock ≤ greatest_clock }
        requires seat_in_range { seat < most_seats }
        ensures number { result ≡ stamp_of clock seat }
        ensures clock { clock_of result ≡ clock }
        ensures seat { seat_of result ≡ seat }
        ensures order { (other : ℕ) → (result < other) ↔ PairIsBefore clock seat other }
        ensures below_end { result < end_of_stamps }
    {
        Stamp {
            number: clock * 256 + seat as u64,
        }
    }

    /// The stamp that has this number, as a word of the engine's table keeps it.
    pub fn from_number(number: u64) -> Stamp
        requires { IsStamp number }
        ensures { result ≡ number }
    {
        Stamp { number }
    }

    /// The clock at which the stamp was drawn.
    pub fn clock(&self) -> u64
        ensures value { result ≡ clock_of self.now }
        ensures in_range { result ≤ greatest_clock }
    {
        self.number / 256
    }

    /// The seat that drew the stamp.
    pub fn seat(&self) -> u32
        ensures value { result ≡ seat_of self.now }
        ensures in_range { result < most_seats }
    {
        (self.number % 256) as u32
    }

    /// The stamp as one number.
    pub fn number(&self) -> u64
        ensures value { result ≡ self.now }
        ensures stamp { IsStamp result }
        ensures below_end { result < end_of_stamps }
    {
        self.number
    }
}
