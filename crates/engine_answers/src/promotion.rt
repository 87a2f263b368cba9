//! What becomes of a promotion.

use clock_stamps::ClockOut;
use stamp_base::Stamp;
use validate_core::Conflict;

/// What became of a promotion.
#[derive(Clone, Copy, PartialEq, Eq, Debug)]
pub enum Promotion {
    /// What is visible was written again into the inline place, at this stamp.
    Promoted(Stamp),
    /// What is visible stands in the inline place.
    Inline,
    /// The record is absent.
    Absent,
    /// The inline place is not free.
    Occupied,
}

/// Why a record is not promoted.
#[derive(Clone, Copy, PartialEq, Eq, Debug, thiserror::Error)]
pub enum PromoteFault {
    /// The clock of the pass has come to its end.
    #[error("clock out")]
    ClockOut,
    /// Another transaction is in the way.
    #[error("conflict: {0}")]
    Conflict(Conflict),
}

impl From<ClockOut> for PromoteFault {
    ghost use Rattle.std.specs.Prelude.{◌≡◌};
    ghost use Rattle.engine_answers.specs.declared.promotion.PromoteFault.TheVariants as fault;

    ghost from_gives = { λ _ answer. answer ≡ fault.ClockOut };

    fn from(_error: ClockOut) -> Self {
        PromoteFault::ClockOut
    }
}

impl From<Conflict> for PromoteFault {
    ghost use Rattle.std.specs.Prelude.{◌≡◌};
    ghost use Rattle.engine_answers.specs.declared.promotion.PromoteFault.TheVariants as fault;

    ghost from_gives = { λ conflict answer. answer ≡ fault.Conflict conflict };

    fn from(conflict: Conflict) -> Self {
        PromoteFault::Conflict(conflict)
    }
}
