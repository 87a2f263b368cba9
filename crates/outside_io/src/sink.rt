ghost use Rattle.std.specs.Prelude.{◌≡◌, ℕ, ◌≤◌, Option, List, length, take, IfOk, OnErr};
ghost use Rattle.std.specs.Io.KnownBytes.{append_known};
ghost use Rattle.outside_io.specs.Sink.{WriteCause};

use thiserror::Error;

/// Why a write was refused.
#[derive(Clone, Copy, Debug, PartialEq, Eq, Error)]
pub enum SinkFault {
    #[error("the output could not be written")]
    Failed,
    #[error("out of memory")]
    NoMemory,
}

/// Where output goes, a piece at a time.
pub trait Sink {
    /// The bytes taken so far, where the sink tells them.
    ghost taken: { Self → Option (List ℕ) };

    /// How often writing has failed. The count ends at `u64::MAX`.
    ghost faults: { Self → ℕ };

    /// Takes the first bytes of `piece`, and answers how many. A refusal takes nothing.
    fn write(&mut self, piece: &[u8]) -> Result<usize, SinkFault>
        ensures bound { IfOk result (λ n. n ≤ length piece.now) }
        ensures bytes { IfOk result (λ n. taken self.new ≡ append_known (taken self.old) (take n piece.now)) }
        ensures refused { OnErr result (taken self.new ≡ taken self.old) }
        ensures cause { WriteCause (faults self.old) (faults self.new) piece.now result };
}
