ghost use Rattle.std.specs.Prelude.{◌≡◌, ℕ, ◌<◌, ◌≤◌, Option, List, length, take, IfOk, OnErr};
ghost use Rattle.std.specs.Io.KnownBytes.{prepend_known, IsAtEnd};
ghost use Rattle.outside_io.specs.Source.{ReadCause};

use thiserror::Error;

/// A read failed.
#[derive(Clone, Copy, Debug, PartialEq, Eq, Error)]
#[error("the input could not be read")]
pub struct Failed;

/// Where input comes from, a piece at a time.
pub trait Source {
    /// The bytes left to read, where the source tells them.
    ghost left: { Self → Option (List ℕ) };

    /// How often reading has failed. The count ends at `u64::MAX`.
    ghost faults: { Self → ℕ };

    /// Reads the next bytes into the front of `buf`, and answers how many: 0 is the end of input.
    fn read(&mut self, buf: &mut [u8]) -> Result<usize, Failed>
        ensures bound { IfOk result (λ n. n ≤ length buf.old) }
        ensures bytes { IfOk result (λ n. left self.old ≡ prepend_known (take n buf.new) (left self.new)) }
        ensures end { IfOk result (λ n. n ≡ 0 → 0 < length buf.old → IsAtEnd (left self.new)) }
        ensures refused { OnErr result (left self.new ≡ left self.old) }
        ensures cause { ReadCause (faults self.old) (faults self.new) result };
}
