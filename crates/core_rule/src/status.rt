//! What the status word of a place shows of a linked version.
ghost use Rattle.std.specs.Prelude.{◌≡◌};
ghost use Rattle.core_rule.specs.Status.{status_word, IsStatusWord};

/// The status of a linked version.
#[derive(Clone, Copy, Debug, PartialEq, Eq)]
pub enum Status {
    /// Its transaction has not stored its last status yet.
    Pending,
    Committed,
    /// Committed, and it deletes its record.
    Deleted,
    Aborted,
}

impl Status {
    /// The word that shows it.
    pub(crate) fn word(self) -> u64
        ensures { result ≡ status_word self }
    {
        match self {
            Status::Pending => 2,
            Status::Committed => 3,
            Status::Deleted => 4,
            Status::Aborted => 5,
        }
    }

    /// The status that a word shows.
    pub(crate) fn shown_by(word: u64) -> Self
        requires { IsStatusWord word }
        ensures { status_word result ≡ word }
    {
        match word {
            2 => Status::Pending,
            3 => Status::Committed,
            4 => Status::Deleted,
            _ => Status::Aborted,
        }
    }
}
