//! A law of readings in the history. The function does nothing; its contract is the law.

ghost use Rattle.lane_threads.specs.Seen.{ReadingsAreSeen};

use histories::lawful_has_states;
use stored_tables::RowsLawful;

/// Where the log of all entries is lawful, a reading whose entry stands in it shows the rows that the log leaves at its stamp.
pub fn readings_are_seen()
    ensures { ReadingsAreSeen }
{
    lawful_has_states::<RowsLawful>();
}
