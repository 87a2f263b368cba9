//! A law of the weight of tables. The function does nothing; its contract is the law.

ghost use Rattle.lane_runner.specs.Behind.{RunsWeigh};

use stored_tables::adds_after;

/// What blocks that ran behind a loading leave weighs no more than what was loaded and what they add.
pub fn runs_weigh()
    ensures { RunsWeigh }
{
    adds_after();
}
