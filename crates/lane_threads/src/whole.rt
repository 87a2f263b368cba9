//! The laws of a whole run. The functions do nothing; their contracts are the laws.

ghost use Rattle.lane_runner.specs.Behind.{RunsWeigh};
ghost use Rattle.lane_threads.specs.Whole.{WholeRunsAreResults, RunsBecomeWhole, RunsCanFinish};

use stored_tables::adds_after;

/// The results of a run in which each block of an input ran once, behind the loading of its rows, are those of the input.
pub fn whole_runs_are_results()
    ensures { WholeRunsAreResults }
{}

/// Where the lanes of an input were run on all passes of a seat that had loaded it, and the blocks that remained behind them, each
/// block of the input has run once.
pub fn runs_become_whole()
    ensures { RunsBecomeWhole }
{}

/// Where the records are enough for the rows and the blocks of an input, those blocks that remain of its lanes can be run.
pub fn runs_can_finish()
    ensures { RunsCanFinish }
{
    adds_after();
}
