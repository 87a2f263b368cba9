//! A law of passes that were shared out. The function does nothing; its contract is the law.

ghost use Rattle.lane_threads.specs.Shares.{SharesAreAll};

/// What `Alone::share` gives is what `run_all` takes.
pub fn shares_are_all()
    ensures { SharesAreAll }
{}
