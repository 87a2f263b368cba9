//! The rule of the queue, and what its steps tell.

use crate::lane::Item;
use crossbeam_queue::protocol::{Join, Lesson, Outcome, Protocol, Split};
use std::marker::Model;

/// What a pass knows. No value of it is made.
pub(crate) struct Taking {
    none: (),
}

impl Model for Taking {
    ghost use Rattle.lane_queue.specs.View as knows;

    ghost Value = { knows.View };

    ghost view = { λ _. knows.spent_view };
}

/// Each lane was taken once or is in the queue, and behind the lanes there is one end for each pass that has met none.
pub(crate) struct EachOnce;

impl Protocol<Item, Taking> for EachOnce {
    ghost use Rattle.lane_queue.specs.View.{first_view};
    ghost use Rattle.lane_queue.specs.Rule.{Kept};

    ghost holds = { Kept };

    ghost first = { first_view };
}

/// A lane or an end is put behind the others.
pub(crate) struct Puts;

impl Outcome<Item, Taking> for Puts {
    ghost use Rattle.std.specs.Prelude.{◌≡◌};
    ghost use Rattle.lane_queue.specs.View.{put_view};

    ghost then = { λ v item w. w ≡ put_view v item };
}

impl Lesson<Item, Taking> for Puts {
    ghost use Rattle.std.specs.Prelude.{◌≡◌, ◌+◌, length};

    ghost fact = { λ v items. length items ≡ length v.lanes + v.ends };
}

/// A lane or an end is taken from the front.
pub(crate) struct Takes;

impl Outcome<Item, Taking> for Takes {
    ghost use Rattle.std.specs.Prelude.{◌≡◌, true};
    ghost use Rattle.lane_queue.specs.View.{taken_view};
    ghost use Rattle.lane_queue.specs.Subsequences.{IsSubsequence};

    ghost then = { λ v item w. (w ≡ taken_view v item) × (v.single ≡ true → IsSubsequence w.took w.lanes) };
}

impl Lesson<Item, Taking> for Takes {
    ghost use Rattle.std.specs.Prelude.{◌<◌, length};

    ghost fact = { λ _ items. 0 < length items };
}

/// One share and one end go to a new pass.
pub(crate) struct Deals;

impl Split<Taking> for Deals {
    ghost use Rattle.lane_queue.specs.View.{left_view, right_view};

    ghost left = { left_view };

    ghost right = { right_view };
}

/// A pass takes in what another took.
pub(crate) struct Gathers;

impl Join<Taking> for Gathers {
    ghost use Rattle.lane_queue.specs.View.{both_views, spent_view};

    ghost both = { both_views };

    ghost spent = { spent_view };
}

/// What all passes together know once one of them has met an end.
pub(crate) struct AllTaken;

impl Lesson<Item, Taking> for AllTaken {
    ghost use Rattle.std.specs.List.Sorted.{IsPermutation};

    ghost fact = { λ v _. IsPermutation v.lanes v.took };
}
