//! The rule of the queue, which asks nothing, and what its steps tell the pass that makes them.

use crate::number::Number;
use crossbeam_queue::protocol::{Lesson, Outcome, Protocol};
use crossbeam_queue::{Pass, RuledArrayQueue};
use std::marker::Model;

/// What a pass knows. No value of it is made.
pub(crate) struct Handing {
    none: (),
}

impl Model for Handing {
    ghost use Rattle.number_queue.specs.View as knows;

    ghost Value = { knows.View };

    ghost view = { λ _. knows.first_view };
}

/// No rule: any number may stand in the queue. Each pass has a list of what it put there, and one of what it took.
pub(crate) struct Free;

impl Protocol<Number, Handing> for Free {
    ghost use Rattle.std.specs.Prelude.{⊤};
    ghost use Rattle.number_queue.specs.View.{first_view};

    ghost holds = { λ items views. ⊤ };

    ghost first = { first_view };
}

/// A number is put behind the others.
pub(crate) struct Puts;

impl Outcome<Number, Handing> for Puts {
    ghost use Rattle.std.specs.Prelude.{◌≡◌};
    ghost use Rattle.number_queue.specs.View.{put_view};

    ghost then = { λ v number w. w ≡ put_view v number };
}

/// A number is taken from the front.
pub(crate) struct Takes;

impl Outcome<Number, Handing> for Takes {
    ghost use Rattle.std.specs.Prelude.{◌≡◌};
    ghost use Rattle.number_queue.specs.View.{taken_view};

    ghost then = { λ v number w. w ≡ taken_view v number };
}

impl Lesson<Number, Handing> for Takes {
    ghost use Rattle.std.specs.Prelude.{⊤};

    ghost fact = { λ _ _. ⊤ };
}

pub(crate) type ItemQueue = RuledArrayQueue<Number, Handing, Free>;

pub(crate) type ItemPass = Pass<Number, Handing>;
