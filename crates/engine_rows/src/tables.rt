//! Tables to begin with, and their hands. Of each is said what a test's first calls ask for.
ghost use Rattle.std.specs.Prelude.{◌≡◌, [], IfOk};
ghost use Rattle.core_rule.specs.Hands.{IsReady};
ghost use Rattle.core_rule.specs.Searching.{Ends};

use core_rule::{AnyState, Core, Hand};
use std::alloc::Global;
use std::test::Fail;
use word_layout::Layout;

/// A table with so many seats, records and pool places, and the hand of its first seat.
pub fn first_seat(
    alloc: Global,
    seats: u32,
    records: u32,
    spare: u32,
) -> Result<(Core<AnyState>, Hand<AnyState>), Fail>
    ensures ready { IfOk result (λ made. IsReady made.0 made.1) }
    ensures ends { IfOk result (λ made. Ends made.1.view.work) }
    ensures clock { IfOk result (λ made. made.1.view.clock.clock ≡ 0) }
    ensures seats { IfOk result (λ made. made.0.size.seats ≡ seats) }
    ensures records { IfOk result (λ made. made.0.size.records ≡ records) }
    ensures spare { IfOk result (λ made. made.0.size.spare ≡ spare) }
{
    let layout = Layout::new(seats, records, spare)?;
    Ok(Core::new(alloc, &layout)?)
}

/// A table with two seats and so many records and pool places, and its hands.
pub fn two_seats(
    alloc: Global,
    records: u32,
    spare: u32,
) -> Result<(Core<AnyState>, Hand<AnyState>, Hand<AnyState>), Fail>
    ensures first { IfOk result (λ made. IsReady made.0 made.1) }
    ensures second { IfOk result (λ made. IsReady made.0 made.2) }
    ensures first_ends { IfOk result (λ made. Ends made.1.view.work) }
    ensures second_ends { IfOk result (λ made. Ends made.2.view.work) }
    ensures first_clock { IfOk result (λ made. made.1.view.clock.clock ≡ 0) }
    ensures second_clock { IfOk result (λ made. made.2.view.clock.clock ≡ 0) }
    ensures first_holds { IfOk result (λ made. made.1.view.places.held ≡ []) }
    ensures second_holds { IfOk result (λ made. made.2.view.places.held ≡ []) }
    ensures seats { IfOk result (λ made. made.0.size.seats ≡ 2) }
    ensures records { IfOk result (λ made. made.0.size.records ≡ records) }
{
    let layout = Layout::new(2, records, spare)?;
    let (core, mut first) = Core::new(alloc, &layout)?;
    let second = core.split(&mut first);
    Ok((core, first, second))
}
