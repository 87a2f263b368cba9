//! What the workers leave, gathered.

ghost use Rattle.std.specs.Prelude.{◌≡◌, IfOk};
ghost use Rattle.lane_threads.specs.Gathers.{Starts, GoesOn, GoesOnByEach};

use crate::workers::{Left, Worked};
use lane_queue::LanePass;
use lane_runner::LaneDone;
use replay_model::NoMemory;
use std::alloc::Global;
use stored_tables::RowsLawful;
use txn_engine::{Pass, Retired};

/// The pass that is still open, the others in the order of their seats, and what all of them have taken and done.
#[derive(Drop)]
pub(crate) struct Gathered {
    pub(crate) pass: Pass<RowsLawful>,
    pub(crate) retired: Vec<Retired<RowsLawful>>,
    pub(crate) takers: Vec<LanePass>,
    pub(crate) done: Vec<LaneDone>,
}

/// Begins with what the worker of the open pass left.
pub(crate) fn start_gathering(alloc: Global, worked: Worked) -> Result<Gathered, NoMemory>
    ensures { IfOk result (Starts worked) }
{
    let Worked { pass, taker, done } = worked;
    let done = done?;
    let mut takers = Vec::new(alloc);
    takers.push(taker)?;
    Ok(Gathered {
        pass,
        retired: Vec::new(alloc),
        takers,
        done,
    })
}

/// Adds what another worker left.
fn gather(gathered: Gathered, left: Left) -> Result<Gathered, NoMemory>
    ensures { IfOk result (λ more. GoesOn gathered more left) }
{
    let Gathered {
        pass,
        mut retired,
        mut takers,
        mut done,
    } = gathered;
    retired.push(left.retired)?;
    takers.push(left.taker)?;
    let mut theirs = left.done?;
    done.append(&mut theirs)?;
    Ok(Gathered {
        pass,
        retired,
        takers,
        done,
    })
}

/// Adds what each of these workers left, in their order.
#[inline(never)]
pub(crate) fn gather_others(gathered: Gathered, left: Vec<Left>) -> Result<Gathered, NoMemory>
    ensures { IfOk result (λ all. GoesOnByEach gathered left.items all) }
{
    let mut gathered = gathered;
    for one in left {
        gathered = gather(gathered, one)?;
    }
    Ok(gathered)
}
