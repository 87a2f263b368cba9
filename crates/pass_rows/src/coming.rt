//! Passes that a share gives, and seats that retire and come together.
ghost use Rattle.std.specs.Prelude.{◌≡◌, ◌<◌, false, All, IfOk, IfSome, vec_len};
ghost use Rattle.txn_engine.specs.Joining.{AreOfEngine, AreOthers};
ghost use Rattle.txn_engine.specs.Pass.{IsIdleOf};

use crate::due::{hold, same};
use histories::AnyState;
use std::alloc::{AllocError, Global};
use std::process::Abort;
use txn_engine::{Alone, Engine, Pass, Retired, StartFault};

/// How many records an engine has, how many of them are fixed, and how many places there are beside theirs.
pub type Size = (u32, u32, u32);

/// A new engine of so many seats, records, fixed ones and spare places, and its seat that is alone.
pub fn begin(
    alloc: Global,
    seats: u32,
    size: Size,
) -> Result<(Engine<AnyState>, Alone<AnyState>), StartFault>
    ensures seat { IfOk result (λ made. IsIdleOf made.0 made.1.pass) }
    ensures not_shared { IfOk result (λ made. made.1.shared ≡ false) }
{
    let (records, fixed, spare) = size;
    Engine::start(alloc, seats, records, fixed, spare)
}

/// The passes of all seats.
pub fn shared(alone: Alone<AnyState>, engine: &Engine<AnyState>) -> Vec<Pass<AnyState>>
    requires seat { IsIdleOf engine.now alone.pass }
    requires not_shared { alone.shared ≡ false }
    ensures { All (IsIdleOf engine.now) result.items }
{
    alone.share(engine)
}

// The pass that stands first on a list, if there is one.
fn take_first(passes: &mut Vec<Pass<AnyState>>, engine: &Engine<AnyState>) -> Option<Pass<AnyState>>
    requires { All (IsIdleOf engine.now) passes.old.items }
    ensures first { IfSome result (IsIdleOf engine.now) }
    ensures fewer { IfSome result (λ _. vec_len passes.new < vec_len passes.old) }
    ensures others { All (IsIdleOf engine.now) passes.new.items }
{
    if passes.is_empty() {
        return None;
    }
    Some(passes.remove(0))
}

/// The pass that stands first on a list, which has to have one, so that who takes it has one way on to prove.
pub fn take_one<R: Abort>(
    rt: &R,
    passes: &mut Vec<Pass<AnyState>>,
    engine: &Engine<AnyState>,
) -> Pass<AnyState>
    requires { All (IsIdleOf engine.now) passes.old.items }
    ensures first { IsIdleOf engine.now result }
    ensures others { All (IsIdleOf engine.now) passes.new.items }
{
    hold(rt, !passes.is_empty(), 0);
    passes.remove(0)
}

/// The two passes that stand first on a list, which has to have them.
pub fn take_two<R: Abort>(
    rt: &R,
    passes: &mut Vec<Pass<AnyState>>,
    engine: &Engine<AnyState>,
) -> (Pass<AnyState>, Pass<AnyState>)
    requires { All (IsIdleOf engine.now) passes.old.items }
    ensures first { IsIdleOf engine.now result.0 }
    ensures second { IsIdleOf engine.now result.1 }
{
    let first = take_one(rt, passes, engine);
    (first, take_one(rt, passes, engine))
}

/// The seat that is alone once the others, by rising number, have retired.
pub fn meet<R: Abort>(
    rt: &R,
    alloc: Global,
    engine: &Engine<AnyState>,
    first: Pass<AnyState>,
    others: Vec<Pass<AnyState>>,
) -> Result<Alone<AnyState>, AllocError>
    requires first { IsIdleOf engine.now first }
    requires others { All (IsIdleOf engine.now) others.items }
    ensures { IfOk result (λ alone. IsIdleOf engine.now alone.pass) }
{
    hold(rt, first.seat() == 0, 0);
    let retired = retire_all(rt, alloc, engine, others)?;
    Ok(engine.alone(first, retired))
}

// Retires a seat, which has to have this number.
fn retire_as<R: Abort>(
    rt: &R,
    engine: &Engine<AnyState>,
    pass: Pass<AnyState>,
    seat: usize,
) -> Retired<AnyState>
    requires { IsIdleOf engine.now pass }
    ensures engine { result.engine ≡ engine.now }
    ensures seat { result.seat ≡ seat }
{
    let last = pass.last();
    let retired = pass.retire(engine);
    same(rt, retired.last(), last, seat);
    hold(rt, retired.seat() as usize == seat, seat);
    retired
}

// The engine has to have so many seats.
fn has_seats<R: Abort>(rt: &R, engine: &Engine<AnyState>, seats: usize)
    ensures { engine.now.size.seats ≡ seats }
{
    hold(rt, engine.seats() as usize == seats, seats);
}

// Retires the seats, which have to be all but the first, by rising number.
fn retire_all<R: Abort>(
    rt: &R,
    alloc: Global,
    engine: &Engine<AnyState>,
    passes: Vec<Pass<AnyState>>,
) -> Result<Vec<Retired<AnyState>>, AllocError>
    requires { All (IsIdleOf engine.now) passes.items }
    ensures of_engine { IfOk result (λ retired. AreOfEngine engine.now retired.items) }
    ensures others { IfOk result (λ retired. AreOthers engine.now.size retired.items) }
{
    let mut passes = passes;
    let mut retired = Vec::new(alloc);
    while let Some(pass) = take_first(&mut passes, engine) {
        let seat = retired.len() + 1;
        retired.push(retire_as(rt, engine, pass, seat))?;
    }
    has_seats(rt, engine, retired.len() + 1);
    Ok(retired)
}
