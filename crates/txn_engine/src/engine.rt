//! The engine, which all threads share by reference.
ghost use Rattle.std.specs.Prelude.{◌≡◌, ◌≤◌, ◌↔◌, IfOk, IfErr, OnOk, false};
ghost use Rattle.word_layout.specs.Size.{IsSize, size_of};
ghost use Rattle.txn_engine.specs.Pass.{EngineView, first_pass};
ghost use Rattle.txn_engine.specs.Leaves.{HoldsAbsent};
ghost use Rattle.txn_engine.specs.Lists.{IsTidy, IsRoomy};

use crate::alone::Alone;
use crate::parts::{Part, Parts};
use crate::pass::Pass;
use core_rule::{Core, Keeps};
use engine_answers::StartFault;
use std::alloc::Global;
use std::marker::Model;
use word_layout::Layout;

/// What all seats share: the table of the records' versions, and how many records are never given out.
#[derive(Drop)]
pub struct Engine<J: Keeps> {
    pub(crate) core: Core<J>,
    fixed: u32,
}

impl<J: Keeps> Model for Engine<J> {
    ghost use Rattle.std.specs.Prelude.{◌≤◌};
    ghost use Rattle.txn_engine.specs.Pass.{EngineView};

    ghost Value = { EngineView };

    ghost view = { λ e. record { table = e.core.table; size = e.core.size; fixed = e.fixed } };

    ghost invariant = { λ e. e.fixed ≤ e.core.size.records };
}

impl<J: Keeps> Engine<J> {
    /// An engine of so many seats and records, with `spare` places for versions beside one for each record, and its seat 0,
    /// which is alone. Every record is absent. Those from `fixed` on are given out to transactions that ask for a new one, the
    /// lowest first. All room is taken here, that of the passes of all seats too. `Limit` comes before memory is asked for.
    pub fn start(
        alloc: Global,
        seats: u32,
        records: u32,
        fixed: u32,
        spare: u32,
    ) -> Result<(Engine<J>, Alone<J>), StartFault>
        ensures limit { IfErr result (λ fault. (fault ≡ StartFault.Limit) ↔ (¬ (IsSize (size_of seats records spare) × (fixed ≤ records)))) }
        ensures in_range { OnOk result (IsSize (size_of seats records spare) × (fixed ≤ records)) }
        ensures size { IfOk result (λ made. made.0.size ≡ size_of seats records spare) }
        ensures fixed { IfOk result (λ made. made.0.fixed ≡ fixed) }
        ensures alone { IfOk result (λ made. made.1 ≡ record { pass = first_pass made.0; beside = record { shared = false; earlier = 0 } }) }
        ensures absent { IfOk result (λ made. HoldsAbsent made.1.pass) }
        ensures tidy { IfOk result (λ made. IsTidy made.1.pass) }
        ensures roomy { IfOk result (λ made. IsRoomy made.1.pass) }
    {
        let Ok(layout) = Layout::new(seats, records, spare) else {
            return Err(StartFault::Limit);
        };
        if fixed > records {
            return Err(StartFault::Limit);
        }
        let part = Part::first(alloc, fixed, records)?;
        let parts = Parts::new(alloc, seats, fixed, records)?;
        let (core, hand) = Core::new(alloc, &layout)?;
        let pass = Pass::first(alloc, hand, part);
        Ok((Engine { core, fixed }, Alone::first(pass, parts)))
    }

    /// The number of seats.
    pub fn seats(&self) -> u32
        ensures value { result ≡ self.now.size.seats }
        ensures in_range { IsSize self.now.size }
    {
        self.core.layout().seats()
    }

    /// The number of records.
    pub fn records(&self) -> u32
        ensures value { result ≡ self.now.size.records }
        ensures in_range { IsSize self.now.size }
    {
        self.core.layout().records()
    }

    /// How many records are never given out.
    pub fn fixed(&self) -> u32
        ensures value { result ≡ self.now.fixed }
        ensures within { result ≤ self.now.size.records }
    {
        self.fixed
    }

    /// The number of places for versions beside one for each record.
    pub fn spare(&self) -> u32
        ensures value { result ≡ self.now.size.spare }
        ensures in_range { IsSize self.now.size }
    {
        self.core.layout().spare()
    }
}

/// What a transaction holds of its engine. A transaction that is taken by value and hands its pass on may hold one reference
/// alone, so the engine's stands behind this bound.
pub trait Lent<J: Keeps>: Drop {
    ghost use Rattle.txn_engine.specs.Pass.{EngineView};

    ghost lent: { Self → EngineView };

    fn engine(&self) -> &Engine<J>
        ensures { result.now ≡ lent self.now };
}

impl<J: Keeps> Lent<J> for &Engine<J> {
    ghost lent = { λ e. e.now };

    fn engine(&self) -> &Engine<J> {
        self
    }
}
