//! The generated load as an input of the grammar.
//!
//! The generator knows nothing of the grammar, nor the grammar of the generator. Here it is proved that they meet: each
//! generated text is an input, so reading one refuses nothing.
#![tactic(auto)]

ghost use Rattle.std.specs.Prelude.{IfOk};
ghost use Rattle.replay_model.specs.declared.input.Input.{Input};
ghost use Rattle.replay_model.specs.Input.{IsWellFormed};
ghost use Rattle.load_gen.specs.Load.{spelled, lines};
ghost use Rattle.txn_script.specs.Grammar.{IsInput, IsRunnable, IsWithinLimits};

use load_gen::generate;
use replay_model::{Input, NoMemory};
use std::alloc::Global;
use txn_script::{ParseFault, parse};

/// The input that the text generated from a number spells.
pub fn generated(alloc: Global, seed: u64) -> Result<Input, NoMemory>
    ensures answer { IfOk result (IsInput (spelled (lines seed))) }
    // Whatever is answered: the text is an input.
    ensures accepted { (input : Input) × IsInput (spelled (lines seed)) input }

    // What holds of each input.
    ensures well_formed { IfOk result IsWellFormed }
    ensures within { IfOk result IsWithinLimits }
    ensures runnable { IfOk result IsRunnable }
{
    let text = generate(alloc, seed)?;
    match parse(alloc, &text) {
        Ok(input) => Ok(input),
        Err(ParseFault::NoMemory) => Err(NoMemory),
        Err(ParseFault::Refused(_)) => unreachable!(),
    }
}
