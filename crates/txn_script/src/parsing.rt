//! Reading an input.

ghost use Rattle.std.specs.Prelude.{◌≡◌, ◌≤◌, ℕ, length, IfOk};
ghost use Rattle.replay_model.specs.Input.{IsWellFormed};
ghost use Rattle.txn_script.specs.Grammar.{IsInput, IsFault, IsWithinLimits, IsRunnable};
ghost use Rattle.txn_script.specs.Answer.{IsAnswer, IsAnswerBehind};

use crate::bytes::cut_line;
use crate::fault::{Kind, ParseFault, Stop};
use crate::keyword::Version;
use crate::line::{Line, head};
use crate::numbers::Numbers;
use crate::reader::Reader;
use replay_model::Input;
use std::alloc::Global;

/// The input that the bytes spell, or the first faulty line and its kind.
///
/// The bytes are read once, from the first line to the last; the room taken is in proportion to them.
pub fn parse(alloc: Global, bytes: &[u8]) -> Result<Input, ParseFault>
    requires { length bytes.now ≤ 4194304 }
    // At `Ok` the bytes are this input; at `Refused` this is their first faulty line.
    ensures answer { IsAnswer bytes.now result }
    // Whatever is answered: bytes are one input at most, have one first faulty line at most, and never both.
    ensures one_input { (a b : Input) → IsInput bytes.now a → IsInput bytes.now b → a ≡ b }
    ensures one_fault { (l m : ℕ) (a b : Kind) → IsFault bytes.now l a → IsFault bytes.now m b → (l ≡ m) × (a ≡ b) }
    ensures never_both { (input : Input) (line : ℕ) (kind : Kind) → IsInput bytes.now input → IsFault bytes.now line kind → ⊥ }

    // What holds of each input.
    ensures well_formed { IfOk result IsWellFormed }
    ensures within { IfOk result IsWithinLimits }
    ensures runnable { IfOk result IsRunnable }
{
    let Some((text, rest)) = cut_line(bytes) else {
        return Err(Stop::Refused(Kind::End).at(1));
    };
    let Some(version) = head(text) else {
        return Err(Stop::Refused(Kind::Form).at(1));
    };
    read(alloc, version, rest)
}

/// What stands behind the head of a text of this version, from its second line on.
fn read(alloc: Global, version: Version, bytes: &[u8]) -> Result<Input, ParseFault>
    requires { length bytes.now ≤ 4194304 }
    ensures answer { IsAnswerBehind version bytes.now result }
    ensures well_formed { IfOk result IsWellFormed }
    ensures within { IfOk result IsWithinLimits }
    ensures runnable { IfOk result IsRunnable }
{
    let mut reader = Reader::new(alloc, version);
    let mut numbers = Numbers::new();
    let mut number = 2;
    let mut rest = bytes;
    while !reader.is_finished() {
        let Some((text, behind)) = cut_line(rest) else {
            return Err(Stop::Refused(Kind::End).at(number));
        };
        let Some(line) = Line::read(version, text, &mut numbers) else {
            return Err(Stop::Refused(Kind::Form).at(number));
        };
        if let Err(stop) = reader.step(&line, &numbers) {
            return Err(stop.at(number));
        }
        number += 1;
        rest = behind;
    }
    if !rest.is_empty() {
        return Err(Stop::Refused(Kind::Place).at(number));
    }
    Ok(reader.finish())
}
