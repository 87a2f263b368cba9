//! Head lines of blocks in a report.

ghost use Rattle.std.specs.Prelude.{◌≡◌};
ghost use Rattle.report_check.specs.Reading.{head_of, said_of, refusal_of, cause_of};
ghost use Rattle.replay_model.specs.Replay.{block_or_none, block_at};
ghost use Rattle.report_check.specs.Printed.{is_snap, placed_by};

use crate::bytes::cut;
use crate::numbers::{number_of, small_number_of};
use replay_model::{Cause, Input, Placed, is_named};

/// What a head line says of its block.
#[derive(Clone, Copy, PartialEq, Eq, Debug)]
pub enum Said {
    /// `ok`: a transaction block whose commands all ran.
    Ran,
    /// `snap`: a snapshot block.
    Snap,
    /// `no C CAUSE`: a block that was refused at this command, counted from 1, for this cause.
    Refused { command: u32, cause: Cause },
}

/// A head line, `STAMP L.I` and what it says of its block.
#[derive(Clone, Copy, PartialEq, Eq, Debug)]
pub struct Head {
    /// The stamp at which the block ran.
    pub stamp: u64,
    /// The lane of the block, counted from 1.
    pub lane: u32,
    /// The block's place in its lane, counted from 1.
    pub number: u32,
    /// What came of it.
    pub said: Said,
}

impl Head {
    /// The head line that a text without its line feed spells.
    #[tactic(auto, unfolding(crate::specs::Reading::head_of))]
    pub(crate) fn read(text: &[u8]) -> Option<Head>
        ensures { result ≡ head_of text.now }
    {
        let (stamp, behind) = cut(text, b' ')?;
        let stamp = number_of(stamp)?;
        let (lane, behind) = cut(behind, b'.')?;
        let lane = small_number_of(lane)?;
        let (number, behind) = cut(behind, b' ')?;
        let number = small_number_of(number)?;
        let said = Said::read(behind)?;
        Some(Head {
            stamp,
            lane,
            number,
            said,
        })
    }

    /// The place in an order that it tells; where it says that the block was refused, the input tells its kind.
    pub(crate) fn placed(&self, input: &Input) -> Placed
        ensures { result ≡ placed_by input.now self.now }
    {
        Placed {
            stamp: self.stamp,
            snap: self.is_snap(input),
            lane: self.lane,
            number: self.number,
        }
    }

    /// Whether it is the line of a snapshot.
    fn is_snap(&self, input: &Input) -> bool
        ensures { result ≡ is_snap input.now self.now }
    {
        match self.said {
            Said::Ran => false,
            Said::Snap => true,
            Said::Refused { .. } => is_snapshot(input, self.lane, self.number),
        }
    }
}

impl Said {
    /// What the end of a head line says.
    #[tactic(auto, unfolding(crate::specs::Reading::said_of))]
    fn read(text: &[u8]) -> Option<Said>
        ensures { result ≡ said_of text.now }
    {
        if text == b"ok".as_slice() {
            Some(Said::Ran)
        } else if text == b"snap".as_slice() {
            Some(Said::Snap)
        } else {
            refusal(text)
        }
    }
}

/// The command and the cause that `no C CAUSE` names.
#[tactic(auto, unfolding(crate::specs::Reading::refusal_of))]
fn refusal(text: &[u8]) -> Option<Said>
    ensures { result ≡ refusal_of text.now }
{
    let (word, behind) = cut(text, b' ')?;
    let (command, cause) = cut(behind, b' ')?;
    let command = small_number_of(command)?;
    let cause = cause_of(cause)?;
    if word == b"no".as_slice() {
        Some(Said::Refused { command, cause })
    } else {
        None
    }
}

/// The cause of this name.
fn cause_of(word: &[u8]) -> Option<Cause>
    ensures { result ≡ cause_of word.now }
{
    if word == b"exists".as_slice() {
        Some(Cause::Exists)
    } else if word == b"missing".as_slice() {
        Some(Cause::Missing)
    } else if word == b"over".as_slice() {
        Some(Cause::Over)
    } else if word == b"short".as_slice() {
        Some(Cause::Short)
    } else if word == b"unindexed".as_slice() {
        Some(Cause::Unindexed)
    } else {
        None
    }
}

/// Whether the input has a snapshot block of this lane and number.
fn is_snapshot(input: &Input, lane: u32, number: u32) -> bool
    ensures { result ≡ (block_or_none (block_at input.now.lanes lane number)).snap }
{
    let snapshot = Placed {
        stamp: 0,
        snap: true,
        lane,
        number,
    };
    is_named(input, &snapshot)
}
