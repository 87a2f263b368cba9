//! Laws on histories of entries: what a lawful history is, which lists of entries are one, and what it says of blocks that
//! ran in it.
//!
//! Each function does nothing; its contract is a law.
#![tactic(auto)]

ghost use Rattle.histories.specs.Laws.{WriteBeforeIsLawful, LawfulHasStates, NextStateIsOverlay, LaterEntriesKeepState};

/// Says which states of the records are kept by every transaction. The state without records is one of them.
pub trait Keeps {
    ghost use Rattle.plain_data.specs.State.{State, empty_state};

    ghost kept: { State → Type 0 };

    ghost keeps_empty: { kept empty_state };
}

/// Keeps every state.
pub struct AnyState;

impl Keeps for AnyState {
    ghost kept = { λ _. Unit {0} };

    ghost keeps_empty = { tt };
}

/// Entries that obey the rule of the write before are a lawful history.
pub fn write_before_is_lawful<J: Keeps>()
    ensures { WriteBeforeIsLawful J.kept }
{}

/// A lawful history has a kept state before each entry, with what the entry read, and one at the end.
pub fn lawful_has_states<J: Keeps>()
    ensures { LawfulHasStates J.kept }
{}

/// After one more commit entry, above all others, the state is the one before with its writes.
pub fn next_state_is_overlay()
    ensures { NextStateIsOverlay }
{}

/// Commit entries above a stamp do not change what those up to it leave.
pub fn later_entries_keep_state()
    ensures { LaterEntriesKeepState }
{}
