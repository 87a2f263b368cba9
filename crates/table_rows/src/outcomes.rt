//! Outcomes compared.

use replay_model::{Answer, Outcome};
use std::test::Fail;

/// Refuses outcomes that differ.
pub fn compare(got: Outcome, due: &Outcome) -> Result<(), Fail> {
    let same = is_same(&got, due);
    drop(got);
    if same {
        return Ok(());
    }
    Err("the outcomes differ".into())
}

/// Whether all commands ran.
pub fn is_done(outcome: &Outcome) -> bool {
    matches!(outcome, Outcome::Done(_))
}

/// Whether two blocks came to the same.
fn is_same(got: &Outcome, due: &Outcome) -> bool {
    match (got, due) {
        (Outcome::Done(got), Outcome::Done(due)) => {
            let (got, due) = (got.as_slice(), due.as_slice());
            got.len() == due.len() && got.iter().zip(due).all(|(a, b)| is_same_answer(a, b))
        }
        (
            Outcome::Refused { command, cause },
            Outcome::Refused {
                command: due_command,
                cause: due_cause,
            },
        ) => command == due_command && cause == due_cause,
        _ => false,
    }
}

/// Whether two commands answered the same.
fn is_same_answer(got: &Answer, due: &Answer) -> bool {
    match (got, due) {
        (Answer::Nothing, Answer::Nothing) => true,
        (Answer::Absent, Answer::Absent) => true,
        (Answer::Value(got), Answer::Value(due)) => got == due,
        (Answer::Pairs(got), Answer::Pairs(due)) => got.as_slice() == due.as_slice(),
        _ => false,
    }
}
