//! What has to hold in a test: one function for each kind of assertion, since each assertion is proved where it stands, and one with a
//! message that is put together there is dear.
use std::alloc::{AllocError, Global};
use std::fmt::{Debug, Display};
use std::process::Abort;

/// What was told at a step of a test has to be what is due.
pub fn same<R: Abort, T: PartialEq + Debug + Drop>(rt: &R, told: T, due: T, step: usize) {
    assert_eq!(rt; (step, told), (step, due));
}

/// This has to hold at a step of a test.
pub fn hold<R: Abort>(rt: &R, holds: bool, step: usize) {
    if !holds {
        panic!(rt; "at step {step}");
    }
}

/// Whether a value is shown by these words.
pub fn is_shown<T: Display>(alloc: Global, value: &T, words: &str) -> Result<bool, AllocError> {
    let text = format!(in alloc; "{value}")?;
    Ok(text.as_str() == words)
}
