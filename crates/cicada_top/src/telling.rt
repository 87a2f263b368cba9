//! What the user is told on standard error.

use crate::finish::{Finish, Status};
use report_check::Verdict;
use std::io::{self, Eprint};

/// Tells the user why words are refused, what is wrong with the line at which an input is refused, and which test the order of a report
/// failed.
pub(crate) fn tell<R: Eprint>(rt: &R, name: &str, finish: &Finish) {
    if let Some(usage) = &finish.usage {
        let _ = eprint!(rt; "{usage}");
    }
    if let Some(fault) = &finish.fault {
        let kind = kind_sentence(fault.kind);
        let _ = eprintln!(rt;
            "{name}: line {}: {kind} (docs/LANGUAGE.md: refusals)",
            fault.line
        );
    }
    if let Some(Verdict::NoOrder(test)) = finish.verdict {
        let test = test_sentence(test);
        let _ = eprintln!(rt; "{name}: the order of the report: {test}");
    }
}

/// A kind of refusal by its name, and what it says.
fn kind_sentence(kind: u32) -> &'static str {
    match kind {
        1 => {
            "form: it has none of the forms of a line; each line ends with a line feed alone, and one space stands between two words"
        }
        2 => "place: it may not stand there",
        3 => "unknown: no earlier line declares the table, or the index, that it names",
        4 => "twice: the table, the index or the row is there already",
        5 => "limit: it is one too many",
        6 => "end: the text ends before a whole last line 'done', which has a line feed too",
        _ => "columns: the table has another number of columns, or no such column",
    }
}

/// A test of an order by its name, and what it found.
fn test_sentence(test: u32) -> &'static str {
    match test {
        1 => "named: a block that it prints is none of the input, or of the other kind",
        2 => "once: it prints a block twice",
        3 => "complete: a block of the input is missing",
        4 => "rising: the stamps of the transaction blocks do not rise",
        5 => "snapshots: a snapshot block does not stand where its stamp says",
        _ => "lanes: the blocks of a lane are out of their order",
    }
}

/// What comes of words that can't be had: one that is not UTF-8 is refused.
pub(crate) fn refuse_words<R: Eprint>(rt: &R, name: &str, error: &io::Error) -> Status {
    if error.kind() == io::ErrorKind::OutOfMemory {
        return Status::NoMemory;
    }
    let _ = eprintln!(rt; "{name}: the words cannot be read: {error}");
    Status::Usage
}
