//! Where a line may stand.

ghost use Rattle.std.specs.Prelude.{◌≡◌, ℕ, List};
ghost use Rattle.txn_script.specs.LineReading.{seen};
ghost use Rattle.txn_script.specs.Places.{after, after_mark, after_named};

use crate::keyword::{Keyword, Mark};
use crate::line::Line;

/// The place between two lines of a text, behind its head.
#[derive(Clone, Copy, PartialEq, Eq, Debug)]
pub enum Place {
    /// Before the first lane.
    Declarations,
    /// In a lane, outside of its blocks.
    InLane,
    /// In a transaction.
    InTxn,
    /// In a snapshot.
    InSnap,
    /// Behind the last line.
    Finished,
}

impl Place {
    /// The place behind a line; none where the line may not stand here.
    pub fn after(self, line: &Line) -> Option<Place>
        ensures { (numbers : List ℕ) → result ≡ after self (seen line.now numbers) }
    {
        match line {
            Line::Head(_) => None,
            Line::Mark(mark) => self.after_mark(*mark),
            Line::Named { keyword, .. } => self.after_named(*keyword),
        }
    }

    fn after_mark(self, mark: Mark) -> Option<Place>
        ensures { result ≡ after_mark mark self }
    {
        match (mark, self) {
            (Mark::Lane, Place::Declarations | Place::InLane) => Some(Place::InLane),
            (Mark::Txn, Place::InLane) => Some(Place::InTxn),
            (Mark::Snap, Place::InLane) => Some(Place::InSnap),
            (Mark::End, Place::InTxn | Place::InSnap) => Some(Place::InLane),
            (Mark::Done, Place::Declarations | Place::InLane) => Some(Place::Finished),
            _ => None,
        }
    }

    fn after_named(self, keyword: Keyword) -> Option<Place>
        ensures { result ≡ after_named keyword self }
    {
        match (keyword, self) {
            (Keyword::Table | Keyword::Index | Keyword::Row, Place::Declarations) => {
                Some(Place::Declarations)
            }
            (Keyword::Get | Keyword::Scan | Keyword::Find, Place::InTxn) => Some(Place::InTxn),
            (Keyword::Get | Keyword::Scan | Keyword::Find, Place::InSnap) => Some(Place::InSnap),
            (
                Keyword::Put | Keyword::Ins | Keyword::Del | Keyword::Add | Keyword::Sub,
                Place::InTxn,
            ) => Some(Place::InTxn),
            _ => None,
        }
    }
}
