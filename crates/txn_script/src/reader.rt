//! What is gathered of an input, line by line.

ghost use Rattle.std.specs.Prelude.{◌≡◌, ◌↔◌, IsTrue, true};
ghost use Rattle.txn_script.specs.declared.place.Place.TheVariants.{Finished};
ghost use Rattle.txn_script.specs.Line.{has_numbers, HasForm};
ghost use Rattle.txn_script.specs.LineReading.{seen};
ghost use Rattle.txn_script.specs.Reading.{Gives, IsSteady, progress, started, mark_taken, named_taken, taken_in, step, input_at_end};

mod blocks;
mod declarations;

use crate::fault::{Kind, Stop};
use crate::keyed_rows::KeyedRows;
use crate::keyword::{Keyword, Mark, Version};
use crate::line::Line;
use crate::numbers::Numbers;
use crate::place::Place;
use replay_model::{Blocks, Commands, Indexes, Input, Lanes, Names};
use std::alloc::Global;

/// The input of the lines read so far.
#[derive(Drop)]
pub struct Reader {
    alloc: Global,
    version: Version,
    place: Place,
    tables: Names,
    rows: KeyedRows,
    indexes: Indexes,
    /// The lanes before the open one.
    lanes: Lanes,
    /// The blocks of the open lane before the open block.
    blocks: Blocks,
    /// The commands of the open block.
    commands: Commands,
    /// The blocks of all lanes, the open one included.
    block_count: u32,
    /// The commands of all blocks that count with the rows.
    change_count: u32,
    /// The sum of the limits of the open block's scans and searches.
    limit_sum: u64,
}

impl Reader {
    /// Nothing read yet behind a head of this version; takes no memory.
    pub fn new(alloc: Global, version: Version) -> Self
        ensures { progress result ≡ started version }
    {
        Reader {
            alloc,
            version,
            place: Place::Declarations,
            tables: Names::new(alloc),
            rows: KeyedRows::new(alloc),
            indexes: Indexes::new(alloc),
            lanes: Lanes::new(alloc),
            blocks: Blocks::new(alloc),
            commands: Commands::new(alloc),
            block_count: 0,
            change_count: 0,
            limit_sum: 0,
        }
    }

    /// Takes one line more, with its numbers. After a fault nothing is said of what is gathered.
    #[tactic(auto, unfolding(crate::specs::Reading::step))]
    pub fn step(&mut self, line: &Line, numbers: &Numbers) -> Result<(), Stop>
        requires steady { IsSteady (progress self.old) }
        requires form { HasForm (progress self.old).version (seen line.now numbers.now) }
        ensures { Gives (λ _. progress self.new) result (step (progress self.old) (seen line.now numbers.now)) }
    {
        let place = self.place.after(line).ok_or(Kind::Place)?;
        self.take_in(line, numbers)?;
        self.place = place;
        Ok(())
    }

    /// Whether the last line was read.
    pub fn is_finished(&self) -> bool
        ensures { IsTrue result ↔ ((progress self.now).place ≡ Finished) }
    {
        match self.place {
            Place::Finished => true,
            Place::Declarations | Place::InLane | Place::InTxn | Place::InSnap => false,
        }
    }

    /// The input, where the last line was read.
    pub fn finish(self) -> Input
        ensures { result ≡ input_at_end (progress self) }
    {
        Input {
            tables: self.tables,
            rows: self.rows.into_rows(),
            indexes: self.indexes,
            lanes: self.lanes,
        }
    }

    /// What a line adds, which stands at its place.
    fn take_in(&mut self, line: &Line, numbers: &Numbers) -> Result<(), Stop>
        requires steady { IsSteady (progress self.old) }
        requires form { HasForm (progress self.old).version (seen line.now numbers.now) }
        ensures { Gives (λ _. progress self.new) result (taken_in (progress self.old) (seen line.now numbers.now)) }
    {
        match line {
            Line::Head(_) => Err(Stop::Refused(Kind::Place)),
            Line::Mark(mark) => self.take_mark(*mark),
            Line::Named { keyword, name } => self.take_named(*keyword, name, numbers),
        }
    }

    fn take_mark(&mut self, mark: Mark) -> Result<(), Stop>
        requires { IsSteady (progress self.old) }
        ensures { Gives (λ _. progress self.new) result (mark_taken (progress self.old) mark) }
    {
        match mark {
            Mark::Lane => self.open_lane(),
            Mark::Txn | Mark::Snap => self.open_block(),
            Mark::End => self.close_block(),
            Mark::Done => self.close_lane(),
        }
    }

    fn take_named(&mut self, keyword: Keyword, name: &[u8], numbers: &Numbers) -> Result<(), Stop>
        requires steady { IsSteady (progress self.old) }
        requires form { has_numbers self.old.version keyword numbers.now ≡ true }
        ensures { Gives (λ _. progress self.new) result (named_taken (progress self.old) keyword name.now numbers.now) }
    {
        match keyword {
            Keyword::Table => self.add_table(name, numbers),
            Keyword::Index => self.add_index(name, numbers),
            Keyword::Row => self.add_row(name, numbers),
            _ => self.add_command(keyword, name, numbers),
        }
    }
}
