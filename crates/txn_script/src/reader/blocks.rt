//! Lanes, their blocks, and the commands of a block.

ghost use Rattle.std.specs.Prelude.{◌≡◌, ◌+◌, ◌^◌, ◌<◌, length, nat_lt, Ok};
ghost use Rattle.txn_script.specs.Grammar.{limit_of};
ghost use Rattle.txn_script.specs.Reading.{Gives, IsSteady, progress, has_room, command_added, lane_closed, lane_opened, block_opened, block_closed, with_command};

use super::Reader;
use crate::fault::{Kind, Stop};
use crate::keyword::Keyword;
use crate::lookup::{is_found, number_in};
use crate::meaning::{command_of, counts, keeps_columns, limit_of};
use crate::numbers::Numbers;
use crate::place::Place;
use replay_model::{Block, Blocks, Command, Commands};
use std::mem;

const MOST_LANES: usize = 64;

const MOST_BLOCKS: u32 = 16_384;

const MOST_COMMANDS: usize = 64;

const MOST_FOUND: u64 = 256;

const MOST_ROWS_AND_CHANGES: usize = 16_384;

impl Reader {
    #[tactic(auto, unfolding(crate::specs::Reading::lane_opened))]
    pub(super) fn open_lane(&mut self) -> Result<(), Stop>
        ensures { Gives (λ _. progress self.new) result (lane_opened (progress self.old)) }
    {
        self.close_lane()?;
        if self.lanes.len() >= MOST_LANES {
            return Err(Stop::Refused(Kind::Limit));
        }
        Ok(())
    }

    /// Ends the open lane, if there is one.
    #[tactic(auto, unfolding(crate::specs::Reading::lane_closed))]
    pub(super) fn close_lane(&mut self) -> Result<(), Stop>
        ensures { Gives (λ _. progress self.new) result (Ok (lane_closed (progress self.old))) }
    {
        if self.place == Place::InLane {
            let blocks = mem::replace(&mut self.blocks, Blocks::new(self.alloc));
            self.lanes.push(blocks)?;
        }
        Ok(())
    }

    #[tactic(auto, unfolding(crate::specs::Reading::block_opened))]
    pub(super) fn open_block(&mut self) -> Result<(), Stop>
        ensures { Gives (λ _. progress self.new) result (block_opened (progress self.old)) }
    {
        if self.block_count >= MOST_BLOCKS {
            return Err(Stop::Refused(Kind::Limit));
        }
        self.block_count += 1;
        Ok(())
    }

    #[tactic(auto, unfolding(crate::specs::Reading::block_closed))]
    pub(super) fn close_block(&mut self) -> Result<(), Stop>
        requires { IsSteady (progress self.old) }
        ensures { Gives (λ _. progress self.new) result (Ok (block_closed (progress self.old))) }
    {
        let block = Block {
            snap: self.place == Place::InSnap,
            lane: self.lanes.len() as u32 + 1,
            number: self.blocks.len() as u32 + 1,
            commands: mem::replace(&mut self.commands, Commands::new(self.alloc)),
        };
        self.blocks.push(block)?;
        self.limit_sum = 0;
        Ok(())
    }

    #[tactic(auto, unfolding(crate::specs::Reading::with_command))]
    pub(super) fn add_command(
        &mut self,
        keyword: Keyword,
        name: &[u8],
        numbers: &Numbers,
    ) -> Result<(), Stop>
        requires { IsSteady (progress self.old) }
        ensures { Gives (λ _. progress self.new) result (with_command (progress self.old) keyword name.now numbers.now) }
    {
        let table = number_in(&self.tables, name).ok_or(Kind::Unknown)?;
        if !is_found(&self.indexes, table, keyword, numbers) {
            return Err(Stop::Refused(Kind::Unknown));
        }
        let columns = self.tables.columns(table as usize);
        if !keeps_columns(self.version, columns, keyword, numbers) {
            return Err(Stop::Refused(Kind::Columns));
        }
        let command = command_of(self.version, table, keyword, numbers).ok_or(Kind::Form)?;
        if !self.has_room(&command) {
            return Err(Stop::Refused(Kind::Limit));
        }
        self.push_command(command)
    }

    /// Whether there is room for a command: in its block, for its limit, and with the rows.
    fn has_room(&self, command: &Command) -> bool
        requires { IsSteady (progress self.now) }
        ensures { result ≡ has_room (progress self.now) command.now }
    {
        let few = self.commands.len() < MOST_COMMANDS;
        let found = limit_of(command) <= MOST_FOUND - self.limit_sum;
        let changes = counts(self.indexes.len() != 0, command);
        few && found && (!changes || self.has_room_for_a_row())
    }

    fn push_command(&mut self, command: Command) -> Result<(), Stop>
        requires steady { IsSteady (progress self.old) }
        requires limit { self.old.limit_sum + limit_of command < 2 ^ 64 }
        ensures { Gives (λ _. progress self.new) result (Ok (command_added (progress self.old) command)) }
    {
        if counts(self.indexes.len() != 0, &command) {
            self.change_count += 1;
        }
        self.limit_sum += limit_of(&command);
        self.commands.push(command)?;
        Ok(())
    }

    /// Whether one row more, or one command that counts with the rows, is within the limit.
    pub(super) fn has_room_for_a_row(&self) -> bool
        requires { length self.now.rows + self.now.change_count < 2 ^ 32 }
        ensures { result ≡ nat_lt (length self.now.rows + self.now.change_count) 16384 }
    {
        self.rows.len() + (self.change_count as usize) < MOST_ROWS_AND_CHANGES
    }
}
