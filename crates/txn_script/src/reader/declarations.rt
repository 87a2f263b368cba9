//! Tables, indexes and rows.

ghost use Rattle.std.specs.Prelude.{◌≤◌};
ghost use Rattle.txn_script.specs.Gathered.{declared_columns};
ghost use Rattle.txn_script.specs.Reading.{Gives, IsSteady, progress, with_table, with_index, with_row};

use super::Reader;
use crate::fault::{Kind, Stop};
use crate::keyed_rows::KeyedRows;
use crate::keyword::{Keyword, Version};
use crate::lookup::{has_index, number_in};
use crate::meaning::{keeps_columns, narrow};
use crate::numbers::Numbers;
use std::mem;

const MOST_TABLES: usize = 8;

impl Reader {
    #[tactic(auto, unfolding(crate::specs::Reading::with_table))]
    pub(super) fn add_table(&mut self, name: &[u8], numbers: &Numbers) -> Result<(), Stop>
        requires steady { IsSteady (progress self.old) }
        requires columns { declared_columns self.old.version numbers.now ≤ 6 }
        ensures { Gives (λ _. progress self.new) result (with_table (progress self.old) name.now numbers.now) }
    {
        if number_in(&self.tables, name).is_some() {
            return Err(Stop::Refused(Kind::Twice));
        }
        if self.tables.len() >= MOST_TABLES {
            return Err(Stop::Refused(Kind::Limit));
        }
        let columns = match self.version {
            Version::One => 1,
            Version::Two => narrow(numbers.get(0)),
        };
        self.tables.push(name, columns)?;
        Ok(())
    }

    #[tactic(auto, unfolding(crate::specs::Reading::with_index))]
    pub(super) fn add_index(&mut self, name: &[u8], numbers: &Numbers) -> Result<(), Stop>
        requires { IsSteady (progress self.old) }
        ensures { Gives (λ _. progress self.new) result (with_index (progress self.old) name.now numbers.now) }
    {
        let table = number_in(&self.tables, name).ok_or(Kind::Unknown)?;
        let columns = self.tables.columns(table as usize);
        if !keeps_columns(self.version, columns, Keyword::Index, numbers) {
            return Err(Stop::Refused(Kind::Columns));
        }
        if has_index(&self.indexes, table) {
            return Err(Stop::Refused(Kind::Twice));
        }
        self.indexes.push((table, narrow(numbers.get(0))))?;
        Ok(())
    }

    #[tactic(auto, unfolding(crate::specs::Reading::with_row))]
    pub(super) fn add_row(&mut self, name: &[u8], numbers: &Numbers) -> Result<(), Stop>
        requires { IsSteady (progress self.old) }
        ensures { Gives (λ _. progress self.new) result (with_row (progress self.old) name.now numbers.now) }
    {
        let table = number_in(&self.tables, name).ok_or(Kind::Unknown)?;
        let columns = self.tables.columns(table as usize);
        if !keeps_columns(self.version, columns, Keyword::Row, numbers) {
            return Err(Stop::Refused(Kind::Columns));
        }
        let has_room = self.has_room_for_a_row();
        let rows = mem::replace(&mut self.rows, KeyedRows::new(self.alloc));
        self.rows = rows.with(table, numbers.get(0), numbers.row())?;
        if !has_room {
            return Err(Stop::Refused(Kind::Limit));
        }
        Ok(())
    }
}
