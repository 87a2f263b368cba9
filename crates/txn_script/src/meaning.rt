//! What the numbers of a line mean, in either version.

ghost use Rattle.std.specs.Prelude.{◌≡◌, ◌≤◌};
ghost use Rattle.txn_script.specs.Gathered.{declared_columns, named_column, amount, command_of};
ghost use Rattle.txn_script.specs.Grammar.{is_column, keeps_columns, counts, limit_of};
ghost use Rattle.txn_script.specs.Narrow.{IsNarrow};

use crate::keyword::{Keyword, Version};
use crate::numbers::Numbers;
use replay_model::Command;

/// Whether a line keeps to the columns of its table.
pub fn keeps_columns(version: Version, columns: u32, keyword: Keyword, numbers: &Numbers) -> bool
    requires { columns ≤ 6 }
    ensures { result ≡ keeps_columns version columns keyword numbers.now }
{
    match keyword {
        Keyword::Index => is_column(columns, numbers.get(0)),
        Keyword::Row | Keyword::Put | Keyword::Ins => numbers.len() == columns as usize + 1,
        Keyword::Get | Keyword::Add | Keyword::Sub => {
            is_column(columns, named_column(version, numbers))
        }
        Keyword::Table | Keyword::Del | Keyword::Scan | Keyword::Find => true,
    }
}

/// Whether a column is one of the first so many.
fn is_column(columns: u32, column: u64) -> bool
    ensures { result ≡ is_column columns column }
{
    1 <= column && column <= columns as u64
}

/// The column that a `get`, an `add` or a `sub` names.
pub fn named_column(version: Version, numbers: &Numbers) -> u64
    ensures { result ≡ named_column version numbers.now }
{
    match version {
        Version::One => 1,
        Version::Two => numbers.get(1),
    }
}

/// What an `add` or a `sub` adds or subtracts.
fn amount(version: Version, numbers: &Numbers) -> u64
    ensures { result ≡ amount version numbers.now }
{
    match version {
        Version::One => numbers.get(1),
        Version::Two => numbers.get(2),
    }
}

/// A number of few columns.
pub fn narrow(column: u64) -> u32
    requires { column ≤ 6 }
    ensures { result ≡ column }
{
    column as u32
}

/// The command of a line, where its keyword is that of one.
pub fn command_of(
    version: Version,
    table: u32,
    keyword: Keyword,
    numbers: &Numbers,
) -> Option<Command>
    requires { IsNarrow version keyword numbers.now }
    ensures { result ≡ command_of version table keyword numbers.now }
{
    let key = numbers.get(0);
    match keyword {
        Keyword::Table | Keyword::Index | Keyword::Row => None,
        Keyword::Get => {
            let column = narrow(named_column(version, numbers));
            Some(Command::Get { table, key, column })
        }
        Keyword::Put => Some(Command::Put {
            table,
            key,
            values: numbers.row(),
        }),
        Keyword::Ins => Some(Command::Ins {
            table,
            key,
            values: numbers.row(),
        }),
        Keyword::Del => Some(Command::Del { table, key }),
        Keyword::Add => Some(Command::Add {
            table,
            key,
            column: narrow(named_column(version, numbers)),
            by: amount(version, numbers),
        }),
        Keyword::Sub => Some(Command::Sub {
            table,
            key,
            column: narrow(named_column(version, numbers)),
            by: amount(version, numbers),
        }),
        Keyword::Scan => Some(Command::Scan {
            table,
            lo: key,
            hi: numbers.get(1),
            limit: numbers.get(2),
        }),
        Keyword::Find => Some(Command::Find {
            table,
            column: narrow(key),
            lo: numbers.get(1),
            hi: numbers.get(2),
            limit: numbers.get(3),
        }),
    }
}

/// Whether a command counts with the rows, where there is an index or none.
pub fn counts(indexed: bool, command: &Command) -> bool
    ensures { result ≡ counts indexed command.now }
{
    match command {
        Command::Put { .. } | Command::Ins { .. } => true,
        Command::Add { .. } | Command::Sub { .. } => indexed,
        Command::Get { .. } | Command::Del { .. } | Command::Scan { .. } | Command::Find { .. } => {
            false
        }
    }
}

/// The limit of a scan or a search; 0 of the others.
pub fn limit_of(command: &Command) -> u64
    ensures { result ≡ limit_of command.now }
{
    match *command {
        Command::Scan { limit, .. } => limit,
        Command::Find { limit, .. } => limit,
        _ => 0,
    }
}
