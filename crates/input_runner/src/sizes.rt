//! How many records and places the run of an input has.

ghost use Rattle.std.specs.Prelude.{◌≡◌, ◌+◌, ◌≤◌, count_by};
ghost use Rattle.txn_script.specs.Grammar.{IsWithinLimits, counts};
ghost use Rattle.input_runner.specs.Sizes.{SizesAreEnough, records_of_run, spare_of_run, records_for_rows, records_for_commands, places_for_seats, count_in, count_in_all};

use replay_model::{Block, Blocks, Command, Input, Lanes};
use stored_tables::FIXED_RECORDS;

/// Places that a block may want beside one for each record.
const BLOCK_PLACES: u32 = 8193;

/// The numbers of records, and of places for versions beside one for each record.
#[derive(Clone, Copy)]
pub(crate) struct Sizes {
    pub(crate) records: u32,
    pub(crate) spare: u32,
}

/// The sizes of a run with so many seats.
pub(crate) fn sizes_of(input: &Input, seats: u32) -> Sizes
    requires within { IsWithinLimits input.now }
    requires some { 1 ≤ seats }
    requires most { seats ≤ 64 }
    ensures records { result.records ≡ records_of_run input.now seats }
    ensures spare { result.spare ≡ spare_of_run input.now seats }
{
    let records = FIXED_RECORDS + (for_rows(input) + for_commands(input, seats));
    Sizes {
        records,
        spare: records + (BLOCK_PLACES + for_seats(input, seats)),
    }
}

/// Records for the rows that are loaded: two for each, and four more for the last one.
fn for_rows(input: &Input) -> u32
    requires within { IsWithinLimits input.now }
    ensures value { result ≡ records_for_rows input.now }
{
    2 * input.rows.len() as u32 + 4
}

/// Records for the commands: four for each that may bring a row, and two more where several seats share them; and, where there is
/// an index, three for each that may bring or change one.
fn for_commands(input: &Input, seats: u32) -> u32
    requires within { IsWithinLimits input.now }
    requires some { 1 ≤ seats }
    requires most { seats ≤ 64 }
    ensures value { result ≡ records_for_commands input.now seats }
{
    let brought = count_in_lanes(&input.lanes, false);
    let rows = 4 * brought + (2 * brought).min(32768 * (seats - 1));
    if input.indexes.len() == 0 {
        rows
    } else {
        rows + 3 * count_in_lanes(&input.lanes, true)
    }
}

/// Places for versions that wait for the slowest of several seats: 1,024 for each seat but one, and 16 for each row at most.
fn for_seats(input: &Input, seats: u32) -> u32
    requires within { IsWithinLimits input.now }
    requires some { 1 ≤ seats }
    requires most { seats ≤ 64 }
    ensures value { result ≡ places_for_seats input.now seats }
    ensures few { result ≤ 64512 }
{
    (1024 * (seats - 1)).min(16 * input.rows.len() as u32)
}

/// They are enough for the rows and all blocks.
pub(crate) fn sizes_are_enough()
    ensures { SizesAreEnough }
{}

/// How many commands of all lanes may bring a row, or change one where `changes` is true.
fn count_in_lanes(lanes: &Lanes, changes: bool) -> u32
    requires few { count_in_all changes lanes.now ≤ 16384 }
    ensures { result ≡ count_in_all changes lanes.now }
{
    let mut count = 0;
    for blocks in lanes.as_slice() {
        count += count_in_blocks(blocks, changes);
    }
    count
}

/// How many of a lane's commands do.
fn count_in_blocks(blocks: &Blocks, changes: bool) -> u32
    requires few { count_in changes blocks.now ≤ 16384 }
    ensures { result ≡ count_in changes blocks.now }
{
    let mut count = 0;
    for block in blocks.as_slice() {
        count += count_in_block(block, changes);
    }
    count
}

/// How many of a block's commands do.
fn count_in_block(block: &Block, changes: bool) -> u32
    requires few { count_by (counts changes) block.now.commands ≤ 16384 }
    ensures { result ≡ count_by (counts changes) block.now.commands }
{
    let mut count = 0;
    for command in block.commands.as_slice() {
        if is_counted(command, changes) {
            count += 1;
        }
    }
    count
}

fn is_counted(command: &Command, changes: bool) -> bool
    ensures { result ≡ counts changes command.now }
{
    match command {
        Command::Put { .. } | Command::Ins { .. } => true,
        Command::Add { .. } | Command::Sub { .. } => changes,
        Command::Get { .. } | Command::Del { .. } | Command::Scan { .. } | Command::Find { .. } => {
            false
        }
    }
}
