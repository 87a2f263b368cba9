//! What the plain programs answer where no run of the built program shows it: the text that a number makes, sums of more than 64 bits, and
//! blocks that no text spells.

ghost use Rattle.replay_model.specs.Input.{IsWellFormed};

use load_gen::{generate, summary};
use replay_model::{
    Block, Blocks, Columns, Command, Commands, Input, Lanes, NoMemory, Placed, Tables, are_named,
    is_order, is_well_formed, report,
};
use std::alloc::Global;
use std::test::Fail;
use txn_script::parse;

/// What is made of an input.
#[derive(Clone, Copy)]
enum Made {
    /// The summary of its tables as they are loaded.
    Summary,
    /// The report, once it has a lane of three blocks that change nothing.
    Report,
}

/// A text, what is made of its input, and what is due.
type Row = (&'static str, Made, &'static str);

const ROWS: &[Row] = &[
    (
        "cicada 1\ndone\n",
        Made::Summary,
        "transactions 0\nsum 0\ndone\n",
    ),
    (
        "cicada 2\ntable a 6\n\
         row a 1 18446744073709551615 18446744073709551615 18446744073709551615 18446744073709551615 18446744073709551615 18446744073709551615\n\
         row a 2 18446744073709551615 18446744073709551615 18446744073709551615 18446744073709551615 18446744073709551615 18446744073709551615\n\
         lane\ntxn\nend\nsnap\nend\ndone\n",
        Made::Summary,
        "transactions 1\nsum 221360928884514619380\ndone\n",
    ),
    (
        "cicada 2\ntable a 1\ntable b 2\nrow b 1 3 4\nrow a 1 5\nlane\nsnap\nend\nlane\ntxn\nend\ntxn\nend\ndone\n",
        Made::Summary,
        "transactions 2\nsum 12\ndone\n",
    ),
    (
        "cicada 2\ntable a 2\nindex a 2\nrow a 1 100 7\ndone\n",
        Made::Report,
        "256 1.1 snap\n= 5\n512 1.2 no 3 missing\n768 1.3 no 1 unindexed\ntable a\n1 100 7\ndone\n",
    ),
];

/// The rows, of which no proof knows more than that they are rows.
fn rows() -> &'static [Row] {
    ROWS
}

/// A block of the first lane.
fn block_of(alloc: Global, snap: bool, number: u32, list: &[Command]) -> Result<Block, NoMemory> {
    let commands = Commands::from_vec(Vec::from_slice(alloc, list)?);
    Ok(Block {
        snap,
        lane: 1,
        number,
        commands,
    })
}

/// Appends a snapshot that writes, a block whose last command is refused, and a search by a column without an index.
fn push_blocks(alloc: Global, blocks: &mut Blocks) -> Result<(), NoMemory> {
    let (table, key, column) = (0, 1, 1);
    let values = Columns::new([5, 5, 0, 0, 0, 0]);
    let put = Command::Put { table, key, values };
    let get = Command::Get { table, key, column };
    let del = Command::Del { table, key };
    let add = Command::Add {
        table,
        key,
        column,
        by: 1,
    };
    let find = Command::Find {
        table,
        column,
        lo: 0,
        hi: 9,
        limit: 5,
    };
    blocks.push(block_of(alloc, true, 1, &[put, get])?)?;
    blocks.push(block_of(alloc, false, 2, &[put, del, add])?)?;
    blocks.push(block_of(alloc, false, 3, &[find])?)
}

/// Appends a lane of those blocks.
fn push_lane(alloc: Global, lanes: &mut Lanes) -> Result<(), NoMemory> {
    let mut blocks = Blocks::new(alloc);
    if let Err(no_memory) = push_blocks(alloc, &mut blocks) {
        drop(blocks);
        return Err(no_memory);
    }
    lanes.push(blocks)
}

/// A block of the first lane in an order.
fn placed(number: u32, snap: bool) -> Placed {
    Placed {
        stamp: u64::from(number) * 256,
        snap,
        lane: 1,
        number,
    }
}

/// The report of the three blocks, in the order of their lane.
fn report_of(alloc: Global, input: &Input) -> Result<Vec<u8>, Fail> {
    let order = [placed(1, true), placed(2, false), placed(3, false)];
    if !is_well_formed(alloc, input)? || !is_order(alloc, input, &order)? {
        return Err("the input or the order is none".into());
    }
    if !are_named(input, &order) {
        return Err("the order names what is not there".into());
    }
    Ok(report(alloc, input, &order)?)
}

/// The summary of an input that is loaded and not run.
fn summary_of(alloc: Global, input: &Input) -> Result<Vec<u8>, NoMemory>
    requires { IsWellFormed input.now }
{
    let last = Tables::loaded(alloc, input)?;
    let text = summary(alloc, input, &last);
    drop(last);
    text
}

/// Makes this of an input.
fn make(alloc: Global, input: &mut Input, made: Made) -> Result<Vec<u8>, Fail>
    requires { IsWellFormed input.old }
{
    match made {
        Made::Summary => Ok(summary_of(alloc, input)?),
        Made::Report => {
            push_lane(alloc, &mut input.lanes)?;
            report_of(alloc, input)
        }
    }
}

/// Makes this of the input that a text spells. The input is dropped by call: where its name goes out of scope, each of its fields is let go in
/// the proof of the function itself.
fn make_of(alloc: Global, text: &str, made: Made) -> Result<Vec<u8>, Fail> {
    if text.len() > 4_194_304 {
        return Err("the text is longer than an input may be".into());
    }
    let Ok(mut input) = parse(alloc, text.as_bytes()) else {
        return Err("the text is no input".into());
    };
    let text = make(alloc, &mut input, made);
    drop(input);
    text
}

#[test]
fn plain_programs_answer_what_is_due(rt: HostRuntime) -> Result<(), Fail> {
    for (text, made, due) in rows() {
        if make_of(rt.alloc(), text, *made)?.as_slice() != due.as_bytes() {
            return Err("another text is due".into());
        }
    }
    Ok(())
}

/// Lines of the text that the number 1 makes, each with its number, counted from 0.
const LINES: &[(usize, &str)] = &[
    (0, "cicada 1"),
    (1, "table accounts"),
    (2, "row accounts 1 1000000"),
    (3, "row accounts 2 1000000"),
    (65, "row accounts 64 1000000"),
    (66, "lane"),
    (67, "txn"),
    (16_074, "done"),
];

fn lines() -> &'static [(usize, &'static str)] {
    LINES
}

/// The line of this number.
fn line(text: &[u8], number: usize) -> &[u8] {
    text.split(|byte| *byte == b'\n').nth(number).unwrap_or(&[])
}

#[test]
fn a_generated_text_begins_so(rt: HostRuntime) -> Result<(), Fail> {
    let text = generate(rt.alloc(), 1)?;
    let count = text.iter().filter(|byte| **byte == b'\n').count();
    if count != 16_075 || !line(&text, 68).starts_with(b"sub accounts 23 ") {
        return Err("the text is another one".into());
    }
    for (number, due) in lines() {
        if line(&text, *number) != due.as_bytes() {
            return Err("the line is another one".into());
        }
    }
    Ok(())
}
