//! The summary of a run.

ghost use Rattle.std.specs.Prelude.{◌≡◌, ℕ, IfOk};
ghost use Rattle.replay_model.specs.Input.{IsWellFormed};
ghost use Rattle.load_gen.specs.Load.{spelled};
ghost use Rattle.load_gen.specs.Summary.{lists_sum, lines_with, summary_lines};

use crate::lines::{push_line, push_numbered};
use crate::totals::{lists_sum, tables_sum, transactions};
use replay_model::{Input, NoMemory, Pairs, Tables};
use std::alloc::Global;

/// Three lines, `transactions N`, `sum S` and `done`: how many transaction blocks the input has, and the sum of all columns of all
/// rows of its tables as they were last. The sum has 128 bits and does not wrap.
pub fn summary(alloc: Global, input: &Input, last: &Tables) -> Result<Vec<u8>, NoMemory>
    requires { IsWellFormed input.now }
    ensures { IfOk result (λ text. text.items ≡ spelled (summary_lines input.now last.now)) }
{
    let sum = tables_sum(alloc, input.tables.len(), last)?;
    text_with(alloc, input, sum)
}

/// The same lines where the last rows stand in lists.
pub fn summary_of_rows(alloc: Global, input: &Input, rows: &[Pairs]) -> Result<Vec<u8>, NoMemory>
    requires { IsWellFormed input.now }
    ensures { IfOk result (λ text. text.items ≡ spelled (lines_with input.now (lists_sum rows.now))) }
{
    let sum = lists_sum(rows)?;
    text_with(alloc, input, sum)
}

/// The lines with this sum.
fn text_with(alloc: Global, input: &Input, sum: u128) -> Result<Vec<u8>, NoMemory>
    requires { IsWellFormed input.now }
    ensures { IfOk result (λ text. text.items ≡ spelled (lines_with input.now sum)) }
{
    let mut text = Vec::new(alloc);
    push_numbered(&mut text, b"transactions ", transactions(input))?;
    push_numbered(&mut text, b"sum ", sum)?;
    push_line(&mut text, b"done")?;
    Ok(text)
}
