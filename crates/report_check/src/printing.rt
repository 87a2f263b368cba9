//! The order that a report prints.

ghost use Rattle.std.specs.Prelude.{◌≡◌, ◌↔◌, ℕ, List, Some, IfOk};
ghost use Rattle.report_check.specs.declared.head.Head.{Head};
ghost use Rattle.report_check.specs.Heads.{Spells};
ghost use Rattle.report_check.specs.Reading.{head_of};
ghost use Rattle.report_check.specs.Printed.{printed};

use crate::bytes::cut;
use crate::head::Head;
use replay_model::{Input, NoMemory, Placed};
use std::alloc::Global;

/// The order that a report prints: the place that each of its whole head lines tells, in their order.
///
/// The report may be any bytes. A line without a line feed is not whole, and lines that are no head lines are passed over.
pub fn printed(alloc: Global, input: &Input, report: &[u8]) -> Result<Vec<Placed>, NoMemory>
    ensures order { IfOk result (λ order. order.items ≡ printed input.now report.now) }
    // A head line is read exactly where one is spelled.
    ensures heads { (text : List ℕ) (head : Head) → (head_of text ≡ Some head) ↔ Spells head text }
{
    let mut order = Vec::new(alloc);
    let mut rest = report;
    while let Some((text, behind)) = cut(rest, b'\n') {
        if let Some(head) = Head::read(text) {
            order.push(head.placed(input))?;
        }
        rest = behind;
    }
    Ok(order)
}
