//! The lines that refuse a text.

ghost use Rattle.std.specs.Prelude.{◌≡◌, IfOk};
ghost use Rattle.cicada_top.specs.Due.{refusal_text, long_text};

use itoa::Buffer;
use replay_model::NoMemory;
use std::alloc::Global;
use txn_script::InputFault;

/// The line that refuses a text for a fault.
pub(crate) fn refusal_of(alloc: Global, fault: InputFault) -> Result<Vec<u8>, NoMemory>
    ensures { IfOk result (λ text. text.items ≡ refusal_text fault) }
{
    let mut text = Vec::new(alloc);
    text.extend_from_slice(b"refused ")?;
    text.extend_from_slice(Buffer::new().format(fault.line).as_bytes())?;
    text.extend_from_slice(b" ")?;
    text.extend_from_slice(Buffer::new().format(fault.kind).as_bytes())?;
    text.extend_from_slice(b"\n")?;
    Ok(text)
}

/// The line that refuses a text for its length.
pub(crate) fn refusal_for_length(alloc: Global) -> Result<Vec<u8>, NoMemory>
    ensures { IfOk result (λ text. text.items ≡ long_text) }
{
    let mut text = Vec::new(alloc);
    text.extend_from_slice(b"refused 0 long\n")?;
    Ok(text)
}
