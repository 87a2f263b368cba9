//! Writing dumps behind a report.

ghost use Rattle.std.specs.Prelude.{◌≡◌, ◌^◌, ◌<◌, ◌≤◌, Err, All, length, OnErr, OnOk};
ghost use Rattle.std.specs.Io.KnownBytes.{append_known};
ghost use Rattle.outside_io.specs.Faults.{HasRisen, count_end};
ghost use Rattle.replay_model.specs.Input.{IsColumn};
ghost use Rattle.snap_dump.specs.Dumps.{seen_in, seen_of};
ghost use Rattle.dump_top.specs.Parts.{IsWrittenInPart};
ghost use Rattle.dump_top.specs.Texts.{dump_text, readings_text};

use crate::texts::text_of_dump;
use outside_io::{Sink, SinkFault};
use program_io::write_all;
use replay_model::Names;
use snap_dump::Dump;
use std::alloc::Global;

/// Writes dumps one behind the other. Where that fails, a part of their text was written.
pub(crate) fn write_dumps<K: Sink>(
    alloc: Global,
    sink: &mut K,
    declared: &Names,
    dumps: &[Dump],
) -> Result<(), SinkFault>
    requires columns { All (λ table. IsColumn table.1) declared.now }
    requires few { length declared.now < 2 ^ 32 }
    ensures all { OnOk result (K.taken sink.new ≡ append_known (K.taken sink.old) (readings_text declared.now (seen_in dumps.now))) }
    ensures part { OnErr result (IsWrittenInPart (readings_text declared.now (seen_in dumps.now)) (K.taken sink.old) (K.taken sink.new)) }
    ensures never_falls { K.faults sink.old ≤ K.faults sink.new }
    ensures stays_ended { K.faults sink.old ≡ count_end → K.faults sink.new ≡ count_end }
    ensures failed { result ≡ Err SinkFault.Failed → HasRisen (K.faults sink.old) (K.faults sink.new) }
{
    for dump in dumps {
        write_dump(alloc, sink, declared, dump)?;
    }
    Ok(())
}

/// Writes a dump.
fn write_dump<K: Sink>(
    alloc: Global,
    sink: &mut K,
    declared: &Names,
    dump: &Dump,
) -> Result<(), SinkFault>
    requires columns { All (λ table. IsColumn table.1) declared.now }
    requires few { length declared.now < 2 ^ 32 }
    ensures all { OnOk result (K.taken sink.new ≡ append_known (K.taken sink.old) (dump_text declared.now (seen_of dump.now).0 (seen_of dump.now).1)) }
    ensures part { OnErr result (IsWrittenInPart (dump_text declared.now (seen_of dump.now).0 (seen_of dump.now).1) (K.taken sink.old) (K.taken sink.new)) }
    ensures never_falls { K.faults sink.old ≤ K.faults sink.new }
    ensures stays_ended { K.faults sink.old ≡ count_end → K.faults sink.new ≡ count_end }
    ensures failed { result ≡ Err SinkFault.Failed → HasRisen (K.faults sink.old) (K.faults sink.new) }
{
    let Ok(text) = text_of_dump(alloc, declared, dump) else {
        return Err(SinkFault::NoMemory);
    };
    match write_all(sink, &text) {
        Ok(()) => Ok(()),
        Err(stop) => Err(stop.fault),
    }
}
