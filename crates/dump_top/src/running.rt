//! The top call.

ghost use Rattle.std.specs.Prelude.{◌≡◌, ◌<◌, ◌≤◌, ◌^◌, List, ℕ, All, map, string_bytes, length, None};
ghost use Rattle.outside_io.specs.Faults.{HasRisen, count_end};
ghost use Rattle.replay_model.specs.Input.{IsColumn};
ghost use Rattle.snap_dump.specs.Dumps.{seen_in};
ghost use Rattle.program_io.specs.declared.mode.Mode.TheVariants.{Run};
ghost use Rattle.program_io.specs.Words.{AreAccepted, mode_of};
ghost use Rattle.cicada_top.specs.Runs.{IsDecided, streams};
ghost use Rattle.dump_top.specs.Words.{AreRefusedHere, AsksFor};
ghost use Rattle.dump_top.specs.Endings.{DeliversDumps, DumpsAs, DumpsBy, status_at};
ghost use Rattle.dump_top.specs.Texts.{readings_text};

use crate::words::{behind_first, read_dump_words};
use crate::writing::write_dumps;
use cicada_top::{Finish, Status, run_with};
use outside_io::{Clock, Gate, Sink, SinkFault, Source};
use program_io::Refusal;
use snap_dump::{Dump, Dumping};
use std::alloc::Global;
use std::sync::Wait;
use std::thread::Threads;

/// Runs the input that the source holds as `run` of `cicada_top` does, makes dumps of all tables beside the lanes that run, and writes
/// them behind the report: `dump STAMP`, the declared tables as a report has them, `done`.
///
/// The first word is the number of dumps, from 0 to 64; the others are those of a run. Each dump is of one snapshot, and shows the tables
/// as the transactions stamped up to its stamp leave them. The first are made between the blocks of the first worker, and what is left by
/// the caller alone, behind all lanes.
///
/// The call may wait, for its threads and in the gate; all that is said here holds if it returns. Want of memory may come at any point.
pub fn run_dumps<R: Threads + Wait + Sync, S: Source, K: Sink, C: Clock, G: Gate>(
    rt: &R,
    alloc: Global,
    words: &[String],
    source: &mut S,
    sink: &mut K,
    clocks: Vec<C>,
    gate: &G,
) -> Finish
    requires { length clocks.items ≡ 64 }

    // What is answered, read and written: at `Done` it is the theorem of dumps, the report and each dump the tables up to its stamp.
    ensures runs { DumpsBy (map string_bytes words.now) result
        (streams (S.left source.old) (K.taken sink.old) (S.faults source.old) (K.faults sink.old))
        (streams (S.left source.new) (K.taken sink.new) (S.faults source.new) (K.faults sink.new)) }

    // Where the words are refused nothing is touched.
    ensures words_first { AreRefusedHere (map string_bytes words.now) → (source.new ≡ source.old) × (sink.new ≡ sink.old) }
{
    match read_dump_words(alloc, words) {
        Ok(dumps) => {
            let others = behind_first(words);
            run_asked(rt, alloc, dumps, others, source, sink, clocks, gate)
        }
        Err(Refusal::Usage(text)) => Finish {
            usage: Some(text),
            ..Finish::bare(alloc, Status::Usage)
        },
        Err(Refusal::NoMemory) => Finish::bare(alloc, Status::NoMemory),
    }
}

/// Runs with so many dumps, where the words of the run are accepted and ask to run what the source holds.
fn run_asked<R: Threads + Wait + Sync, S: Source, K: Sink, C: Clock, G: Gate>(
    rt: &R,
    alloc: Global,
    dumps: u32,
    others: &[String],
    source: &mut S,
    sink: &mut K,
    clocks: Vec<C>,
    gate: &G,
) -> Finish
    requires few { dumps ≤ 64 }
    requires accepted { AreAccepted (map string_bytes others.now) }
    requires runs { mode_of (map string_bytes others.now) ≡ Run }
    requires clocks { length clocks.items ≡ 64 }
    ensures runs { (given : List (List ℕ)) → AsksFor given dumps → DumpsAs given result
        (streams (S.left source.old) (K.taken sink.old) (S.faults source.old) (K.faults sink.old))
        (streams (S.left source.new) (K.taken sink.new) (S.faults source.new) (K.faults sink.new)) }
    ensures complete { IsDecided Run result.status
        (streams (S.left source.old) (K.taken sink.old) (S.faults source.old) (K.faults sink.old))
        (streams (S.left source.new) (K.taken sink.new) (S.faults source.new) (K.faults sink.new)) }
    ensures no_usage { result.status ≡ Status.Usage → ⊥ }
    ensures usage { result.usage ≡ None }
{
    let Ok(mut dumping) = Dumping::new(alloc, dumps) else {
        return Finish::bare(alloc, Status::NoMemory);
    };
    let finish = run_with(rt, alloc, others, source, sink, clocks, gate, &mut dumping);
    if finish.status != Status::Done {
        return finish;
    }
    deliver_dumps(alloc, finish, dumping.dumps(), sink)
}

/// Writes dumps behind the report of a run that is done, and says how that ended: where the sink stops, all but the status stays.
fn deliver_dumps<K: Sink>(alloc: Global, finish: Finish, dumps: &[Dump], sink: &mut K) -> Finish
    requires done { finish.status ≡ Status.Done }
    requires columns { All (λ table. IsColumn table.1) finish.tables }
    requires few { length finish.tables < 2 ^ 32 }
    ensures delivers { DeliversDumps finish result (readings_text finish.tables (seen_in dumps.now)) (K.taken sink.old) (K.taken sink.new) }
    ensures failed { result.status ≡ Status.WriteFault → HasRisen (K.faults sink.old) (K.faults sink.new) }
    ensures never_falls { K.faults sink.old ≤ K.faults sink.new }
    ensures stays_ended { K.faults sink.old ≡ count_end → K.faults sink.new ≡ count_end }
{
    match write_dumps(alloc, sink, &finish.tables, dumps) {
        Ok(()) => finish,
        Err(fault) => Finish {
            status: status_at(fault),
            ..finish
        },
    }
}

/// The status where a sink stops.
fn status_at(fault: SinkFault) -> Status
    ensures { result ≡ status_at fault }
{
    match fault {
        SinkFault::Failed => Status::WriteFault,
        SinkFault::NoMemory => Status::NoMemory,
    }
}
