//! The top call over the standard streams: what a program's `main` does.

ghost use Rattle.std.specs.Prelude.{◌≡◌, length};

use crate::finish::{Finish, Status};
use crate::telling::{refuse_words, tell};
use crate::top::run_with;
use lane_threads::LaneRun;
use outside_io::{Chosen, Clock, OpenGate, StdSink, StdSource};
use std::alloc::Global;
use std::env::Args;
use std::io::{self, Eprint};
use std::process::ExitCode;
use std::rt::{Stdin, Stdout};
use std::sync::Wait;
use std::thread::Threads;

/// What a program hands to its top call: the words behind its name, the standard streams, and a clock for each worker that there may be.
#[derive(Drop)]
pub struct Prepared<C> {
    pub words: Vec<String>,
    pub source: StdSource,
    pub sink: StdSink,
    pub clocks: Vec<C>,
    pub ghost enough: { length clocks.items ≡ 64 },
}

/// Hands the words behind the program's name to the top call, over the standard streams and by this clock, with the lanes run in this way.
/// What standard output may not say enough of is told on standard error, under the program's name.
pub fn run_program<
    R: Threads + Wait + Sync + Eprint,
    C: Clock + Copy,
    L: LaneRun<Chosen<C>, OpenGate>,
>(
    rt: &R,
    alloc: Global,
    name: &str,
    args: io::Result<Args>,
    input: Stdin,
    output: Stdout,
    clock: C,
    lanes: &mut L,
) -> ExitCode {
    match prepare(rt, alloc, name, args, input, output, clock) {
        Ok(prepared) => {
            let Prepared {
                words,
                mut source,
                mut sink,
                clocks,
            } = prepared;
            let finish = run_with(
                rt,
                alloc,
                &words,
                &mut source,
                &mut sink,
                clocks,
                &OpenGate,
                lanes,
            );
            told(rt, name, &finish)
        }
        Err(status) => ended(rt, name, status),
    }
}

/// What a program hands to its top call, where the words can be had and there is memory.
pub fn prepare<R: Eprint, C: Clock + Copy>(
    rt: &R,
    alloc: Global,
    name: &str,
    args: io::Result<Args>,
    input: Stdin,
    output: Stdout,
    clock: C,
) -> Result<Prepared<C>, Status> {
    let args = match args {
        Ok(args) => args,
        Err(error) => return Err(refuse_words(rt, name, &error)),
    };
    let Ok(words) = args.skip(1).collect::<Vec<String>>(alloc) else {
        return Err(Status::NoMemory);
    };
    let Ok(clocks) = vec![in alloc; clock; 64] else {
        return Err(Status::NoMemory);
    };
    Ok(Prepared {
        words,
        source: StdSource::new(input),
        sink: StdSink::new(output),
        clocks,
    })
}

/// Tells the user what a run came to, and ends the program so.
pub fn told<R: Eprint>(rt: &R, name: &str, finish: &Finish) -> ExitCode {
    tell(rt, name, finish);
    ended(rt, name, finish.status)
}

/// Ends the program with a status.
pub fn ended<R: Eprint>(rt: &R, name: &str, status: Status) -> ExitCode {
    if let Some(sentence) = status.sentence() {
        let _ = eprintln!(rt; "{name}: {sentence}");
    }
    ExitCode::from(status.number())
}
