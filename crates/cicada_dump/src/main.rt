//! The program `cicada_dump`: runs with dumps over the standard streams.
#![tactic(auto)]

use cicada_top::{Prepared, ended, prepare, told};
use dump_top::run_dumps;
use outside_io::{OpenGate, RealClock};
use std::env;
use std::process::ExitCode;

/// The program's name, in what is told on standard error.
const NAME: &str = "cicada_dump";

fn main(rt: HostRuntime) -> ExitCode {
    let args = env::args(&rt);
    let clock = RealClock::new(&rt);
    let prepared = match prepare(&rt, rt.alloc(), NAME, args, rt.stdin(), rt.stdout(), clock) {
        Ok(prepared) => prepared,
        Err(status) => return ended(&rt, NAME, status),
    };
    let Prepared {
        words,
        mut source,
        mut sink,
        clocks,
    } = prepared;
    let finish = run_dumps(
        &rt,
        rt.alloc(),
        &words,
        &mut source,
        &mut sink,
        clocks,
        &OpenGate,
    );
    told(&rt, NAME, &finish)
}
