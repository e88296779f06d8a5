// What a call costs: 64 voice streams, and one, through both ends.
//
// Without an argument it prints what went over the link, which is the same on every machine; with the argument `time` also
// picoseconds a packet, best of nine rounds. The packets are described in `bench/README.md`: the second program makes the same.
// Read `round` first; what is timed is in crate `bench_timed`.
#![tactic(auto)]

mod ends;
mod round;
mod show;
mod through;

use bench_shared::arguments::{Asked, arguments};
use std::io;
use std::time::CpuClock;

fn run_all(rt: &(impl Print + CpuClock), timed: bool) -> io::Result<()> {
    round::run(rt, 64, 64, timed)?;
    round::run(rt, 1, 64, timed)?;
    round::run(rt, 1, 1, timed)
}

fn main(rt: HostRuntime) -> io::Result<()> {
    match arguments(&rt) {
        Asked::Plain => run_all(&rt, false),
        Asked::Timed => run_all(&rt, true),
        Asked::Unknown => rt.write_all(b"usage: bench [time]\n"),
    }
}
