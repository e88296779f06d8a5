// What an arrival costs that the UDP checksum judges, beside the same arrival on a context that carries none.
//
// The packets have 200 bytes and 1,500. Without an argument it prints how many calls were accepted and the sum of what was rebuilt,
// which are the same on every machine; with the argument `time` also picoseconds a call, best of nine rounds. What arrives is
// described in `bench/README.md`: the second program receives the same.
// Read `round` first.
#![tactic(auto)]

mod frames;
mod round;
mod show;

use bench_shared::arguments::{Asked, arguments};
use std::io;
use std::time::CpuClock;

fn run_all(rt: &(impl Print + CpuClock), timed: bool) -> io::Result<()> {
    show::run(rt, 200, false, timed)?;
    show::run(rt, 200, true, timed)?;
    show::run(rt, 1500, false, timed)?;
    show::run(rt, 1500, true, timed)
}

fn main(rt: HostRuntime) -> io::Result<()> {
    match arguments(&rt) {
        Asked::Plain => run_all(&rt, false),
        Asked::Timed => run_all(&rt, true),
        Asked::Unknown => rt.write_all(b"usage: bench_judged [time]\n"),
    }
}
