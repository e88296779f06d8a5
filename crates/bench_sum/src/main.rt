// What a ones' complement sum costs, over 20 bytes and over 1,500.
//
// A round makes the sums twice: with the carries put back at the end, as `octets` does it, and after every addition, as it was
// done before. Without an argument it prints the last sum, which is the same on every machine; with the argument `time` also
// picoseconds a sum, best of nine rounds. The bytes are described in `bench/README.md`: the second program sums the same.
// Read `round` first.
#![tactic(auto)]

mod former;
mod round;
mod show;

use bench_shared::arguments::{Asked, arguments};
use std::io;
use std::time::CpuClock;

fn run_all(rt: &(impl Print + CpuClock), timed: bool) -> io::Result<()> {
    show::run(rt, 20, 1000000, timed)?;
    show::run(rt, 1500, 64000, timed)
}

fn main(rt: HostRuntime) -> io::Result<()> {
    match arguments(&rt) {
        Asked::Plain => run_all(&rt, false),
        Asked::Timed => run_all(&rt, true),
        Asked::Unknown => rt.write_all(b"usage: bench_sum [time]\n"),
    }
}
