ghost use Rattle.std.specs.Prelude.{◌≤◌};

use crate::round::{Round, run_round};
use bench_shared::figures::{field, least};
use std::io;
use std::time::CpuClock;

fn best_of_nine(rt: &impl CpuClock, size: u16, carried: bool, first: Round) -> u64
    requires { (40 ≤ size) × (size ≤ 1500) }
{
    let mut time = first.time;
    for _ in 1..9 {
        let r = run_round(rt, size, carried, 32000);
        time = least(time, r.time);
    }
    time
}

// One length, judged or not: what became of the calls, and where asked picoseconds a call.
pub fn run(rt: &(impl Print + CpuClock), size: u16, carried: bool, timed: bool) -> io::Result<()>
    requires { (40 ≤ size) × (size ≤ 1500) }
{
    let first = run_round(rt, size, carried, 32000);
    field(rt, b"bytes=", size as u64)?;
    field(rt, b" carried=", carried as u64)?;
    field(rt, b" calls=", 32000)?;
    field(rt, b" accepted=", first.accepted as u64)?;
    field(rt, b" last=", first.last as u64)?;
    if timed {
        let time = best_of_nine(rt, size, carried, first);
        field(rt, b" receive=", (time % 1000000000000) * 1000000 / 32000)?;
    }
    rt.write_all(b"\n")
}
