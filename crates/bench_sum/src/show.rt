ghost use Rattle.std.specs.Prelude.{◌≤◌};

use crate::round::{Round, run_round};
use bench_shared::figures::{field, least};
use std::io;
use std::time::CpuClock;

// Picoseconds a sum.
fn picoseconds(microseconds: u64, count: u32) -> u64 {
    if count == 0 {
        return 0;
    }
    (microseconds % 1000000000000) * 1000000 / (count as u64)
}

fn best(a: Round, b: Round) -> Round {
    Round {
        at_end: b.at_end,
        after_each: b.after_each,
        at_end_time: least(a.at_end_time, b.at_end_time),
        after_each_time: least(a.after_each_time, b.after_each_time),
    }
}

fn best_of_nine(rt: &impl CpuClock, size: usize, count: u32, first: Round) -> Round
    requires { size ≤ 1500 }
{
    let mut r = first;
    for _ in 1..9 {
        r = best(r, run_round(rt, size, count));
    }
    r
}

// One length: what was summed, and where asked what it cost.
pub fn run(rt: &(impl Print + CpuClock), size: usize, count: u32, timed: bool) -> io::Result<()>
    requires { size ≤ 1500 }
{
    let first = run_round(rt, size, count);
    field(rt, b"bytes=", size as u64)?;
    field(rt, b" sums=", count as u64)?;
    field(rt, b" last=", first.at_end as u64)?;
    // both ways give the same, or a field more would show it
    if first.at_end != first.after_each {
        field(rt, b" differs=", first.after_each as u64)?;
    }
    if timed {
        let r = best_of_nine(rt, size, count, first);
        field(rt, b" at_end=", picoseconds(r.at_end_time, count))?;
        field(rt, b" after_each=", picoseconds(r.after_each_time, count))?;
    }
    rt.write_all(b"\n")
}
