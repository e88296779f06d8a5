use crate::ends::Times;
use crate::show::{endpoint_line, line};
use crate::through::Ways;
use crate::{ends, through};
use std::io;
use std::time::CpuClock;

fn best_times(rt: &impl CpuClock, streams: u32, k: u32, first: Times) -> Times {
    let mut t = first;
    for _ in 1..9 {
        let r = ends::round(rt, streams, k);
        t = ends::best(t, r.times);
    }
    t
}

fn best_ways(rt: &impl CpuClock, streams: u32, k: u32, first: Ways) -> Ways {
    let mut w = first;
    for _ in 1..9 {
        let r = through::round(rt, streams, k);
        w = through::best(w, r.ways);
    }
    w
}

// One configuration: so many streams through ends with k contexts, and where times are asked for through an endpoint too.
pub fn run(rt: &(impl Print + CpuClock), streams: u32, k: u32, timed: bool) -> io::Result<()> {
    let r = ends::round(rt, streams, k);
    if timed {
        let times = best_times(rt, streams, k, r.times);
        line(rt, streams, k, r.tally, times, true)?;
        let t = through::round(rt, streams, k);
        let ways = best_ways(rt, streams, k, t.ways);
        return endpoint_line(rt, streams, k, t.tally, ways);
    }
    line(rt, streams, k, r.tally, r.times, false)
}
