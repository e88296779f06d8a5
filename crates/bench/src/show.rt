use crate::ends::Times;
use crate::through::Ways;
use bench_packets::tally::Tally;
use bench_shared::figures::field;
use std::io;

// Picoseconds a packet.
fn each(microseconds: u64) -> u64 {
    (microseconds % 1000000000000) * 1000000 / 32000
}

// What went over the link.
fn work(rt: &impl Print, streams: u32, k: u32, t: Tally) -> io::Result<()> {
    field(rt, b"streams=", streams as u64)?;
    field(rt, b" k=", k as u64)?;
    field(rt, b" fh=", t.full as u64)?;
    field(rt, b" cu=", t.udp as u64)?;
    field(rt, b" cr=", t.rtp as u64)?;
    field(rt, b" header=", t.header as u64)?;
    field(rt, b" sum=", t.sum as u64)?;
    field(rt, b" exact=", t.exact as u64)
}

pub fn line(
    rt: &impl Print,
    streams: u32,
    k: u32,
    t: Tally,
    times: Times,
    timed: bool,
) -> io::Result<()> {
    work(rt, streams, k, t)?;
    if timed {
        field(rt, b" send=", each(times.send))?;
        field(rt, b" receive=", each(times.receive))?;
        field(rt, b" copy=", each(times.copy))?;
    }
    rt.write_all(b"\n")
}

// The same of the endpoint.
pub fn endpoint_line(
    rt: &impl Print,
    streams: u32,
    k: u32,
    t: Tally,
    ways: Ways,
) -> io::Result<()> {
    work(rt, streams, k, t)?;
    field(rt, b" from_wire=", each(ways.wire))?;
    field(rt, b" from_radio=", each(ways.radio))?;
    rt.write_all(b"\n")
}
