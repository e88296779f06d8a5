use bench_packets::turns::{copy_all, receive_all, send_all};
use bench_shared::clock::{now, passed};
use std::time::CpuClock;

// The sends of a batch at the compressor whose table is w, h and b: the microseconds that they took.
pub fn send_timed(
    rt: &impl CpuClock,
    w: &mut [u32],
    h: &mut [u16],
    b: &mut [u8],
    packets: &[u8],
    links: &mut [u8],
    kinds: &mut [u8],
    lengths: &mut [usize],
) -> u64 {
    let from = now(rt);
    send_all(w, h, b, packets, links, kinds, lengths);
    let to = now(rt);
    passed(from, to)
}

// The same of a decompressor.
pub fn receive_timed(
    rt: &impl CpuClock,
    w: &mut [u32],
    h: &mut [u16],
    b: &mut [u8],
    links: &[u8],
    kinds: &[u8],
    lengths: &[usize],
    rebuilt: &mut [u8],
) -> u64 {
    let from = now(rt);
    receive_all(w, h, b, links, kinds, lengths, rebuilt);
    let to = now(rt);
    passed(from, to)
}

pub fn copy_timed(rt: &impl CpuClock, packets: &[u8], copies: &mut [u8]) -> u64 {
    let from = now(rt);
    copy_all(packets, copies);
    let to = now(rt);
    passed(from, to)
}
