use bench_packets::tally::{Tally, count_batch, nothing};
use bench_packets::turns::make;
use bench_shared::figures::least;
use bench_timed::ends::{copy_timed, receive_timed, send_timed};
use crtp::{CompressorLayout, DecompressorLayout};
use std::time::CpuClock;

// Microseconds of a round's 32,000 sends, receives and copies.
#[derive(Clone, Copy)]
pub struct Times {
    pub send: u64,
    pub receive: u64,
    pub copy: u64,
}

// What a round through both ends counted and measured.
#[derive(Clone, Copy)]
pub struct Ends {
    pub tally: Tally,
    pub times: Times,
}

fn later(t: Times, u: Times) -> Times {
    Times {
        send: t.send.wrapping_add(u.send),
        receive: t.receive.wrapping_add(u.receive),
        copy: t.copy.wrapping_add(u.copy),
    }
}

pub fn best(a: Times, b: Times) -> Times {
    Times {
        send: least(a.send, b.send),
        receive: least(a.receive, b.receive),
        copy: least(a.copy, b.copy),
    }
}

// The packets of a batch over the link and back: the compressor's table is cw, ch and cb, the decompressor's dw, dh and db.
fn cross(
    rt: &impl CpuClock,
    cw: &mut [u32],
    ch: &mut [u16],
    cb: &mut [u8],
    dw: &mut [u32],
    dh: &mut [u16],
    db: &mut [u8],
    packets: &[u8],
    links: &mut [u8],
    kinds: &mut [u8],
    lengths: &mut [usize],
    rebuilt: &mut [u8],
) -> Times {
    let send = send_timed(rt, cw, ch, cb, packets, links, kinds, lengths);
    let receive = receive_timed(rt, dw, dh, db, links, kinds, lengths, rebuilt);
    Times {
        send: send,
        receive: receive,
        copy: 0,
    }
}

// What crossed is counted, and copied for the floor; the link packets are no longer needed then.
fn settle(
    rt: &impl CpuClock,
    s: Ends,
    crossed: Times,
    packets: &[u8],
    links: &mut [u8],
    kinds: &[u8],
    lengths: &[usize],
    rebuilt: &[u8],
) -> Ends {
    let counted = count_batch(s.tally, packets, links, kinds, lengths, rebuilt);
    let mut times = crossed;
    times.copy = copy_timed(rt, packets, links);
    Ends {
        tally: counted,
        times: later(s.times, times),
    }
}

// Batch i, made, over the link and back, counted and copied.
fn batch(
    rt: &impl CpuClock,
    cw: &mut [u32],
    ch: &mut [u16],
    cb: &mut [u8],
    dw: &mut [u32],
    dh: &mut [u16],
    db: &mut [u8],
    streams: u32,
    i: u32,
    s: Ends,
) -> Ends {
    let mut packets = [0u8; 12800];
    let mut links = [0u8; 12800];
    let mut rebuilt = [0u8; 12800];
    let mut kinds = [0u8; 64];
    let mut lengths = [0usize; 64];
    make(streams, i, &mut packets);
    let crossed = cross(
        rt,
        cw,
        ch,
        cb,
        dw,
        dh,
        db,
        &packets,
        &mut links,
        &mut kinds,
        &mut lengths,
        &mut rebuilt,
    );
    settle(
        rt, s, crossed, &packets, &mut links, &kinds, &lengths, &rebuilt,
    )
}

fn batches(
    rt: &impl CpuClock,
    cw: &mut [u32],
    ch: &mut [u16],
    cb: &mut [u8],
    dw: &mut [u32],
    dh: &mut [u16],
    db: &mut [u8],
    streams: u32,
) -> Ends {
    let mut s = Ends {
        tally: nothing(),
        times: Times {
            send: 0,
            receive: 0,
            copy: 0,
        },
    };
    for i in 0..500 {
        s = batch(rt, cw, ch, cb, dw, dh, db, streams, i, s);
    }
    s
}

// A round through both ends, which are opened for k contexts.
pub fn round(rt: &impl CpuClock, streams: u32, k: u32) -> Ends {
    let mut cw = [0u32; CompressorLayout::WORDS];
    let mut ch = [0u16; CompressorLayout::SHORTS];
    let mut cb = [0u8; CompressorLayout::BYTES];
    let mut dw = [0u32; DecompressorLayout::WORDS];
    let mut dh = [0u16; DecompressorLayout::SHORTS];
    let mut db = [0u8; DecompressorLayout::BYTES];
    let _ = crtp::open_compressor(&mut cw, &mut ch, &mut cb, 2, k);
    let _ = crtp::open_decompressor(&mut dw, &mut dh, &mut db, 2, k);
    batches(
        rt, &mut cw, &mut ch, &mut cb, &mut dw, &mut dh, &mut db, streams,
    )
}
