use bench_packets::tally::{Tally, count_batch, nothing};
use bench_packets::turns::make;
use bench_shared::figures::least;
use bench_timed::through::{radio_timed, wire_timed};
use crtp::{CompressorLayout, DecompressorLayout};
use endpoint::Totals;
use std::time::CpuClock;

// Microseconds of a round's 32,000 calls from the wire and from the radio.
#[derive(Clone, Copy)]
pub struct Ways {
    pub wire: u64,
    pub radio: u64,
}

// What a round through an endpoint that sends to itself counted and measured.
#[derive(Clone, Copy)]
pub struct Through {
    pub tally: Tally,
    pub ways: Ways,
}

fn later(a: Ways, b: Ways) -> Ways {
    Ways {
        wire: a.wire.wrapping_add(b.wire),
        radio: a.radio.wrapping_add(b.radio),
    }
}

pub fn best(a: Ways, b: Ways) -> Ways {
    Ways {
        wire: least(a.wire, b.wire),
        radio: least(a.radio, b.radio),
    }
}

// The packets of a batch from the wire, and what became of them from the radio.
fn cross(
    rt: &impl CpuClock,
    cw: &mut [u32],
    ch: &mut [u16],
    cb: &mut [u8],
    dw: &mut [u32],
    dh: &mut [u16],
    db: &mut [u8],
    t: &mut [u32],
    packets: &[u8],
    links: &mut [u8],
    kinds: &mut [u8],
    lengths: &mut [usize],
    rebuilt: &mut [u8],
) -> Ways {
    let wire = wire_timed(rt, cw, ch, cb, t, packets, links, kinds, lengths);
    let radio = radio_timed(
        rt, cw, ch, cb, dw, dh, db, t, links, kinds, lengths, rebuilt,
    );
    Ways {
        wire: wire,
        radio: radio,
    }
}

// Batch i, made, through the endpoint, and counted.
fn batch(
    rt: &impl CpuClock,
    cw: &mut [u32],
    ch: &mut [u16],
    cb: &mut [u8],
    dw: &mut [u32],
    dh: &mut [u16],
    db: &mut [u8],
    t: &mut [u32],
    streams: u32,
    i: u32,
    s: Through,
) -> Through {
    let mut packets = [0u8; 12800];
    let mut links = [0u8; 12800];
    let mut rebuilt = [0u8; 12800];
    let mut kinds = [0u8; 64];
    let mut lengths = [0usize; 64];
    make(streams, i, &mut packets);
    let crossed = cross(
        rt,
        cw,
        ch,
        cb,
        dw,
        dh,
        db,
        t,
        &packets,
        &mut links,
        &mut kinds,
        &mut lengths,
        &mut rebuilt,
    );
    Through {
        tally: count_batch(s.tally, &packets, &links, &kinds, &lengths, &rebuilt),
        ways: later(s.ways, crossed),
    }
}

fn batches(
    rt: &impl CpuClock,
    cw: &mut [u32],
    ch: &mut [u16],
    cb: &mut [u8],
    dw: &mut [u32],
    dh: &mut [u16],
    db: &mut [u8],
    t: &mut [u32],
    streams: u32,
) -> Through {
    let mut s = Through {
        tally: nothing(),
        ways: Ways { wire: 0, radio: 0 },
    };
    for i in 0..500 {
        s = batch(rt, cw, ch, cb, dw, dh, db, t, streams, i, s);
    }
    s
}

// A round through an endpoint that is opened for k contexts.
pub fn round(rt: &impl CpuClock, streams: u32, k: u32) -> Through {
    let mut cw = [0u32; CompressorLayout::WORDS];
    let mut ch = [0u16; CompressorLayout::SHORTS];
    let mut cb = [0u8; CompressorLayout::BYTES];
    let mut dw = [0u32; DecompressorLayout::WORDS];
    let mut dh = [0u16; DecompressorLayout::SHORTS];
    let mut db = [0u8; DecompressorLayout::BYTES];
    let mut t = [0u32; Totals::COUNT];
    let _ = endpoint::open(
        &mut cw, &mut ch, &mut cb, &mut dw, &mut dh, &mut db, &mut t, 2, k,
    );
    batches(
        rt, &mut cw, &mut ch, &mut cb, &mut dw, &mut dh, &mut db, &mut t, streams,
    )
}
