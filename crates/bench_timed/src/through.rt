use bench_packets::turns::{Given, wide, within};
use bench_shared::clock::{now, passed};
use endpoint::{Done, Outcome};
use std::time::CpuClock;

// The packets of a batch through one endpoint: from the wire, and what it sent from the radio.

fn given_by(o: Outcome) -> Given {
    match o {
        Ok(Done::Sent(k, n)) => Given { kind: k, length: n },
        _ => Given { kind: 0, length: 0 },
    }
}

fn wire_one(
    w: &mut [u32],
    h: &mut [u16],
    b: &mut [u8],
    t: &mut [u32],
    p: &[u8],
    out: &mut [u8],
) -> Given {
    let outcome = endpoint::from_wire(w, h, b, t, p, out);
    given_by(outcome)
}

// The slices w, h and b are the endpoint's compressor, and t its totals.
fn wire_all(
    w: &mut [u32],
    h: &mut [u16],
    b: &mut [u8],
    t: &mut [u32],
    packets: &[u8],
    links: &mut [u8],
    kinds: &mut [u8],
    lengths: &mut [usize],
) {
    if packets.len() != 12800 {
        return;
    }
    if links.len() != 12800 {
        return;
    }
    if kinds.len() != 64 {
        return;
    }
    if lengths.len() != 64 {
        return;
    }
    for i in 0..64 {
        let at = 200 * i;
        let end = at + 200;
        let g = wire_one(w, h, b, t, &packets[at..end], &mut links[at..end]);
        kinds[i] = g.kind;
        lengths[i] = g.length;
    }
}

fn radio_all(
    cw: &mut [u32],
    ch: &mut [u16],
    cb: &mut [u8],
    dw: &mut [u32],
    dh: &mut [u16],
    db: &mut [u8],
    t: &mut [u32],
    links: &[u8],
    kinds: &[u8],
    lengths: &[usize],
    rebuilt: &mut [u8],
) {
    if links.len() != 12800 {
        return;
    }
    if rebuilt.len() != 12800 {
        return;
    }
    if kinds.len() != 64 {
        return;
    }
    if lengths.len() != 64 {
        return;
    }
    for i in 0..64 {
        let at = 200 * i;
        let end = at + 200;
        let past = at + within(lengths[i]);
        let kind = wide(kinds[i]);
        let link = &links[at..past];
        let _ = endpoint::from_radio(cw, ch, cb, dw, dh, db, t, kind, link, &mut rebuilt[at..end]);
    }
}

// The microseconds that one way of a batch took.
pub fn wire_timed(
    rt: &impl CpuClock,
    w: &mut [u32],
    h: &mut [u16],
    b: &mut [u8],
    t: &mut [u32],
    packets: &[u8],
    links: &mut [u8],
    kinds: &mut [u8],
    lengths: &mut [usize],
) -> u64 {
    let from = now(rt);
    wire_all(w, h, b, t, packets, links, kinds, lengths);
    let to = now(rt);
    passed(from, to)
}

pub fn radio_timed(
    rt: &impl CpuClock,
    cw: &mut [u32],
    ch: &mut [u16],
    cb: &mut [u8],
    dw: &mut [u32],
    dh: &mut [u16],
    db: &mut [u8],
    t: &mut [u32],
    links: &[u8],
    kinds: &[u8],
    lengths: &[usize],
    rebuilt: &mut [u8],
) -> u64 {
    let from = now(rt);
    radio_all(cw, ch, cb, dw, dh, db, t, links, kinds, lengths, rebuilt);
    let to = now(rt);
    passed(from, to)
}
