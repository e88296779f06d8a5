// An endpoint with its memory in one struct. The calls are lent the arrays; this program, which is not in a hurry, copies them.
use crtp::{CompressorLayout, DecompressorLayout};
use endpoint::{Outcome, Totals};

#[derive(Clone, Copy)]
pub struct Place {
    pub cw: [u32; CompressorLayout::WORDS],
    pub ch: [u16; CompressorLayout::SHORTS],
    pub cb: [u8; CompressorLayout::BYTES],
    pub dw: [u32; DecompressorLayout::WORDS],
    pub dh: [u16; DecompressorLayout::SHORTS],
    pub db: [u8; DecompressorLayout::BYTES],
    pub totals: [u32; Totals::COUNT],
}

// What became of a call, and the memory that it left.
#[derive(Clone, Copy)]
pub struct Answer {
    pub place: Place,
    pub outcome: Outcome,
}

// An endpoint opened for losses of up to n packets in a row and for k flows.
pub fn opened(n: u32, k: u32) -> Place {
    let mut cw = [0u32; CompressorLayout::WORDS];
    let mut ch = [0u16; CompressorLayout::SHORTS];
    let mut cb = [0u8; CompressorLayout::BYTES];
    let mut dw = [0u32; DecompressorLayout::WORDS];
    let mut dh = [0u16; DecompressorLayout::SHORTS];
    let mut db = [0u8; DecompressorLayout::BYTES];
    let mut totals = [0u32; Totals::COUNT];
    let _ = endpoint::open(
        &mut cw,
        &mut ch,
        &mut cb,
        &mut dw,
        &mut dh,
        &mut db,
        &mut totals,
        n,
        k,
    );
    Place {
        cw: cw,
        ch: ch,
        cb: cb,
        dw: dw,
        dh: dh,
        db: db,
        totals: totals,
    }
}

pub fn from_wire(p: Place, packet: &[u8], out: &mut [u8]) -> Answer {
    let mut cw = p.cw;
    let mut ch = p.ch;
    let mut cb = p.cb;
    let mut totals = p.totals;
    let outcome = endpoint::from_wire(&mut cw, &mut ch, &mut cb, &mut totals, packet, out);
    let mut next = p;
    next.cw = cw;
    next.ch = ch;
    next.cb = cb;
    next.totals = totals;
    Answer {
        place: next,
        outcome: outcome,
    }
}

pub fn from_radio(p: Place, kind: u32, bytes: &[u8], out: &mut [u8]) -> Answer {
    let mut cw = p.cw;
    let mut ch = p.ch;
    let mut cb = p.cb;
    let mut dw = p.dw;
    let mut dh = p.dh;
    let mut db = p.db;
    let mut totals = p.totals;
    let outcome = endpoint::from_radio(
        &mut cw,
        &mut ch,
        &mut cb,
        &mut dw,
        &mut dh,
        &mut db,
        &mut totals,
        kind,
        bytes,
        out,
    );
    Answer {
        place: Place {
            cw: cw,
            ch: ch,
            cb: cb,
            dw: dw,
            dh: dh,
            db: db,
            totals: totals,
        },
        outcome: outcome,
    }
}

pub fn report(p: Place, out: &mut [u8]) -> Answer {
    let dw = p.dw;
    let dh = p.dh;
    let db = p.db;
    let mut totals = p.totals;
    let outcome = endpoint::report(&dw, &dh, &db, &mut totals, out);
    let mut next = p;
    next.totals = totals;
    Answer {
        place: next,
        outcome: outcome,
    }
}
