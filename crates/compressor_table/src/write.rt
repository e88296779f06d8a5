ghost use Rattle.std.specs.Prelude.{◌≡◌, ◌<◌, ◌++◌};
ghost use Rattle.planes.specs.Planes.{lent};
ghost use Rattle.compressor_table.specs.Layout.{words_of, shorts_of, bytes_of, Fits, Puts};

use context::compressor::CompressorContext;
use planes::row::put_row;

// The words before those of the list.
fn words_before(c: CompressorContext) -> [u32; 6]
    ensures { result ++ c.csrc.words ≡ words_of c }
{
    [
        c.flow.source,
        c.flow.destination,
        c.flow.ssrc,
        c.rtp.timestamp,
        c.deltas.timestamp,
        c.earlier.timestamp,
    ]
}

fn shorts_of(c: CompressorContext) -> [u16; 6]
    ensures { result ≡ shorts_of c }
{
    [
        c.flow.sport,
        c.flow.dport,
        c.ip.id,
        c.rtp.sequence,
        c.deltas.id,
        c.earlier.id,
    ]
}

fn bytes_of(c: CompressorContext) -> [u8; 20]
    ensures { result ≡ bytes_of c }
{
    [
        c.status as u8,
        c.ip.tos,
        c.ip.ttl,
        c.ip.flags,
        u8::from(c.rtp.padding),
        u8::from(c.rtp.extension),
        u8::from(c.blank),
        c.rtp.payload,
        c.csrc.count,
        u8::from(c.earlier.known),
        c.due.id,
        c.due.sequence,
        c.due.timestamp,
        c.due.payload,
        c.due.list,
        c.due.did,
        c.due.dts,
        c.due.full,
        c.link.sequence,
        c.link.generation,
    ]
}

// Another context at place i.
pub fn put_context(w: &mut [u32], h: &mut [u16], b: &mut [u8], i: usize, c: CompressorContext)
    requires { Fits (lent w.old h.old b.old) × (i < 64) }
    ensures { Puts (lent w.old h.old b.old) i c
        (lent w.new h.new b.new) }
{
    let before = words_before(c);
    put_row(w, i, 0, &before);
    put_row(w, i, before.len(), &c.csrc.words);
    put_row(h, i, 0, &shorts_of(c));
    put_row(b, i, 0, &bytes_of(c));
}
