ghost use Rattle.std.specs.Prelude.{◌≤◌};

use crate::packets::put_packet;

// 64 packets at a time are made, sent, received and compared, so that the clock is read once for 64 calls. Packet i has the 200
// bytes from 200 i on in each buffer; buffers of another size than 12,800 bytes are left alone.

// Which stream packet i of a batch is of, and which packet of that stream it is: the next one of each of 64 streams, or the next
// 64 of the only one.
fn stream_of(streams: u32, i: u32) -> u32 {
    if streams == 1 { 0 } else { i }
}

fn number_of(streams: u32, batch: u32, i: u32) -> u32 {
    if streams == 1 {
        64 * (batch % 1000) + i % 64
    } else {
        batch
    }
}

pub fn make(streams: u32, batch: u32, packets: &mut [u8]) {
    if packets.len() != 12800 {
        return;
    }
    for i in 0..64 {
        let at = 200 * (i as usize);
        let end = at + 200;
        let j = stream_of(streams, i);
        let n = number_of(streams, batch, i);
        put_packet(&mut packets[at..end], j, n);
    }
}

// What a send gave out: its type and its length, 0 and 0 where it was refused.
#[derive(Clone, Copy)]
pub struct Given {
    pub kind: u8,
    pub length: usize,
}

pub fn given_by(o: crtp::CompressorOutcome) -> Given {
    let (kind, length) = o.unwrap_or((0, 0));
    Given { kind, length }
}

fn send_one(w: &mut [u32], h: &mut [u16], b: &mut [u8], p: &[u8], out: &mut [u8]) -> Given {
    let outcome = crtp::send(w, h, b, p, out);
    given_by(outcome)
}

// The slices w, h and b are a compressor's table.
pub fn send_all(
    w: &mut [u32],
    h: &mut [u16],
    b: &mut [u8],
    packets: &[u8],
    links: &mut [u8],
    kinds: &mut [u8],
    lengths: &mut [usize],
) {
    if packets.len() != 12800 {
        return;
    }
    if links.len() != 12800 {
        return;
    }
    if kinds.len() != 64 {
        return;
    }
    if lengths.len() != 64 {
        return;
    }
    for i in 0..64 {
        let at = 200 * i;
        let end = at + 200;
        let g = send_one(w, h, b, &packets[at..end], &mut links[at..end]);
        kinds[i] = g.kind;
        lengths[i] = g.length;
    }
}

pub fn wide(b: u8) -> u32 {
    b as u32
}

// A length that is no more than a packet's.
pub fn within(n: usize) -> usize
    ensures { result ≤ 200 }
{
    if n < 200 { n } else { 200 }
}

// The slices w, h and b are a decompressor's table.
pub fn receive_all(
    w: &mut [u32],
    h: &mut [u16],
    b: &mut [u8],
    links: &[u8],
    kinds: &[u8],
    lengths: &[usize],
    rebuilt: &mut [u8],
) {
    if links.len() != 12800 {
        return;
    }
    if rebuilt.len() != 12800 {
        return;
    }
    if kinds.len() != 64 {
        return;
    }
    if lengths.len() != 64 {
        return;
    }
    for i in 0..64 {
        let at = 200 * i;
        let end = at + 200;
        let past = at + within(lengths[i]);
        let kind = wide(kinds[i]);
        let _ = crtp::receive(w, h, b, kind, &links[at..past], &mut rebuilt[at..end]);
    }
}

// The floor: the same bytes, copied.
pub fn copy_all(packets: &[u8], copies: &mut [u8]) {
    if packets.len() != 12800 {
        return;
    }
    if copies.len() != 12800 {
        return;
    }
    for i in 0..64 {
        let at = 200 * i;
        let end = at + 200;
        octets::put::put_all(&mut copies[at..end], 0, &packets[at..end]);
    }
}
