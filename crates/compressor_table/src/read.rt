ghost use Rattle.std.specs.Prelude.{◌≡◌, ◌<◌, length};
ghost use Rattle.planes.specs.Planes.{row};
ghost use Rattle.compressor_table.specs.Layout.{usage_of, list_of, context_in};

use crate::layout::Layout;
use context::compressor::{CompressorContext, Due, Earlier, Usage};
use context::kept::{Deltas, Link};
use packet::csrc::Csrc;
use packet::header::{Ip, Rtp};
pub use planes::flow::flow_at;
use planes::row::row_at;

// No `From`, which would have to stand in `context`: the numbers are this layout's, and a row that is not sound has others too.
fn usage_of(v: u8) -> Usage
    ensures { result ≡ usage_of v }
{
    match v {
        0 => Usage::Empty,
        _ => Usage::Live,
    }
}

// The CSRC list of the context at place i.
pub fn list_at(w: &[u32], b: &[u8], i: usize) -> Csrc
    requires { (length w.now ≡ 1344) × (length b.now ≡ 1282) × (i < 64) }
    ensures { result ≡ list_of (row w.now i 0 21) (row b.now i 0 20) }
{
    Csrc {
        count: b[Layout::COUNT + i],
        words: row_at(w, i, Layout::CSRC / 64),
    }
}

// The context at place i, whose list was read. In two parts it is small enough for the compiler to put it where it is called.
pub fn context_with(w: &[u32], h: &[u16], b: &[u8], i: usize, csrc: Csrc) -> CompressorContext
    requires { (length w.now ≡ 1344) × (length h.now ≡ 384) × (length b.now ≡ 1282) × (i < 64)
        × (csrc ≡ list_of (row w.now i 0 21) (row b.now i 0 20)) }
    ensures { result ≡ context_in w.now h.now b.now i }
{
    let flow = flow_at(w, h, i);
    let [timestamp, delta_timestamp, earlier_timestamp]: [u32; 3] = row_at(
        w,
        i,
        Layout::TIMESTAMP / 64,
    );
    let [id, sequence, delta_id, earlier_id]: [u16; 4] = row_at(h, i, Layout::ID / 64);
    let [
        status,
        tos,
        ttl,
        flags,
        padding,
        extension,
        blank,
        payload,
        _,
        known,
        due_id,
        due_sequence,
        due_timestamp,
        due_payload,
        due_list,
        did,
        dts,
        full,
        link_sequence,
        generation,
    ]: [u8; 20] = row_at(b, i, 0);
    CompressorContext {
        status: usage_of(status),
        flow,
        ip: Ip {
            tos,
            ttl,
            flags,
            id,
        },
        rtp: Rtp {
            padding: padding == 1,
            extension: extension == 1,
            payload,
            sequence,
            timestamp,
        },
        csrc,
        blank: blank == 1,
        deltas: Deltas {
            id: delta_id,
            timestamp: delta_timestamp,
        },
        earlier: Earlier {
            known: known == 1,
            id: earlier_id,
            timestamp: earlier_timestamp,
        },
        due: Due {
            full,
            id: due_id,
            sequence: due_sequence,
            timestamp: due_timestamp,
            payload: due_payload,
            list: due_list,
            did,
            dts,
        },
        link: Link {
            sequence: link_sequence,
            generation,
        },
    }
}

// The context at place i.
pub fn context_at(w: &[u32], h: &[u16], b: &[u8], i: usize) -> CompressorContext
    requires { (length w.now ≡ 1344) × (length h.now ≡ 384) × (length b.now ≡ 1282) × (i < 64) }
    ensures { result ≡ context_in w.now h.now b.now i }
{
    let csrc = list_at(w, b, i);
    context_with(w, h, b, i, csrc)
}
