ghost use Rattle.std.specs.Prelude.{◌≡◌, ◌<◌, length};
ghost use Rattle.decompressor_table.specs.Layout.{status_of, context_in};

use crate::layout::Layout;
use context::decompressor::{DecompressorContext, Status};
use context::kept::{Deltas, Link};
use packet::csrc::Csrc;
use packet::header::{Ip, Rtp};
pub use planes::flow::flow_at;
use planes::row::row_at;

// No `From`, which would have to stand in `context`: the numbers are this layout's, and a row that is not sound has others too.
fn status_of(v: u8) -> Status
    ensures { result ≡ status_of v }
{
    match v {
        0 => Status::Empty,
        1 => Status::Live,
        _ => Status::Broken,
    }
}

// The context at place i.
pub fn context_at(w: &[u32], h: &[u16], b: &[u8], i: usize) -> DecompressorContext
    requires { (length w.now ≡ 1280) × (length h.now ≡ 320) × (length b.now ≡ 834) × (i < 64) }
    ensures { result ≡ context_in w.now h.now b.now i }
{
    let flow = flow_at(w, h, i);
    let [timestamp, delta_timestamp]: [u32; 2] = row_at(w, i, Layout::TIMESTAMP / 64);
    let words = row_at(w, i, Layout::CSRC / 64);
    let [id, sequence, delta_id]: [u16; 3] = row_at(h, i, Layout::ID / 64);
    let [
        status,
        filled,
        tos,
        ttl,
        flags,
        padding,
        extension,
        carried,
        marker,
        payload,
        count,
        link_sequence,
        generation,
    ]: [u8; 13] = row_at(b, i, 0);
    DecompressorContext {
        status: status_of(status),
        filled: filled == 1,
        flow,
        ip: Ip {
            tos,
            ttl,
            flags,
            id,
        },
        rtp: Rtp {
            padding: padding == 1,
            extension: extension == 1,
            payload,
            sequence,
            timestamp,
        },
        csrc: Csrc { count, words },
        carried: carried == 1,
        marker: marker == 1,
        deltas: Deltas {
            id: delta_id,
            timestamp: delta_timestamp,
        },
        link: Link {
            sequence: link_sequence,
            generation,
        },
    }
}
