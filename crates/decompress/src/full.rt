ghost use Rattle.std.specs.Prelude.{◌≡◌};
ghost use Rattle.context.specs.Decompressor.{filled};

use context::decompressor::{DecompressorContext, Status};
use context::kept::{Deltas, Link};
use packet::header::Header;

// A full header sets the whole context, whatever it held.
#[tactic(auto, unfolding(context::specs::Decompressor::filled))]
pub fn fill(h: Header, link: Link) -> DecompressorContext
    ensures { result ≡ filled h link }
{
    DecompressorContext {
        status: Status::Live,
        filled: true,
        flow: h.flow,
        ip: h.ip,
        rtp: h.rtp,
        csrc: h.csrc,
        carried: h.checksum != 0,
        marker: h.marker,
        deltas: Deltas {
            id: 1,
            timestamp: 0,
        },
        link,
    }
}
