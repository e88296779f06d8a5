ghost use Rattle.std.specs.Prelude.{◌≡◌};
ghost use Rattle.context.specs.Compressor.{reset, judged};

use codes::code::has_code32;
use codes::field::DeltaField;
use context::compressor::{CompressorContext, Due};
use context::kept::Deltas;
use context::step::Judged;
use packet::csrc::same_list;
use packet::header::Header;

// A full header is judged against the deltas that it sets at the decompressor.
#[tactic(auto, unfolding(context::specs::Compressor::reset))]
pub fn reset_deltas(c: CompressorContext) -> CompressorContext
    ensures { result ≡ reset c }
{
    if c.due.full == 0 {
        return c;
    }
    CompressorContext {
        deltas: Deltas {
            id: 1,
            timestamp: 0,
        },
        due: Due {
            did: 0,
            dts: 0,
            ..c.due
        },
        ..c
    }
}

pub fn judge(h: Header, c: CompressorContext) -> Judged
    ensures { result ≡ judged h c }
{
    let deltas = Deltas {
        id: c.ip.id.difference(h.ip.id),
        timestamp: c.rtp.timestamp.difference(h.rtp.timestamp),
    };
    let id = deltas.id != c.deltas.id;
    let timestamp = deltas.timestamp != c.deltas.timestamp;
    let may = (c.due.full == 0) & c.earlier.known;
    Judged {
        id,
        sequence: c.rtp.sequence.difference(h.rtp.sequence) != 1,
        timestamp,
        payload: h.rtp.payload != c.rtp.payload,
        list: !same_list(h.csrc, c.csrc),
        did: may & id & (deltas.id == c.earlier.id),
        dts: may
            & timestamp
            & ((deltas.timestamp == c.earlier.timestamp) & has_code32(deltas.timestamp)),
        deltas,
    }
}
