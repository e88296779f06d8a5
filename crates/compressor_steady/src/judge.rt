ghost use Rattle.std.specs.Prelude.{◌≡◌};
ghost use Rattle.context.specs.Sound.{zero_due};
ghost use Rattle.compressor_steady.specs.Steady.{on_pattern, steady};

use codes::field::DeltaField;
use compress::run::same_constants;
use context::compressor::{CompressorContext, Due, Usage};
use packet::header::Header;

fn is_idle(d: Due) -> bool
    ensures { result ≡ zero_due d }
{
    (d.full == 0)
        & (d.id == 0)
        & (d.sequence == 0)
        & (d.timestamp == 0)
        & (d.payload == 0)
        & (d.list == 0)
        & (d.did == 0)
        & (d.dts == 0)
}

fn is_on_pattern(h: Header, c: CompressorContext) -> bool
    ensures { result ≡ on_pattern h c }
{
    (c.ip.id.difference(h.ip.id) == c.deltas.id)
        & (c.rtp.sequence.difference(h.rtp.sequence) == 1)
        & (c.rtp.timestamp.difference(h.rtp.timestamp) == c.deltas.timestamp)
        & (h.rtp.payload == c.rtp.payload)
        & (h.csrc.count == 0)
        & (c.csrc.count == 0)
}

// Whether a packet goes out as a CR with no field but the UDP checksum. It says so of no packet with a list, which would have to
// be compared.
#[tactic(auto, unfolding(crate::specs::Steady::steady))]
pub fn is_steady(h: Header, c: CompressorContext) -> bool
    ensures { result ≡ steady h c }
{
    matches!(c.status, Usage::Live) & same_constants(h, c) & is_idle(c.due) & is_on_pattern(h, c)
}
