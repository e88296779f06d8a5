ghost use Rattle.std.specs.Prelude.{◌≡◌};
ghost use Rattle.decompressor_steady.specs.Steady.{is_step, is_next, one_step_on};

use codes::field::DeltaField;
use context::decompressor::{DecompressorContext, Status};
use decompress::gap::gap_of;

fn is_step(q: u8, c: DecompressorContext) -> bool
    ensures { result ≡ is_step q c }
{
    let g = gap_of(c.link.sequence, q);
    (c.csrc.count == 0) & (g == 1)
}

// Whether the packet with the link sequence q is the next one of a live context that has no CSRC list. The status is taken apart
// before the gap is looked at.
#[tactic(auto, unfolding(crate::specs::Steady::is_next))]
pub fn is_next(q: u8, c: DecompressorContext) -> bool
    ensures { result ≡ is_next q c }
{
    matches!(c.status, Status::Live) && is_step(q, c)
}

// The context after a CR without fields that is one step on. It says again what `advance` does with such a packet, so that the
// most frequent arrival has few steps.
#[tactic(auto, unfolding(crate::specs::Steady::one_step_on))]
pub fn step_on(q: u8, marker: bool, c: DecompressorContext) -> DecompressorContext
    ensures { result ≡ one_step_on q marker c }
{
    let mut d = c;
    d.ip.id = c.ip.id.sum(c.deltas.id);
    d.rtp.sequence = c.rtp.sequence.sum(1);
    d.rtp.timestamp = c.rtp.timestamp.sum(c.deltas.timestamp);
    d.marker = marker;
    d.link.sequence = q;
    d
}
