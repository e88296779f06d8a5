ghost use Rattle.std.specs.Prelude.{◌≡◌, ◌≤◌};
ghost use Rattle.context.specs.Compressor.{stepped};
ghost use Rattle.outgoing.specs.Outgoing.{step_on};

use context::compressor::{CompressorContext, Usage};
use context::kept::Link;
use context::step::Step;
use packet::header::Header;

// The packet's step on a context: the first one, or one more.
#[tactic(auto, unfolding(crate::specs::Outgoing::step_on))]
pub fn step_on(n: u8, h: Header, c: CompressorContext) -> Step
    requires { n ≤ 14 }
    ensures { stepped result ≡ step_on n h c }
{
    match c.status {
        Usage::Empty => compress::step::first_packet(
            n,
            h,
            Link {
                sequence: 0,
                generation: 0,
            },
        ),
        Usage::Live => compress::step::next_packet(n, h, c),
    }
}
