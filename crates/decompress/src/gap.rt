ghost use Rattle.std.specs.Prelude.{◌≡◌, ◌≤◌};
ghost use Rattle.context.specs.Decompressor.{gap_judged};
ghost use Rattle.packet.specs.Refusal.{verdict_number};
ghost use Rattle.context.specs.Field.{gap};

use context::kept::Link;
use packet::refusal::Refusal;

// How many steps a packet with the link sequence q is on, modulo 16.
#[tactic(auto, unfolding(context::specs::Field::gap))]
pub fn gap_of(last: u8, q: u8) -> u8
    ensures { result ≡ gap last q }
{
    (q % Link::SEQUENCES + Link::SEQUENCES - last % Link::SEQUENCES) % Link::SEQUENCES
}

#[tactic(auto, unfolding(context::specs::Decompressor::gap_judged))]
pub fn judge_gap(n: u8, g: u8) -> Result<(), Refusal>
    requires { n ≤ 14 }
    ensures { verdict_number result ≡ gap_judged n g }
{
    if (g == 0) | (n + 1 < g) {
        return Err(Refusal::OutOfStep);
    }
    Ok(())
}
