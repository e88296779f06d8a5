ghost use Rattle.std.specs.Prelude.{◌≡◌, ◌≤◌};
ghost use Rattle.context.specs.Decompressor.{broke, effect_of, applied, applied_whole};

use crate::{advance, gap};
use context::decompressor::{Applied, DecompressorContext, Status};
use packet::header::RtpHeader;
use packet::parts::Parts;

#[tactic(auto, unfolding(context::specs::Decompressor::broke))]
pub fn break_context(c: DecompressorContext) -> DecompressorContext
    ensures { result ≡ broke c }
{
    DecompressorContext {
        status: Status::Broken,
        ..c
    }
}

// A CR, or a CU with F, with the link sequence q, on a live context. A refusal has a context too, the broken one, and so is no `?`.
#[tactic(auto, unfolding(context::specs::Decompressor::applied, context::specs::Decompressor::settled))]
pub fn apply(n: u8, q: u8, c: DecompressorContext, p: Parts) -> Applied
    requires { n ≤ 14 }
    ensures { effect_of result ≡ applied n q c p }
{
    let gap = gap::gap_of(c.link.sequence, q);
    let verdict = gap::judge_gap(n, gap);
    let context = match verdict {
        Ok(()) => advance::advance(gap, q, c, p),
        Err(_) => break_context(c),
    };
    Applied {
        verdict,
        gap,
        context,
    }
}

// A CU without F, with the link sequence q and the RTP header w, on a live context.
#[tactic(auto, unfolding(context::specs::Decompressor::applied_whole, context::specs::Decompressor::settled))]
pub fn apply_whole(n: u8, q: u8, c: DecompressorContext, p: Parts, w: RtpHeader) -> Applied
    requires { n ≤ 14 }
    ensures { effect_of result ≡ applied_whole n q c p w }
{
    let gap = gap::gap_of(c.link.sequence, q);
    let verdict = gap::judge_gap(n, gap);
    let context = match verdict {
        Ok(()) => advance::advance_whole(gap, q, c, p, w),
        Err(_) => break_context(c),
    };
    Applied {
        verdict,
        gap,
        context,
    }
}
