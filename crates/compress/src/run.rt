ghost use Rattle.std.specs.Prelude.{◌≡◌, ◌≤◌};
ghost use Rattle.context.specs.Field.{next_generation};
ghost use Rattle.context.specs.Compressor.{same_constants, started, begun, started_unless_due, requested};

use context::compressor::{CompressorContext, Due, Usage};
use context::kept::Link;
use packet::header::Header;

#[tactic(auto, unfolding(context::specs::Field::next_generation))]
fn next_generation(g: u8) -> u8
    ensures { result ≡ next_generation g }
{
    (g % Link::GENERATIONS + 1) % Link::GENERATIONS
}

// The one place where a run starts afresh, for a packet and for a request.
#[tactic(auto, unfolding(context::specs::Compressor::started))]
fn start_run(n: u8, c: CompressorContext) -> CompressorContext
    requires { n ≤ 14 }
    ensures { result ≡ started n c }
{
    CompressorContext {
        due: Due {
            full: n + 1,
            ..c.due
        },
        link: Link {
            generation: next_generation(c.link.generation),
            ..c.link
        },
        ..c
    }
}

// Whether the fields that no CU and no CR carries are as they were.
#[tactic(auto, unfolding(context::specs::Compressor::same_constants))]
pub fn same_constants(h: Header, c: CompressorContext) -> bool
    ensures { result ≡ same_constants h c }
{
    (h.ip.tos == c.ip.tos)
        & (h.ip.ttl == c.ip.ttl)
        & (h.ip.flags == c.ip.flags)
        & (h.rtp.padding == c.rtp.padding)
        & (h.rtp.extension == c.rtp.extension)
        & ((h.checksum == 0) == c.blank)
}

#[tactic(auto, unfolding(context::specs::Compressor::begun))]
pub fn begin(n: u8, h: Header, c: CompressorContext) -> CompressorContext
    requires { n ≤ 14 }
    ensures { result ≡ begun n h c }
{
    if same_constants(h, c) {
        c
    } else {
        start_run(n, c)
    }
}

#[tactic(auto, unfolding(context::specs::Compressor::started_unless_due))]
fn start_unless_due(n: u8, c: CompressorContext) -> CompressorContext
    requires { n ≤ 14 }
    ensures { result ≡ started_unless_due n c }
{
    if 0 < c.due.full { c } else { start_run(n, c) }
}

// A record of a context-state request that asks for whole headers.
#[tactic(auto, unfolding(context::specs::Compressor::requested))]
pub fn request(n: u8, c: CompressorContext) -> CompressorContext
    requires { n ≤ 14 }
    ensures { result ≡ requested n c }
{
    match c.status {
        Usage::Empty => c,
        Usage::Live => start_unless_due(n, c),
    }
}
