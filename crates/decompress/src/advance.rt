ghost use Rattle.std.specs.Prelude.{◌≡◌, cond, ◌≤◌};
ghost use Rattle.context.specs.Decompressor.{ip_after, rtp_after, deltas_held, advanced, advanced_whole};

use crate::steps::move_on;
use context::decompressor::DecompressorContext;
use context::kept::{Deltas, Link};
use packet::csrc::Csrc;
use packet::header::{Flow, Ip, Rtp, RtpHeader};
use packet::parts::Parts;

#[tactic(auto, unfolding(context::specs::Decompressor::ip_after))]
fn move_ip(g: u8, c: DecompressorContext, p: Parts) -> Ip
    requires { 1 ≤ g }
    ensures { result ≡ ip_after g c p }
{
    Ip {
        id: move_on(g, c.ip.id, c.deltas.id, p.did, p.id),
        ..c.ip
    }
}

#[tactic(auto, unfolding(context::specs::Decompressor::rtp_after))]
fn move_rtp(g: u8, c: DecompressorContext, p: Parts) -> Rtp
    requires { 1 ≤ g }
    ensures { result ≡ rtp_after g c p }
{
    Rtp {
        payload: p.payload.unwrap_or(c.rtp.payload),
        sequence: move_on(g, c.rtp.sequence, 1, p.dsn, p.sequence),
        timestamp: move_on(g, c.rtp.timestamp, c.deltas.timestamp, p.dts, p.timestamp),
        ..c.rtp
    }
}

#[tactic(auto, unfolding(context::specs::Decompressor::deltas_held))]
fn hold_deltas(kept: Deltas, p: Parts) -> Deltas
    ensures { result ≡ deltas_held kept p }
{
    Deltas {
        id: p.did.unwrap_or(kept.id),
        timestamp: p.dts.unwrap_or(kept.timestamp),
    }
}

// The list that came replaces the context's. Stored only where one came: to choose between two lists costs fifteen words each time.
fn take_list(listed: bool, new: Csrc, c: DecompressorContext) -> DecompressorContext
    ensures { result ≡ record {
      status = c.status;
      filled = c.filled;
      flow = c.flow;
      ip = c.ip;
      rtp = c.rtp;
      csrc = cond listed new c.csrc;
      carried = c.carried;
      marker = c.marker;
      deltas = c.deltas;
      link = c.link;
    } }
{
    let mut d = c;
    if listed {
        d.csrc = new;
    }
    d
}

// The context after a CR, or a CU with F, that is g steps on.
#[tactic(auto, unfolding(context::specs::Decompressor::advanced))]
pub fn advance(g: u8, q: u8, c: DecompressorContext, p: Parts) -> DecompressorContext
    requires { 1 ≤ g }
    ensures { result ≡ advanced g q c p }
{
    let d = DecompressorContext {
        ip: move_ip(g, c, p),
        rtp: move_rtp(g, c, p),
        marker: p.marker,
        deltas: hold_deltas(c.deltas, p),
        link: Link {
            sequence: q,
            ..c.link
        },
        ..c
    };
    take_list(p.listed, p.csrc, d)
}

// The context after a CU without F: the RTP header is taken whole, and the delta of the timestamp is the one sent, or 0.
#[tactic(auto, unfolding(context::specs::Decompressor::advanced_whole))]
pub fn advance_whole(
    g: u8,
    q: u8,
    c: DecompressorContext,
    p: Parts,
    w: RtpHeader,
) -> DecompressorContext
    requires { 1 ≤ g }
    ensures { result ≡ advanced_whole g q c p w }
{
    let kept = Deltas {
        timestamp: 0,
        ..c.deltas
    };
    DecompressorContext {
        flow: Flow {
            ssrc: w.ssrc,
            ..c.flow
        },
        ip: move_ip(g, c, p),
        rtp: w.rtp,
        csrc: w.csrc,
        marker: w.marker,
        deltas: hold_deltas(kept, p),
        link: Link {
            sequence: q,
            ..c.link
        },
        ..c
    }
}
