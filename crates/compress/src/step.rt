ghost use Rattle.std.specs.Prelude.{◌≡◌, ◌≤◌};
ghost use Rattle.context.specs.Field.{next_sequence};
ghost use Rattle.context.specs.Compressor.{deltas_after, moved, step_of, first, first_step, stepped};

use crate::{due, judge, run, send};
use context::compressor::{CompressorContext, Earlier, Usage};
use context::kept::{Deltas, Link};
use context::step::{DueNow, Judged, Kind, Step};
use packet::header::Header;

#[tactic(auto, unfolding(context::specs::Field::next_sequence))]
pub fn next_sequence(s: u8) -> u8
    ensures { result ≡ next_sequence s }
{
    (s % Link::SEQUENCES + 1) % Link::SEQUENCES
}

#[tactic(auto, unfolding(context::specs::Compressor::deltas_after))]
fn keep_deltas(kept: Deltas, j: Judged) -> Deltas
    ensures { result ≡ deltas_after kept j }
{
    Deltas {
        id: if j.did { j.deltas.id } else { kept.id },
        timestamp: if j.dts {
            j.deltas.timestamp
        } else {
            kept.timestamp
        },
    }
}

#[tactic(auto, unfolding(context::specs::Compressor::moved))]
fn move_on(n: u8, h: Header, c: CompressorContext, j: Judged) -> CompressorContext
    ensures { result ≡ moved n h c j }
{
    CompressorContext {
        ip: h.ip,
        rtp: h.rtp,
        csrc: h.csrc,
        blank: h.checksum == 0,
        deltas: keep_deltas(c.deltas, j),
        earlier: Earlier {
            known: true,
            id: j.deltas.id,
            timestamp: j.deltas.timestamp,
        },
        due: due::count_due(n, c.due, j),
        link: Link {
            sequence: next_sequence(c.link.sequence),
            ..c.link
        },
        ..c
    }
}

// Any packet after a context's first.
pub fn next_packet(n: u8, h: Header, c: CompressorContext) -> Step
    requires { n ≤ 14 }
    ensures { stepped result ≡ step_of n h c }
{
    let begun = run::begin(n, h, c);
    let ready = judge::reset_deltas(begun);
    let j = judge::judge(h, ready);
    let now = due::due_now(ready.due, j);
    let any = due::any_due(now);
    let next = move_on(n, h, ready, j);
    Step {
        kind: send::choose_kind(ready.due.full, any),
        link: ready.link,
        parts: send::carry(h, now, any, next.deltas),
        context: next,
    }
}

#[tactic(auto, unfolding(context::specs::Compressor::first))]
fn first_context(n: u8, h: Header, link: Link) -> CompressorContext
    ensures { result ≡ first n h link }
{
    CompressorContext {
        status: Usage::Live,
        flow: h.flow,
        ip: h.ip,
        rtp: h.rtp,
        csrc: h.csrc,
        blank: h.checksum == 0,
        deltas: Deltas {
            id: 1,
            timestamp: 0,
        },
        earlier: Earlier {
            known: false,
            id: 0,
            timestamp: 0,
        },
        due: due::only_full(n),
        link: Link {
            sequence: next_sequence(link.sequence),
            ..link
        },
    }
}

// A context's first packet, with the given link sequence and generation: those of whatever used the context before.
#[tactic(auto, unfolding(context::specs::Compressor::first_step, context::specs::Compressor::first,))]
pub fn first_packet(n: u8, h: Header, link: Link) -> Step
    ensures { stepped result ≡ first_step n h link }
{
    let now = DueNow {
        id: false,
        sequence: false,
        timestamp: false,
        payload: false,
        list: false,
        did: false,
        dts: false,
    };
    let next = first_context(n, h, link);
    Step {
        kind: Kind::FullHeader,
        link,
        parts: send::carry(h, now, false, next.deltas),
        context: next,
    }
}
