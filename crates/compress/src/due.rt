ghost use Rattle.std.specs.Prelude.{◌≡◌};
ghost use Rattle.context.specs.Field.{counted};
ghost use Rattle.context.specs.Compressor.{only_full, due_now, any_due, due_after};

use context::compressor::Due;
use context::step::{DueNow, Judged};

// Nothing is due but full headers.
pub fn only_full(n: u8) -> Due
    ensures { result ≡ only_full n }
{
    Due {
        full: n,
        id: 0,
        sequence: 0,
        timestamp: 0,
        payload: 0,
        list: 0,
        did: 0,
        dts: 0,
    }
}

#[tactic(auto, unfolding(context::specs::Compressor::due_now, context::specs::Field::is_due))]
pub fn due_now(d: Due, j: Judged) -> DueNow
    ensures { result ≡ due_now d j }
{
    DueNow {
        id: j.id | (0 < d.id),
        sequence: j.sequence | (0 < d.sequence),
        timestamp: j.timestamp | (0 < d.timestamp),
        payload: j.payload | (0 < d.payload),
        list: j.list | (0 < d.list),
        did: j.did | (0 < d.did),
        dts: j.dts | (0 < d.dts),
    }
}

#[tactic(auto, unfolding(context::specs::Compressor::any_due))]
pub fn any_due(d: DueNow) -> bool
    ensures { result ≡ any_due d }
{
    d.id | d.sequence | d.timestamp | d.payload | d.did | d.dts | d.list
}

// A counter after a packet: a fresh change starts it again.
#[tactic(auto, unfolding(context::specs::Field::counted))]
fn count(n: u8, fresh: bool, due: u8) -> u8
    ensures { result ≡ counted n fresh due }
{
    if fresh { n } else { due.saturating_sub(1) }
}

#[tactic(auto, unfolding(context::specs::Compressor::due_after))]
pub fn count_due(n: u8, d: Due, j: Judged) -> Due
    ensures { result ≡ due_after n d j }
{
    Due {
        full: count(n, false, d.full),
        id: count(n, j.id, d.id),
        sequence: count(n, j.sequence, d.sequence),
        timestamp: count(n, j.timestamp, d.timestamp),
        payload: count(n, j.payload, d.payload),
        list: count(n, j.list, d.list),
        did: count(n, j.did, d.did),
        dts: count(n, j.dts, d.dts),
    }
}
