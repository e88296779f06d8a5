ghost use Rattle.std.specs.Prelude.{◌≡◌, true, []};
ghost use Rattle.context.specs.Sound.{empty_decompressor};
ghost use Rattle.planes.specs.Planes.{lent};
ghost use Rattle.decompressor_table.specs.Layout.{sized, table_of};
ghost use Rattle.decompressor_table.specs.Calls.{Gives};
ghost use Rattle.saves.specs.Saves.{settled};

use context::decompressor::{DecompressorContext, Status};
use context::kept::{Deltas, Link};
use decompressor::answer::Outcome;
use decompressor_table::write::put_context;
use decompressor_walk::open::put_empty;
use fields::place::Place;
use packet::csrc::no_list;
use packet::header::{Flow, Ip, Rtp};
use settings::Settings;

#[tactic(auto, unfolding(context::specs::Sound::empty_decompressor))]
pub fn empty_context() -> DecompressorContext
    ensures { result ≡ empty_decompressor }
{
    DecompressorContext {
        status: Status::Empty,
        filled: false,
        flow: Flow {
            source: 0,
            destination: 0,
            sport: 0,
            dport: 0,
            ssrc: 0,
        },
        ip: Ip {
            tos: 0,
            ttl: 0,
            flags: 0,
            id: 0,
        },
        rtp: Rtp {
            padding: false,
            extension: false,
            payload: 0,
            sequence: 0,
            timestamp: 0,
        },
        csrc: no_list(),
        carried: false,
        marker: false,
        deltas: Deltas {
            id: 0,
            timestamp: 0,
        },
        link: Link {
            sequence: 0,
            generation: 0,
        },
    }
}

// A table with these settings and contexts, whatever the slices hold.
fn store(
    w: &mut [u32],
    h: &mut [u16],
    b: &mut [u8],
    s: Settings,
    contexts: [DecompressorContext; Settings::PLACES],
)
    requires { sized (lent w.old h.old b.old) ≡ true }
    ensures { table_of (lent w.new h.new b.new)
        ≡ record { settings = s; contexts = contexts } }
{
    put_empty(w, h, b, s);
    for i in 0..Settings::PLACES {
        put_context(w, h, b, i, contexts[i]);
    }
}

// What the reading came to: the new table, or the one that was there, whatever the slices hold.
pub fn settle(
    w: &mut [u32],
    h: &mut [u16],
    b: &mut [u8],
    p: Place,
    s: Settings,
    contexts: [DecompressorContext; Settings::PLACES],
) -> Outcome
    requires { sized (lent w.old h.old b.old) ≡ true }
    ensures { Gives (lent w.old h.old b.old)
        (lent w.new h.new b.new) result []
        (settled (table_of (lent w.old h.old b.old)) p
        (record { settings = s; contexts = contexts })) }
{
    let found = p.verdict;
    found?;
    store(w, h, b, s, contexts);
    Ok(0)
}
