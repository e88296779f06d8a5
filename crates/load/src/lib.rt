// A load: the decompressor's table that some bytes stand for.
//
// The bytes alone are judged, never what the slices hold that the table is put into, so a load is what takes up a decompressor
// again that holds nothing. A load that is refused touches no number of them.
// The layout is `saves`': read its `specs/Saves.antt` first, where `load_of` says all that a load does; the functions here equal
// its definitions one by one.
#![tactic(auto)]

pub mod check;
pub mod front;
pub mod header;
pub mod record;
pub mod store;

ghost use Rattle.std.specs.Prelude.{◌≡◌, [], ◌≤◌};
ghost use Rattle.planes.specs.Planes.{lent};
ghost use Rattle.decompressor_table.specs.Calls.{Gives};
ghost use Rattle.saves.specs.Saves.{records_of};
ghost use Rattle.load.specs.Load.{load_lent};

use crate::check::allow;
use crate::front::read_front;
use crate::record::read_record;
use crate::store::{empty_context, settle};
use decompressor::answer::Outcome;
use decompressor_table::layout::Layout;
use fields::place::Place;
use packet::refusal::Refusal;
use saves::read::GotContexts;
use settings::Settings;

// The first n contexts; those past them are empty.
fn read_records(s: &[u8], p: Place, n: u8) -> GotContexts
    requires { n ≤ 64 }
    ensures { result ≡ records_of s.now p n }
{
    let mut contexts = [empty_context(); Settings::PLACES];
    let mut at = p;
    for i in 0..usize::from(n) {
        let record = read_record(s, at);
        contexts[i] = record.context;
        at = record.place;
    }
    GotContexts {
        place: at,
        contexts: contexts,
    }
}

// Slices of other lengths hold no table, and get none.
pub fn load(w: &mut [u32], h: &mut [u16], b: &mut [u8], s: &[u8]) -> Outcome
    ensures { Gives (lent w.old h.old b.old)
        (lent w.new h.new b.new) result []
        (load_lent (lent w.old h.old b.old) s.now) }
{
    let sized = (w.len() == Layout::WORDS)
        & (h.len() == Layout::SHORTS)
        & (b.len() == Layout::BYTES);
    if !sized {
        return Err(Refusal::Unsound);
    }
    let front = read_front(s);
    let found = front.place.verdict;
    found?;
    let records = read_records(s, front.place, front.settings.contexts);
    let last = records.place;
    let end = allow(last, last.cursor.at == s.len());
    settle(w, h, b, end, front.settings, records.contexts)
}
