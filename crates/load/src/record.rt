ghost use Rattle.std.specs.Prelude.{◌≡◌};
ghost use Rattle.saves.specs.Saves.{status_of, fixed_of, unfilled_allowed, size_allowed, context_of, record_of};

use crate::check::{allow, next_up_to};
use crate::header::read_kept;
use codes::code::has_code32;
use context::decompressor::{DecompressorContext, Status};
use context::kept::{Deltas, Link};
use fields::next::next;
use fields::place::Place;
use packet::header::Header;
use saves::layout::{BROKEN, EMPTY, LIVE};
use saves::read::{Fixed, GotContext};

// The fields up to the header's size; those past the state are not there where it is 0.
fn read_fixed(s: &[u8], p: Place) -> Fixed
    ensures { result ≡ fixed_of s.now p }
{
    let state = next_up_to(s, p, true, BROKEN);
    let first = state.field.unwrap_or(0);
    let used = first != EMPTY;
    let generation = next_up_to(s, state.place, used, Link::MAX_GENERATION);
    let sequence = next_up_to(s, generation.place, used, Link::MAX_SEQUENCE);
    let did = next(s, sequence.place, used);
    let dts = next(s, did.place, used);
    let delta = dts.field.unwrap_or(0);
    let coded = allow(dts.place, has_code32(delta));
    let size = next(s, coded, used);
    Fixed {
        place: size.place,
        state: first,
        generation: generation.field.unwrap_or(0),
        sequence: sequence.field.unwrap_or(0),
        did: did.field.unwrap_or(0),
        dts: delta,
        size: size.field.unwrap_or(0),
    }
}

// Whether a record without a header may be so.
fn unfilled_allowed(f: Fixed) -> bool
    ensures { result ≡ unfilled_allowed f }
{
    (f.state == BROKEN) & (f.generation == 0) & (f.sequence == 0) & (f.did == 0) & (f.dts == 0)
}

#[tactic(auto, unfolding(saves::specs::Saves::size_allowed))]
fn size_allowed(f: Fixed) -> bool
    ensures { result ≡ size_allowed f }
{
    match (f.state, f.size) {
        (EMPTY, _) => true,
        (_, 0) => unfilled_allowed(f),
        (_, size) => (40 <= size) & (size <= 100) & (size % 4 == 0),
    }
}

fn status_of(state: u8) -> Status
    ensures { result ≡ status_of state }
{
    match state {
        EMPTY => Status::Empty,
        LIVE => Status::Live,
        _ => Status::Broken,
    }
}

#[tactic(auto, unfolding(saves::specs::Saves::context_of))]
fn context_of(f: Fixed, h: Header) -> DecompressorContext
    ensures { result ≡ context_of f h }
{
    DecompressorContext {
        status: status_of(f.state),
        filled: f.size != 0,
        flow: h.flow,
        ip: h.ip,
        rtp: h.rtp,
        csrc: h.csrc,
        carried: h.checksum != 0,
        marker: h.marker,
        deltas: Deltas {
            id: f.did,
            timestamp: f.dts,
        },
        link: Link {
            sequence: f.sequence,
            generation: f.generation,
        },
    }
}

#[tactic(auto, unfolding(saves::specs::Saves::record_of))]
pub fn read_record(s: &[u8], p: Place) -> GotContext
    ensures { result ≡ record_of s.now p }
{
    let fixed = read_fixed(s, p);
    let place = allow(fixed.place, size_allowed(fixed));
    let kept = read_kept(s, place, fixed.size);
    GotContext {
        place: kept.place,
        context: context_of(fixed, kept.header),
    }
}
