// Both ends of a link in one place: what comes from the wire is compressed, what comes from the radio is rebuilt.
//
// An endpoint is a compressor, a decompressor and six totals, all in the caller's memory: three slices for each table, as `crtp`
// has them, and one for the totals (docs/LAYOUT.md). Slices of zeros are an endpoint that is not open. A packet from the radio goes
// by its link type: CONTEXT_STATE to the compressor, every other to the decompressor. A call is lent what it touches: the table of
// the end that it does not use may hold anything, and stays.
//
// Read `open` first, then `from_wire` and `from_radio`, then `report`: each contract names the definition that the answer equals.
// What those definitions say of a table is what `crtp` says of it (`crtp/specs/Face.antt`); nothing here looks further down.
// Then read `specs/History.antt`, what the totals are after any list of calls, and `specs/Facing.antt`, what two endpoints that
// face each other promise. What becomes of a call is in `routes`.
#![tactic(auto)]

pub mod answer;
mod routes;
pub mod totals;

ghost use Rattle.crtp.specs.Face.{lent};
ghost use Rattle.endpoint.specs.Lent.{ends, endpoint_of, Gives, open_lent, SenderGives, ReceiverGives};
ghost use Rattle.endpoint.specs.Calls.{wire_of, radio_of, report_of};
ghost use Rattle.std.specs.Prelude.{[]};

use crate::answer::opened;
pub use crate::answer::{Done, Outcome};
pub use crate::totals::Totals;
use crate::totals::put_totals;
pub use crtp::Refusal;
use crtp::{CompressorLayout, DecompressorLayout};

// The link type of a report on its way to the other end.
pub const CONTEXT_STATE: u32 = 4;

// Opens both ends for losses of up to n packets in a row and for k flows at a time, with all totals 0; refused, the endpoint stays.
pub fn open(
    cw: &mut [u32],
    ch: &mut [u16],
    cb: &mut [u8],
    dw: &mut [u32],
    dh: &mut [u16],
    db: &mut [u8],
    t: &mut [u32],
    n: u32,
    k: u32,
) -> Outcome
    ensures { Gives (ends (lent cw.old ch.old cb.old) (lent dw.old dh.old db.old)
        t.old)
        (ends (lent cw.new ch.new cb.new) (lent dw.new dh.new db.new)
        t.new) result []
        (open_lent (ends (lent cw.old ch.old cb.old) (lent dw.old dh.old
        db.old)
        t.old) n k) }
{
    let sender = (cw.len() == CompressorLayout::WORDS)
        & (ch.len() == CompressorLayout::SHORTS)
        & (cb.len() == CompressorLayout::BYTES);
    let receiver = (dw.len() == DecompressorLayout::WORDS)
        & (dh.len() == DecompressorLayout::SHORTS)
        & (db.len() == DecompressorLayout::BYTES);
    let counted = t.len() == Totals::COUNT;
    if !(sender & receiver & counted) {
        return Err(Refusal::Unsound);
    }
    let first = crtp::open_compressor(cw, ch, cb, n, k);
    let second = crtp::open_decompressor(dw, dh, db, n, k);
    let outcome = opened(first, second);
    if outcome.is_ok() {
        put_totals(
            t,
            Totals {
                plain: 0,
                full: 0,
                udp: 0,
                rtp: 0,
                rebuilt: 0,
                refused: 0,
            },
        );
    }
    outcome
}

// A packet from the wire: its type and its bytes on the link. It goes to the compressor, whose slices are lent.
pub fn from_wire(
    w: &mut [u32],
    h: &mut [u16],
    b: &mut [u8],
    t: &mut [u32],
    p: &[u8],
    out: &mut [u8],
) -> Outcome
    ensures { SenderGives (lent w.old h.old b.old) (lent w.new h.new
        b.new)
        t.old t.new result out.new (λ e. wire_of e p.now out.old) }
{
    routes::wire(w, h, b, t, p, out)
}

// A packet from the radio, which came with this link type. A request gives nothing out; of every other type a packet for the wire
// is made.
pub fn from_radio(
    cw: &mut [u32],
    ch: &mut [u16],
    cb: &mut [u8],
    dw: &mut [u32],
    dh: &mut [u16],
    db: &mut [u8],
    t: &mut [u32],
    kind: u32,
    s: &[u8],
    out: &mut [u8],
) -> Outcome
    ensures { Gives (ends (lent cw.old ch.old cb.old) (lent dw.old dh.old db.old)
        t.old)
        (ends (lent cw.new ch.new cb.new) (lent dw.new dh.new db.new)
        t.new) result out.new
        (radio_of (endpoint_of (ends (lent cw.old ch.old cb.old) (lent dw.old dh.old db.old)
        t.old)) kind
        s.now out.old) }
{
    if kind == CONTEXT_STATE {
        return routes::ask(cw, ch, cb, t, s);
    }
    routes::rebuild(dw, dh, db, t, kind, s, out)
}

// What is to be sent to the other end, with type CONTEXT_STATE, of the contexts that are broken here; of none, nothing. It is the
// decompressor's, whose slices are lent.
pub fn report(w: &[u32], h: &[u16], b: &[u8], t: &mut [u32], out: &mut [u8]) -> Outcome
    ensures { ReceiverGives (lent w.now h.now b.now) (lent w.now h.now b.now)
        t.old t.new result out.new (λ e. report_of e out.old) }
{
    routes::report(w, h, b, t, out)
}
