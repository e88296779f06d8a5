// An arrival: what the decompressor makes of a link packet.
//
// The table's layout is `decompressor_table`'s, its soundness `decompressor_walk`'s, and the definition `receive_of`, which says
// all that an arrival does, is `decompressor`'s. What becomes of one context is decided in `context` and `decompress`, what bytes
// mean in `headers` and `links`; here a link packet finds its context, which is read out and stored back, and the rebuilt packet is
// judged and finds its output.
// Read `receive` first, then `compressed`, `settle` and `judge`. `steady` is a short way for what most arrivals are
// (`decompressor_steady`): it is proved to do what they do.
#![tactic(auto)]

mod compressed;
mod full;
mod judge;
mod output;
mod settle;
mod steady;

ghost use Rattle.std.specs.Prelude.{◌≡◌, ◌≤◌, length};
ghost use Rattle.decompressor.specs.Table.{Sound};
ghost use Rattle.decompressor.specs.Receive.{receive_kind, receive_of};
ghost use Rattle.planes.specs.Planes.{lent};
ghost use Rattle.decompressor_table.specs.Layout.{table_of, Fits};
ghost use Rattle.decompressor_table.specs.Calls.{Gives};
ghost use Rattle.receive.specs.Taken.{GivenPlain};

use crate::compressed::receive_compressed;
use crate::full::receive_full;
use decompressor::answer::Outcome;
use decompressor::old::OldForm;
use decompressor_walk::sound::sound;
use octets::put::put_all;
use packet::refusal::Refusal;
use settings::Settings;

// A plain packet is given out as it came.
fn receive_plain(s: &[u8], out: &mut [u8]) -> Outcome
    ensures { GivenPlain result s.now out.old out.new }
{
    let size = s.len();
    if out.len() < size {
        return Err(Refusal::NoRoom);
    }
    put_all(out, 0, s);
    Ok(size)
}

fn receive_kind(
    old: OldForm,
    kind: u32,
    w: &mut [u32],
    h: &mut [u16],
    b: &mut [u8],
    s: &[u8],
    out: &mut [u8],
) -> Outcome
    requires { Fits (lent w.old h.old b.old) × Sound (table_of (lent w.old h.old b.old))
        × (1 ≤ length s.now) × (length s.now ≤ 1500) }
    ensures { Gives (lent w.old h.old b.old)
        (lent w.new h.new b.new) result out.new
        (receive_kind old kind (table_of (lent w.old h.old b.old)) s.now
        out.old) }
{
    if kind == 0 {
        return receive_plain(s, out);
    }
    if kind == 1 {
        return receive_full(w, h, b, s, out);
    }
    receive_compressed(old, kind, w, h, b, s, out)
}

// An arrival: a link packet of any type, any bytes, any table and any output.
pub fn receive(
    w: &mut [u32],
    h: &mut [u16],
    b: &mut [u8],
    kind: u32,
    s: &[u8],
    out: &mut [u8],
) -> Outcome
    ensures { Gives (lent w.old h.old b.old)
        (lent w.new h.new b.new) result out.new
        (receive_of (table_of (lent w.old h.old b.old)) kind s.now out.old) }
{
    if !sound(w, h, b) {
        return Err(Refusal::Unsound);
    }
    if 3 < kind {
        return Err(Refusal::UnknownType);
    }
    let size = s.len();
    if !((1 <= size) & (size <= Settings::LONGEST)) {
        return Err(Refusal::BadLength);
    }
    receive_kind(OldForm::Taken, kind, w, h, b, s, out)
}
