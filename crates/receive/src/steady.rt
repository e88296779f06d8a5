ghost use Rattle.std.specs.Prelude.{◌≡◌, false, IfSome, ◌≤◌, ◌<◌, ◌+◌, eqb, length, drop};
ghost use Rattle.packet.specs.Ranges.{Narrow};
ghost use Rattle.context.specs.Decompressor.{rebuilt};
ghost use Rattle.decompressor_steady.specs.Steady.{moved_to, one_step_on};
ghost use Rattle.planes.specs.Planes.{lent};
ghost use Rattle.decompressor_table.specs.Layout.{context_in, table_of, Fits};
ghost use Rattle.decompressor_table.specs.Calls.{Gives};
ghost use Rattle.receive.specs.Taken.{Found};
ghost use Rattle.receive.specs.Steady.{is_steady, Steadily, delivered_on};

use crate::output::put_bare_packet;
use context::decompressor::DecompressorContext;
use decompress::header::{reads_checksum, rebuild};
use decompressor::answer::Outcome;
use decompressor_steady::step::{is_next, step_on};
use decompressor_steady::store::put_moved;
use fields::next::next;
use links::head::Head;
use octets::flags::Flags;
use settings::Settings;

// What was read for the short way: the UDP checksum that came, and where the rest begins.
#[derive(Clone, Copy)]
pub struct SteadyRead {
    pub sent: u16,
    pub start: usize,
}

fn is_steady(f: Flags, c: DecompressorContext) -> bool
    ensures { result ≡ is_steady f c }
{
    !f.bit6 & !f.bit5 & !f.bit4 & is_next(f.low, c)
}

// All that can send an arrival the general way, None, is found here, before anything is written: so the short way has no refusal.
pub fn read_steady(
    kind: u32,
    c: DecompressorContext,
    h: Head,
    s: &[u8],
    room: usize,
) -> Option<SteadyRead>
    requires { (h.place.cursor.at ≤ length s.now) × (length s.now ≤ 1500) }
    ensures { IfSome result (λ read. (eqb kind 2 ≡ false) × Steadily c h s.now room read) }
{
    if (kind == 2) | !is_steady(h.flags, c) {
        return None;
    }
    let word = next::<u16>(s, h.place, reads_checksum(c));
    let start = word.place.cursor.at;
    let size = 40 + (s.len() - start);
    let goes = word.place.verdict.is_ok() & (size <= Settings::LONGEST) & (size <= room);
    goes.then_some(SteadyRead {
        sent: word.field.unwrap_or(0),
        start: start,
    })
}

// The packet of a context without a CSRC list, and the context itself, which is stored as far as it moved.
fn deliver(
    w: &mut [u32],
    h: &mut [u16],
    b: &mut [u8],
    i: usize,
    c: DecompressorContext,
    sent: u16,
    rest: &[u8],
    out: &mut [u8],
) -> Outcome
    requires { Fits (lent w.old h.old b.old) × (i < 64) × (c ≡ moved_to c (context_in w.old h.old b.old i))
        × Narrow (rebuilt c sent) × (c.csrc.count ≡ 0) × (40 + length rest.now ≤ 1500)
        × (40 + length rest.now ≤ length out.old) }
    ensures { Gives (lent w.old h.old b.old)
        (lent w.new h.new b.new) result out.new
        (delivered_on (table_of (lent w.old h.old b.old)) i c sent rest.now
        out.old) }
{
    let header = rebuild(c, sent);
    let size = 40 + rest.len();
    put_moved(w, h, b, i, c);
    put_bare_packet(out, header, rest, size);
    Ok(size)
}

// A CR without fields, one step on: no rule can refuse it, and nothing but its own step moves.
pub fn receive_steady(
    w: &mut [u32],
    h: &mut [u16],
    b: &mut [u8],
    i: usize,
    c: DecompressorContext,
    head: Head,
    read: SteadyRead,
    s: &[u8],
    out: &mut [u8],
) -> Outcome
    requires { Found (lent w.old h.old b.old) i c head s.now × Steadily c head s.now (length out.old) read }
    ensures { Gives (lent w.old h.old b.old)
        (lent w.new h.new b.new) result out.new
        (delivered_on (table_of (lent w.old h.old b.old)) i
        (one_step_on head.flags.low head.flags.bit7 c) read.sent (drop read.start s.now)
        out.old) }
{
    let after = step_on(head.flags.low, head.flags.bit7, c);
    deliver(w, h, b, i, after, read.sent, &s[read.start..], out)
}
