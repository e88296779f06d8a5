// A send: what the compressor makes of a packet.
//
// The table's layout is `compressor_table`'s, its soundness `compressor_walk`'s, and the lookup of a flow's context
// `compressor_places`'s; the definition `send_of`, which says all that a send does, is `compressor`'s. What goes out on a context
// is decided in `outgoing`; here a packet finds its context, which is read out and stored back, and the result finds its output.
// Read `send` first, then `send_on`: a steady packet goes a short way (`compressor_steady`), which is proved to do what the rules
// do.
#![tactic(auto)]

ghost use Rattle.std.specs.Prelude.{◌≡◌, true, ◌≤◌, length};
ghost use Rattle.compressor_steady.specs.Steady.{steady};
ghost use Rattle.compressor_steady.specs.Unlisted.{Unlisted};
ghost use Rattle.compressor.specs.Send.{send_of};
ghost use Rattle.compressor.specs.CanSend.{CanSend, send_with};
ghost use Rattle.planes.specs.Planes.{lent};
ghost use Rattle.compressor_table.specs.Layout.{context_in, table_of, Fits};
ghost use Rattle.compressor_table.specs.Calls.{Gives};
ghost use Rattle.send.specs.Plain.{GoesPlain};

use compressor::answer::Outcome;
use compressor_places::lookup::find;
use compressor_steady::judge::is_steady;
use compressor_steady::put::put_steady;
use compressor_steady::store::store_steady;
use compressor_table::layout::Layout;
use compressor_table::read::{context_with, list_at};
use compressor_table::write::put_context;
use compressor_walk::sound::sound;
use context::compressor::CompressorContext;
use headers_read::form::is_compressible;
use headers_read::read::{header_size, header_with, read_rtp_list};
use octets::put::put_all;
use outgoing::link::{kind_number, link_size, put_link};
use outgoing::step::step_on;
use packet::header::Header;
use packet::refusal::Refusal;
use settings::Settings;

// A packet that goes out as it is.
fn send_plain(p: &[u8], out: &mut [u8]) -> Outcome
    ensures { GoesPlain result p.now out.old out.new }
{
    if out.len() < p.len() {
        return Err(Refusal::NoRoom);
    }
    let length = put_all(out, 0, p);
    Ok((0, length))
}

// A steady packet with the header x that goes out on context i, which was read: a CR with no field but the UDP checksum.
fn send_steady(
    w: &mut [u32],
    h: &mut [u16],
    b: &mut [u8],
    i: usize,
    p: &[u8],
    x: Header,
    c: CompressorContext,
    out: &mut [u8],
) -> Outcome
    requires { Fits (lent w.old h.old b.old) × CanSend (table_of (lent w.old h.old b.old)) i p.now x
        × Unlisted (table_of (lent w.old h.old b.old)) i x × (c ≡ context_in w.old h.old b.old i)
        × (steady x c ≡ true) × (length p.now ≤ length out.old) }
    ensures { Gives (lent w.old h.old b.old)
        (lent w.new h.new b.new) result out.new
        (send_with (table_of (lent w.old h.old b.old)) i p.now out.old x) }
{
    let start = header_size(x);
    let past = put_steady(out, i as u8, x, c);
    let length = put_all(out, past, &p[start..]);
    store_steady(w, h, b, i, x);
    Ok((3, length))
}

// Any packet with the header x that goes out on context i, by all the rules.
fn send_stepped(
    w: &mut [u32],
    h: &mut [u16],
    b: &mut [u8],
    i: usize,
    p: &[u8],
    x: Header,
    out: &mut [u8],
) -> Outcome
    requires { Fits (lent w.old h.old b.old) × CanSend (table_of (lent w.old h.old b.old)) i p.now x }
    ensures { Gives (lent w.old h.old b.old)
        (lent w.new h.new b.new) result out.new
        (send_with (table_of (lent w.old h.old b.old)) i p.now out.old x) }
{
    let list = list_at(w, b, i);
    let context = context_with(w, h, b, i, list);
    let step = step_on(b[Layout::REPEATS], x, context);
    let start = header_size(x);
    let tail = &p[start..];
    let size = link_size(x, step) + tail.len();
    if out.len() < size {
        return Err(Refusal::NoRoom);
    }
    let past = put_link(out, i as u8, p.len() as u16, x, step);
    let length = put_all(out, past, tail);
    let kind = step.kind;
    let after = step.context;
    put_context(w, h, b, i, after);
    Ok((kind_number(kind), length))
}

// A packet with the header x that goes out on context i: the short way where it is steady and has room as it is.
fn send_on(
    w: &mut [u32],
    h: &mut [u16],
    b: &mut [u8],
    i: usize,
    p: &[u8],
    x: Header,
    out: &mut [u8],
) -> Outcome
    requires { Fits (lent w.old h.old b.old) × CanSend (table_of (lent w.old h.old b.old)) i p.now x
        × Unlisted (table_of (lent w.old h.old b.old)) i x }
    ensures { Gives (lent w.old h.old b.old)
        (lent w.new h.new b.new) result out.new
        (send_with (table_of (lent w.old h.old b.old)) i p.now out.old x) }
{
    let list = list_at(w, b, i);
    let context = context_with(w, h, b, i, list);
    if is_steady(x, context) & (p.len() <= out.len()) {
        return send_steady(w, h, b, i, p, x, context, out);
    }
    send_stepped(w, h, b, i, p, x, out)
}

// A packet of any bytes, to be put on the link.
pub fn send(w: &mut [u32], h: &mut [u16], b: &mut [u8], p: &[u8], out: &mut [u8]) -> Outcome
    ensures { Gives (lent w.old h.old b.old)
        (lent w.new h.new b.new) result out.new
        (send_of (table_of (lent w.old h.old b.old)) p.now out.old) }
{
    if !sound(w, h, b) {
        return Err(Refusal::Unsound);
    }
    let allowed = (1 <= p.len()) & (p.len() <= Settings::LONGEST);
    if !allowed {
        return Err(Refusal::BadLength);
    }
    if !is_compressible(p) {
        return send_plain(p, out);
    }
    let list = read_rtp_list(p, 28);
    let header = header_with(p, list);
    let flow = header.flow;
    match find(w, h, b, flow) {
        Some(i) => send_on(w, h, b, i, p, header, out),
        None => send_plain(p, out),
    }
}
