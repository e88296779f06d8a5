ghost use Rattle.std.specs.Prelude.{◌≡◌, true, cond, List, ℕ, ◌≤◌, ◌<◌, eqb, length};
ghost use Rattle.packet.specs.Ranges.{PartsSound};
ghost use Rattle.links.specs.Cu.{cu_of};
ghost use Rattle.links.specs.Cr.{cr_of};
ghost use Rattle.context.specs.Decompressor.{checksum_read};
ghost use Rattle.context.specs.Sound.{sound_decompressor};
ghost use Rattle.decompressor.specs.Table.{Sound};
ghost use Rattle.context.specs.declared.decompressor.Status.TheVariants.{Live};
ghost use Rattle.decompressor.specs.declared.old.OldForm.TheVariants as oldform;
ghost use Rattle.decompressor.specs.Receive.{receive_parts, receive_old, receive_on, receive_compressed};
ghost use Rattle.planes.specs.Planes.{lent};
ghost use Rattle.decompressor_table.specs.Layout.{table_of, Fits};
ghost use Rattle.decompressor_table.specs.Calls.{Gives};
ghost use Rattle.receive.specs.Taken.{Takes, Arrives, left_broken, HeadRead, Found, found_on};

use crate::settle::{Arrived, Taken, settle_read};
use crate::steady::{read_steady, receive_steady};
use context::decompressor::{DecompressorContext, Status};
use decompress::apply::{apply, apply_whole, break_context};
use decompress::header::reads_checksum;
use decompressor::answer::Outcome;
use decompressor::old::OldForm;
use decompressor_table::layout::Layout;
use decompressor_table::read::context_at;
use decompressor_table::write::put_context;
use links::head::{Head, ReadParts};
use links_read::cr::read_cr;
use links_read::cu::{read_cu, split_flags};
use links_read::head::{read_context, read_head};
use links_read::whole::read_cu_whole;
use packet::refusal::Refusal;

// The fields of a CR, or of a CU with F.
fn read_parts(kind: u32, c: DecompressorContext, h: Head, s: &[u8]) -> ReadParts
    ensures { result ≡ cond (eqb kind 2) (cu_of s.now h.place h.flags (checksum_read c))
        (cr_of s.now h.place h.flags (checksum_read c)) }
{
    let carried = reads_checksum(c);
    if kind == 2 {
        return read_cu(s, h.place, h.flags, carried);
    }
    read_cr(s, h.place, h.flags, carried)
}

// What a context makes of the parts of a CR, or of a CU with F, that has the link sequence q.
fn apply_parts(n: u8, q: u8, c: DecompressorContext, x: ReadParts) -> Arrived
    requires { (n ≤ 14) × (q < 16) × (c.status ≡ Live) × (sound_decompressor c ≡ true) × PartsSound x.parts }
    ensures { (s : List ℕ) → x.place.cursor.at ≤ length s
        → Arrives n c result s (λ t i output. receive_parts x t i q s output) }
{
    Arrived {
        place: x.place,
        applied: apply(n, q, c, x.parts),
        checksum: x.parts.checksum,
    }
}

// What a context makes of a CU without F, taken whole.
fn apply_old(n: u8, c: DecompressorContext, h: Head, s: &[u8]) -> Arrived
    requires { HeadRead n c h s.now × (c.status ≡ Live) }
    ensures { Arrives n c result s.now (λ t i output. receive_old oldform.Taken t i h s.now output) }
{
    let read = read_cu_whole(s, h.place, h.flags, reads_checksum(c));
    Arrived {
        place: read.place,
        applied: apply_whole(n, h.flags.low, c, read.parts, read.header),
        checksum: read.parts.checksum,
    }
}

// A CU or CR is read and applied here, whatever its form, and settled in one place: so both become part of the call.
fn arrive(old: OldForm, kind: u32, n: u8, c: DecompressorContext, h: Head, s: &[u8]) -> Arrived
    requires { HeadRead n c h s.now × (c.status ≡ Live) }
    ensures { Arrives n c result s.now
        (λ t i output. receive_on old c.status kind t i h s.now output) }
{
    let flags = split_flags(h.flags);
    if (kind == 2) & !flags.values {
        return match old {
            OldForm::Taken => apply_old(n, c, h, s),
        };
    }
    let read = read_parts(kind, c, h, s);
    apply_parts(n, h.flags.low, c, read)
}

// A context that is not live takes neither a CU nor a CR, and is left broken.
fn refuse_not_live(c: DecompressorContext) -> Taken
    ensures { (n : ℕ) (output : List ℕ) → Takes n c result output (left_broken c output) }
{
    Taken {
        outcome: Err(Refusal::NotLive),
        context: break_context(c),
    }
}

// The status is taken apart before any field is read: only a live context has a link sequence to count from.
fn receive_on(
    old: OldForm,
    kind: u32,
    n: u8,
    c: DecompressorContext,
    h: Head,
    s: &[u8],
    out: &mut [u8],
) -> Taken
    requires { HeadRead n c h s.now }
    ensures { Takes n c result out.new
        (λ t i. receive_on old c.status kind t i h s.now out.old) }
{
    match c.status {
        Status::Empty | Status::Broken => refuse_not_live(c),
        Status::Live => {
            let arrived = arrive(old, kind, n, c, h, s);
            settle_read(c, arrived.place, arrived.applied, arrived.checksum, s, out)
        }
    }
}

// A CU or CR on the context that was found, whatever its form: the context is stored back once.
fn receive_found(
    old: OldForm,
    kind: u32,
    w: &mut [u32],
    h: &mut [u16],
    b: &mut [u8],
    i: usize,
    c: DecompressorContext,
    head: Head,
    s: &[u8],
    out: &mut [u8],
) -> Outcome
    requires { Found (lent w.old h.old b.old) i c head s.now }
    ensures { Gives (lent w.old h.old b.old)
        (lent w.new h.new b.new) result out.new
        (found_on old kind (table_of (lent w.old h.old b.old)) i s.now
        out.old) }
{
    let taken = receive_on(old, kind, b[Layout::REPEATS], c, head, s, out);
    put_context(w, h, b, i, taken.context);
    taken.outcome
}

// A CU or CR: its context is read out once. What most arrivals are has a short way, so that it does not pay for the rest.
pub fn receive_compressed(
    old: OldForm,
    kind: u32,
    w: &mut [u32],
    h: &mut [u16],
    b: &mut [u8],
    s: &[u8],
    out: &mut [u8],
) -> Outcome
    requires { Fits (lent w.old h.old b.old) × Sound (table_of (lent w.old h.old b.old))
        × (1 ≤ length s.now) × (length s.now ≤ 1500) }
    ensures { Gives (lent w.old h.old b.old)
        (lent w.new h.new b.new) result out.new
        (receive_compressed old kind (table_of (lent w.old h.old b.old)) s.now
        out.old) }
{
    let first = read_context(s);
    let number = first.field.unwrap_or(0);
    if b[Layout::CONTEXTS] <= number {
        return Err(Refusal::NoSuchContext);
    }
    let head = read_head(s, first.place);
    if head.place.verdict.is_err() {
        return Err(Refusal::Cut);
    }
    let i = usize::from(number);
    let context = context_at(w, h, b, i);
    match read_steady(kind, context, head, s, out.len()) {
        Some(read) => receive_steady(w, h, b, i, context, head, read, s, out),
        None => receive_found(old, kind, w, h, b, i, context, head, s, out),
    }
}
