ghost use Rattle.std.specs.Prelude.{◌≡◌, cond, ◌<◌, ◌≤◌, ◌+◌, length};
ghost use Rattle.octets.specs.Put.{Wrote};
ghost use Rattle.links.specs.Head.{head_bytes};
ghost use Rattle.links.specs.Cr.{cr_flags_bits, cr_sent, cr_first, cr_flags, second_bytes, deltas_bytes, cr_bytes};
ghost use Rattle.links_write.specs.Size.{deltas_size, cr_size};

use crate::delta::{delta_size, put_delta, size_if};
use crate::head::put_head;
use links::cr::CrFlags;
use octets::flags::{Flags, pack};
use octets::put::{put_if, put_list};
use packet::parts::Parts;

// The bits of a flag byte in their places.
fn join_flags(number: u8, flags: CrFlags) -> Flags
    ensures { result ≡ cr_flags_bits number flags }
{
    Flags {
        bit7: flags.marker,
        bit6: flags.dsn,
        bit5: flags.dts,
        bit4: flags.did,
        low: number,
    }
}

// What the flags say of some parts.
fn sent_flags(h: Parts) -> CrFlags
    ensures { result ≡ cr_sent h }
{
    CrFlags {
        marker: h.marker,
        dsn: h.dsn.is_some(),
        dts: h.dts.is_some(),
        did: h.did.is_some(),
    }
}

// The flags of the first byte: 1111 says that the second stands.
fn first_flags(listed: bool, own: CrFlags) -> CrFlags
    ensures { result ≡ cr_first listed own }
{
    CrFlags {
        marker: listed | own.marker,
        dsn: listed | own.dsn,
        dts: listed | own.dts,
        did: listed | own.did,
    }
}

// How many bytes a CR has before the rest of the packet.
pub fn cr_size(carried: bool, h: Parts) -> usize
    requires { h.csrc.count ≤ 15 }
    ensures { (result ≡ cr_size carried h) × (result ≤ 74) }
{
    let checksum = size_if(carried, 2);
    let second = size_if(h.listed, 1);
    let did = delta_size(h.did);
    let dsn = delta_size(h.dsn);
    let dts = delta_size(h.dts);
    2 + checksum + second + (did + dsn + dts) + 4 * (h.csrc.count as usize)
}

// The context number and the flag byte.
fn put_flags(out: &mut [u8], at: usize, context: u8, link: u8, h: Parts) -> usize
    requires { (link < 16) × (at + 2 ≤ length out.old) }
    ensures { (result ≡ at + 2) × Wrote out.old out.new at result (head_bytes context (cr_flags link h)) }
{
    let first = first_flags(h.listed, sent_flags(h));
    put_head(out, at, context, join_flags(link, first))
}

// The second byte, where there is a list.
fn put_second(out: &mut [u8], at: usize, h: Parts) -> usize
    requires { (h.csrc.count ≤ 15) × (at + cond h.listed 1 0 ≤ length out.old) }
    ensures { (result ≡ at + cond h.listed 1 0)
        × Wrote out.old out.new at result (second_bytes h.listed h) }
{
    let flags = join_flags(h.csrc.count, sent_flags(h));
    put_if(out, at, h.listed, pack(flags))
}

fn put_deltas(out: &mut [u8], at: usize, h: Parts) -> usize
    requires { at + deltas_size h ≤ length out.old }
    ensures { (result ≡ at + deltas_size h) × Wrote out.old out.new at result (deltas_bytes h) }
{
    let at = put_delta(out, at, h.did);
    let at = put_delta(out, at, h.dsn);
    put_delta(out, at, h.dts)
}

// The bytes of a CR.
pub fn put_cr(out: &mut [u8], at: usize, context: u8, link: u8, carried: bool, h: Parts) -> usize
    requires { (link < 16) × (h.csrc.count ≤ 15) × (at + cr_size carried h ≤ length out.old) }
    ensures { Wrote out.old out.new at result (cr_bytes context link carried h) }
{
    let at = put_flags(out, at, context, link, h);
    let at = put_if(out, at, carried, h.checksum);
    let at = put_second(out, at, h);
    let at = put_deltas(out, at, h);
    put_list(out, at, h.csrc)
}
