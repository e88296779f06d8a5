ghost use Rattle.std.specs.Prelude.{◌≡◌, [], ◌∷◌, ◌<◌, ◌≤◌, ◌+◌, length};
ghost use Rattle.octets.specs.Put.{Wrote};
ghost use Rattle.links.specs.Head.{head_bytes};
ghost use Rattle.links.specs.Cu.{cu_flags_bits, cu_second_bits, cu_flags, cu_second_byte, changes_bytes, values_bytes, cu_bytes};
ghost use Rattle.links_write.specs.Size.{changes_size, values_size, cu_size};

use crate::delta::{delta_size, put_delta, put_whole, size_if};
use crate::head::put_head;
use links::cu::{CuFlags, CuSecond};
use octets::flags::{Flags, pack};
use octets::put::{put, put_if, put_list};
use packet::parts::Parts;

// The bits of the two flag bytes in their places.
fn join_flags(link: u8, flags: CuFlags) -> Flags
    ensures { result ≡ cu_flags_bits link flags }
{
    Flags {
        bit7: flags.values,
        bit6: flags.id,
        bit5: flags.dts,
        bit4: flags.did,
        low: link,
    }
}

fn join_second(second: CuSecond) -> Flags
    ensures { result ≡ cu_second_bits second }
{
    Flags {
        bit7: second.marker,
        bit6: second.sequence,
        bit5: second.timestamp,
        bit4: second.payload,
        low: second.count,
    }
}

fn changes_size(carried: bool, h: Parts) -> usize
    ensures { (result ≡ changes_size carried h) × (result ≤ 10) }
{
    let checksum = size_if(carried, 2);
    let did = delta_size(h.did);
    let dts = delta_size(h.dts);
    let id = size_if(h.id.is_some(), 2);
    checksum + did + dts + id
}

fn values_size(h: Parts) -> usize
    requires { h.csrc.count ≤ 15 }
    ensures { (result ≡ values_size h) × (result ≤ 67) }
{
    let sequence = size_if(h.sequence.is_some(), 2);
    let timestamp = size_if(h.timestamp.is_some(), 4);
    let payload = size_if(h.payload.is_some(), 1);
    sequence + timestamp + payload + 4 * (h.csrc.count as usize)
}

// How many bytes a CU with F has before the rest of the packet.
pub fn cu_size(carried: bool, h: Parts) -> usize
    requires { h.csrc.count ≤ 15 }
    ensures { (result ≡ cu_size carried h) × (result ≤ 80) }
{
    3 + changes_size(carried, h) + values_size(h)
}

// The context number and the flag byte, F set.
fn put_flags(out: &mut [u8], at: usize, context: u8, link: u8, h: Parts) -> usize
    requires { (link < 16) × (at + 2 ≤ length out.old) }
    ensures { (result ≡ at + 2) × Wrote out.old out.new at result (head_bytes context (cu_flags link h)) }
{
    let flags = CuFlags {
        values: true,
        id: h.id.is_some(),
        dts: h.dts.is_some(),
        did: h.did.is_some(),
    };
    put_head(out, at, context, join_flags(link, flags))
}

fn put_second(out: &mut [u8], at: usize, h: Parts) -> usize
    requires { (h.csrc.count ≤ 15) × (at + 1 ≤ length out.old) }
    ensures { (result ≡ at + 1) × Wrote out.old out.new at result (cu_second_byte h ∷ []) }
{
    let second = CuSecond {
        marker: h.marker,
        sequence: h.sequence.is_some(),
        timestamp: h.timestamp.is_some(),
        payload: h.payload.is_some(),
        count: h.csrc.count,
    };
    put(out, at, pack(join_second(second)))
}

#[tactic(auto, using(crate::specs::SizeLaws::whole_sizes))]
fn put_changes(out: &mut [u8], at: usize, carried: bool, h: Parts) -> usize
    requires { at + changes_size carried h ≤ length out.old }
    ensures { (result ≡ at + changes_size carried h) × Wrote out.old out.new at result (changes_bytes carried h) }
{
    let at = put_if(out, at, carried, h.checksum);
    let at = put_delta(out, at, h.did);
    let at = put_delta(out, at, h.dts);
    put_whole(out, at, h.id)
}

#[tactic(auto, using(octets::specs::PutLaws::wrote_then, crate::specs::SizeLaws::whole_sizes))]
fn put_values(out: &mut [u8], at: usize, h: Parts) -> usize
    requires { (h.csrc.count ≤ 15) × (at + values_size h ≤ length out.old) }
    ensures { (result ≡ at + values_size h) × Wrote out.old out.new at result (values_bytes h) }
{
    let at = put_whole(out, at, h.sequence);
    let at = put_whole(out, at, h.timestamp);
    let at = put_whole(out, at, h.payload);
    put_list(out, at, h.csrc)
}

// The bytes of a CU with F.
pub fn put_cu(out: &mut [u8], at: usize, context: u8, link: u8, carried: bool, h: Parts) -> usize
    requires { (link < 16) × (h.csrc.count ≤ 15) × (at + cu_size carried h ≤ length out.old) }
    ensures { Wrote out.old out.new at result (cu_bytes context link carried h) }
{
    let at = put_flags(out, at, context, link, h);
    let at = put_second(out, at, h);
    let at = put_changes(out, at, carried, h);
    put_values(out, at, h)
}
