ghost use Rattle.std.specs.Prelude.{◌≡◌, ◌<◌};
ghost use Rattle.links.specs.Cr.{cr_flags_of, second_of, deltas_of, cr_of};

use fields::list::next_list;
use fields::next::{next, next_delta};
use fields::place::Place;
use links::cr::{CrFlags, Deltas, Second};
use links::head::ReadParts;
use octets::flags::{Flags, split};
use packet::parts::Parts;

// The flags of both flag bytes of a CR by name.
fn split_flags(flags: Flags) -> CrFlags
    ensures { result ≡ cr_flags_of flags }
{
    CrFlags {
        marker: flags.bit7,
        dsn: flags.bit6,
        dts: flags.bit5,
        did: flags.bit4,
    }
}

#[tactic(auto, unfolding(links::specs::Cr::second_of, links::specs::Cr::second_with, fields::specs::Next::next_byte))]
fn read_second(s: &[u8], place: Place, flags: CrFlags) -> Second
    ensures { (result ≡ second_of s.now place flags) × (result.count < 16) }
{
    let four = flags.marker & flags.dsn & flags.dts & flags.did;
    let byte = next::<u8>(s, place, four);
    let second = split(byte.field.unwrap_or(0));
    if four {
        return Second {
            place: byte.place,
            listed: true,
            flags: split_flags(second),
            count: second.low,
        };
    }
    Second {
        place: byte.place,
        listed: false,
        flags: flags,
        count: 0,
    }
}

#[tactic(auto, unfolding(links::specs::Cr::deltas_of, fields::specs::Next::next_delta16, fields::specs::Next::next_delta32))]
fn read_deltas(s: &[u8], place: Place, flags: CrFlags) -> Deltas
    ensures { result ≡ deltas_of s.now place flags }
{
    let did = next_delta(s, place, flags.did);
    let dsn = next_delta(s, did.place, flags.dsn);
    let dts = next_delta(s, dsn.place, flags.dts);
    Deltas {
        place: dts.place,
        did: did.field,
        dsn: dsn.field,
        dts: dts.field,
    }
}

// The parts of a CR whose flag byte was read.
#[tactic(auto, unfolding(links::specs::Cr::cr_of, links::specs::Cr::cr_rest, fields::specs::Next::next_word))]
pub fn read_cr(s: &[u8], place: Place, flags: Flags, carried: bool) -> ReadParts
    ensures { result ≡ cr_of s.now place flags carried }
{
    let checksum = next(s, place, carried);
    let second = read_second(s, checksum.place, split_flags(flags));
    let deltas = read_deltas(s, second.place, second.flags);
    let list = next_list(s, deltas.place, second.count);
    ReadParts {
        place: list.place,
        parts: Parts {
            marker: second.flags.marker,
            checksum: checksum.field.unwrap_or(0),
            id: None,
            sequence: None,
            timestamp: None,
            payload: None,
            did: deltas.did,
            dsn: deltas.dsn,
            dts: deltas.dts,
            listed: second.listed,
            csrc: list.list,
        },
    }
}
