ghost use Rattle.std.specs.Prelude.{◌≡◌, ◌<◌};
ghost use Rattle.octets.specs.Flags.{flags_of};
ghost use Rattle.links.specs.Cu.{cu_flags_of, cu_second_of, changes_of, values_of, cu_of};

use fields::list::next_list;
use fields::next::{next, next_delta, next_payload};
use fields::place::Place;
use links::cu::{Changes, CuFlags, CuSecond, Values};
use links::head::ReadParts;
use octets::flags::{Flags, split};
use packet::parts::Parts;

// The flag bytes of a CU, their bits by name.
pub fn split_flags(flags: Flags) -> CuFlags
    ensures { result ≡ cu_flags_of flags }
{
    CuFlags {
        values: flags.bit7,
        id: flags.bit6,
        dts: flags.bit5,
        did: flags.bit4,
    }
}

fn split_second(byte: u8) -> CuSecond
    ensures { (result ≡ cu_second_of (flags_of byte)) × (result.count < 16) }
{
    let flags = split(byte);
    CuSecond {
        marker: flags.bit7,
        sequence: flags.bit6,
        timestamp: flags.bit5,
        payload: flags.bit4,
        count: flags.low,
    }
}

pub fn read_changes(s: &[u8], place: Place, flags: CuFlags, carried: bool) -> Changes
    ensures { result ≡ changes_of s.now place flags carried }
{
    let checksum = next(s, place, carried);
    let did = next_delta(s, checksum.place, flags.did);
    let dts = next_delta(s, did.place, flags.dts);
    let id = next(s, dts.place, flags.id);
    Changes {
        place: id.place,
        checksum: checksum.field.unwrap_or(0),
        did: did.field,
        dts: dts.field,
        id: id.field,
    }
}

#[tactic(auto, unfolding(links::specs::Cu::values_of, fields::specs::Next::next_word, fields::specs::Next::next_long))]
fn read_values(s: &[u8], place: Place, second: CuSecond) -> Values
    requires { second.count < 16 }
    ensures { result ≡ values_of s.now place second }
{
    let sequence = next(s, place, second.sequence);
    let timestamp = next(s, sequence.place, second.timestamp);
    let payload = next_payload(s, timestamp.place, second.payload);
    let csrc = next_list(s, payload.place, second.count);
    Values {
        place: csrc.place,
        sequence: sequence.field,
        timestamp: timestamp.field,
        payload: payload.field,
        csrc: csrc.list,
    }
}

// The parts of a CU whose flag byte was read, F among its flags.
#[tactic(auto, unfolding(links::specs::Cu::cu_of, links::specs::Cu::cu_rest, fields::specs::Next::next_byte))]
pub fn read_cu(s: &[u8], place: Place, flags: Flags, carried: bool) -> ReadParts
    ensures { result ≡ cu_of s.now place flags carried }
{
    let byte = next::<u8>(s, place, true);
    let second = split_second(byte.field.unwrap_or(0));
    let changes = read_changes(s, byte.place, split_flags(flags), carried);
    let values = read_values(s, changes.place, second);
    ReadParts {
        place: values.place,
        parts: Parts {
            marker: second.marker,
            checksum: changes.checksum,
            id: changes.id,
            sequence: values.sequence,
            timestamp: values.timestamp,
            payload: values.payload,
            did: changes.did,
            dsn: None,
            dts: changes.dts,
            listed: true,
            csrc: values.csrc,
        },
    }
}
