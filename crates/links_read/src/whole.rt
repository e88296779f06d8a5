ghost use Rattle.std.specs.Prelude.{◌≡◌};
ghost use Rattle.links.specs.Whole.{fixed_of, rtp_of, whole_of};

use crate::cu::{read_changes, split_flags};
use fields::list::next_list;
use fields::next::{next, next_version};
use fields::place::Place;
use headers_read::rtp::{split_first, split_second};
use links::whole::{Fixed, GotRtp, ReadWhole};
use octets::flags::Flags;
use packet::csrc::no_list;
use packet::header::{Rtp, RtpHeader};
use packet::parts::Parts;

fn read_fixed(s: &[u8], place: Place) -> Fixed
    ensures { result ≡ fixed_of s.now place }
{
    let first = next_version(s, place);
    let second = next::<u8>(s, first.place, true);
    let sequence = next(s, second.place, true);
    let timestamp = next(s, sequence.place, true);
    let ssrc = next(s, timestamp.place, true);
    Fixed {
        place: ssrc.place,
        first: first.field.unwrap_or(0),
        second: second.field.unwrap_or(0),
        sequence: sequence.field.unwrap_or(0),
        timestamp: timestamp.field.unwrap_or(0),
        ssrc: ssrc.field.unwrap_or(0),
    }
}

#[tactic(auto, unfolding(links::specs::Whole::rtp_of, links::specs::Whole::rtp_rest))]
fn read_rtp(s: &[u8], place: Place) -> GotRtp
    ensures { result ≡ rtp_of s.now place }
{
    let fixed = read_fixed(s, place);
    let first = split_first(fixed.first);
    let second = split_second(fixed.second);
    let list = next_list(s, fixed.place, first.count);
    GotRtp {
        place: list.place,
        header: RtpHeader {
            ssrc: fixed.ssrc,
            marker: second.marker,
            rtp: Rtp {
                padding: first.padding,
                extension: first.extension,
                payload: second.payload,
                sequence: fixed.sequence,
                timestamp: fixed.timestamp,
            },
            csrc: list.list,
        },
    }
}

// A CU whose flag byte was read, F not among its flags.
#[tactic(auto, unfolding(links::specs::Whole::whole_of))]
pub fn read_cu_whole(s: &[u8], place: Place, flags: Flags, carried: bool) -> ReadWhole
    ensures { result ≡ whole_of s.now place flags carried }
{
    let changes = read_changes(s, place, split_flags(flags), carried);
    let rtp = read_rtp(s, changes.place);
    let header = rtp.header;
    ReadWhole {
        place: rtp.place,
        parts: Parts {
            marker: header.marker,
            checksum: changes.checksum,
            id: changes.id,
            sequence: None,
            timestamp: None,
            payload: None,
            did: changes.did,
            dsn: None,
            dts: changes.dts,
            listed: false,
            csrc: no_list(),
        },
        header: header,
    }
}
