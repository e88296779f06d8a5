ghost use Rattle.std.specs.Prelude.{◌≡◌};
ghost use Rattle.context.specs.Compressor.{kind_of, kind_number, checksum_sent, list_if, parts_of};

use context::compressor::CompressorContext;
use context::kept::Deltas;
use context::step::{DueNow, Kind};
use packet::csrc::{Csrc, no_list};
use packet::header::Header;
use packet::parts::Parts;

#[tactic(auto, unfolding(context::specs::Compressor::kind_of))]
pub fn choose_kind(full: u8, any: bool) -> Kind
    ensures { kind_number result ≡ kind_of full any }
{
    if 0 < full {
        return Kind::FullHeader;
    }
    if any {
        return Kind::CompressedUdp;
    }
    Kind::CompressedRtp
}

// Whether a CU or CR on this context has the UDP checksum.
pub fn sends_checksum(c: CompressorContext) -> bool
    ensures { result ≡ checksum_sent c }
{
    !c.blank
}

#[tactic(auto, unfolding(context::specs::Compressor::list_if))]
fn list_if(any: bool, l: Csrc) -> Csrc
    ensures { result ≡ list_if any l }
{
    if any { l } else { no_list() }
}

// What a CU or CR carries; the UDP checksum is the packet's own.
#[tactic(auto, unfolding(context::specs::Compressor::parts_of))]
pub fn carry(h: Header, now: DueNow, any: bool, kept: Deltas) -> Parts
    ensures { result ≡ parts_of h now any kept }
{
    Parts {
        marker: h.marker,
        checksum: h.checksum,
        id: now.id.then_some(h.ip.id),
        sequence: now.sequence.then_some(h.rtp.sequence),
        timestamp: now.timestamp.then_some(h.rtp.timestamp),
        payload: now.payload.then_some(h.rtp.payload),
        did: now.did.then_some(kept.id),
        dsn: None,
        dts: now.dts.then_some(kept.timestamp),
        listed: any,
        csrc: list_if(any, h.csrc),
    }
}
