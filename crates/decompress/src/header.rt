ghost use Rattle.std.specs.Prelude.{◌≡◌};
ghost use Rattle.context.specs.Decompressor.{checksum_read, checksum_of, rebuilt};

use context::decompressor::DecompressorContext;
use packet::header::Header;

// Whether a CU or CR on this context has the UDP checksum.
pub fn reads_checksum(c: DecompressorContext) -> bool
    ensures { result ≡ checksum_read c }
{
    c.carried
}

// What stands in the UDP checksum's place of a rebuilt packet.
fn checksum_of(c: DecompressorContext, sent: u16) -> u16
    ensures { result ≡ checksum_of c sent }
{
    if reads_checksum(c) { sent } else { 0 }
}

// The header at which a context stands, with the UDP checksum that was sent.
#[tactic(auto, unfolding(context::specs::Decompressor::rebuilt))]
pub fn rebuild(c: DecompressorContext, sent: u16) -> Header
    ensures { result ≡ rebuilt c sent }
{
    Header {
        flow: c.flow,
        ip: c.ip,
        rtp: c.rtp,
        csrc: c.csrc,
        marker: c.marker,
        checksum: checksum_of(c, sent),
    }
}
