ghost use Rattle.std.specs.Prelude.{◌≡◌, ◌≤◌, ◌+◌, length};
ghost use Rattle.headers.specs.Header.{header_size};
ghost use Rattle.packet.specs.Ranges.{Narrow};
ghost use Rattle.decompressor.specs.Receive.{packet_of, is_disproved};

use context::decompressor::DecompressorContext;
use decompress::header::reads_checksum;
use headers_write::udp::udp_checksum;
use packet::header::Header;

// Whether the UDP checksum disproves a packet that was rebuilt g steps on. One step on nothing was guessed, so nothing is judged.
//
// It is worked out from the header and the rest: no byte of output is written before the answer is known.
pub fn is_disproved(c: DecompressorContext, g: u8, h: Header, rest: &[u8], size: usize) -> bool
    requires { Narrow h × (size ≡ header_size h + length rest.now) × (size ≤ 1500) }
    ensures { result ≡ is_disproved c g (packet_of h rest.now) }
{
    if reads_checksum(c) & (1 < g) {
        return h.checksum != udp_checksum(h, size as u16, rest);
    }
    false
}
