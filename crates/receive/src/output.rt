ghost use Rattle.std.specs.Prelude.{◌≡◌, ◌≤◌, ◌+◌, length};
ghost use Rattle.octets.specs.Put.{Wrote};
ghost use Rattle.headers.specs.Header.{header_size};
ghost use Rattle.packet.specs.Ranges.{Narrow};
ghost use Rattle.decompressor.specs.Receive.{packet_of};

use headers_read::read::header_size;
use headers_write::write::{put_bare, put_printed};
use octets::put::put_all;
use packet::header::Header;

// How long the packet is that has this header and this rest.
pub fn packet_size(h: Header, rest: &[u8]) -> usize
    requires { (h.csrc.count ≤ 15) × (length rest.now ≤ 1500) }
    ensures { (result ≡ header_size h + length rest.now) × (result ≡ length (packet_of h rest.now)) }
{
    header_size(h) + rest.len()
}

// The packet at the front of the output. Its size, which was judged, is what its length fields are worked out from.
pub fn put_packet(out: &mut [u8], h: Header, rest: &[u8], size: usize) -> usize
    requires { Narrow h × (size ≡ header_size h + length rest.now) × (size ≤ 1500) × (size ≤ length out.old) }
    ensures { Wrote out.old out.new 0 result (packet_of h rest.now) }
{
    let past = put_printed(out, 0, h, size as u16);
    put_all(out, past, rest)
}

// The same where the header has no CSRC list.
pub fn put_bare_packet(out: &mut [u8], h: Header, rest: &[u8], size: usize) -> usize
    requires { Narrow h × (h.csrc.count ≡ 0) × (size ≡ header_size h + length rest.now) × (size ≤ 1500)
        × (size ≤ length out.old) }
    ensures { Wrote out.old out.new 0 result (packet_of h rest.now) }
{
    let past = put_bare(out, 0, h, size as u16);
    put_all(out, past, rest)
}
