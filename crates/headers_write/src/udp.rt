ghost use Rattle.std.specs.Prelude.{◌≡◌, ◌++◌, ◌≤◌, ◌+◌, length};
ghost use Rattle.octets.specs.Put.{Wrote};
ghost use Rattle.octets.specs.Sum.{sum_of, words_of};
ghost use Rattle.headers.specs.Checksum.{printed};
ghost use Rattle.headers.specs.UdpChecksum.{never_blank, udp_checksum_of};
ghost use Rattle.headers_write.specs.Summed.{pseudo_bytes, summed_bytes};
ghost use Rattle.packet.specs.Ranges.{Narrow};

use crate::write::{put_rtp, put_udp};
use octets::put::{put, put_list};
use octets::sum::sum;
use packet::header::Header;

// The pseudo-header, which stands on no wire.
fn put_pseudo(out: &mut [u8], at: usize, h: Header, size: u16) -> usize
    requires { at + 12 ≤ length out.old }
    ensures { (result ≡ at + 12) × Wrote out.old out.new at result (pseudo_bytes size h) }
{
    let flow = h.flow;
    let at = put(out, at, flow.source);
    let at = put(out, at, flow.destination);
    let at = put(out, at, 17u16);
    put(out, at, size)
}

// The sum over what stands before the rest of a packet. 92 bytes hold it with the longest CSRC list.
fn sum_header(h: Header, size: u16) -> u16
    requires { Narrow h }
    ensures { result ≡ sum_of 0 (words_of (summed_bytes size h)) }
{
    let list = h.csrc;
    let mut blank = h;
    blank.checksum = 0;
    let mut bytes = [0u8; 92];
    let at = put_pseudo(&mut bytes, 0, h, size);
    let at = put_udp(&mut bytes, at, blank, size);
    let at = put_rtp(&mut bytes, at, h);
    let at = put_list(&mut bytes, at, list);
    sum(0, &bytes[0..at])
}

// FFFF stands for 0000, which would be blank.
fn never_blank(x: u16) -> u16
    ensures { result ≡ never_blank x }
{
    if x == 0 { 0xFFFF } else { x }
}

// The UDP checksum of the packet of so many bytes that has this header and this rest. Nothing is written for it.
pub fn udp_checksum(h: Header, total: u16, rest: &[u8]) -> u16
    requires { Narrow h × (20 ≤ total) }
    ensures { result ≡ udp_checksum_of (printed h total ++ rest.now) }
{
    let front = sum_header(h, total - 20);
    never_blank(65535 - sum(front, rest))
}
