ghost use Rattle.std.specs.Prelude.{◌≡◌, ◌≤◌, ◌+◌, length};
ghost use Rattle.octets.specs.Put.{Wrote};
ghost use Rattle.headers.specs.Header.{udp_bytes, rtp_fixed, header_bytes, header_size};
ghost use Rattle.headers.specs.Checksum.{printed};
ghost use Rattle.packet.specs.Ranges.{Narrow};

use crate::checksum::ip_checksum;
use crate::ip::{put_ip_back, put_ip_front};
use crate::rtp::{pack_first, pack_second};
use headers::rtp::{RtpFirst, RtpSecond};
use octets::put::{put, put_list};
use packet::header::Header;

pub fn put_udp(out: &mut [u8], at: usize, h: Header, size: u16) -> usize
    requires { at + 8 ≤ length out.old }
    ensures { (result ≡ at + 8) × Wrote out.old out.new at result (udp_bytes size h) }
{
    let flow = h.flow;
    let at = put(out, at, flow.sport);
    let at = put(out, at, flow.dport);
    let at = put(out, at, size);
    put(out, at, h.checksum)
}

// The twelve fixed bytes of an RTP header.
pub fn put_rtp(out: &mut [u8], at: usize, h: Header) -> usize
    requires { Narrow h × (at + 12 ≤ length out.old) }
    ensures { (result ≡ at + 12) × Wrote out.old out.new at result (rtp_fixed h) }
{
    let rtp = h.rtp;
    let flow = h.flow;
    let list = h.csrc;
    let first = pack_first(RtpFirst {
        version: 2,
        padding: rtp.padding,
        extension: rtp.extension,
        count: list.count,
    });
    let second = pack_second(RtpSecond {
        marker: h.marker,
        payload: rtp.payload,
    });
    let at = put(out, at, first);
    let at = put(out, at, second);
    let at = put(out, at, rtp.sequence);
    let at = put(out, at, rtp.timestamp);
    put(out, at, flow.ssrc)
}

// A header with the length fields and the IP checksum as they are given.
pub fn put_header(
    out: &mut [u8],
    at: usize,
    h: Header,
    ip_length: u16,
    udp_length: u16,
    checksum: u16,
) -> usize
    requires { Narrow h × (at + header_size h ≤ length out.old) }
    ensures { (result ≡ at + header_size h)
        × Wrote out.old out.new at result (header_bytes ip_length udp_length checksum h) }
{
    let list = h.csrc;
    let at = put_ip_front(out, at, h, ip_length);
    let at = put_ip_back(out, at, h, checksum);
    let at = put_udp(out, at, h, udp_length);
    let at = put_rtp(out, at, h);
    put_list(out, at, list)
}

// The header of a packet of so many bytes, from which come both lengths and the IP checksum.
pub fn put_printed(out: &mut [u8], at: usize, h: Header, total: u16) -> usize
    requires { Narrow h × (20 ≤ total) × (at + header_size h ≤ length out.old) }
    ensures { (result ≡ at + header_size h) × Wrote out.old out.new at result (printed h total) }
{
    let checksum = ip_checksum(h, total);
    put_header(out, at, h, total, total - 20, checksum)
}

// The same for a header without a CSRC list: straight, so that it becomes part of its call.
pub fn put_bare(out: &mut [u8], at: usize, h: Header, total: u16) -> usize
    requires { Narrow h × (20 ≤ total) × (h.csrc.count ≡ 0) × (at + header_size h ≤ length out.old) }
    ensures { (result ≡ at + header_size h) × Wrote out.old out.new at result (printed h total) }
{
    let checksum = ip_checksum(h, total);
    let at = put_ip_front(out, at, h, total);
    let at = put_ip_back(out, at, h, checksum);
    let at = put_udp(out, at, h, total - 20);
    put_rtp(out, at, h)
}
