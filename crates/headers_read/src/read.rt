ghost use Rattle.std.specs.Prelude.{◌≡◌, ◌≤◌, ◌<◌, ◌+◌, ◌*◌, length};
ghost use Rattle.headers.specs.Header.{list_at, count_at, rtp_at, flow_of, ip_of, header_of, size_with, header_size};

use crate::place::{long_at, word_at};
use crate::rtp::{split_first, split_second};
use packet::csrc::Csrc;
use packet::header::{Flow, Header, Ip, Rtp, RtpHeader};

// A CSRC list of n words that begins at a place.
pub fn read_list(s: &[u8], at: usize, n: u8) -> Csrc
    requires { (n ≤ 15) × (at + 4 * n ≤ length s.now) }
    ensures { result ≡ list_at s.now at n }
{
    let mut list = [0u32; 15];
    for i in 0..n as usize {
        list[i] = long_at(s, at + 4 * i);
    }
    Csrc {
        count: n,
        words: list,
    }
}

// The fields of an RTP header that begins at a place, but for marker, SSRC and list.
fn read_fields(s: &[u8], at: usize) -> Rtp
    requires { at + 12 ≤ length s.now }
    ensures { result ≡ (rtp_at s.now at).rtp }
{
    let first = split_first(s[at]);
    let second = split_second(s[at + 1]);
    Rtp {
        padding: first.padding,
        extension: first.extension,
        payload: second.payload,
        sequence: word_at(s, at + 2),
        timestamp: long_at(s, at + 4),
    }
}

fn read_marker(s: &[u8], at: usize) -> bool
    requires { at + 2 ≤ length s.now }
    ensures { result ≡ (rtp_at s.now at).marker }
{
    let second = split_second(s[at + 1]);
    second.marker
}

// The CSRC list of an RTP header that begins at a place.
pub fn read_rtp_list(s: &[u8], at: usize) -> Csrc
    requires { at + (12 + 4 * count_at s.now at) ≤ length s.now }
    ensures { result ≡ (rtp_at s.now at).csrc }
{
    let first = split_first(s[at]);
    read_list(s, at + 12, first.count)
}

// The RTP header that begins at a place.
pub fn read_rtp(s: &[u8], at: usize) -> RtpHeader
    requires { at + (12 + 4 * count_at s.now at) ≤ length s.now }
    ensures { result ≡ rtp_at s.now at }
{
    let fields = read_fields(s, at);
    let list = read_rtp_list(s, at);
    RtpHeader {
        ssrc: long_at(s, at + 8),
        marker: read_marker(s, at),
        rtp: fields,
        csrc: list,
    }
}

fn read_flow(p: &[u8]) -> Flow
    requires { 40 ≤ length p.now }
    ensures { result ≡ flow_of p.now }
{
    Flow {
        source: long_at(p, 12),
        destination: long_at(p, 16),
        sport: word_at(p, 20),
        dport: word_at(p, 22),
        ssrc: long_at(p, 36),
    }
}

fn read_ip(p: &[u8]) -> Ip
    requires { 40 ≤ length p.now }
    ensures { result ≡ ip_of p.now }
{
    Ip {
        tos: p[1],
        ttl: p[8],
        flags: p[6] >> 6,
        id: word_at(p, 4),
    }
}

// The header of a packet whose list was read: without the list's loop it is straight, so that the compiler puts it into a send.
pub fn header_with(p: &[u8], list: Csrc) -> Header
    requires { (40 ≤ length p.now) × (list ≡ (rtp_at p.now 28).csrc) }
    ensures { result ≡ header_of p.now }
{
    let flow = read_flow(p);
    let ip = read_ip(p);
    let rtp = read_fields(p, 28);
    Header {
        flow: flow,
        ip: ip,
        rtp: rtp,
        csrc: list,
        marker: read_marker(p, 28),
        checksum: word_at(p, 26),
    }
}

// The header of a packet, or of a full header: no length and no IP checksum is read.
pub fn read_header(p: &[u8]) -> Header
    requires { size_with (count_at p.now 28) ≤ length p.now }
    ensures { result ≡ header_of p.now }
{
    let list = read_rtp_list(p, 28);
    header_with(p, list)
}

// How many bytes a header has: where the rest of its packet begins.
pub fn size_with(count: usize) -> usize
    requires { count < 256 }
    ensures { result ≡ size_with count }
{
    40 + 4 * count
}

pub fn header_size(h: Header) -> usize
    ensures { result ≡ header_size h }
{
    let list = h.csrc;
    size_with(list.count as usize)
}
