ghost use Rattle.std.specs.Prelude.{◌≡◌, ◌≤◌, ◌<◌, ◌+◌, ◌*◌, length};
ghost use Rattle.octets.specs.Put.{Wrote};
ghost use Rattle.headers.specs.Header.{ip_front, ip_back};
ghost use Rattle.packet.specs.Ranges.{Narrow};

use octets::put::put;
use packet::header::Header;

// The word of flags and fragment offset: reserved bit and DF, all else 0.
pub fn fragment_word(flags: u8) -> u16
    requires { flags < 4 }
    ensures { result ≡ flags * 0x4000 }
{
    (flags as u16) << 14
}

// The IP header up to the flags, with the length as it is given.
pub fn put_ip_front(out: &mut [u8], at: usize, h: Header, size: u16) -> usize
    requires { Narrow h × (at + 8 ≤ length out.old) }
    ensures { (result ≡ at + 8) × Wrote out.old out.new at result (ip_front size h) }
{
    let ip = h.ip;
    let fragment = fragment_word(ip.flags);
    let at = put(out, at, 0x45u8);
    let at = put(out, at, ip.tos);
    let at = put(out, at, size);
    let at = put(out, at, ip.id);
    put(out, at, fragment)
}

// The rest of it, with the checksum as it is given.
pub fn put_ip_back(out: &mut [u8], at: usize, h: Header, checksum: u16) -> usize
    requires { at + 12 ≤ length out.old }
    ensures { (result ≡ at + 12) × Wrote out.old out.new at result (ip_back checksum h) }
{
    let ip = h.ip;
    let flow = h.flow;
    let at = put(out, at, ip.ttl);
    let at = put(out, at, 17u8);
    let at = put(out, at, checksum);
    let at = put(out, at, flow.source);
    put(out, at, flow.destination)
}
