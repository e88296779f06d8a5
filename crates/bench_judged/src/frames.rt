ghost use Rattle.std.specs.Prelude.{◌≡◌, ◌≤◌, length};
ghost use Rattle.packet.specs.Ranges.{Narrow};

use headers_write::checksum::ip_checksum;
use headers_write::udp::udp_checksum;
use headers_write::write::put_header;
use octets::put::put;
use packet::csrc::Csrc;
use packet::header::{Flow, Header, Ip, Rtp};

// The header of a packet so many steps after the first.
fn header(steps: u16, checksum: u16) -> Header
    requires { steps ≤ 100 }
    ensures { Narrow result × (result.csrc.count ≡ 0) }
{
    let flow = Flow {
        source: 0x0A000001,
        destination: 0x0A000101,
        sport: 4000,
        dport: 5004,
        ssrc: 0x1000,
    };
    let ip = Ip {
        tos: 0xB8,
        ttl: 64,
        flags: 1,
        id: 1000 + steps,
    };
    let rtp = Rtp {
        padding: false,
        extension: false,
        payload: 0,
        sequence: 100 + steps,
        timestamp: 16000,
    };
    let list = Csrc {
        count: 0,
        words: [0u32; 15],
    };
    Header {
        flow: flow,
        ip: ip,
        rtp: rtp,
        csrc: list,
        marker: false,
        checksum: checksum,
    }
}

// The full header of a packet of so many bytes, on context 0, with generation and link sequence 0.
pub fn put_full(out: &mut [u8], size: u16, carried: bool)
    requires { 40 ≤ length out.old }
{
    let h = header(0, if carried { 0xFFFF } else { 0 });
    let checksum = ip_checksum(h, size);
    put_header(out, 0, h, 0x4000, 0, checksum);
}

// The bytes of a CR before its payload.
pub fn head_size(carried: bool) -> usize
    ensures { result ≤ 4 }
{
    if carried { 4 } else { 2 }
}

// A CR that is two steps on, up to its payload, which is zeros.
pub fn put_compressed(out: &mut [u8], size: u16, carried: bool)
    requires { (4 ≤ length out.old) × (40 ≤ size) × (size ≤ 1500) }
{
    let payload = [0u8; 1460];
    let end = size as usize - 40;
    let checksum = udp_checksum(header(2, 0), size, &payload[0..end]);
    let at = put(out, 0, 2u16);
    if carried {
        put(out, at, checksum);
    }
}
