ghost use Rattle.std.specs.Prelude.{◌≡◌, ◌<◌, ◌≤◌, length};
ghost use Rattle.packet.specs.Ranges.{Narrow};

use packet::csrc::Csrc;
use packet::header::{Flow, Header, Ip, Rtp};

fn flow(j: u32) -> Flow {
    let port = 4000 + 2 * (j % 64);
    Flow {
        source: 0x0A000001 + j % 64,
        destination: 0x0A000101,
        sport: port as u16,
        dport: 5004,
        ssrc: 0x1000 + j % 64,
    }
}

// The header of packet n of stream j.
fn header(j: u32, n: u32) -> Header
    ensures { Narrow result × (result.csrc.count ≡ 0) }
{
    let start = j % 64;
    let step = n % 65536;
    let id = (1000 * start + step) % 65536;
    let sequence = (100 * start + step) % 65536;
    let ip = Ip {
        tos: 0xB8,
        ttl: 64,
        flags: 1,
        id: id as u16,
    };
    let rtp = Rtp {
        padding: false,
        extension: false,
        payload: 0,
        sequence: sequence as u16,
        timestamp: 16000 * start + 160 * step,
    };
    let list = Csrc {
        count: 0,
        words: [0u32; 15],
    };
    let f = flow(j);
    Header {
        flow: f,
        ip: ip,
        rtp: rtp,
        csrc: list,
        marker: n == 0,
        checksum: 0,
    }
}

fn put_payload(out: &mut [u8], j: u32)
    requires { length out.old ≡ 200 }
    ensures { length out.new ≡ 200 }
{
    for i in 0..160 {
        out[40 + i as usize] = ((i + j % 64) % 256) as u8;
    }
}

// Packet n of stream j: 40 bytes of header and 160 of payload.
pub fn put_packet(out: &mut [u8], j: u32, n: u32)
    requires { length out.old ≡ 200 }
{
    put_payload(out, j);
    let h = header(j, n);
    headers_write::write::put_printed(out, 0, h, 200);
}
