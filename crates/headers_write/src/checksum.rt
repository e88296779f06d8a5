ghost use Rattle.std.specs.Prelude.{◌≡◌};
ghost use Rattle.headers.specs.Checksum.{ip_checksum};
ghost use Rattle.packet.specs.Ranges.{Narrow};

use crate::ip::{put_ip_back, put_ip_front};
use octets::sum::sum;
use packet::header::Header;

// The IP checksum of a header in a packet of so many bytes: of its own bytes, with 0 in the checksum's place.
pub fn ip_checksum(h: Header, total: u16) -> u16
    requires { Narrow h }
    ensures { result ≡ ip_checksum h total }
{
    let mut bytes = [0u8; 20];
    let at = put_ip_front(&mut bytes, 0, h, total);
    put_ip_back(&mut bytes, at, h, 0);
    65535 - sum(0, &bytes)
}
