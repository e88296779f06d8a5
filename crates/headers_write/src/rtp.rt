ghost use Rattle.std.specs.Prelude.{◌≡◌, ◌<◌};
ghost use Rattle.headers.specs.Rtp.{rtp_first_byte, rtp_second_byte};

use headers::rtp::{RtpFirst, RtpSecond};

// The first two bytes of an RTP header, packed by shifts.
pub fn pack_first(first: RtpFirst) -> u8
    requires { (first.version < 4) × (first.count < 16) }
    ensures { result ≡ rtp_first_byte first }
{
    let padding = first.padding as u8;
    let extension = first.extension as u8;
    (first.version << 6) | (padding << 5) | (extension << 4) | first.count
}

pub fn pack_second(second: RtpSecond) -> u8
    requires { second.payload < 128 }
    ensures { result ≡ rtp_second_byte second }
{
    let marker = second.marker as u8;
    (marker << 7) | second.payload
}
