ghost use Rattle.std.specs.Prelude.{◌≡◌, ◌<◌};
ghost use Rattle.headers.specs.Rtp.{rtp_first_of, rtp_second_of};

use headers::rtp::{RtpFirst, RtpSecond};

// The first two bytes of an RTP header, taken apart by shifts and masks.
pub fn split_first(byte: u8) -> RtpFirst
    ensures { (result ≡ rtp_first_of byte) × (result.count < 16) }
{
    RtpFirst {
        version: byte >> 6,
        padding: (byte >> 5) & 1 == 1,
        extension: (byte >> 4) & 1 == 1,
        count: byte & 15,
    }
}

pub fn split_second(byte: u8) -> RtpSecond
    ensures { result ≡ rtp_second_of byte }
{
    RtpSecond {
        marker: (byte >> 7) & 1 == 1,
        payload: byte & 127,
    }
}
