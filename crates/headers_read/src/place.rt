ghost use Rattle.std.specs.Prelude.{◌≡◌, ◌≤◌, ◌<◌, ◌+◌, length};
ghost use Rattle.codes.specs.Reading.{word_at, long_at};
ghost use Rattle.headers.specs.Header.{count_at};

use crate::rtp::split_first;
use codes::field::Field;

// The numbers that stand at a place of a packet that is known to be long enough.
pub fn word_at(p: &[u8], at: usize) -> u16
    requires { at + 2 ≤ length p.now }
    ensures { result ≡ word_at p.now at }
{
    u16::at(p, at)
}

pub fn long_at(p: &[u8], at: usize) -> u32
    requires { at + 4 ≤ length p.now }
    ensures { result ≡ long_at p.now at }
{
    u32::at(p, at)
}

// The CSRC count of an RTP header that begins at a place.
pub fn count_at(p: &[u8], at: usize) -> usize
    requires { at + 1 ≤ length p.now }
    ensures { (result ≡ count_at p.now at) × (result < 16) }
{
    let first = split_first(p[at]);
    first.count as usize
}
