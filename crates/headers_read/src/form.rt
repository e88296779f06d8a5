ghost use Rattle.std.specs.Prelude.{◌≡◌, ◌≤◌, length};
ghost use Rattle.headers.specs.Checksum.{ip_checksum_of};
ghost use Rattle.headers.specs.Compressible.{fixed_form, compressible};

use crate::place::{count_at, word_at};
use octets::put::put_all;
use octets::sum::sum;

// Whether the bytes have what every full header and every packet that is compressed has in common.
pub fn fixed_form(p: &[u8]) -> bool
    requires { 40 ≤ length p.now }
    ensures { result ≡ fixed_form p.now }
{
    let fragment = word_at(p, 6) & 0x3FFF;
    (p[0] == 0x45) & (fragment == 0) & (p[9] == 17) & (p[28] >> 6 == 2)
}

// The IP checksum of the header that stands in the bytes, with total for its length.
//
// The length is not read, since a full header has something else in its place. The words beside it and the checksum are put side
// by side, so that they are one sum, which is folded at its end.
pub fn ip_checksum_of(p: &[u8], total: u16) -> u16
    requires { 40 ≤ length p.now }
    ensures { result ≡ ip_checksum_of p.now total }
{
    let mut words = [0u8; 16];
    let at = put_all(&mut words, 0, &p[0..2]);
    let at = put_all(&mut words, at, &p[4..10]);
    put_all(&mut words, at, &p[12..20]);
    65535 - sum(total, &words)
}

// Whether a packet is compressed at all.
pub fn is_compressible(p: &[u8]) -> bool
    ensures { result ≡ compressible p.now }
{
    let size = p.len();
    if size < 40 {
        return false;
    }
    let total = word_at(p, 2);
    let right = word_at(p, 10) == ip_checksum_of(p, total);
    let count = count_at(p, 28);
    let fits = 12 + 4 * count <= size - 28;
    let total = total as usize;
    fixed_form(p)
        & (total == size)
        & right
        & (word_at(p, 24) as usize + 20 == total)
        & (word_at(p, 22) & 1 == 0)
        & fits
}
