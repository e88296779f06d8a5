ghost use Rattle.std.specs.Prelude.{◌≡◌, ◌≤◌, ◌<◌, ◌+◌, length};
ghost use Rattle.headers.specs.Header.{count_at, size_with, header_size};
ghost use Rattle.octets.specs.Put.{Wrote};
ghost use Rattle.packet.specs.Ranges.{Narrow};
ghost use Rattle.packet.specs.Refusal.{verdict_number};
ghost use Rattle.links.specs.Fh.{fields_form, fh_judged, fh_of, ip_field, fh_bytes};

use headers_read::form::{fixed_form, ip_checksum_of};
use headers_read::place::{count_at, word_at};
use headers_read::read::{header_size, read_header, size_with};
use headers_write::checksum::ip_checksum;
use headers_write::write::put_header;
use links::fh::FullHeader;
use packet::header::Header;
use packet::refusal::Refusal;

// The leading bits of the two length fields.
fn fields_form(s: &[u8]) -> bool
    requires { 40 ≤ length s.now }
    ensures { result ≡ fields_form s.now }
{
    (s[2] >> 6 == 1) & (word_at(s, 24) >> 4 == 0)
}

// A full header of any bytes, judged whole. The total length is its own, since only two fields differ from its packet.
pub fn judge_fh(contexts: u8, s: &[u8]) -> Result<(), Refusal>
    requires { length s.now < 65536 }
    ensures { verdict_number result ≡ fh_judged contexts s.now }
{
    let size = s.len();
    if size < 40 {
        return Err(Refusal::Cut);
    }
    if contexts <= s[3] {
        return Err(Refusal::NoSuchContext);
    }
    let right = word_at(s, 10) == ip_checksum_of(s, size as u16);
    if !(fixed_form(s) & fields_form(s) & right) {
        return Err(Refusal::Forbidden);
    }
    if size < size_with(count_at(s, 28)) {
        return Err(Refusal::Cut);
    }
    Ok(())
}

// What a full header says that was judged good.
pub fn read_fh(s: &[u8]) -> FullHeader
    requires { size_with (count_at s.now 28) ≤ length s.now }
    ensures { result ≡ fh_of s.now }
{
    let header = read_header(s);
    let start = header_size(header);
    FullHeader {
        header: header,
        context: s[3],
        generation: s[2] & 63,
        link: s[25] & 15,
        start: start,
    }
}

// What stands in the IP length's place: the bits 0, 1 and the generation in a byte, then the context number.
fn ip_field(context: u8, generation: u8) -> u16
    requires { generation < 64 }
    ensures { result ≡ ip_field context generation }
{
    let generation = generation as u16;
    let context = context as u16;
    (1 << 14) | (generation << 8) | context
}

// The bytes of a full header, total being the length of its packet.
pub fn put_fh(
    out: &mut [u8],
    at: usize,
    context: u8,
    generation: u8,
    link: u8,
    total: u16,
    h: Header,
) -> usize
    requires { Narrow h × (generation < 64) × (at + header_size h ≤ length out.old) }
    ensures { (result ≡ at + header_size h)
        × Wrote out.old out.new at result (fh_bytes context generation link total h) }
{
    let field = ip_field(context, generation);
    let checksum = ip_checksum(h, total);
    put_header(out, at, h, field, link as u16, checksum)
}
