ghost use Rattle.std.specs.Prelude.{◌≡◌, ◌≤◌, length};
ghost use Rattle.octets.specs.Put.{Wrote};
ghost use Rattle.context.specs.Compressor.{kind_number, stepped};
ghost use Rattle.outgoing.specs.Outgoing.{link_bytes};
ghost use Rattle.outgoing.specs.Size.{link_size, Writable};

use compress::send::sends_checksum;
use context::step::{Kind, Step};
use headers_read::read::header_size;
use links_write::cr::{cr_size, put_cr};
use links_write::cu::{cu_size, put_cu};
use packet::header::Header;
use refresh::fh::put_fh;

// The number that goes with the bytes.
pub fn kind_number(k: Kind) -> u8
    ensures { result ≡ kind_number k }
{
    match k {
        Kind::FullHeader => 1,
        Kind::CompressedUdp => 2,
        Kind::CompressedRtp => 3,
    }
}

// How many bytes go out before the rest of the packet.
#[tactic(auto, unfolding(crate::specs::Size::link_size))]
pub fn link_size(h: Header, a: Step) -> usize
    requires { Writable h (stepped a) }
    ensures { (result ≡ link_size h (stepped a)) × (result ≤ 100) }
{
    let carried = sends_checksum(a.context);
    match a.kind {
        Kind::FullHeader => header_size(h),
        Kind::CompressedUdp => cu_size(carried, a.parts),
        Kind::CompressedRtp => cr_size(carried, a.parts),
    }
}

// The bytes that go out on context i before the rest of a packet of total bytes.
#[tactic(auto, unfolding(crate::specs::Outgoing::link_bytes, crate::specs::Size::link_size))]
pub fn put_link(out: &mut [u8], i: u8, total: u16, h: Header, a: Step) -> usize
    requires { Writable h (stepped a) × (link_size h (stepped a) ≤ length out.old) }
    ensures { Wrote out.old out.new 0 result (link_bytes i total h (stepped a)) }
{
    let carried = sends_checksum(a.context);
    match a.kind {
        Kind::FullHeader => put_fh(out, 0, i, a.link.generation, a.link.sequence, total, h),
        Kind::CompressedUdp => put_cu(out, 0, i, a.link.sequence, carried, a.parts),
        Kind::CompressedRtp => put_cr(out, 0, i, a.link.sequence, carried, a.parts),
    }
}
