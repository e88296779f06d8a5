ghost use Rattle.std.specs.Prelude.{◌≡◌, ℕ, ◌<◌, ◌≤◌, length};
ghost use Rattle.octets.specs.Put.{Wrote};
ghost use Rattle.compressor_steady.specs.Steady.{steady_step};
ghost use Rattle.outgoing.specs.Outgoing.{link_bytes};

use compress::send::sends_checksum;
use context::compressor::CompressorContext;
use links_write::head::put_head;
use octets::flags::Flags;
use octets::put::put_if;
use packet::header::Header;

// What goes out before the rest of a steady packet: the head of a CR, and the UDP checksum where there is one.
pub fn put_steady(out: &mut [u8], i: u8, x: Header, c: CompressorContext) -> usize
    requires { (c.link.sequence < 16) × (4 ≤ length out.old) }
    ensures { (total : ℕ) → Wrote out.old out.new 0 result (link_bytes i total x (steady_step x c)) }
{
    let carried = sends_checksum(c);
    let flags = Flags {
        bit7: x.marker,
        bit6: false,
        bit5: false,
        bit4: false,
        low: c.link.sequence,
    };
    let at = put_head(out, 0, i, flags);
    put_if(out, at, carried, x.checksum)
}
