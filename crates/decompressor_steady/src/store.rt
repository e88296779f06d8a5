ghost use Rattle.std.specs.Prelude.{◌≡◌, ◌<◌};
ghost use Rattle.planes.specs.Planes.{lent};
ghost use Rattle.decompressor_table.specs.Layout.{context_in, Fits, Puts};
ghost use Rattle.decompressor_steady.specs.Steady.{moved_to};

use context::decompressor::DecompressorContext;
use decompressor_table::layout::Layout;

// Another context at place i, of which only that differs which a CR without fields moves: five numbers are stored, and no row.
pub fn put_moved(w: &mut [u32], h: &mut [u16], b: &mut [u8], i: usize, c: DecompressorContext)
    requires { Fits (lent w.old h.old b.old) × (i < 64) × (c ≡ moved_to c (context_in w.old h.old b.old i)) }
    ensures { Puts (lent w.old h.old b.old) i c
        (lent w.new h.new b.new) }
{
    w[Layout::TIMESTAMP + i] = c.rtp.timestamp;
    h[Layout::ID + i] = c.ip.id;
    h[Layout::SEQUENCE + i] = c.rtp.sequence;
    b[Layout::MARKER + i] = u8::from(c.marker);
    b[Layout::LINK_SEQUENCE + i] = c.link.sequence;
}
