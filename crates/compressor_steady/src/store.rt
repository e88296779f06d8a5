ghost use Rattle.std.specs.Prelude.{◌≡◌, ◌<◌, ◌+◌, length, get_or, set};
ghost use Rattle.planes.specs.Planes.{lent};
ghost use Rattle.context.specs.Field.{next_sequence};
ghost use Rattle.compressor_steady.specs.Steady.{steadied};
ghost use Rattle.compressor_table.specs.Layout.{context_in, Fits, Puts};

use compress::step::next_sequence;
use compressor_table::layout::Layout;
use packet::header::Header;

fn store_words(w: &mut [u32], i: usize, timestamp: u32)
    requires { (length w.old ≡ 1344) × (i < 64) }
    ensures { w.new
        ≡ set (set w.old (320 + i) (get_or w.old (256 + i) 0)) (192 + i) timestamp }
{
    w[Layout::EARLIER_TIMESTAMP + i] = w[Layout::DELTA_TIMESTAMP + i];
    w[Layout::TIMESTAMP + i] = timestamp;
}

fn store_shorts(h: &mut [u16], i: usize, id: u16, sequence: u16)
    requires { (length h.old ≡ 384) × (i < 64) }
    ensures { h.new
        ≡ set (set (set h.old (320 + i) (get_or h.old (256 + i) 0)) (128 + i) id) (192 + i) sequence }
{
    h[Layout::EARLIER_ID + i] = h[Layout::DELTA_ID + i];
    h[Layout::ID + i] = id;
    h[Layout::SEQUENCE + i] = sequence;
}

fn store_bytes(b: &mut [u8], i: usize)
    requires { (length b.old ≡ 1282) × (i < 64) }
    ensures { b.new
        ≡ set (set b.old (576 + i) 1) (1152 + i) (next_sequence (get_or b.old (1152 + i) 0)) }
{
    let next = next_sequence(b[Layout::LINK_SEQUENCE + i]);
    b[Layout::EARLIER_KNOWN + i] = 1;
    b[Layout::LINK_SEQUENCE + i] = next;
}

// The context at place i after a steady packet with the header x.
pub fn store_steady(w: &mut [u32], h: &mut [u16], b: &mut [u8], i: usize, x: Header)
    requires { Fits (lent w.old h.old b.old) × (i < 64) }
    ensures { Puts (lent w.old h.old b.old) i
        (steadied x (context_in w.old h.old b.old i))
        (lent w.new h.new b.new) }
{
    store_words(w, i, x.rtp.timestamp);
    store_shorts(h, i, x.ip.id, x.rtp.sequence);
    store_bytes(b, i);
}
