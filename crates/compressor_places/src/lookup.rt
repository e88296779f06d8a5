ghost use Rattle.std.specs.Prelude.{◌≡◌, ◌<◌, ◌≤◌, length};
ghost use Rattle.planes.specs.Planes.{lent};
ghost use Rattle.compressor.specs.Lookup.{place_of, lowest, is_of};
ghost use Rattle.compressor.specs.Table.{is_empty};
ghost use Rattle.compressor_table.specs.Layout.{context_in, table_of, Fits};

use compressor_table::layout::Layout;
use packet::header::Flow;

// Whether the context at place i is one of the flow. The SSRC tells most flows apart, so it is looked at first.
fn is_of(w: &[u32], h: &[u16], b: &[u8], i: usize, f: Flow) -> bool
    requires { (length w.now ≡ 1344) × (length h.now ≡ 384) × (length b.now ≡ 1282) × (i < 64) }
    ensures { result ≡ is_of f (context_in w.now h.now b.now i) }
{
    if w[Layout::SSRC + i] == f.ssrc {
        return !(b[Layout::STATUS + i] == 0)
            & ((f.source == w[Layout::SOURCE + i])
                & (f.destination == w[Layout::DESTINATION + i])
                & (f.sport == h[Layout::SPORT + i])
                & (f.dport == h[Layout::DPORT + i]));
    }
    false
}

fn lowest_of(w: &[u32], h: &[u16], b: &[u8], k: usize, f: Flow) -> Option<usize>
    requires { Fits (lent w.now h.now b.now) × (k ≤ 64) }
    ensures { result
        ≡ lowest (is_of f) (table_of (lent w.now h.now b.now)).contexts 0 k }
{
    for i in 0..k {
        if is_of(w, h, b, i, f) {
            return Some(i);
        }
    }
    None
}

fn lowest_empty(w: &[u32], h: &[u16], b: &[u8], k: usize) -> Option<usize>
    requires { Fits (lent w.now h.now b.now) × (k ≤ 64) }
    ensures { result
        ≡ lowest is_empty (table_of (lent w.now h.now b.now)).contexts 0 k }
{
    for i in 0..k {
        if b[Layout::STATUS + i] == 0 {
            return Some(i);
        }
    }
    None
}

// The lowest context of the flow, else the lowest that is empty.
pub fn find(w: &[u32], h: &[u16], b: &[u8], f: Flow) -> Option<usize>
    requires { Fits (lent w.now h.now b.now) × ((table_of (lent w.now h.now b.now)).settings.contexts ≤ 64) }
    ensures { result ≡ place_of (table_of (lent w.now h.now b.now)) f }
{
    let k = b[Layout::CONTEXTS] as usize;
    lowest_of(w, h, b, k, f).or_else(|| lowest_empty(w, h, b, k))
}
