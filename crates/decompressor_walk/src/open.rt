ghost use Rattle.std.specs.Prelude.{◌≡◌, true, []};
ghost use Rattle.planes.specs.Planes.{lent};
ghost use Rattle.decompressor.specs.Table.{empty_table};
ghost use Rattle.decompressor_table.specs.Layout.{sized, table_of, Fits};
ghost use Rattle.decompressor_table.specs.Calls.{Gives, open_lent};

use decompressor::answer::Outcome;
use decompressor_table::layout::Layout;
use packet::refusal::Refusal;
use settings::Settings;

// A table with nothing in it. A load puts its contexts into one.
pub fn put_empty(w: &mut [u32], h: &mut [u16], b: &mut [u8], s: Settings)
    requires { sized (lent w.old h.old b.old) ≡ true }
    ensures { Fits (lent w.new h.new b.new)
        × (table_of (lent w.new h.new b.new) ≡ empty_table s) }
{
    w.fill(0);
    h.fill(0);
    b.fill(0);
    b[Layout::REPEATS] = s.repeats;
    b[Layout::CONTEXTS] = s.contexts;
}

// Opens a table. The settings alone are judged, never what the slices hold.
pub fn open(w: &mut [u32], h: &mut [u16], b: &mut [u8], n: u32, k: u32) -> Outcome
    ensures { Gives (lent w.old h.old b.old)
        (lent w.new h.new b.new) result []
        (open_lent (lent w.old h.old b.old) n k) }
{
    let sized = (w.len() == Layout::WORDS)
        & (h.len() == Layout::SHORTS)
        & (b.len() == Layout::BYTES);
    if !sized {
        return Err(Refusal::Unsound);
    }
    let s = Settings::open(n, k).ok_or(Refusal::Unsound)?;
    put_empty(w, h, b, s);
    Ok(0)
}
