ghost use Rattle.std.specs.Prelude.{◌≡◌, ◌≤◌, length};
ghost use Rattle.links.specs.Fh.{fh_judged};
ghost use Rattle.decompressor.specs.Table.{Sound};
ghost use Rattle.decompressor.specs.Receive.{receive_full};
ghost use Rattle.planes.specs.Planes.{lent};
ghost use Rattle.decompressor_table.specs.Layout.{table_of, Fits};
ghost use Rattle.decompressor_table.specs.Calls.{Gives};
ghost use Rattle.receive.specs.Taken.{accept_full};

use crate::output::put_packet;
use context::kept::Link;
use decompress::full::fill;
use decompressor::answer::Outcome;
use decompressor_table::layout::Layout;
use decompressor_table::write::put_context;
use packet::refusal::Refusal;
use refresh::fh::{judge_fh, read_fh};

// A full header that was judged good. The packet is as long as it, since only what stands in two fields differs.
fn accept_full(w: &mut [u32], h: &mut [u16], b: &mut [u8], s: &[u8], out: &mut [u8]) -> Outcome
    requires { Fits (lent w.old h.old b.old) × Sound (table_of (lent w.old h.old b.old))
        × (fh_judged (table_of (lent w.old h.old b.old)).settings.contexts s.now ≡ 0) × (length s.now ≤ 1500) }
    ensures { Gives (lent w.old h.old b.old)
        (lent w.new h.new b.new) result out.new
        (accept_full (table_of (lent w.old h.old b.old)) s.now out.old) }
{
    let size = s.len();
    if out.len() < size {
        return Err(Refusal::NoRoom);
    }
    let full = read_fh(s);
    put_packet(out, full.header, &s[full.start..], size);
    let link = Link {
        sequence: full.link,
        generation: full.generation,
    };
    put_context(w, h, b, full.context as usize, fill(full.header, link));
    Ok(size)
}

pub fn receive_full(w: &mut [u32], h: &mut [u16], b: &mut [u8], s: &[u8], out: &mut [u8]) -> Outcome
    requires { Fits (lent w.old h.old b.old) × Sound (table_of (lent w.old h.old b.old)) × (length s.now ≤ 1500) }
    ensures { Gives (lent w.old h.old b.old)
        (lent w.new h.new b.new) result out.new
        (receive_full (table_of (lent w.old h.old b.old)) s.now out.old) }
{
    judge_fh(b[Layout::CONTEXTS], s)?;
    accept_full(w, h, b, s, out)
}
