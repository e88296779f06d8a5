ghost use Rattle.std.specs.Prelude.{◌≡◌, ◌<◌, ◌≤◌, length};
ghost use Rattle.planes.specs.Planes.{row};
ghost use Rattle.planes.specs.Flow.{flow_of};

use crate::row::row_at;
use packet::header::Flow;

// The flow of the context at place i: its planes are the first in both tables.
pub fn flow_at(w: &[u32], h: &[u16], i: usize) -> Flow
    requires { (192 ≤ length w.now) × (128 ≤ length h.now) × (i < 64) }
    ensures { result ≡ flow_of (row w.now i 0 3) (row h.now i 0 2) }
{
    let [source, destination, ssrc]: [u32; 3] = row_at(w, i, 0);
    let [sport, dport]: [u16; 2] = row_at(h, i, 0);
    Flow {
        source,
        destination,
        sport,
        dport,
        ssrc,
    }
}
