ghost use Rattle.std.specs.Prelude.{◌≡◌, ◌<◌, ◌≤◌, ◌+◌, length};
ghost use Rattle.octets.specs.Put.{Wrote};
ghost use Rattle.links.specs.Head.{head_bytes};

use octets::flags::{Flags, pack};
use octets::put::put;

// How a CU and a CR begin: the context number and the flag byte.
#[tactic(auto, using(octets::specs::PutLaws::wrote_then))]
pub fn put_head(out: &mut [u8], at: usize, context: u8, flags: Flags) -> usize
    requires { (flags.low < 16) × (at + 2 ≤ length out.old) }
    ensures { (result ≡ at + 2) × Wrote out.old out.new at result (head_bytes context flags) }
{
    let at = put(out, at, context);
    put(out, at, pack(flags))
}
