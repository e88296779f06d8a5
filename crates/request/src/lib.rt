// A request: what the compressor makes of a context-state packet from the other end.
//
// The table's layout is `compressor_table`'s, its soundness `compressor_walk`'s, the definition `request_of` `compressor`'s; the
// bytes of a record are `refresh`'s, what a request does to one context is `compress`'s.
// Read `request` first.
#![tactic(auto)]

ghost use Rattle.std.specs.Prelude.{◌≡◌, cond, [], ◌≤◌};
ghost use Rattle.context.specs.Compressor.{requested};
ghost use Rattle.compressor.specs.Request.{request_table, request_of};
ghost use Rattle.planes.specs.Planes.{lent};
ghost use Rattle.compressor_table.specs.Layout.{table_of, Fits};
ghost use Rattle.compressor_table.specs.Calls.{Gives};
ghost use Rattle.request.specs.CanAct.{CanAct};

use compressor::answer::Outcome;
use compressor_table::layout::Layout;
use compressor_table::read::context_at;
use compressor_table::write::put_context;
use compressor_walk::sound::sound;
use context::compressor::CompressorContext;
use packet::refusal::Refusal;
use refresh::cs::{judge_request, record_asks, record_context, record_count};

// One record: its context starts a full-header run where the record asks for one.
fn act_on(n: u8, asks: bool, c: CompressorContext) -> CompressorContext
    requires { n ≤ 14 }
    ensures { result ≡ cond asks (requested n c) c }
{
    if asks {
        return compress::run::request(n, c);
    }
    c
}

// All records of a request that was judged good, one after another: the same context may stand in several.
fn act_on_all(w: &mut [u32], h: &mut [u16], b: &mut [u8], s: &[u8])
    requires { Fits (lent w.old h.old b.old) × CanAct (table_of (lent w.old h.old b.old)) s.now }
    ensures { table_of (lent w.new h.new b.new)
        ≡ request_table (table_of (lent w.old h.old b.old)) s.now }
{
    let repeats = b[Layout::REPEATS];
    let count = record_count(s);
    for i in 0..count {
        let asks = record_asks(s, i);
        let place = record_context(s, i) as usize;
        let context = context_at(w, h, b, place);
        let asked = act_on(repeats, asks, context);
        put_context(w, h, b, place, asked);
    }
}

// A context-state packet from the other end. All of it is judged before any of it acts.
pub fn request(w: &mut [u32], h: &mut [u16], b: &mut [u8], s: &[u8]) -> Outcome
    ensures { Gives (lent w.old h.old b.old)
        (lent w.new h.new b.new) result []
        (request_of (table_of (lent w.old h.old b.old)) s.now) }
{
    if !sound(w, h, b) {
        return Err(Refusal::Unsound);
    }
    // No `?`: what a refused request answers stands here, for an edit to get wrong.
    match judge_request(b[Layout::CONTEXTS], s) {
        Ok(()) => {
            act_on_all(w, h, b, s);
            Ok((0, 0))
        }
        Err(why) => Err(why),
    }
}
