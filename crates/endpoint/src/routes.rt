// Which of the two ends a packet goes to, and what becomes of the endpoint. The totals follow from the outcome.
ghost use Rattle.std.specs.Prelude.{◌≡◌, length};
ghost use Rattle.crtp.specs.Face.{lent, receive_of};
ghost use Rattle.endpoint.specs.Totals.{totals_of, tallied, rebuilt};
ghost use Rattle.endpoint.specs.Outcomes.{event_of};
ghost use Rattle.endpoint.specs.Lent.{SenderGives, ReceiverGives, Asks};
ghost use Rattle.endpoint.specs.Calls.{wire_of, answered_by, report_of};

use crate::answer::{Outcome, rebuilt, reported, requested, sent, tally};
use crate::totals::{Totals, put_totals, totals_at};
use crtp::Refusal;

// What a call came to is counted.
fn count_in(t: &mut [u32], o: Outcome)
    requires { length t.old ≡ 6 }
    ensures { (length t.new ≡ 6) × (totals_of t.new ≡ tallied (totals_of t.old) (event_of o)) }
{
    let before = totals_at(t);
    let after = tally(before, o);
    put_totals(t, after);
}

// A packet from the wire goes to the compressor.
pub fn wire(
    w: &mut [u32],
    h: &mut [u16],
    b: &mut [u8],
    t: &mut [u32],
    p: &[u8],
    out: &mut [u8],
) -> Outcome
    ensures { SenderGives (lent w.old h.old b.old) (lent w.new h.new
        b.new)
        t.old t.new result out.new (λ e. wire_of e p.now out.old) }
{
    if t.len() != Totals::COUNT {
        return Err(Refusal::Unsound);
    }
    let o = crtp::send(w, h, b, p, out);
    let outcome = sent(o);
    count_in(t, outcome);
    outcome
}

// A request goes to the compressor; it gives nothing out.
pub fn ask(w: &mut [u32], h: &mut [u16], b: &mut [u8], t: &mut [u32], s: &[u8]) -> Outcome
    ensures { Asks (lent w.old h.old b.old) (lent w.new h.new b.new)
        t.old t.new result s.now }
{
    if t.len() != Totals::COUNT {
        return Err(Refusal::Unsound);
    }
    let o = crtp::request(w, h, b, s);
    let outcome = requested(o);
    count_in(t, outcome);
    outcome
}

// A link packet that stands for a packet goes to the decompressor.
pub fn rebuild(
    w: &mut [u32],
    h: &mut [u16],
    b: &mut [u8],
    t: &mut [u32],
    kind: u32,
    s: &[u8],
    out: &mut [u8],
) -> Outcome
    ensures { ReceiverGives (lent w.old h.old b.old) (lent w.new h.new
        b.new)
        t.old t.new result out.new
        (λ e. answered_by rebuilt e (receive_of e.decompressor kind s.now out.old)) }
{
    if t.len() != Totals::COUNT {
        return Err(Refusal::Unsound);
    }
    let o = crtp::receive(w, h, b, kind, s, out);
    let outcome = rebuilt(o);
    count_in(t, outcome);
    outcome
}

// A report is the decompressor's.
pub fn report(w: &[u32], h: &[u16], b: &[u8], t: &mut [u32], out: &mut [u8]) -> Outcome
    ensures { ReceiverGives (lent w.now h.now b.now) (lent w.now h.now b.now)
        t.old t.new result out.new (λ e. report_of e out.old) }
{
    if t.len() != Totals::COUNT {
        return Err(Refusal::Unsound);
    }
    let o = crtp::report(w, h, b, out);
    let outcome = reported(o);
    count_in(t, outcome);
    outcome
}
