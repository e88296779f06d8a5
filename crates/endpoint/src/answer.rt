ghost use Rattle.std.specs.Prelude.{◌≡◌};
ghost use Rattle.endpoint.specs.Totals.{tallied};
ghost use Rattle.endpoint.specs.Outcomes.{event_of, opened_of, sent_of, requested_of, rebuilt_of, reported_of};

use crate::totals::{Totals, count, is_counted};
use crtp::{CompressorOutcome, CompressorTable, DecompressorOutcome, DecompressorTable, Refusal};

// Both ends of a link in one place, and what they did since they were opened.
//
// This is the endpoint that definitions speak of. Calls have it in slices of the caller's: three for each table, one for the
// totals.
#[derive(Clone, Copy)]
pub struct Endpoint {
    pub compressor: CompressorTable,
    pub totals: Totals,
    pub decompressor: DecompressorTable,
}

// What an accepted call did, and how much it gave out.
//
// Sent: link type and length of what goes on the link. Rebuilt: the length of a packet for the wire. Reported: the length of what
// goes on the link with type CONTEXT_STATE; 0 where there is nothing to report.
#[derive(Clone, Copy)]
pub enum Done {
    Opened,
    Sent(u8, usize),
    Rebuilt(usize),
    Requested,
    Reported(usize),
}

// What became of a call: what it did, or why it was refused.
pub type Outcome = Result<Done, Refusal>;

// An opening of both: the compressor's refusal stands before the decompressor's.
pub fn opened(c: CompressorOutcome, d: DecompressorOutcome) -> Outcome
    ensures { result ≡ opened_of c d }
{
    c.and(d).map(|_| Done::Opened)
}

pub fn sent(o: CompressorOutcome) -> Outcome
    ensures { result ≡ sent_of o }
{
    o.map(|(kind, n)| Done::Sent(kind, n))
}

pub fn requested(o: CompressorOutcome) -> Outcome
    ensures { result ≡ requested_of o }
{
    o.map(|_| Done::Requested)
}

pub fn rebuilt(o: DecompressorOutcome) -> Outcome
    ensures { result ≡ rebuilt_of o }
{
    o.map(|n| Done::Rebuilt(n))
}

pub fn reported(o: DecompressorOutcome) -> Outcome
    ensures { result ≡ reported_of o }
{
    o.map(|n| Done::Reported(n))
}

// The totals once a call has answered this.
pub fn tally(t: Totals, o: Outcome) -> Totals
    ensures { result ≡ tallied t (event_of o) }
{
    match o {
        Ok(Done::Sent(kind, _)) => Totals {
            plain: count(kind == 0, t.plain),
            full: count(kind == 1, t.full),
            udp: count(kind == 2, t.udp),
            rtp: count(kind == 3, t.rtp),
            ..t
        },
        Ok(Done::Rebuilt(_)) => Totals {
            rebuilt: count(true, t.rebuilt),
            ..t
        },
        Ok(Done::Opened | Done::Requested | Done::Reported(_)) => t,
        Err(r) => Totals {
            refused: count(is_counted(r), t.refused),
            ..t
        },
    }
}
