ghost use Rattle.std.specs.Prelude.{◌≡◌, true};
ghost use Rattle.codes.specs.Reading.{Reading, said, read_delta};
ghost use Rattle.codes.specs.Numbers.{forbidden};
ghost use Rattle.fields.specs.Place.{passed, stopped};
ghost use Rattle.fields.specs.Next.{next_as, taken, next_payload, next_version};

use crate::place::{Got, Place, stop};
use codes::cursor::{Cursor, Read};
use codes::field::{DeltaField, Field};
use packet::refusal::Refusal;

// What a reader's answer at a cursor makes of a reading.
#[tactic(auto, using(crate::proofs::Taken::taken_refused))]
fn take<T: Field>(cursor: Cursor, read: Read<T>) -> Got<T>
    ensures { result ≡ taken T.of cursor.at (said T.value read) }
{
    match read {
        Ok((value, past)) => Got {
            place: Place {
                verdict: Ok(()),
                cursor: past,
            },
            field: Some(value),
        },
        Err(why) => Got {
            place: stop(cursor, Refusal::from(why)),
            field: None,
        },
    }
}

// A field that is not wanted, or that stands behind one that was refused.
fn pass<T>(p: Place) -> Got<T>
    ensures { result ≡ passed p }
{
    Got {
        place: p,
        field: None,
    }
}

// Each reads the field at p where it is wanted, unless a field before it was refused.
#[tactic(auto, unfolding(crate::specs::Next::next_as))]
pub fn next<T: Field>(s: &[u8], p: Place, wanted: bool) -> Got<T>
    ensures { result ≡ next_as T.of (T.reading s.now) p wanted }
{
    if p.verdict.is_ok() & wanted {
        take(p.cursor, p.cursor.field(s))
    } else {
        pass(p)
    }
}

#[tactic(auto, unfolding(crate::specs::Next::next_as))]
pub fn next_delta<T: DeltaField>(s: &[u8], p: Place, wanted: bool) -> Got<T>
    ensures { result ≡ next_as T.of (read_delta T.bits s.now) p wanted }
{
    if p.verdict.is_ok() & wanted {
        take(p.cursor, p.cursor.delta(s))
    } else {
        pass(p)
    }
}

// A field that is there, but not in the form that it must have.
fn forbid(p: Place) -> Got<u8>
    ensures { result ≡ passed (stopped p.cursor.at forbidden) }
{
    pass(stop(p.cursor, Refusal::Forbidden))
}

// A payload type: its top bit must be 0.
pub fn next_payload(s: &[u8], p: Place, wanted: bool) -> Got<u8>
    ensures { result ≡ next_payload s.now p wanted }
{
    let payload = next::<u8>(s, p, wanted);
    match payload.field {
        Some(value) if value >> 7 != 0 => forbid(p),
        _ => payload,
    }
}

// The first byte of an RTP header: all twelve fixed bytes must be there, and the version must be 2.
pub fn next_version(s: &[u8], p: Place) -> Got<u8>
    ensures { result ≡ next_version s.now p }
{
    if p.verdict.is_ok() & !p.cursor.has(s, 12) {
        return pass(stop(p.cursor, Refusal::Cut));
    }
    let version = next::<u8>(s, p, true);
    match version.field {
        Some(value) if value >> 6 != 2 => forbid(p),
        _ => version,
    }
}
