ghost use Rattle.std.specs.Prelude.{◌≡◌};
ghost use Rattle.packet.specs.Refusal.{number_of};
ghost use Rattle.saves.specs.Saves.{checked, allowed, next_up_to};

use fields::next::next;
use fields::place::{Got, Place, stop};
use packet::refusal::Refusal;

// A reading goes on where a test holds. One that was refused before stays as it is.
#[tactic(auto, unfolding(saves::specs::Saves::checked))]
pub fn check(p: Place, ok: bool, why: Refusal) -> Place
    ensures { result ≡ checked p ok (number_of why) }
{
    if p.verdict.is_ok() & !ok {
        return stop(p.cursor, why);
    }
    p
}

// A test that what was read is something that a save writes there.
pub fn allow(p: Place, ok: bool) -> Place
    ensures { result ≡ allowed p ok }
{
    check(p, ok, Refusal::Forbidden)
}

// A byte of at most so much.
#[tactic(auto, unfolding(saves::specs::Saves::next_up_to, fields::specs::Next::next_byte))]
pub fn next_up_to(s: &[u8], p: Place, wanted: bool, most: u8) -> Got<u8>
    ensures { result ≡ next_up_to s.now p wanted most }
{
    let byte = next::<u8>(s, p, wanted);
    Got {
        place: allow(byte.place, byte.field.unwrap_or(0) <= most),
        field: byte.field,
    }
}
