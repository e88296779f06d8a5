ghost use Rattle.std.specs.Prelude.{◌≡◌, ◌<◌};
ghost use Rattle.links.specs.Head.{context_field, head_at};

use codes::cursor::Cursor;
use fields::next::next;
use fields::place::{Got, Place};
use links::head::Head;
use octets::flags::split;

// The context number, which is the first field, and the place past it.
#[tactic(auto, unfolding(fields::specs::Next::next_byte))]
pub fn read_context(s: &[u8]) -> Got<u8>
    ensures { result ≡ context_field s.now }
{
    let start = Place {
        verdict: Ok(()),
        cursor: Cursor::start(),
    };
    next(s, start, true)
}

// The flag byte at a place, which is the one past the context number.
#[tactic(auto, unfolding(fields::specs::Next::next_byte))]
pub fn read_head(s: &[u8], place: Place) -> Head
    ensures { (result ≡ head_at s.now place) × (result.flags.low < 16) }
{
    let byte = next::<u8>(s, place, true);
    Head {
        place: byte.place,
        flags: split(byte.field.unwrap_or(0)),
    }
}
