ghost use Rattle.std.specs.Prelude.{◌≡◌};
ghost use Rattle.packet.specs.Refusal.{number_of};
ghost use Rattle.fields.specs.Place.{stopped};

use codes::cursor::Cursor;
use packet::csrc::Csrc;
use packet::refusal::Refusal;

// What was found of a reading so far, and where it stands: past the last field, or at the one that was refused.
#[derive(Clone, Copy)]
pub struct Place {
    pub verdict: Result<(), Refusal>,
    pub cursor: Cursor,
}

// A field that may have been there, and the place past it.
#[derive(Clone, Copy)]
pub struct Got<T> {
    pub place: Place,
    pub field: Option<T>,
}

#[derive(Clone, Copy)]
pub struct GotList {
    pub place: Place,
    pub list: Csrc,
}

// A reading that was refused at a field.
pub fn stop(cursor: Cursor, why: Refusal) -> Place
    ensures { result ≡ stopped cursor.at (number_of why) }
{
    Place {
        verdict: Err(why),
        cursor: cursor,
    }
}
