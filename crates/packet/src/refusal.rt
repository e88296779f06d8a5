ghost use Rattle.std.specs.Prelude.{◌≡◌};
ghost use Rattle.packet.specs.Refusal.{refusal_of};

use codes::cursor::Unreadable;

// Why a call is refused (rule 3.1); `specs/Refusal.antt` has the number of each.
#[derive(Clone, Copy)]
pub enum Refusal {
    Unsound,
    BadLength,
    UnknownType,
    Cut,
    Forbidden,
    NoSuchContext,
    UnusedCode,
    NotLive,
    OutOfStep,
    TooLong,
    NoRoom,
    Disproved,
}

impl From<Unreadable> for Refusal {
    ghost from_gives = { λ why r. r ≡ refusal_of why };

    fn from(why: Unreadable) -> Refusal {
        match why {
            Unreadable::Cut => Refusal::Cut,
            Unreadable::UnusedCode => Refusal::UnusedCode,
        }
    }
}
