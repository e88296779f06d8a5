ghost use Rattle.std.specs.Prelude.{◌≡◌};
ghost use Rattle.saves.specs.Saves.{whole_of, front_of};

use crate::check::{allow, check, next_up_to};
use codes::cursor::Cursor;
use fields::next::next;
use fields::place::Place;
use packet::refusal::Refusal;
use saves::layout::VERSION;
use saves::read::Front;
use settings::Settings;

// The length of all that follows it, held against what there is.
#[tactic(auto, unfolding(saves::specs::Saves::whole_of, fields::specs::Next::next_word))]
fn read_whole(s: &[u8]) -> Place
    ensures { result ≡ whole_of s.now }
{
    let start = Place {
        verdict: Ok(()),
        cursor: Cursor::start(),
    };
    let size = next::<u16>(s, start, true);
    let end = 2 + size.field.unwrap_or(0) as usize;
    let place = check(size.place, end <= s.len(), Refusal::Cut);
    allow(place, s.len() <= end)
}

// Version, N and K.
#[tactic(auto, unfolding(saves::specs::Saves::front_of, fields::specs::Next::next_byte))]
pub fn read_front(s: &[u8]) -> Front
    ensures { result ≡ front_of s.now }
{
    let start = read_whole(s);
    let version = next::<u8>(s, start, true);
    let place = allow(version.place, version.field.unwrap_or(0) == VERSION);
    let repeats = next_up_to(s, place, true, Settings::MAX_REPEATS as u8);
    let contexts = next_up_to(s, repeats.place, true, Settings::MAX_CONTEXTS as u8);
    let k = contexts.field.unwrap_or(0);
    let place = allow(contexts.place, 1 <= k);
    Front {
        place: place,
        settings: Settings {
            repeats: repeats.field.unwrap_or(0),
            contexts: k,
        },
    }
}
