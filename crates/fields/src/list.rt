ghost use Rattle.std.specs.Prelude.{◌≡◌, ◌<◌};
ghost use Rattle.fields.specs.Next.{next_list};

use crate::next::next;
use crate::place::{GotList, Place};
use packet::csrc::Csrc;

// A CSRC list of n words.
pub fn next_list(s: &[u8], p: Place, n: u8) -> GotList
    requires { n < 16 }
    ensures { result ≡ next_list s.now p n }
{
    let mut words = [0u32; Csrc::PLACES];
    let mut place = p;
    for i in 0..n as usize {
        let word = next::<u32>(s, place, true);
        words[i] = word.field.unwrap_or(0);
        place = word.place;
    }
    GotList {
        place: place,
        list: Csrc {
            count: n,
            words: words,
        },
    }
}
