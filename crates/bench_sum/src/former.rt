ghost use Rattle.std.specs.Prelude.{◌≡◌};
ghost use Rattle.octets.specs.Sum.{plus, sum_of, words_of};

use codes::cursor::be16;

// The sum as it was before, with the carry put back after every addition. It is only timed: nothing else uses it.

// One word added to a ones' complement sum: the carry goes back in at the low end.
fn add(start: u16, word: u16) -> u16
    ensures { result ≡ plus start word }
{
    let total = (start as u32) + (word as u32);
    (total % 65536 + total / 65536) as u16
}

pub fn sum(start: u16, part: &[u8]) -> u16
    ensures { result ≡ sum_of start (words_of part.now) }
{
    let mut acc = start;
    let mut i = 0;
    while 2 <= part.len() - i {
        acc = add(acc, be16(part[i], part[i + 1]));
        i += 2;
    }
    if i < part.len() {
        add(acc, be16(part[i], 0))
    } else {
        acc
    }
}
