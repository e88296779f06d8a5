ghost use Rattle.std.specs.Prelude.{◌<◌, IfSome};

use crate::word::{Word, next_word, part};

fn digit(b: u8) -> Option<u8>
    ensures { IfSome result (λ d. d < 10) }
{
    match b {
        b'0'..=b'9' => Some(b - b'0'),
        _ => None,
    }
}

// A decimal number of 32 bits; leading zeros are taken.
fn read(word: &[u8]) -> Option<u32> {
    if word.is_empty() {
        return None;
    }
    let mut v = 0u64;
    for b in word {
        v = v * 10 + u64::from(digit(*b)?);
        if u64::from(u32::MAX) < v {
            return None;
        }
    }
    Some(v as u32)
}

pub fn number_at(line: &[u8], w: Word) -> Option<u32> {
    read(part(line, w))
}

// The number after a word, where the line ends with it.
pub fn last_number(line: &[u8], w: Word) -> Option<u32> {
    let a = next_word(line, w);
    if a.end != line.len() {
        return None;
    }
    number_at(line, a)
}

// The two numbers after a word, where the line ends with them.
pub fn last_pair(line: &[u8], w: Word) -> Option<(u32, u32)> {
    let a = next_word(line, w);
    Some((number_at(line, a)?, last_number(line, a)?))
}
