ghost use Rattle.std.specs.Prelude.{◌≤◌, ◌<◌, ◌*◌, IfSome, length};

use crate::word::{Word, part};

// The value of a digit in lower case.
fn value(b: u8) -> Option<u8>
    ensures { IfSome result (λ v. v < 16) }
{
    match b {
        b'0'..=b'9' => Some(b - b'0'),
        b'a'..=b'f' => Some(b - b'a' + 10),
        _ => None,
    }
}

// n bytes from 2 n digits.
fn decode(word: &[u8], n: usize, bytes: &mut [u8]) -> Option<usize>
    requires { (2 * n ≤ length word.now) × (n ≤ length bytes.old) }
{
    for i in 0..n {
        bytes[i] = value(word[2 * i])? * 16 + value(word[2 * i + 1])?;
    }
    Some(n)
}

// A word of hex, or - for no bytes: how many bytes were decoded to the front of the buffer.
fn read(word: &[u8], bytes: &mut [u8]) -> Option<usize> {
    if word == b"-".as_slice() {
        return Some(0);
    }
    let n = word.len() / 2;
    if (n == 0) | (word.len() % 2 == 1) | (bytes.len() < n) {
        return None;
    }
    decode(word, n, bytes)
}

// How many bytes were decoded, where the word is one of hex.
pub fn bytes_at(line: &[u8], w: Word, bytes: &mut [u8]) -> Option<usize> {
    read(part(line, w), bytes)
}
