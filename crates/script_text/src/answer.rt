use crate::room::{front, is_touched};
use crate::text::{put, put_all, put_hex, put_number};

// A number after a space.
pub fn put_next(text: &mut [u8], at: usize, v: u64) -> usize {
    let a = put(text, at, b' ');
    put_number(text, a, v)
}

// The length and the first bytes of an output, and whether one after them was written.
pub fn put_output(text: &mut [u8], at: usize, output: &[u8], n: usize) -> usize {
    let a = put_next(text, at, n as u64);
    let b = put(text, a, b' ');
    let c = put_hex(text, b, front(output, n));
    if is_touched(output, n) {
        return put_all(text, c, b" touched");
    }
    c
}
