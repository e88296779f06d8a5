use itoa::Buffer;

// Each put appends to a text that is filled up to at, and answers how far it is filled then. What no longer fits is left out.
pub fn put(text: &mut [u8], at: usize, b: u8) -> usize {
    if at < text.len() {
        text[at] = b;
        return at + 1;
    }
    at
}

pub fn put_all(text: &mut [u8], at: usize, s: &[u8]) -> usize {
    let mut o = at;
    for b in s {
        o = put(text, o, *b);
    }
    o
}

pub fn put_number(text: &mut [u8], at: usize, v: u64) -> usize {
    let mut digits = Buffer::new();
    put_all(text, at, digits.format(v).as_bytes())
}

// The digit of the lower four bits.
fn glyph(b: u8) -> u8 {
    let v = b % 16;
    if v < 10 { 48 + v } else { 87 + v }
}

// The bytes in hex, - where there are none.
pub fn put_hex(text: &mut [u8], at: usize, s: &[u8]) -> usize {
    if s.is_empty() {
        return put(text, at, b'-');
    }
    let mut o = at;
    for b in s {
        let high = put(text, o, glyph(*b / 16));
        o = put(text, high, glyph(*b));
    }
    o
}
