// How many bytes a call's input and its output have at most.
pub const ROOM: usize = 4096;

// What every output byte holds before a call.
pub const FILL: u8 = 0xAA;

// The first n bytes, or all where there are fewer.
pub fn front<'a>(s: &'a [u8], n: usize) -> &'a [u8] {
    &s[..n.min(s.len())]
}

// Whether a byte from a place on was written.
pub fn is_touched(output: &[u8], from: usize) -> bool {
    output.iter().skip(from).any(|b| *b != FILL)
}
