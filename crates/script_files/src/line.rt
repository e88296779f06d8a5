use crate::answer::{put_loaded, put_saved};
use crtp::DecompressorOutcome;
use script_text::packet::{last_bytes, last_room};
use script_text::room::{FILL, front};
use script_text::text::put;
use script_text::word::{Word, name_index};

// How many bytes a file and the output of a save have at most in a script. The calls set no limit.
pub const MOST: usize = 16384;

fn name_at(line: &[u8], w: Word) -> Option<usize> {
    name_index(b"v l", line, w)
}

// Whether a line, of which this is the first word, is one of these.
pub fn is_name(line: &[u8], w: Word) -> bool {
    name_at(line, w).is_some()
}

fn save_into(
    w: &[u32],
    h: &[u16],
    b: &[u8],
    room: usize,
    output: &mut [u8],
) -> DecompressorOutcome {
    let end = room.min(output.len());
    crtp::save(w, h, b, &mut output[0..end])
}

fn save(w: &[u32], h: &[u16], b: &[u8], room: usize, text: &mut [u8], at: usize) -> usize {
    let mut output = [FILL; MOST];
    let outcome = save_into(w, h, b, room, &mut output);
    put_saved(text, at, outcome, front(&output, room))
}

// v ROOM
fn save_line(
    w: &[u32],
    h: &[u16],
    b: &[u8],
    line: &[u8],
    word: Word,
    text: &mut [u8],
    at: usize,
) -> usize {
    match last_room(line, word, MOST) {
        Some(room) => save(w, h, b, room, text, at),
        None => put(text, at, b'?'),
    }
}

// l HEX
fn load_line(
    w: &mut [u32],
    h: &mut [u16],
    b: &mut [u8],
    line: &[u8],
    word: Word,
    text: &mut [u8],
    at: usize,
) -> usize {
    let mut input = [0u8; MOST];
    match last_bytes(line, word, &mut input) {
        Some(n) => put_loaded(text, at, crtp::load(w, h, b, front(&input, n))),
        None => put(text, at, b'?'),
    }
}

// One line without its line end, of which this is the first word. How far the text of answers is filled then.
pub fn run_line(
    w: &mut [u32],
    h: &mut [u16],
    b: &mut [u8],
    line: &[u8],
    word: Word,
    text: &mut [u8],
    at: usize,
) -> usize {
    match name_at(line, word) {
        Some(0) => save_line(w, h, b, line, word, text, at),
        Some(1) => load_line(w, h, b, line, word, text, at),
        _ => put(text, at, b'?'),
    }
}
