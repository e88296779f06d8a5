use crate::answer::{put_answer, put_context};
use crate::call::{Call, Line, read_line};
use crtp::CompressorOutcome;
use script_shared::field::store;
use script_text::room::{FILL, ROOM, front};
use script_text::text::{put, put_all};
use script_text::word::Word;

fn run(
    w: &mut [u32],
    h: &mut [u16],
    b: &mut [u8],
    call: Call,
    input: &[u8],
    output: &mut [u8],
) -> CompressorOutcome {
    match call {
        Call::Open(n, k) => crtp::open_compressor(w, h, b, n, k),
        Call::Send(n, room) => {
            let end = room.min(output.len());
            crtp::send(w, h, b, front(input, n), &mut output[0..end])
        }
        Call::Request(n) => crtp::request(w, h, b, front(input, n)),
    }
}

fn ask(
    w: &mut [u32],
    h: &mut [u16],
    b: &mut [u8],
    call: Call,
    input: &[u8],
    text: &mut [u8],
    at: usize,
) -> usize {
    let mut output = [FILL; ROOM];
    let outcome = run(w, h, b, call, input, &mut output);
    put_answer(text, at, call, outcome, &output)
}

// One line without its line end, of which this is the first word. How far the text of answers is filled then.
pub fn run_line(
    w: &mut [u32],
    h: &mut [u16],
    b: &mut [u8],
    line: &[u8],
    word: Word,
    text: &mut [u8],
    at: usize,
) -> usize {
    let mut input = [0u8; ROOM];
    match read_line(line, word, &mut input) {
        Some(Line::Asks(call)) => ask(w, h, b, call, &input, text, at),
        Some(Line::Writes(f, i, v)) => {
            store(w, h, b, f, i, v);
            put_all(text, at, b"ok")
        }
        Some(Line::Shows(i)) => put_context(text, at, w, h, b, i),
        None => put(text, at, b'?'),
    }
}
