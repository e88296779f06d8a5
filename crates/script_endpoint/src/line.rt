use crate::answer::put_answer;
use crate::call::{Call, Line, read_line};
use crate::totals::{put_totals, set_total};
use endpoint::Outcome;
use script_text::room::{FILL, ROOM, front};
use script_text::text::{put, put_all};
use script_text::word::Word;

fn run(
    cw: &mut [u32],
    ch: &mut [u16],
    cb: &mut [u8],
    dw: &mut [u32],
    dh: &mut [u16],
    db: &mut [u8],
    totals: &mut [u32],
    call: Call,
    input: &[u8],
    output: &mut [u8],
) -> Outcome {
    match call {
        Call::Open(n, k) => endpoint::open(cw, ch, cb, dw, dh, db, totals, n, k),
        Call::Wire(n, room) => {
            let end = room.min(output.len());
            endpoint::from_wire(cw, ch, cb, totals, front(input, n), &mut output[0..end])
        }
        Call::Radio(kind, n, room) => {
            let end = room.min(output.len());
            endpoint::from_radio(
                cw,
                ch,
                cb,
                dw,
                dh,
                db,
                totals,
                kind,
                front(input, n),
                &mut output[0..end],
            )
        }
        Call::Report(room) => {
            let end = room.min(output.len());
            endpoint::report(dw, dh, db, totals, &mut output[0..end])
        }
    }
}

fn ask(
    cw: &mut [u32],
    ch: &mut [u16],
    cb: &mut [u8],
    dw: &mut [u32],
    dh: &mut [u16],
    db: &mut [u8],
    totals: &mut [u32],
    call: Call,
    input: &[u8],
    text: &mut [u8],
    at: usize,
) -> usize {
    let mut output = [FILL; ROOM];
    let outcome = run(cw, ch, cb, dw, dh, db, totals, call, input, &mut output);
    put_answer(text, at, call, outcome, &output)
}

// One line without its line end, of which this is the first word. How far the text of answers is filled then.
pub fn run_line(
    cw: &mut [u32],
    ch: &mut [u16],
    cb: &mut [u8],
    dw: &mut [u32],
    dh: &mut [u16],
    db: &mut [u8],
    totals: &mut [u32],
    line: &[u8],
    word: Word,
    text: &mut [u8],
    at: usize,
) -> usize {
    let mut input = [0u8; ROOM];
    match read_line(line, word, &mut input) {
        Some(Line::Asks(call)) => ask(cw, ch, cb, dw, dh, db, totals, call, &input, text, at),
        Some(Line::Writes(i, v)) => {
            set_total(totals, i, v);
            put_all(text, at, b"ok")
        }
        Some(Line::Shows) => put_totals(text, at, totals),
        None => put(text, at, b'?'),
    }
}
