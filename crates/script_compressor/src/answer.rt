use crate::call::Call;
use crate::field_names::{FIELDS, field};
use crtp::CompressorOutcome;
use script_shared::field::load;
use script_shared::refusal::refusal_number;
use script_text::answer::{put_next, put_output};
use script_text::room::front;
use script_text::text::put_number;

// An outcome as the numbers that a script shows.
#[derive(Clone, Copy)]
struct Shown {
    number: u64,
    kind: u64,
    length: usize,
}

fn numbers_of(o: CompressorOutcome) -> Shown {
    match o {
        Ok((k, n)) => Shown {
            number: 0,
            kind: k as u64,
            length: n,
        },
        Err(r) => Shown {
            number: refusal_number(r),
            kind: 0,
            length: 0,
        },
    }
}

pub fn put_answer(
    text: &mut [u8],
    at: usize,
    call: Call,
    o: CompressorOutcome,
    output: &[u8],
) -> usize {
    let s = numbers_of(o);
    let a = put_number(text, at, s.number);
    match call {
        Call::Open(_, _) => a,
        Call::Send(_, room) => {
            let b = put_next(text, a, s.kind);
            put_output(text, b, front(output, room), s.length)
        }
        Call::Request(_) => put_next(text, a, s.length as u64),
    }
}

fn number_at(w: &[u32], h: &[u16], b: &[u8], place: usize, i: usize) -> u64 {
    field(place).map_or(0, |f| load(w, h, b, f, i))
}

// The fields of context i.
pub fn put_context(text: &mut [u8], at: usize, w: &[u32], h: &[u16], b: &[u8], i: usize) -> usize {
    let mut o = put_number(text, at, number_at(w, h, b, 0, i));
    for place in 1..FIELDS {
        o = put_next(text, o, number_at(w, h, b, place, i));
    }
    o
}
