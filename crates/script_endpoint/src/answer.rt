use crate::call::Call;
use endpoint::{Done, Outcome};
use script_shared::refusal::refusal_number;
use script_text::answer::{put_next, put_output};
use script_text::room::front;
use script_text::text::put_number;

// An outcome as the numbers that a script shows.
#[derive(Clone, Copy)]
struct Shown {
    number: u64,
    kind: u64,
    length: usize,
}

// An accepted call that gave out so many bytes of this link type.
fn gave(kind: u8, n: usize) -> Shown {
    Shown {
        number: 0,
        kind: kind as u64,
        length: n,
    }
}

fn numbers_of(o: Outcome) -> Shown {
    match o {
        Ok(Done::Opened | Done::Requested) => gave(0, 0),
        Ok(Done::Sent(kind, n)) => gave(kind, n),
        Ok(Done::Rebuilt(n) | Done::Reported(n)) => gave(0, n),
        Err(r) => Shown {
            number: refusal_number(r),
            kind: 0,
            length: 0,
        },
    }
}

pub fn put_answer(text: &mut [u8], at: usize, call: Call, o: Outcome, output: &[u8]) -> usize {
    let s = numbers_of(o);
    let a = put_number(text, at, s.number);
    match call {
        Call::Open(_, _) => a,
        Call::Wire(_, room) => {
            let b = put_next(text, a, s.kind);
            put_output(text, b, front(output, room), s.length)
        }
        Call::Radio(_, _, room) => put_output(text, a, front(output, room), s.length),
        Call::Report(room) => put_output(text, a, front(output, room), s.length),
    }
}
