use std::env::{Env, FillError};

// What the arguments ask for.
#[derive(Clone, Copy)]
pub enum Asked {
    Plain,
    Timed,
    Unknown,
}

// Whether there is an argument i; number 0 is the program's name.
fn is_given(rt: &impl Env, i: usize) -> bool {
    let mut word = [0u8; 1];
    match rt.arg(i, &mut word) {
        Err(FillError::NotPresent) => false,
        _ => true,
    }
}

pub fn arguments(rt: &impl Env) -> Asked {
    if !is_given(rt, 1) {
        return Asked::Plain;
    }
    let mut word = [0u8; 8];
    let n = rt.arg(1, &mut word).unwrap_or(0);
    let time = (n == 4)
        & (word[0] == b't')
        & (word[1] == b'i')
        & (word[2] == b'm')
        & (word[3] == b'e');
    if time & !is_given(rt, 2) {
        return Asked::Timed;
    }
    Asked::Unknown
}
