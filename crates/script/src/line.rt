ghost use Rattle.std.specs.Prelude.{◌≡◌, IfOk};

use script_text::room::front;
use script_text::text::put;
use script_text::word::{Word, first_word, part};
use std::io;
use std::io::Write;

// How far a run has come.
//
// at: how far the text of answers is filled. line: the line that was cut last, and waits: whether it still is to be run. start:
// where the next line begins in what was read. filled: how much was read.
#[derive(Clone, Copy)]
pub struct State {
    pub at: usize,
    pub line: Word,
    pub waits: bool,
    pub start: usize,
    pub filled: usize,
}

// So much was read of which no line was cut yet, and nothing is answered.
pub fn uncut(filled: usize) -> State
    ensures { (result.start ≡ 0) × (result.filled ≡ filled) }
{
    State {
        at: 0,
        line: Word { at: 0, end: 0 },
        waits: false,
        start: 0,
        filled: filled,
    }
}

// The line that waits, without its line end; an empty one where none does, which is no call.
fn line_of<'a>(buf: &'a [u8], s: State) -> &'a [u8] {
    if s.waits {
        let line = s.line;
        return part(buf, line);
    }
    front(buf, 0)
}

// The line end after an answer. Answers go out together; what is left of the text then has room for the longest one.
fn end_answer(rt: &HostRuntime, text: &mut [u8], at: usize) -> io::Result<usize> {
    let past = put(text, at, b'\n');
    if 40000 < past {
        rt.stdout().write_all(front(text, past))?;
        return Ok(0);
    }
    Ok(past)
}

// After its answer a line waits no more.
fn answered(rt: &HostRuntime, s: State, text: &mut [u8], at: usize) -> io::Result<State>
    ensures { IfOk result (λ r. (r.start ≡ s.start) × (r.filled ≡ s.filled)) }
{
    let line = s.line;
    let at = end_answer(rt, text, at)?;
    Ok(State {
        at: at,
        line: line,
        waits: false,
        start: s.start,
        filled: s.filled,
    })
}

// Each end runs the line that waits where it is a call of its own, and leaves it to the next where not.
pub fn run_compressor(
    rt: &HostRuntime,
    w: &mut [u32],
    h: &mut [u16],
    b: &mut [u8],
    buf: &[u8],
    s: State,
    text: &mut [u8],
) -> io::Result<State>
    ensures { IfOk result (λ r. (r.start ≡ s.start) × (r.filled ≡ s.filled)) }
{
    let line = line_of(buf, s);
    let word = first_word(line);
    if script_compressor::call::is_name(line, word) {
        let at = script_compressor::line::run_line(w, h, b, line, word, text, s.at);
        return answered(rt, s, text, at);
    }
    Ok(s)
}

pub fn run_endpoint(
    rt: &HostRuntime,
    cw: &mut [u32],
    ch: &mut [u16],
    cb: &mut [u8],
    dw: &mut [u32],
    dh: &mut [u16],
    db: &mut [u8],
    totals: &mut [u32],
    buf: &[u8],
    s: State,
    text: &mut [u8],
) -> io::Result<State>
    ensures { IfOk result (λ r. (r.start ≡ s.start) × (r.filled ≡ s.filled)) }
{
    let line = line_of(buf, s);
    let word = first_word(line);
    if script_endpoint::call::is_name(line, word) {
        let at = script_endpoint::line::run_line(
            cw, ch, cb, dw, dh, db, totals, line, word, text, s.at,
        );
        return answered(rt, s, text, at);
    }
    Ok(s)
}

// A call of the decompressor's, or a line that is no call.
fn run_rest(
    w: &mut [u32],
    h: &mut [u16],
    b: &mut [u8],
    line: &[u8],
    word: Word,
    text: &mut [u8],
    at: usize,
) -> usize {
    if script_files::line::is_name(line, word) {
        return script_files::line::run_line(w, h, b, line, word, text, at);
    }
    script_decompressor::line::run_line(w, h, b, line, word, text, at)
}

// The last of the three, so that a line which still waits is the decompressor's or no call.
pub fn run_decompressor(
    rt: &HostRuntime,
    w: &mut [u32],
    h: &mut [u16],
    b: &mut [u8],
    buf: &[u8],
    s: State,
    text: &mut [u8],
) -> io::Result<State>
    ensures { IfOk result (λ r. (r.start ≡ s.start) × (r.filled ≡ s.filled)) }
{
    if s.waits {
        let line = line_of(buf, s);
        let at = run_rest(w, h, b, line, first_word(line), text, s.at);
        return answered(rt, s, text, at);
    }
    Ok(s)
}
