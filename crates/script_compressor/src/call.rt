use crate::field_names::named_field;
use script_shared::field::{Field, takes};
use script_text::number::{last_number, last_pair};
use script_text::packet::{last_bytes, packet_at};
use script_text::room::ROOM;
use script_text::word::{Word, name_index, next_word};

// A call, without its table: of bytes how many stand at the front of the input, of an output its room.
#[derive(Clone, Copy)]
pub enum Call {
    Open(u32, u32),
    Send(usize, usize),
    Request(usize),
}

// What a line is for: a call, writing a field of a context by hand, showing a context.
#[derive(Clone, Copy)]
pub enum Line {
    Asks(Call),
    Writes(Field, usize, u32),
    Shows(usize),
}

// os N K
fn open_at(line: &[u8], w: Word) -> Option<Line> {
    let (n, k) = last_pair(line, w)?;
    Some(Line::Asks(Call::Open(n, k)))
}

// s HEX ROOM
fn send_at(line: &[u8], w: Word, input: &mut [u8]) -> Option<Line> {
    let (n, room) = packet_at(line, w, ROOM, input)?;
    Some(Line::Asks(Call::Send(n, room)))
}

// q HEX
fn request_at(line: &[u8], w: Word, input: &mut [u8]) -> Option<Line> {
    let n = last_bytes(line, w, input)?;
    Some(Line::Asks(Call::Request(n)))
}

// ws FIELD I VALUE
fn write_at(line: &[u8], w: Word) -> Option<Line> {
    let a = next_word(line, w);
    let (i, v) = last_pair(line, a)?;
    let f = named_field(line, a)?;
    takes(f, i, v).then_some(Line::Writes(f, i as usize, v))
}

// ds I
fn show_at(line: &[u8], w: Word) -> Option<Line> {
    let i = last_number(line, w)?;
    if crtp::Settings::MAX_CONTEXTS <= i {
        return None;
    }
    Some(Line::Shows(i as usize))
}

// Which of the compressor's calls the first word of a line names.
fn name_at(line: &[u8], w: Word) -> Option<usize> {
    name_index(b"s q os ws ds", line, w)
}

pub fn is_name(line: &[u8], w: Word) -> bool {
    name_at(line, w).is_some()
}

// A line, of which this is the first word, taken apart.
pub fn read_line(line: &[u8], w: Word, input: &mut [u8]) -> Option<Line> {
    match name_at(line, w)? {
        0 => send_at(line, w, input),
        1 => request_at(line, w, input),
        2 => open_at(line, w),
        3 => write_at(line, w),
        4 => show_at(line, w),
        _ => None,
    }
}
