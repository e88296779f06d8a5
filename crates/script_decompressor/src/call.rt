use crate::field_names::named_field;
use script_shared::field::{Field, takes};
use script_text::number::{last_number, last_pair};
use script_text::packet::{arrival_at, last_room};
use script_text::room::ROOM;
use script_text::word::{Word, name_index, next_word};

// A call, without its table: of bytes how many stand at the front of the input, of an output its room.
#[derive(Clone, Copy)]
pub enum Call {
    Open(u32, u32),
    Receive(u32, usize, usize),
    Report(usize),
}

// What a line is for: a call, writing a field of a context by hand, showing a context.
#[derive(Clone, Copy)]
pub enum Line {
    Asks(Call),
    Writes(Field, usize, u32),
    Shows(usize),
}

// or N K
fn open_at(line: &[u8], w: Word) -> Option<Line> {
    let (n, k) = last_pair(line, w)?;
    Some(Line::Asks(Call::Open(n, k)))
}

// r TYPE HEX ROOM
fn receive_at(line: &[u8], w: Word, input: &mut [u8]) -> Option<Line> {
    let (kind, n, room) = arrival_at(line, w, ROOM, input)?;
    Some(Line::Asks(Call::Receive(kind, n, room)))
}

// p ROOM
fn report_at(line: &[u8], w: Word) -> Option<Line> {
    let room = last_room(line, w, ROOM)?;
    Some(Line::Asks(Call::Report(room)))
}

// wr FIELD I VALUE
fn write_at(line: &[u8], w: Word) -> Option<Line> {
    let a = next_word(line, w);
    let (i, v) = last_pair(line, a)?;
    let f = named_field(line, a)?;
    takes(f, i, v).then_some(Line::Writes(f, i as usize, v))
}

// dr I
fn show_at(line: &[u8], w: Word) -> Option<Line> {
    let i = last_number(line, w)?;
    if crtp::Settings::MAX_CONTEXTS <= i {
        return None;
    }
    Some(Line::Shows(i as usize))
}

// A line, of which this is the first word, taken apart.
pub fn read_line(line: &[u8], w: Word, input: &mut [u8]) -> Option<Line> {
    match name_index(b"r p or wr dr", line, w)? {
        0 => receive_at(line, w, input),
        1 => report_at(line, w),
        2 => open_at(line, w),
        3 => write_at(line, w),
        4 => show_at(line, w),
        _ => None,
    }
}
