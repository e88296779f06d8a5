use endpoint::Totals;
use script_text::number::last_pair;
use script_text::packet::{arrival_at, last_room, packet_at};
use script_text::room::ROOM;
use script_text::word::{Word, name_index};

// A call, without its endpoint: of bytes how many stand at the front of the input, of an output its room.
#[derive(Clone, Copy)]
pub enum Call {
    Open(u32, u32),
    Wire(usize, usize),
    Radio(u32, usize, usize),
    Report(usize),
}

// What a line is for: a call, writing a total by hand, showing the totals.
#[derive(Clone, Copy)]
pub enum Line {
    Asks(Call),
    Writes(usize, u32),
    Shows,
}

// bo N K
fn open_at(line: &[u8], w: Word) -> Option<Line> {
    let (n, k) = last_pair(line, w)?;
    Some(Line::Asks(Call::Open(n, k)))
}

// bw HEX ROOM
fn wire_at(line: &[u8], w: Word, input: &mut [u8]) -> Option<Line> {
    let (n, room) = packet_at(line, w, ROOM, input)?;
    Some(Line::Asks(Call::Wire(n, room)))
}

// br TYPE HEX ROOM
fn radio_at(line: &[u8], w: Word, input: &mut [u8]) -> Option<Line> {
    let (kind, n, room) = arrival_at(line, w, ROOM, input)?;
    Some(Line::Asks(Call::Radio(kind, n, room)))
}

// bp ROOM
fn report_at(line: &[u8], w: Word) -> Option<Line> {
    let room = last_room(line, w, ROOM)?;
    Some(Line::Asks(Call::Report(room)))
}

// bt
fn show_at(line: &[u8], w: Word) -> Option<Line> {
    if w.end != line.len() {
        return None;
    }
    Some(Line::Shows)
}

// wt I VALUE
fn write_at(line: &[u8], w: Word) -> Option<Line> {
    let (i, v) = last_pair(line, w)?;
    let i = i as usize;
    if Totals::COUNT <= i {
        return None;
    }
    Some(Line::Writes(i, v))
}

// Which of the endpoint's calls the first word of a line names.
fn name_at(line: &[u8], w: Word) -> Option<usize> {
    name_index(b"bw br bp bo bt wt", line, w)
}

pub fn is_name(line: &[u8], w: Word) -> bool {
    name_at(line, w).is_some()
}

// A line, of which this is the first word, taken apart.
pub fn read_line(line: &[u8], w: Word, input: &mut [u8]) -> Option<Line> {
    match name_at(line, w)? {
        0 => wire_at(line, w, input),
        1 => radio_at(line, w, input),
        2 => report_at(line, w),
        3 => open_at(line, w),
        4 => show_at(line, w),
        5 => write_at(line, w),
        _ => None,
    }
}
