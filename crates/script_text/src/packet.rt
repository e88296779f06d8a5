use crate::hex::bytes_at;
use crate::number::{last_number, number_at};
use crate::word::{Word, next_word};

// The bytes after a word, where the line ends with them: how many were decoded.
pub fn last_bytes(line: &[u8], w: Word, bytes: &mut [u8]) -> Option<usize> {
    let a = next_word(line, w);
    if a.end != line.len() {
        return None;
    }
    bytes_at(line, a, bytes)
}

// A room of at most so many bytes after a word, where the line ends with it.
pub fn last_room(line: &[u8], w: Word, most: usize) -> Option<usize> {
    let room = last_number(line, w)? as usize;
    if most < room {
        return None;
    }
    Some(room)
}

// Bytes and a room of at most so many bytes after a word, where the line ends with them: how many were decoded, and the room.
pub fn packet_at(line: &[u8], w: Word, most: usize, bytes: &mut [u8]) -> Option<(usize, usize)> {
    let a = next_word(line, w);
    Some((bytes_at(line, a, bytes)?, last_room(line, a, most)?))
}

// A link type, then bytes and a room as above.
pub fn arrival_at(
    line: &[u8],
    w: Word,
    most: usize,
    bytes: &mut [u8],
) -> Option<(u32, usize, usize)> {
    let a = next_word(line, w);
    let kind = number_at(line, a)?;
    let (n, room) = packet_at(line, a, most, bytes)?;
    Some((kind, n, room))
}
