use crate::cell;
use crtp::Settings;

// A field of a table: the place of its plane in the slice of its width; of bytes also the largest number that it takes.
//
// A setting is a byte that stands once in a table, and not once in a context.
#[derive(Clone, Copy)]
pub enum Field {
    Word(usize),
    Short(usize),
    Byte(usize, u8),
    Setting(usize),
}

// Whether a field takes a number at context i, a setting at 0.
pub fn takes(f: Field, i: u32, v: u32) -> bool {
    let is_context = i < Settings::MAX_CONTEXTS;
    match f {
        Field::Word(_) => is_context,
        Field::Short(_) => is_context & (v <= 65535),
        Field::Byte(_, most) => is_context & (v <= (most as u32)),
        Field::Setting(_) => (i == 0) & (v <= 255),
    }
}

// The number of a field at context i; 0 where the slice has none.
pub fn load(w: &[u32], h: &[u16], b: &[u8], f: Field, i: usize) -> u64 {
    match f {
        Field::Word(plane) => cell::get(w, plane, i).unwrap_or(0) as u64,
        Field::Short(plane) => cell::get(h, plane, i).unwrap_or(0) as u64,
        Field::Byte(plane, _) => cell::get(b, plane, i).unwrap_or(0) as u64,
        Field::Setting(place) => cell::get(b, place, 0).unwrap_or(0) as u64,
    }
}

// Another number for a field at context i.
pub fn store(w: &mut [u32], h: &mut [u16], b: &mut [u8], f: Field, i: usize, v: u32) {
    match f {
        Field::Word(plane) => cell::set(w, plane, i, v),
        Field::Short(plane) => cell::set(h, plane, i, (v % 65536) as u16),
        Field::Byte(plane, _) => cell::set(b, plane, i, (v % 256) as u8),
        Field::Setting(place) => cell::set(b, place, 0, (v % 256) as u8),
    }
}
