ghost use Rattle.std.specs.Prelude.{◌≡◌, ℕ, ◌+◌, ◌*◌, ◌%◌, ◌^◌, ◌<◌, ◌≤◌};
ghost use Rattle.codes.specs.Code.{rows};
ghost use Rattle.codes.specs.Reading.{has, read_by, read_delta, value_in, said, reduced};

use crate::field::{DeltaField, Field};

// A place in a packet: the index of the next byte to be read.
//
// Each method hands back the field that stands there with the cursor moved past it, or says why it cannot.
#[derive(Clone, Copy)]
pub struct Cursor {
    pub at: usize,
}

// Why a field cannot be read: its bytes are cut short, or no difference has the code that stands there.
#[derive(Clone, Copy)]
pub enum Unreadable {
    Cut,
    UnusedCode,
}

// A field that was read, and the place past it.
pub type Read<T> = Result<(T, Cursor), Unreadable>;

// A difference code, not yet reduced to a field: so much up, or so much down.
#[derive(Clone, Copy)]
pub enum Signed {
    Up(u32),
    Down(u16),
}

// A number of two bytes, big-endian.
pub fn be16(high: u8, low: u8) -> u16
    ensures { result ≡ high * 256 + low }
{
    (high as u16) * 256 + (low as u16)
}

// The difference whose code is the number code of two bytes.
fn value_of_two(code: u32, past: Cursor) -> Read<Signed>
    requires { (32768 ≤ code) × (code < 49152) }
    ensures { (m : ℕ) → 32768 ≤ m → said (reduced m) result ≡ value_in (rows m) m 2 code past.at }
{
    if code < 0x8080 {
        return Ok((Signed::Down((0x8080 - code) as u16), past));
    }
    Ok((Signed::Up(code - 0x8000), past))
}

// The difference whose code is the number code of three bytes.
fn value_of_three(code: u32, past: Cursor) -> Read<Signed>
    requires { (12582912 ≤ code) × (code < 16777216) }
    ensures { (m : ℕ) → 32768 ≤ m → said (reduced m) result ≡ value_in (rows m) m 3 code past.at }
{
    if code < 0xC03F80 {
        return Ok((Signed::Down((0xC04000 - code) as u16), past));
    }
    if code < 0xC04000 {
        return Err(Unreadable::UnusedCode);
    }
    Ok((Signed::Up(code - 0xC00000), past))
}

// A difference reduced to a field of any width.
fn reduce<T: DeltaField>(d: Signed) -> T
    ensures { T.value result ≡ reduced (2 ^ T.bits) d }
{
    match d {
        Signed::Up(up) => T::narrow(up),
        Signed::Down(down) => T::narrow(down as u32).difference(T::narrow(0)),
    }
}

impl Cursor {
    // The first byte of a packet.
    pub fn start() -> Cursor
        ensures { result.at ≡ 0 }
    {
        Cursor { at: 0 }
    }

    // Whether n bytes stand here.
    pub fn has(self, s: &[u8], n: usize) -> bool
        ensures { result ≡ has s.now self.at n }
    {
        (n <= s.len()) && (self.at <= s.len() - n)
    }

    // A number of 8, 16 or 32 bits.
    pub fn field<T: Field>(self, s: &[u8]) -> Read<T>
        ensures { said T.value result ≡ T.reading s.now self.at }
    {
        if !self.has(s, T::SIZE) {
            return Err(Unreadable::Cut);
        }
        Ok((
            T::at(s, self.at),
            Cursor {
                at: self.at + T::SIZE,
            },
        ))
    }

    // A difference code, for a field of any width.
    fn code(self, s: &[u8]) -> Read<Signed>
        ensures { (m : ℕ) → 32768 ≤ m → said (reduced m) result ≡ read_by m s.now self.at }
    {
        let (first, past) = self.field::<u8>(s)?;
        if first < 0x80 {
            return Ok((Signed::Up(first as u32), past));
        }
        let (second, past) = past.field::<u8>(s)?;
        let two = first as u32 * 256 + second as u32;
        if first < 0xC0 {
            return value_of_two(two, past);
        }
        let (third, past) = past.field::<u8>(s)?;
        value_of_three(two * 256 + third as u32, past)
    }

    // A difference of a 16-bit or a 32-bit field.
    pub fn delta<T: DeltaField>(self, s: &[u8]) -> Read<T>
        ensures { said T.value result ≡ read_delta T.bits s.now self.at }
    {
        let (d, past) = self.code(s)?;
        Ok((reduce(d), past))
    }
}
