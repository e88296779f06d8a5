ghost use Rattle.std.specs.Prelude.{◌≡◌, ℕ, ◌+◌, ◌<◌, ◌≤◌, Some};
ghost use Rattle.codes.specs.Bytes.{big_endian};
ghost use Rattle.codes.specs.Code.{bytes_of, code_of, code_in, rows};
ghost use Rattle.codes.specs.Difference.{has_code};

use crate::field::DeltaField;

// The code of a difference, as it is written on the link.
#[derive(Clone, Copy)]
pub enum Code {
    One(u8),
    Two(u8, u8),
    Three(u8, u8, u8),
}

// Whether a difference of a 32-bit field has a code.
#[tactic(auto, unfolding(crate::specs::Difference::has_code))]
pub fn has_code32(d: u32) -> bool
    ensures { result ≡ has_code 32 d }
{
    (d < 4194304) | (4294950912 <= d)
}

fn two(code: u32) -> Code
    requires { code < 65536 }
    ensures { bytes_of (Some result) ≡ big_endian 2 code }
{
    Code::Two((code / 256) as u8, (code % 256) as u8)
}

fn three(code: u32) -> Code
    requires { code < 16777216 }
    ensures { bytes_of (Some result) ≡ big_endian 3 code }
{
    Code::Three(
        (code / 65536) as u8,
        (code / 256 % 256) as u8,
        (code % 256) as u8,
    )
}

// The code of a difference, where the numbers from base on stand for -16384 to -1.
fn code_from(base: u32, d: u32) -> Option<Code>
    requires { (16384 ≤ base) × (d < base + 16384) }
    ensures { bytes_of result ≡ code_in (rows (base + 16384)) d }
{
    if d < 128 {
        return Some(Code::One(d as u8));
    }
    if d < 16384 {
        return Some(two(0x8080 + (d - 128)));
    }
    if base <= d {
        let above = d - base;
        if above < 16256 {
            return Some(three(0xC00000 + above));
        }
        return Some(two(0x8000 + (above - 16256)));
    }
    if d < 4194304 {
        return Some(three(0xC04000 + (d - 16384)));
    }
    None
}

// The code of a difference, if it has one: of 16 bits each has.
pub fn encode<T: DeltaField>(d: T) -> Option<Code>
    ensures { bytes_of result ≡ code_of T.bits (T.value d) }
{
    code_from(T::BELOW, d.widen())
}
