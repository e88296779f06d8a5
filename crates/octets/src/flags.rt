ghost use Rattle.std.specs.Prelude.{◌≡◌, ◌<◌, ◌+◌, ◌*◌};
ghost use Rattle.octets.specs.Flags.{flags_of, byte_of};

// A flag byte: four flags from the top bit down, and the number of its low four bits.
//
// The bits have the names of their places here. Each layout of `links` gives them their own.
#[derive(Clone, Copy)]
pub struct Flags {
    pub bit7: bool,
    pub bit6: bool,
    pub bit5: bool,
    pub bit4: bool,
    pub low: u8,
}

// A byte taken apart by shifts and masks.
pub fn split(byte: u8) -> Flags
    ensures { (result ≡ flags_of byte) × (result.low < 16) }
{
    Flags {
        bit7: (byte >> 7) & 1 == 1,
        bit6: (byte >> 6) & 1 == 1,
        bit5: (byte >> 5) & 1 == 1,
        bit4: (byte >> 4) & 1 == 1,
        low: byte & 15,
    }
}

// The same byte packed again.
pub fn pack(f: Flags) -> u8
    requires { f.low < 16 }
    ensures { result ≡ byte_of f }
{
    let bit7 = f.bit7 as u8;
    let bit6 = f.bit6 as u8;
    let bit5 = f.bit5 as u8;
    let bit4 = f.bit4 as u8;
    shifted(bit7, bit6, bit5, bit4, f.low)
}

fn shifted(bit7: u8, bit6: u8, bit5: u8, bit4: u8, low: u8) -> u8
    requires { (bit7 < 2) × (bit6 < 2) × (bit5 < 2) × (bit4 < 2) × (low < 16) }
    ensures { result ≡ bit7 * 128 + bit6 * 64 + bit5 * 32 + bit4 * 16 + low }
{
    (bit7 << 7) | (bit6 << 6) | (bit5 << 5) | (bit4 << 4) | low
}
