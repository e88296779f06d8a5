ghost use Rattle.std.specs.Prelude.{◌≡◌, ℕ, List, ◌+◌, ◌-◌, ◌%◌, ◌^◌, ◌<◌, ◌≤◌, length, refl};
ghost use Rattle.codes.specs.Difference.{difference, sum};
ghost use Rattle.codes.specs.Reading.{Reading, byte_at, word_at, long_at, field_at, read_byte, read_word, read_long};
ghost use Rattle.codes.specs.ReadingLaws.{read_byte-at, read_word-at, read_long-at};
ghost use Rattle.codes.specs.DifferenceLaws.{difference-is};
ghost use Rattle.std.proofs.Common.{rules};

// A field of a header or of a link packet: a number of 8, 16 or 32 bits, big-endian.
//
// Readers, layouts and the rules of a context are written once over it, for every width. `value` is its number, `of` the
// field of a number, `stands` the number that stands at a place, `reading` what the cursor makes of it.
pub trait Field: Copy {
    ghost value: { Self → ℕ };

    ghost of: { ℕ → Self };

    ghost SIZE: { ℕ };

    ghost stands: { List ℕ → ℕ → ℕ };

    ghost reading: { List ℕ → ℕ → Reading };

    // How many bytes it has.
    const SIZE: usize;

    fn at(s: &[u8], at: usize) -> Self
        requires { at + SIZE ≤ length s.now }
        ensures { value result ≡ stands s.now at };

    ghost same: { (x : Self) → of (value x) ≡ x };

    ghost is_field: { (s : List ℕ) (at : ℕ) → reading s at ≡ field_at s at SIZE (stands s at) };
}

impl Field for u8 {
    ghost value = { λ v. v };

    ghost of = { λ v. v };

    ghost same = { λ x. refl };

    ghost SIZE = { 1 };

    ghost stands = { byte_at };

    ghost reading = { read_byte };

    ghost is_field = { read_byte-at };

    const SIZE: usize = 1;

    fn at(s: &[u8], at: usize) -> u8 {
        s[at]
    }
}

impl Field for u16 {
    ghost value = { λ v. v };

    ghost of = { λ v. v };

    ghost same = { λ x. refl };

    ghost SIZE = { 2 };

    ghost stands = { word_at };

    ghost reading = { read_word };

    ghost is_field = { read_word-at };

    const SIZE: usize = 2;

    fn at(s: &[u8], at: usize) -> u16 {
        u16::from_be_bytes([s[at], s[at + 1]])
    }
}

impl Field for u32 {
    ghost value = { λ v. v };

    ghost of = { λ v. v };

    ghost same = { λ x. refl };

    ghost SIZE = { 4 };

    ghost stands = { long_at };

    ghost reading = { read_long };

    ghost is_field = { read_long-at };

    const SIZE: usize = 4;

    fn at(s: &[u8], at: usize) -> u32 {
        u32::from_be_bytes([s[at], s[at + 1], s[at + 2], s[at + 3]])
    }
}

// A field that goes out as a difference: ID and sequence of 16 bits, the timestamp of 32.
pub trait DeltaField: Field {
    ghost bits: { ℕ };

    ghost BELOW: { ℕ };

    ghost difference: { Self → Self → Self };

    ghost sum: { Self → Self → Self };

    // -16384 modulo the width: the numbers from it on are the differences below 0 that have a code.
    const BELOW: u32;

    fn widen(self) -> u32
        ensures { (result ≡ Self.value self) × (result < 2 ^ bits) };

    fn narrow(v: u32) -> Self
        ensures { Self.value result ≡ v % 2 ^ bits };

    // The difference from one number to another, modulo the width.
    fn difference(self, to: Self) -> Self
        ensures { result ≡ difference self to };

    // A number with a difference added, modulo the width.
    fn sum(self, d: Self) -> Self
        ensures { result ≡ sum self d };

    ghost below: { BELOW + 16384 ≡ 2 ^ bits };

    ghost wide: { 49152 ≤ BELOW };

    ghost differs: { (a b : Self) → Self.value (difference a b) ≡ (Self.value b + (2 ^ bits - Self.value a)) % 2 ^ bits };
}

impl DeltaField for u16 {
    ghost bits = { 16 };

    ghost BELOW = { 49152 };

    ghost difference = { difference 16 };

    ghost sum = { sum 16 };

    ghost below = { refl };

    ghost wide = { Prim.search rules };

    ghost differs = { difference-is 16 };

    const BELOW: u32 = 49152;

    fn widen(self) -> u32 {
        self as u32
    }

    fn narrow(v: u32) -> u16 {
        (v % 65536) as u16
    }

    #[tactic(auto, unfolding(crate::specs::Difference::difference))]
    fn difference(self, to: u16) -> u16 {
        to.wrapping_sub(self)
    }

    #[tactic(auto, unfolding(crate::specs::Difference::sum))]
    fn sum(self, d: u16) -> u16 {
        self.wrapping_add(d)
    }
}

impl DeltaField for u32 {
    ghost bits = { 32 };

    ghost BELOW = { 4294950912 };

    ghost difference = { difference 32 };

    ghost sum = { sum 32 };

    ghost below = { refl };

    ghost wide = { Prim.search rules };

    ghost differs = { difference-is 32 };

    const BELOW: u32 = 4294950912;

    fn widen(self) -> u32 {
        self
    }

    fn narrow(v: u32) -> u32 {
        v
    }

    #[tactic(auto, unfolding(crate::specs::Difference::difference))]
    fn difference(self, to: u32) -> u32 {
        to.wrapping_sub(self)
    }

    #[tactic(auto, unfolding(crate::specs::Difference::sum))]
    fn sum(self, d: u32) -> u32 {
        self.wrapping_add(d)
    }
}
