ghost use Rattle.std.specs.Prelude.{List, ℕ, [], ◌∷◌, ◌≤◌, ◌+◌, length};
ghost use Rattle.codes.specs.Bytes.{big_endian};
ghost use Rattle.octets.specs.Put.{Wrote};

use codes::field::Field;

// A field as it is written.
pub trait Written: Field {
    // Its bytes, the highest first.
    ghost bytes: { Self → List ℕ };

    // Stores them in out from at on, and answers the place past them.
    fn put(self, out: &mut [u8], at: usize) -> usize
        requires { at + length (bytes self) ≤ length out.old }
        ensures { Wrote out.old out.new at result (bytes self) };
}

impl Written for u8 {
    ghost bytes = { λ v. v ∷ [] };

    fn put(self, out: &mut [u8], at: usize) -> usize {
        out[at] = self;
        at + 1
    }
}

impl Written for u16 {
    ghost bytes = { big_endian 2 };

    fn put(self, out: &mut [u8], at: usize) -> usize {
        let [high, low] = self.to_be_bytes();
        out[at] = high;
        out[at + 1] = low;
        at + 2
    }
}

impl Written for u32 {
    ghost bytes = { big_endian 4 };

    fn put(self, out: &mut [u8], at: usize) -> usize {
        let [first, second, third, fourth] = self.to_be_bytes();
        out[at] = first;
        out[at + 1] = second;
        out[at + 2] = third;
        out[at + 3] = fourth;
        at + 4
    }
}
