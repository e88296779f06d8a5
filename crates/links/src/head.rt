use fields::place::Place;
use octets::flags::Flags;
use packet::parts::Parts;

// The flag byte of a CU or CR, and the place past it.
//
// Its four flags are named by each layout; the number of its low four bits is the link sequence in both.
#[derive(Clone, Copy)]
pub struct Head {
    pub place: Place,
    pub flags: Flags,
}

// What a CU with F or a CR carries, and the place where the rest of the packet starts.
#[derive(Clone, Copy)]
pub struct ReadParts {
    pub place: Place,
    pub parts: Parts,
}
