// The formats of link packets: what the bytes of each say, both ways, with the laws that hold the two directions together.
//
// `fh` is FULL_HEADER and `cs` CONTEXT_STATE, each judged whole before anything of it is taken; `head` is how CU and CR begin,
// `cu` a COMPRESSED_UDP with F, `whole` one without, `cr` a COMPRESSED_RTP. A reader takes the place at which it begins and hands
// back the place past its last field, where the rest of the packet starts; a refusal is the outcome of that place.
// There is no function here: `refresh` reads and writes FH and CS, `links_read` and `links_write` CU and CR. What becomes of a
// context is not decided here.
// Read `specs/Cu.antt` first, and `proofs/CuLaws.antt`, which holds its two directions together.
#![tactic(auto)]

pub mod cr;
pub mod cs;
pub mod cu;
pub mod fh;
pub mod head;
pub mod whole;
