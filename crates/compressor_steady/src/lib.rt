// The steady packet at the compressor: one that is just what its context and the deltas say, and so goes out as a CR with no field
// but the UDP checksum. Nearly every packet of a voice stream is one.
//
// By the rules of `context` a send looks at every field of a context and stores them all. Here a steady packet is told from others,
// its bytes are written, and the seven numbers that it changes are stored; `proofs/Rules.antt` has that the rules do the same.
// `send` takes this way where it can, and the other for all else.
#![tactic(auto)]

pub mod judge;
pub mod put;
pub mod store;
