// Bytes of an output and of a packet.
//
// `put` stores fields one after another in an output, `flags` takes flag bytes apart and packs them, `sum` is the
// sum of a checksum. What stands where in a packet is the business of `headers` and `links`.
// Read `specs/Put.antt` first: every put has the one contract `Wrote`.
#![tactic(auto)]

pub mod flags;
pub mod put;
pub mod sum;
pub mod written;
