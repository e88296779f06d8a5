// The steady arrival at the decompressor: a CR with no field but the UDP checksum, one step on, on a live context that has no CSRC
// list. Nearly every packet of a voice stream arrives as one.
//
// By the rules of `context` an arrival may bring any field and stores them all. Here a steady one is told from others, its context
// is moved on, and the five numbers that change are stored; `proofs/Rules.antt` has that the rules do the same. `receive` takes
// this way where it can, and the other for all else.
#![tactic(auto)]

pub mod step;
pub mod store;
