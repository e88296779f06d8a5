// The walks over a decompressor's table that is lent: its opening, and whether it is sound.
//
// Soundness is asked before every call, so each walk is straight: it goes over a few planes and makes the same tests at every
// place, with no way out before the last (`planes::every`). `specs/Walk.antt` says what each walk tests; `proofs/Walk.antt` that
// all of it together is the definition's soundness, context by context.
// Read `sound` first.
#![tactic(auto)]

pub mod open;
pub mod sound;
