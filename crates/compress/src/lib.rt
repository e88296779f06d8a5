// The compressor's rules for one context as code: what a packet becomes on the link, and the context after it.
//
// Each function equals the definition of the same name in `context`'s `specs/Compressor.antt`: read that first, then
// `step::first_packet`, `step::next_packet` and `run::request`. Which context a packet takes, and its bytes, are the
// business of the crates above.
#![tactic(auto)]

pub mod due;
pub mod judge;
pub mod run;
pub mod send;
pub mod step;
