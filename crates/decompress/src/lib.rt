// The decompressor's rules for one context as code: what a link packet makes of its context, and the header it stands for.
//
// Each function equals a definition of `context`'s `specs/Decompressor.antt`: read that first, then `full::fill`,
// `apply::apply`, `apply::apply_whole` and `header::rebuild`. Which context a packet is on, and its bytes, are the business
// of the crates above.
#![tactic(auto)]

pub mod advance;
pub mod apply;
pub mod full;
pub mod gap;
pub mod header;
pub mod steps;
