// The places of a compressor's table that is lent: an opening empties all of them, and a packet's flow finds its own.
// Whether a table is sound is asked in `compressor_walk`.
#![tactic(auto)]

pub mod lookup;
pub mod open;
