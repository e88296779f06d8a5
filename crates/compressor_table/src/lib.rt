// The compressor's table in the caller's memory: its layout, and one context read from it and written into it.
//
// A table is lent as three slices, of numbers of 32, 16 and 8 bits, in planes of 64 places. `specs/Layout.antt` says which table of
// `compressor` three slices stand for: read that first. Whether a table is sound, and the calls, are left to the crates above.
#![tactic(auto)]

pub mod layout;
pub mod read;
pub mod write;
