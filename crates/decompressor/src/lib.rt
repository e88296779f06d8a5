// The decompressing end: a table of contexts, and what the calls on it mean. No function: definitions and their laws.
//
// Here a table is a value. The calls take it in the caller's memory: `decompressor_table` says which table three slices hold, and
// `decompressor_walk`, `receive`, `report`, `save` and `load` have the calls, each equal to its definition here or in `report` and
// `saves`.
// Read `specs/Receive.antt` first: `receive_of` says all that an arrival does.
#![tactic(auto)]

pub mod answer;
pub mod old;
pub mod table;
