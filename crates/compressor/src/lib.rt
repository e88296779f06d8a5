// The compressing end: a table of contexts, and what the calls on it mean. No function: definitions and their laws.
//
// Here a table is a value. The calls take it in the caller's memory: `compressor_table` says which table three slices hold, and
// `compressor_places`, `send` and `request` have the calls, each equal to its definition here.
// Read `specs/Send.antt` first: `send_of` says all that a send does.
#![tactic(auto)]

pub mod answer;
pub mod table;
