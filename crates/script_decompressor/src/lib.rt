// The decompressor's calls as lines of a script: or, r, p, wr, dr.
//
// What a call does is the business of `crtp`, its text that of `script_text`. A line is taken apart before the table is touched;
// what it asks for is run, and the outcome becomes text. The table is lent as `crtp` has it: w, h and b are its numbers of 32, 16
// and 8 bits.
// Read `line::run_line` first.
#![tactic(auto)]

pub mod answer;
pub mod call;
pub mod field_names;
pub mod line;
