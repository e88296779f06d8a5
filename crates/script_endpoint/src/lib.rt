// The endpoint's calls as lines of a script: bo, bw, br, bp, bt, wt.
//
// What a call does is the business of `endpoint`, its text that of `script_text`. A line is taken apart before the endpoint is
// touched; what it asks for is run, and the outcome becomes text. The tables are lent as `crtp` has them: cw, ch and cb are the
// compressor's numbers of 32, 16 and 8 bits, dw, dh and db the decompressor's.
// Read `line::run_line` first.
#![tactic(auto)]

pub mod answer;
pub mod call;
pub mod line;
pub mod totals;
