// Saves and loads of the decompressor's table as lines of a script: v, l.
//
// They stand apart from the decompressor's other calls since their bytes may be more than a packet's: a line of four thousand
// bytes needs no room for a file.
// Read `line::run_line` first.
#![tactic(auto)]

pub mod answer;
pub mod line;
