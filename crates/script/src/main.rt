// Runs a call script: one call per line on standard input, one answer line per call on standard output.
//
// What a line does is the business of `script_compressor`, `script_decompressor`, `script_files` and `script_endpoint`; here lines
// are cut from the input, and each is lent what it is about. The tables stand in `turn::run`: cw, ch and cb are the compressor's
// numbers of 32, 16 and 8 bits, dw, dh and db the decompressor's, ecw to edb and the totals those of the endpoint.
// Read `turn::run` first.
#![tactic(auto)]

mod line;
mod turn;

use std::io;

fn main(rt: HostRuntime) -> io::Result<()> {
    turn::run(&rt)
}
