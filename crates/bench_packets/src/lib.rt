// The packets of the benchmark, 64 at a time: made, sent, received, copied and counted.
//
// Which packets they are is said in `bench/README.md`; the second program makes the same. The clock is the business of `bench`.
// Read `turns::send_all` first.
#![tactic(auto)]

mod packets;
pub mod tally;
pub mod turns;
