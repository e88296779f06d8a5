// The calls that a batch of the benchmark makes, timed: those of `crtp`, and those of `endpoint` on the same packets.
//
// Read `ends::send_timed` first. What a batch is: crate `bench_packets`.
#![tactic(auto)]

pub mod ends;
pub mod through;
