// What the programs of the benchmark share: their argument, the clock, and how figures are printed.
#![tactic(auto)]

pub mod arguments;
pub mod clock;
pub mod figures;
