// What the lines of several ends share: refusals as numbers, and the fields of a table by hand.
//
// Which field has which name, and where it stands, is the business of each end's crate. Nothing here is judged: a table written by
// hand may hold any numbers that its fields take.
// Read `field::Field` first.
#![tactic(auto)]

pub mod cell;
pub mod field;
pub mod refusal;
