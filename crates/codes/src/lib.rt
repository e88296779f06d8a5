// Differences of 16-bit and 32-bit fields, and the bytes that stand for them on the link.
//
// `field` has the widths and the arithmetic modulo each, `code` turns a difference into its bytes, and `cursor` reads numbers and
// differences from left to right. Which field is sent when is not decided here.
// Read `specs/Code.antt` first: it has the table of codes, which both directions follow.
#![tactic(auto)]

pub mod code;
pub mod cursor;
pub mod field;
