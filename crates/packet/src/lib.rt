// The values that travel between the layers: a packet's header fields and what a link packet carries of them.
//
// No bytes here and no rules: bytes are the business of `headers` and `links`, rules that of `context`. `refusal` has the refusals
// that every layer may find.
// Read `header::Header` and `parts::Parts` first.
#![tactic(auto)]

pub mod csrc;
pub mod header;
pub mod parts;
pub mod refusal;
