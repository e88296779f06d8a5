// COMPRESSED_UDP and COMPRESSED_RTP read from left to right.
//
// Each function equals a definition of `links`, which has the layouts and their laws: read its `specs/Cu.antt` first.
#![tactic(auto)]

pub mod cr;
pub mod cu;
pub mod head;
pub mod whole;
