// The IPv4/UDP/RTP header read from bytes: which packets are compressed, and the header fields that stand in them.
//
// Each function equals a definition of `headers`: read its `specs/Header.antt` and `specs/Compressible.antt` first.
#![tactic(auto)]

pub mod form;
pub mod place;
pub mod read;
pub mod rtp;
