// The format of the IPv4/UDP/RTP header: which packets are compressed, the fields that stand in their bytes, and the bytes of
// a header, with the laws that hold both directions together.
//
// `rtp` has the two bytes of an RTP header that are split into bits. There is no function here: `headers_read` reads a header
// and `headers_write` writes one. What a context makes of a header is the business of the crates above.
// Read `specs/Header.antt` and `specs/Compressible.antt` first.
#![tactic(auto)]

pub mod rtp;
