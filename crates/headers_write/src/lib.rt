// The IPv4/UDP/RTP header written into an output, and both checksums worked out: that of IP from the fields, that of UDP from the
// fields and the rest of the packet.
//
// What is written is defined in `headers`, where the laws stand too. Length fields and IP checksum are given by the caller,
// since a full header has others than its packet.
// Read `write::put_header` first.
#![tactic(auto)]

pub mod checksum;
pub mod ip;
pub mod rtp;
pub mod udp;
pub mod write;
