use crate::csrc::Csrc;

// What tells one stream from another: both addresses, both UDP ports and the SSRC.
#[derive(Clone, Copy)]
pub struct Flow {
    pub source: u32,
    pub destination: u32,
    pub sport: u16,
    pub dport: u16,
    pub ssrc: u32,
}

// The IPv4 fields that a context keeps.
//
// flags: the reserved bit times 2 plus DF; MF is 0 in every packet that is compressed.
#[derive(Clone, Copy)]
pub struct Ip {
    pub tos: u8,
    pub ttl: u8,
    pub flags: u8,
    pub id: u16,
}

// The RTP fields that a context keeps, but for SSRC, marker and CSRC list.
#[derive(Clone, Copy)]
pub struct Rtp {
    pub padding: bool,
    pub extension: bool,
    pub payload: u8,
    pub sequence: u16,
    pub timestamp: u32,
}

// The header of a compressible packet, less what can be worked out: version, lengths, protocol, IP checksum.
//
// checksum: the UDP checksum, 0 where it is blank.
#[derive(Clone, Copy)]
pub struct Header {
    pub flow: Flow,
    pub ip: Ip,
    pub rtp: Rtp,
    pub csrc: Csrc,
    pub marker: bool,
    pub checksum: u16,
}

// The RTP header that a COMPRESSED_UDP without F carries whole.
#[derive(Clone, Copy)]
pub struct RtpHeader {
    pub ssrc: u32,
    pub marker: bool,
    pub rtp: Rtp,
    pub csrc: Csrc,
}
