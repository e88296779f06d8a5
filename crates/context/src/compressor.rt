use crate::kept::{Deltas, Link};
use packet::csrc::Csrc;
use packet::header::{Flow, Ip, Rtp};

// The compressor's contexts are never broken.
#[derive(Clone, Copy)]
pub enum Usage {
    Empty,
    Live,
}

// The differences of the last packet from the one before it.
//
// known: there was one before it. Without it id and timestamp mean nothing, for 0 is a difference too.
#[derive(Clone, Copy)]
pub struct Earlier {
    pub known: bool,
    pub id: u16,
    pub timestamp: u32,
}

// In how many packets after the last one each thing is to be sent again.
//
// full: full headers. id to list: the field, sent whole. did, dts: the deltas of ID and timestamp.
#[derive(Clone, Copy)]
pub struct Due {
    pub full: u8,
    pub id: u8,
    pub sequence: u8,
    pub timestamp: u8,
    pub payload: u8,
    pub list: u8,
    pub did: u8,
    pub dts: u8,
}

// What the compressor keeps of a stream: the fields are those of the last packet.
//
// blank: its UDP checksum was blank.
#[derive(Clone, Copy)]
pub struct CompressorContext {
    pub status: Usage,
    pub flow: Flow,
    pub ip: Ip,
    pub rtp: Rtp,
    pub csrc: Csrc,
    pub blank: bool,
    pub deltas: Deltas,
    pub earlier: Earlier,
    pub due: Due,
    pub link: Link,
}
