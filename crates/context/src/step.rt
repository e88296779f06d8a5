use crate::compressor::CompressorContext;
use crate::kept::{Deltas, Link};
use packet::parts::Parts;

// The link types of a packet on a context.
#[derive(Clone, Copy)]
pub enum Kind {
    FullHeader,
    CompressedUdp,
    CompressedRtp,
}

// What the compressor finds in a packet, held against the one before.
//
// id, sequence, timestamp: off pattern. payload, list: changed. did, dts: the difference is adopted as the delta.
// deltas: the differences themselves.
#[derive(Clone, Copy)]
pub struct Judged {
    pub id: bool,
    pub sequence: bool,
    pub timestamp: bool,
    pub payload: bool,
    pub list: bool,
    pub did: bool,
    pub dts: bool,
    pub deltas: Deltas,
}

// Whether each thing is due in this packet: changed now, or due still. A full header has them all anyway.
#[derive(Clone, Copy)]
pub struct DueNow {
    pub id: bool,
    pub sequence: bool,
    pub timestamp: bool,
    pub payload: bool,
    pub list: bool,
    pub did: bool,
    pub dts: bool,
}

// A packet sent on a context, and the context after it.
//
// link: what the packet carries of the link sequence and the generation. parts: what a CU or CR carries; a full header
// carries the packet's own header in their place.
#[derive(Clone, Copy)]
pub struct Step {
    pub kind: Kind,
    pub link: Link,
    pub parts: Parts,
    pub context: CompressorContext,
}
