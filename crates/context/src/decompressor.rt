use crate::kept::{Deltas, Link};
use packet::csrc::Csrc;
use packet::header::{Flow, Ip, Rtp};
use packet::refusal::Refusal;

// A broken context takes nothing but a full header.
#[derive(Clone, Copy)]
pub enum Status {
    Empty,
    Live,
    Broken,
}

// What the decompressor keeps of a stream: the fields are those of the last packet it rebuilt.
//
// filled: a full header has set it once, so that a broken context has something to report. carried: CU and CR have the UDP
// checksum. marker: no rule reads it.
#[derive(Clone, Copy)]
pub struct DecompressorContext {
    pub status: Status,
    pub filled: bool,
    pub flow: Flow,
    pub ip: Ip,
    pub rtp: Rtp,
    pub csrc: Csrc,
    pub carried: bool,
    pub marker: bool,
    pub deltas: Deltas,
    pub link: Link,
}

// What becomes of a CU or CR on a live context, by how many steps it is on, and the context after it.
#[derive(Clone, Copy)]
pub struct Applied {
    pub verdict: Result<(), Refusal>,
    pub gap: u8,
    pub context: DecompressorContext,
}
