use fields::place::Place;
use packet::csrc::Csrc;

// The flags of a CU's flag byte: F, I, dT, dI. The byte's number is the link sequence.
//
// values: the RTP part consists of the second byte and the fields it names, not of a whole RTP header.
// The others say which fields are sent: the ID, the differences of timestamp and of ID.
#[derive(Clone, Copy)]
pub struct CuFlags {
    pub values: bool,
    pub id: bool,
    pub dts: bool,
    pub did: bool,
}

// The second byte of a CU with F: M, S, T, pt, CC. The marker itself, which fields are sent, and the CSRC count.
#[derive(Clone, Copy)]
pub struct CuSecond {
    pub marker: bool,
    pub sequence: bool,
    pub timestamp: bool,
    pub payload: bool,
    pub count: u8,
}

// What every CU carries before its RTP part: UDP checksum, differences of ID and timestamp, ID.
#[derive(Clone, Copy)]
pub struct Changes {
    pub place: Place,
    pub checksum: u16,
    pub did: Option<u16>,
    pub dts: Option<u32>,
    pub id: Option<u16>,
}

// The RTP part of a CU with F.
#[derive(Clone, Copy)]
pub struct Values {
    pub place: Place,
    pub sequence: Option<u16>,
    pub timestamp: Option<u32>,
    pub payload: Option<u8>,
    pub csrc: Csrc,
}
