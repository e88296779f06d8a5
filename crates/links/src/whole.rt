use fields::place::Place;
use packet::header::RtpHeader;
use packet::parts::Parts;

// The twelve fixed bytes of an RTP header.
//
// first and second are split into bits as `headers` says.
#[derive(Clone, Copy)]
pub struct Fixed {
    pub place: Place,
    pub first: u8,
    pub second: u8,
    pub sequence: u16,
    pub timestamp: u32,
    pub ssrc: u32,
}

#[derive(Clone, Copy)]
pub struct GotRtp {
    pub place: Place,
    pub header: RtpHeader,
}

// What a CU without F carries, and the place where the rest of the packet starts.
//
// parts holds what stands before the RTP header; of the header's own fields it has the marker.
#[derive(Clone, Copy)]
pub struct ReadWhole {
    pub place: Place,
    pub parts: Parts,
    pub header: RtpHeader,
}
