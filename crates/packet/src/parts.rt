use crate::csrc::Csrc;

// What a COMPRESSED_UDP with F or a COMPRESSED_RTP carries.
//
// A field that is not sent is None. did, dsn, dts: the differences of ID, sequence and timestamp. listed: a CSRC list stands in it,
// replacing the context's; without one csrc is the empty list. checksum is 0 where the context carries none.
#[derive(Clone, Copy)]
pub struct Parts {
    pub marker: bool,
    pub checksum: u16,
    pub id: Option<u16>,
    pub sequence: Option<u16>,
    pub timestamp: Option<u32>,
    pub payload: Option<u8>,
    pub did: Option<u16>,
    pub dsn: Option<u16>,
    pub dts: Option<u32>,
    pub listed: bool,
    pub csrc: Csrc,
}
