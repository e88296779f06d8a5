// The first byte of an RTP header: two bits of version, padding, extension, four bits of CSRC count.
#[derive(Clone, Copy)]
pub struct RtpFirst {
    pub version: u8,
    pub padding: bool,
    pub extension: bool,
    pub count: u8,
}

// The second: marker, seven bits of payload type.
#[derive(Clone, Copy)]
pub struct RtpSecond {
    pub marker: bool,
    pub payload: u8,
}
