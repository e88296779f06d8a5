use fields::place::Place;

// The flags of both flag bytes of a CR: M, S, T, I. The first byte's number is the link sequence, the second's the CSRC count.
//
// The marker itself, and which differences are sent: of sequence, timestamp and ID.
#[derive(Clone, Copy)]
pub struct CrFlags {
    pub marker: bool,
    pub dsn: bool,
    pub dts: bool,
    pub did: bool,
}

// The flags of a CR that are in effect, and the count of its list: those of the second byte, where it stands.
#[derive(Clone, Copy)]
pub struct Second {
    pub place: Place,
    pub listed: bool,
    pub flags: CrFlags,
    pub count: u8,
}

// The differences of a CR.
#[derive(Clone, Copy)]
pub struct Deltas {
    pub place: Place,
    pub did: Option<u16>,
    pub dsn: Option<u16>,
    pub dts: Option<u32>,
}
