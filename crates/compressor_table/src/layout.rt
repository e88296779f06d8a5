// Where the numbers of a compressor's table stand in its three slices: the place of each plane, of the settings, and how long each
// slice is. The context at place i has its number of a plane at the plane's place + i (docs/LAYOUT.md).
#[derive(Clone, Copy)]
pub struct Layout {}

// Slices: numbers of 32, of 16 and of 8 bits.
impl Layout {
    pub const WORDS: usize = 1344;

    pub const SHORTS: usize = 384;

    pub const BYTES: usize = 1282;

    pub const REPEATS: usize = 1280;

    pub const CONTEXTS: usize = 1281;
}

// Planes of 32 bits.
impl Layout {
    pub const SOURCE: usize = 0;

    pub const DESTINATION: usize = 64;

    pub const SSRC: usize = 128;

    pub const TIMESTAMP: usize = 192;

    pub const DELTA_TIMESTAMP: usize = 256;

    pub const EARLIER_TIMESTAMP: usize = 320;

    // The first of fifteen planes.
    pub const CSRC: usize = 384;
}

// Planes of 16 bits.
impl Layout {
    pub const SPORT: usize = 0;

    pub const DPORT: usize = 64;

    pub const ID: usize = 128;

    pub const SEQUENCE: usize = 192;

    pub const DELTA_ID: usize = 256;

    pub const EARLIER_ID: usize = 320;
}

// Planes of 8 bits. A status is 0 or 1, and so is what is a bool: padding, extension, blank, earlier known.
impl Layout {
    pub const STATUS: usize = 0;

    pub const TOS: usize = 64;

    pub const TTL: usize = 128;

    pub const FLAGS: usize = 192;

    pub const PADDING: usize = 256;

    pub const EXTENSION: usize = 320;

    pub const BLANK: usize = 384;

    pub const PAYLOAD: usize = 448;

    pub const COUNT: usize = 512;

    pub const EARLIER_KNOWN: usize = 576;

    pub const DUE_ID: usize = 640;

    pub const DUE_SEQUENCE: usize = 704;

    pub const DUE_TIMESTAMP: usize = 768;

    pub const DUE_PAYLOAD: usize = 832;

    pub const DUE_LIST: usize = 896;

    pub const DUE_DID: usize = 960;

    pub const DUE_DTS: usize = 1024;

    pub const DUE_FULL: usize = 1088;

    pub const LINK_SEQUENCE: usize = 1152;

    pub const LINK_GENERATION: usize = 1216;
}
