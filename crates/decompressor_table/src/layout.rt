// Where the numbers of a decompressor's table stand in its three slices: the place of each plane, of the settings, and how long
// each slice is. The context at place i has its number of a plane at the plane's place + i (docs/LAYOUT.md).
#[derive(Clone, Copy)]
pub struct Layout {}

// Slices: numbers of 32, of 16 and of 8 bits.
impl Layout {
    pub const WORDS: usize = 1280;

    pub const SHORTS: usize = 320;

    pub const BYTES: usize = 834;

    pub const REPEATS: usize = 832;

    pub const CONTEXTS: usize = 833;
}

// Planes of 32 bits.
impl Layout {
    pub const SOURCE: usize = 0;

    pub const DESTINATION: usize = 64;

    pub const SSRC: usize = 128;

    pub const TIMESTAMP: usize = 192;

    pub const DELTA_TIMESTAMP: usize = 256;

    // The first of fifteen planes.
    pub const CSRC: usize = 320;
}

// Planes of 16 bits.
impl Layout {
    pub const SPORT: usize = 0;

    pub const DPORT: usize = 64;

    pub const ID: usize = 128;

    pub const SEQUENCE: usize = 192;

    pub const DELTA_ID: usize = 256;
}

// Planes of 8 bits. A status is 0, 1 or 2. What is a bool is 0 or 1: filled, padding, extension, carried, marker.
impl Layout {
    pub const STATUS: usize = 0;

    pub const FILLED: usize = 64;

    pub const TOS: usize = 128;

    pub const TTL: usize = 192;

    pub const FLAGS: usize = 256;

    pub const PADDING: usize = 320;

    pub const EXTENSION: usize = 384;

    pub const CARRIED: usize = 448;

    pub const MARKER: usize = 512;

    pub const PAYLOAD: usize = 576;

    pub const COUNT: usize = 640;

    pub const LINK_SEQUENCE: usize = 704;

    pub const LINK_GENERATION: usize = 768;
}
