// The deltas: by how much ID and timestamp rise with each packet, modulo the field's width.
#[derive(Clone, Copy)]
pub struct Deltas {
    pub id: u16,
    pub timestamp: u32,
}

// Where a context stands on the link.
//
// sequence: at the compressor the link sequence of the next packet to be sent, at the decompressor that of the last one
// accepted. generation: how many full-header runs were started afresh, modulo 64.
#[derive(Clone, Copy)]
pub struct Link {
    pub sequence: u8,
    pub generation: u8,
}

// Both are counted from 0 on, and from the highest on to 0 again.
impl Link {
    pub const SEQUENCES: u8 = 16;

    pub const MAX_SEQUENCE: u8 = 15;

    pub const GENERATIONS: u8 = 64;

    pub const MAX_GENERATION: u8 = 63;
}
