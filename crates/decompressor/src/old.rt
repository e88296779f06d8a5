// How a COMPRESSED_UDP without F is taken. One member's bridge still sends it; the compressor here never does (rule 8.8).
#[derive(Clone, Copy)]
pub enum OldForm {
    Taken,
}
