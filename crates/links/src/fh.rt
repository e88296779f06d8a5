use packet::header::Header;

// A full header: the header of its packet, and what stands in the two length fields.
//
// start: where the rest of the packet begins.
#[derive(Clone, Copy)]
pub struct FullHeader {
    pub header: Header,
    pub context: u8,
    pub generation: u8,
    pub link: u8,
    pub start: usize,
}
