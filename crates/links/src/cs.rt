// The flag byte of a record: whether it asks for full headers, three bits that must be 0, the last link sequence.
#[derive(Clone, Copy)]
pub struct RecordFlags {
    pub asks: bool,
    pub zero1: bool,
    pub zero2: bool,
    pub zero3: bool,
    pub link: u8,
}
