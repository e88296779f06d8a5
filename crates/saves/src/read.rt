use context::decompressor::DecompressorContext;
use fields::place::Place;
use packet::header::Header;
use settings::Settings;

// What stands before the records.
#[derive(Clone, Copy)]
pub struct Front {
    pub place: Place,
    pub settings: Settings,
}

// A record's fields before its header; 0 where a field is not there.
#[derive(Clone, Copy)]
pub struct Fixed {
    pub place: Place,
    pub state: u8,
    pub generation: u8,
    pub sequence: u8,
    pub did: u16,
    pub dts: u32,
    pub size: u8,
}

#[derive(Clone, Copy)]
pub struct GotHeader {
    pub place: Place,
    pub header: Header,
}

#[derive(Clone, Copy)]
pub struct GotContext {
    pub place: Place,
    pub context: DecompressorContext,
}

#[derive(Clone, Copy)]
pub struct GotContexts {
    pub place: Place,
    pub contexts: [DecompressorContext; Settings::PLACES],
}
