use context::decompressor::DecompressorContext;
use settings::Settings;

// The decompressor's contexts, with what it was opened with. Places from `settings.contexts` on stay empty.
//
// This is the table that definitions speak of. Calls have it in three slices of the caller's (`decompressor_table`).
#[derive(Clone, Copy)]
pub struct Table {
    pub settings: Settings,
    pub contexts: [DecompressorContext; Settings::PLACES],
}
