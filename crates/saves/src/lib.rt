// The format of a saved decompressor's table: definitions both ways, laws; no function.
//
// `specs/Saves.antt` has the bytes of a table and what bytes stand for, field by field; the code that equals them is in `save`
// and `load`. The numbers of the layout stand here for both, and what a reading has in hand on its way.
// Read `specs/Saves.antt` first.
#![tactic(auto)]

pub mod layout;
pub mod read;
